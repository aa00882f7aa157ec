//! What holds of the words of the contracts, whatever the code: each function here does nothing, and what it ensures is a law.
ghost use Rattle.std.specs.Prelude.{ℕ, ◌↔◌, List, All};
ghost use Rattle.ssr_base_trees.specs.Built.{IsBuilt};
ghost use Rattle.ssr_base_trees.specs.Meanings.{Meanings, IsComplete};
ghost use Rattle.ssr_base_trees.specs.Workspace.{Workspace, trees};
ghost use Rattle.ide_ssr_resolved_rule.specs.Resolved.{ResolvedRule};
ghost use Rattle.ide_ssr_resolving.specs.Resolved.{IsResolvedBy};
ghost use Rattle.ide_ssr_bindings.specs.Found.{FoundMatch};
ghost use Rattle.ide_ssr_search.specs.Context.{Context};
ghost use Rattle.ide_ssr_search.specs.Found.{IsFound};
ghost use Rattle.ide_ssr_leading.specs.Found.{AreNamed, LedIsComplete, IsLedFound};
ghost use Rattle.ide_ssr_leading.specs.Tries.{IsMost};

/// A search that is led by usages misses nothing, where a provider tells whatever uses a thing: each whole match of a rule that
/// resolves, at a node that is permitted for it, is tried. So it finds exactly what a search finds that tries all nodes.
/// How often it tries rules at nodes has a bound.
pub fn leading()
    ensures complete { (w : Workspace) (m : Meanings) (context : Context) → AreNamed (trees w) → IsComplete m → LedIsComplete w m context }
    ensures found { (w : Workspace) (m : Meanings) (context : Context) (rules : List ResolvedRule) (found : FoundMatch) → AreNamed (trees w) → IsComplete m → All (IsResolvedBy m) rules → IsFound w m context rules found ↔ IsLedFound w m context rules found }
    ensures bound { (w : Workspace) (m : Meanings) (context : Context) (rules : List ResolvedRule) → IsBuilt w → (most : ℕ) × IsMost w m context rules most }
{}
