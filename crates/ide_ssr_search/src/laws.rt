//! What holds of searches, whatever the code: each function here does nothing, and what it ensures is a law.
ghost use Rattle.std.specs.Prelude.{◌≡◌, List};
ghost use Rattle.ssr_base_trees.specs.declared.ids.FilePosition.{FilePosition};
ghost use Rattle.ssr_base_trees.specs.declared.ids.FileRange.{FileRange};
ghost use Rattle.ssr_base_trees.specs.declared.ids.NodeId.{NodeId};
ghost use Rattle.ssr_base_trees.specs.Meanings.{Meanings};
ghost use Rattle.ssr_base_trees.specs.Workspace.{Workspace as WorkspaceValue, trees};
ghost use Rattle.ssr_base_trees.specs.Built.{IsBuilt};
ghost use Rattle.ide_ssr_resolved_rule.specs.Resolved.{ResolvedRule};
ghost use Rattle.ide_ssr_bindings.specs.Found.{AreMatches, FoundMatch};
ghost use Rattle.ide_ssr_search.specs.Context.{Context as ContextValue};
ghost use Rattle.ide_ssr_search.specs.Making.{IsContext};
ghost use Rattle.ide_ssr_search.specs.Found.{AreFound};
ghost use Rattle.ide_ssr_search.specs.Laws.{ContextExists};
ghost use Rattle.ide_ssr_search.specs.Tries.{ArePermitted};

/// What is found in a workspace that is built is some list, and it is one list, whatever names mean. The nodes that are
/// permitted for a rule are those of some list too.
pub fn searching()
    ensures exist { (w : WorkspaceValue) (m : Meanings) (context : ContextValue) (rules : List ResolvedRule) → IsBuilt w → (found : List FoundMatch) × AreFound w m context rules found }
    ensures one { (w : WorkspaceValue) (m : Meanings) (context : ContextValue) (rules : List ResolvedRule) (found again : List FoundMatch) → AreFound w m context rules found → AreFound w m context rules again → found ≡ again }
    ensures permitted { (w : WorkspaceValue) (context : ContextValue) (rule : ResolvedRule) → IsBuilt w → (xs : List NodeId) × ArePermitted w context rule xs }
{}

/// At a position in a file whose nodes stand in scopes, and for restrictions of files, a search is made for something, and for
/// one thing.
pub fn making()
    ensures exist { (w : WorkspaceValue) (m : Meanings) (position : FilePosition) (restrictions : List FileRange) → ContextExists w m position restrictions }
    ensures one { (w : WorkspaceValue) (m : Meanings) (position : FilePosition) (restrictions : List FileRange) (c d : ContextValue) → IsContext w m position restrictions c → IsContext w m position restrictions d → c ≡ d }
{}

/// What is found meets what is asked of matches of which some are to be kept: the laws of kept matches speak of what is found.
pub fn finding()
    ensures { (w : WorkspaceValue) (m : Meanings) (context : ContextValue) (rules : List ResolvedRule) (found : List FoundMatch) → AreFound w m context rules found → AreMatches (trees w) found }
{}
