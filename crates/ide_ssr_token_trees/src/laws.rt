//! What holds of the words of the contracts, whatever the code: each function here does nothing, and what
//! it ensures is a law.
ghost use Rattle.std.specs.Prelude.{◌≡◌, ◌+◌, ℕ, List, Option, Some, All, AllPairs, map, option_map};
ghost use Rattle.ssr_syntax_tree.specs.Places.{Node, HasNode, node_of};
ghost use Rattle.ssr_syntax_tree.specs.Syntax.{Syntax, tokens_in};
ghost use Rattle.ide_ssr_bindings.specs.Apart.{IsHeldIn, ComesBefore};
ghost use Rattle.ide_ssr_bindings.specs.declared.bindings.Binding.{Binding};
ghost use Rattle.ide_ssr_token_trees.specs.Bindings.{tree_bindings};
ghost use Rattle.ide_ssr_token_trees.specs.Numbers.{bound_later};
ghost use Rattle.ide_ssr_token_trees.specs.Placeholders.{placeholders_from};
ghost use Rattle.ide_ssr_token_trees.specs.TokenTrees.{TreesMatch};

/// The bindings that are computed for token trees that match are those with which they match, and the other way round.
pub fn matching()
    ensures found { (at : ℕ → Option ℕ) (p c : Node) (bs : List Binding) → tree_bindings at p c ≡ Some bs → TreesMatch at p c bs }
    ensures complete { (at : ℕ → Option ℕ) (p c : Node) (bs : List Binding) → TreesMatch at p c bs → tree_bindings at p c ≡ Some bs }
{}

/// What the placeholders of a token tree hold are tokens of the one that matches it, and of each at least one. They come one
/// behind the other, as the placeholders do, of which each is bound.
pub fn holding()
    ensures held { (at : ℕ → Option ℕ) (p : Node) (code : Syntax) (n : ℕ) (bs : List Binding) → HasNode code n → TreesMatch at p (node_of code n) bs → All (IsHeldIn code (node_of code n)) bs }
    ensures behind { (at : ℕ → Option ℕ) (p : Node) (code : Syntax) (n : ℕ) (bs : List Binding) → HasNode code n → TreesMatch at p (node_of code n) bs → AllPairs (ComesBefore code) bs }
    ensures bound { (at : ℕ → Option ℕ) (p c : Node) (bs : List Binding) → TreesMatch at p c bs → map (λ b. b.placeholder) bs ≡ placeholders_from at p.first (tokens_in p.children) }
{}

/// Where the tokens of the code have higher numbers a token tree matches the same, and what is bound has numbers that are
/// higher by as much.
pub fn numbering()
    ensures { (more : ℕ) (at : ℕ → Option ℕ) (p c : Node) → tree_bindings at p (record c { first = more + c.first }) ≡ option_map (map (bound_later more)) (tree_bindings at p c) }
{}
