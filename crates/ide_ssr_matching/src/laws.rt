//! What holds of the words of the contracts, whatever the code: each function here but `first_phase` does nothing, and
//! what it ensures is a law.
ghost use Rattle.std.specs.Prelude.{◌≡◌, ◌↔◌, ℕ, List, Some, All, AllPairs, IfOk, IsTrue};
ghost use Rattle.ssr_syntax_tree.specs.Syntax.{Syntax};
ghost use Rattle.ssr_syntax_tree.specs.Places.{Node, HasNode, node_of, root_of};
ghost use Rattle.ssr_base_trees.specs.Meanings.{Meanings};
ghost use Rattle.ide_ssr_resolved_rule.specs.Resolved.{ResolvedRule};
ghost use Rattle.ide_ssr_bindings.specs.declared.bindings.Binding.{Binding};
ghost use Rattle.ide_ssr_bindings.specs.Apart.{IsHeldIn, AreApart};
ghost use Rattle.ide_ssr_matching.specs.Bindings.{bindings_of};
ghost use Rattle.ide_ssr_matching.specs.Matching.{Matches, HasShape};
ghost use Rattle.ide_ssr_matching.specs.Trivia.{stripped_tree, AreToldAlike, BindAlike};

use crate::matching::has_shape;
use ide_ssr_resolved_rule::ResolvedRule;
use ssr_base_trees::{NodeId, Semantics};
use ssr_syntax_tree::Tree;
use std::alloc::{AllocError, Global};

/// The bindings that are computed for a match are those with which the node matches, and the other way
/// round, whatever names mean.
pub fn matching()
    ensures found { (m : Meanings) (tree : ℕ) (rule : ResolvedRule) (p c : Node) (bs : List Binding) → bindings_of m tree rule p c ≡ Some bs → Matches m tree rule p c bs }
    ensures complete { (m : Meanings) (tree : ℕ) (rule : ResolvedRule) (p c : Node) (bs : List Binding) → Matches m tree rule p c bs → bindings_of m tree rule p c ≡ Some bs }
{}

/// The first phase refuses no node that matches.
pub fn shape()
    ensures { (m : Meanings) (tree : ℕ) (rule : ResolvedRule) (p c : Node) (bs : List Binding) → Matches m tree rule p c bs → HasShape m tree rule p c }
{}

/// The first phase alone: it accepts the nodes that have the shape of the rule's pattern. No placeholder is bound, and no path
/// is asked about. The node is one of `tree`.
pub fn first_phase<S: Semantics>(
    alloc: Global,
    semantics: &S,
    rule: &ResolvedRule,
    tree: &Tree,
    node: NodeId,
) -> Result<bool, AllocError>
    requires { HasNode tree.now node.node.0 }
    ensures { IfOk result (λ accepts. IsTrue accepts ↔ HasShape (S.meanings semantics.now) node.tree rule.now (root_of rule.now.pattern) (node_of tree.now node.node.0)) }
{
    has_shape(alloc, semantics, rule, tree, node)
}

/// What the placeholders of a pattern hold where a node of a tree matches it are tokens of that node. No two of them hold
/// a common token: of two bindings one ends before the other begins, in the one order or in the other.
pub fn holding()
    ensures held { (code : Syntax) (m : Meanings) (tree : ℕ) (rule : ResolvedRule) (p : Node) (n : ℕ) (bs : List Binding) → HasNode code n → Matches m tree rule p (node_of code n) bs → All (IsHeldIn code (node_of code n)) bs }
    ensures apart { (code : Syntax) (m : Meanings) (tree : ℕ) (rule : ResolvedRule) (p : Node) (n : ℕ) (bs : List Binding) → HasNode code n → Matches m tree rule p (node_of code n) bs → AllPairs (AreApart code) bs }
{}

/// Two trees that are the same but for white space and comments outside of token trees match the same patterns, node by node,
/// where the same is told of their nodes. What the placeholders hold is the same, but for the numbers of tokens.
pub fn trivia()
    ensures { (ms : Meanings) (tree : ℕ) (other_ms : Meanings) (other_tree : ℕ) (rule : ResolvedRule) (code other : Syntax) (p : Node) (n : ℕ) (bs : List Binding) → stripped_tree code ≡ stripped_tree other → AreToldAlike ms tree other_ms other_tree → Matches ms tree rule p (node_of code n) bs → (others : List Binding) × Matches other_ms other_tree rule p (node_of other n) others × BindAlike bs others }
{}
