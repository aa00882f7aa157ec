//! The word of a node by which rules of one shape mostly differ: the name of a method, a field or an item, or a literal, as
//! `name` in `x.name(1)` and `1` in `x + 1`. It is the first token of the first node behind a token of the node's own.
ghost use Rattle.std.specs.Prelude.{◌≡◌, false, IfSome, IsTrue, option_map};
ghost use Rattle.std.specs.Option.{option_copied};
ghost use Rattle.ssr_syntax_tree.specs.Places.{HasNode, node_of, parts_of};
ghost use Rattle.ide_ssr_search.specs.Private.Words.{counts, pairs_otherwise, node_behind, first_text, word_of, MatchesByChildren, IsWordOf};

use ide_ssr_resolved_rule::ResolvedRule;
use ssr_syntax_kinds::SyntaxKind;
use ssr_syntax_tree::{Element, NodeNo, Tree};

/// Whether a token of a kind counts for each match: no trivia, and no comma.
pub(crate) fn counts(kind: SyntaxKind) -> bool
    ensures { result ≡ counts kind }
{
    !kind.is_trivia() && !kind.is(SyntaxKind::COMMA)
}

/// Whether nodes of a kind match by other things than their children, one by one.
pub(crate) fn pairs_otherwise(kind: SyntaxKind) -> bool
    ensures { result ≡ pairs_otherwise kind }
{
    kind.is(SyntaxKind::TOKEN_TREE) || kind.is(SyntaxKind::RECORD_EXPR_FIELD_LIST)
}

/// The first node among the children of a node behind a token that counts for each match.
fn node_behind(tree: &Tree, node: NodeNo) -> Option<NodeNo>
    requires { HasNode tree.now node.0 }
    ensures is { option_map (λ n. node_of tree.now n.0) result ≡ node_behind false (parts_of (node_of tree.now node.0)) }
    ensures has { IfSome result (λ n. HasNode tree.now n.0) }
{
    let mut counted = false;
    for child in tree.children(node) {
        match child {
            Element::Node(below) => {
                if counted {
                    return Some(below);
                }
            }
            Element::Token(token) => {
                if counts(tree.token_kind(token)) {
                    counted = true;
                }
            }
        }
    }
    None
}

/// The text of the first child of a node that is a token that counts for each match.
fn first_text(tree: &Tree, node: NodeNo) -> Option<&str>
    requires { HasNode tree.now node.0 }
    ensures { option_copied result ≡ first_text (parts_of (node_of tree.now node.0)) }
{
    for child in tree.children(node) {
        if let Element::Token(token) = child {
            if counts(tree.token_kind(token)) {
                return Some(tree.token_text(token));
            }
        }
    }
    None
}

/// The word of a node.
pub(crate) fn word_of(tree: &Tree, node: NodeNo) -> Option<&str>
    requires { HasNode tree.now node.0 }
    ensures { option_copied result ≡ word_of (node_of tree.now node.0) }
{
    first_text(tree, node_behind(tree, node)?)
}

/// Whether a node of a rule's pattern matches others by its children alone, one by one.
fn is_by_children(rule: &ResolvedRule, node: NodeNo) -> bool
    requires { HasNode rule.now.pattern node.0 }
    ensures { IsTrue result → MatchesByChildren rule.now (node_of rule.now.pattern node.0) }
{
    if rule.placeholder(node).is_some() {
        return false;
    }
    if rule.qualified_call(node).is_some() {
        return false;
    }
    if rule.pattern_res(node).is_some() {
        return false;
    }
    !pairs_otherwise(rule.pattern().kind(node))
}

/// The word of each node that matches a rule's pattern, if it is known.
pub(crate) fn word_asked(rule: &ResolvedRule) -> Option<&str>
    ensures { IsWordOf rule.now (option_copied result) }
{
    let root = NodeNo(0);
    if !is_by_children(rule, root) {
        return None;
    }
    let pattern = rule.pattern();
    let behind = node_behind(pattern, root)?;
    if !is_by_children(rule, behind) {
        return None;
    }
    first_text(pattern, behind)
}
