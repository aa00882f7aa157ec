//! The node of a position in a file, and the function around it.
ghost use Rattle.std.specs.Prelude.{◌≡◌, ◌+◌, ◌<◌, ◌≤◌, ◌↔◌, ℕ, IsTrue, IfSome, IfNone, Some, option_map};
ghost use Rattle.ssr_syntax_tree.specs.Syntax.{token_count};
ghost use Rattle.ssr_syntax_tree.specs.Places.{HasNode, HasToken, node_of, size_of};
ghost use Rattle.ide_ssr_search.specs.Positions.{EndsAt, IsNear, IsFirst, IsNextSibling, IsLeftFor, Leads, Settles, IsNodeAt, IsInnermost};

use ssr_syntax_kinds::SyntaxKind;
use ssr_syntax_tree::{NodeNo, TokenNo, Tree};

/// The token that has a byte in front of an offset, and ends there.
fn ending_token(tree: &Tree, offset: u32) -> Option<TokenNo>
    ensures some { IfSome result (λ token. EndsAt tree.now offset token.0) }
    ensures none { IfNone result ((t : ℕ) → ¬ EndsAt tree.now offset t) }
{
    if offset == 0 {
        return None;
    }
    let token = tree.token_at(offset - 1)?;
    if tree.token_range(token).end == offset {
        Some(token)
    } else {
        None
    }
}

/// The token that ends at a position, else the one that holds or begins at it.
fn near_token(tree: &Tree, offset: u32) -> Option<TokenNo>
    ensures near { IsNear tree.now offset (option_map (λ token. token.0) result) }
    ensures has { IfSome result (λ token. HasToken tree.now token.0) }
{
    match ending_token(tree, offset) {
        Some(token) => Some(token),
        None => tree.token_at(offset),
    }
}

/// Whether a token stands below a node.
fn has_token(tree: &Tree, node: NodeNo, token: TokenNo) -> bool
    requires { HasNode tree.now node.0 }
    ensures { IsTrue result ↔ (((node_of tree.now node.0).first ≤ token.0) × (token.0 < (node_of tree.now node.0).first + token_count (node_of tree.now node.0).children)) }
{
    let tokens = tree.tokens_below(node);
    tokens.start <= token.0 && token.0 < tokens.end
}

/// Whether a node begins behind a token.
fn begins_behind(tree: &Tree, node: NodeNo, token: TokenNo) -> bool
    requires { HasNode tree.now node.0 }
    ensures { IsTrue result ↔ (token.0 < (node_of tree.now node.0).first) }
{
    token.0 < tree.tokens_below(node).start
}

/// The parent of a token: the last node that has it. From a node on that begins behind the token none has it.
fn parent_of(tree: &Tree, token: TokenNo) -> NodeNo
    requires { HasToken tree.now token.0 }
    ensures parent { IsFirst tree.now (Some token.0) result.0 }
    ensures has { HasNode tree.now result.0 }
{
    let mut found = 0;
    for number in 1..tree.node_count() {
        let node = NodeNo(number);
        if begins_behind(tree, node, token) {
            return NodeNo(found);
        }
        if has_token(tree, node, token) {
            found = number;
        }
    }
    NodeNo(found)
}

/// The next sibling that is a node.
fn next_sibling(tree: &Tree, node: NodeNo) -> Option<NodeNo>
    requires { HasNode tree.now node.0 }
    ensures some { IfSome result (λ next. IsNextSibling tree.now node.0 next.0) }
    ensures none { IfNone result ((m : ℕ) → ¬ IsNextSibling tree.now node.0 m) }
{
    let next = tree.nodes_below(node).end;
    if next >= tree.node_count() {
        return None;
    }
    let parent = tree.parent(node)?;
    let other = tree.parent(NodeNo(next))?;
    if other.0 == parent.0 {
        Some(NodeNo(next))
    } else {
        None
    }
}

/// What a node of a position is left for: a LET_STMT or an IDENT_PAT for its next sibling, a NAME for its parent.
fn left_for(tree: &Tree, node: NodeNo) -> Option<NodeNo>
    requires { HasNode tree.now node.0 }
    ensures some { IfSome result (λ next. IsLeftFor tree.now node.0 next.0) }
    ensures has { IfSome result (λ next. HasNode tree.now next.0) }
    ensures none { IfNone result ((m : ℕ) → ¬ IsLeftFor tree.now node.0 m) }
{
    let kind = tree.kind(node);
    if kind.is(SyntaxKind::LET_STMT) || kind.is(SyntaxKind::IDENT_PAT) {
        return next_sibling(tree, node);
    }
    if kind.is(SyntaxKind::NAME) {
        return tree.parent(node);
    }
    None
}

/// The last node, where each LET_STMT, IDENT_PAT and NAME is left, one after another, as long as there is a node to go to.
fn last_left_for(tree: &Tree, node: NodeNo) -> NodeNo
    requires { HasNode tree.now node.0 }
    ensures leads { Leads tree.now node.0 result.0 }
    ensures has { HasNode tree.now result.0 }
{
    let mut at = node;
    while let Some(next) = left_for(tree, at) {
        at = next;
    }
    at
}

/// The first child node of an EXPR_STMT; any other node itself.
fn settled(tree: &Tree, node: NodeNo) -> NodeNo
    requires { HasNode tree.now node.0 }
    ensures settles { Settles tree.now node.0 result.0 }
    ensures has { HasNode tree.now result.0 }
{
    if tree.kind(node).is(SyntaxKind::EXPR_STMT) && tree.below(node) > 0 {
        NodeNo(tree.nodes_below(node).start)
    } else {
        node
    }
}

/// The node of a position in a file.
pub(crate) fn node_at(tree: &Tree, offset: u32) -> NodeNo
    ensures is { IsNodeAt tree.now offset result.0 }
    ensures has { HasNode tree.now result.0 }
{
    let first = match near_token(tree, offset) {
        Some(token) => parent_of(tree, token),
        None => NodeNo(0),
    };
    settled(tree, last_left_for(tree, first))
}

/// Whether a node is a function and has another one at or below it.
fn is_function_around(tree: &Tree, function: NodeNo, node: NodeNo) -> bool
    requires { HasNode tree.now function.0 }
    ensures { IsTrue result ↔ (((node_of tree.now function.0).kind ≡ SyntaxKind.FN) × (node.0 < function.0 + size_of (node_of tree.now function.0))) }
{
    tree.kind(function).is(SyntaxKind::FN) && node.0 < tree.nodes_below(function).end
}

/// The innermost function at or above a node.
pub(crate) fn function_around(tree: &Tree, node: NodeNo) -> Option<NodeNo>
    requires { HasNode tree.now node.0 }
    ensures { IsInnermost tree.now node.0 (option_map (λ f. f.0) result) }
{
    let mut left = node.0;
    loop {
        if is_function_around(tree, NodeNo(left), node) {
            return Some(NodeNo(left));
        }
        if left == 0 {
            return None;
        }
        left -= 1;
    }
}
