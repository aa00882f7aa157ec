//! Whether rows are the same. All parts of two rows are compared, which takes fewer jumps than a stop at the first
//! that differs.

ghost use Rattle.std.specs.Prelude.{◌≡◌, ◌↔◌, IsTrue};

use crate::node_rows::NodeRows;
use crate::rows::NodeRow;
use ssr_syntax_kinds::{TokenRow, TokenRows};

/// Whether both are the same row of a token.
fn is_same_token(one: TokenRow, other: TokenRow) -> bool
    ensures { IsTrue result ↔ (one ≡ other) }
{
    one.kind.is(other.kind) & (one.start == other.start)
}

/// Whether both are the same row of a node.
fn is_same_node(one: NodeRow, other: NodeRow) -> bool
    ensures { IsTrue result ↔ (one ≡ other) }
{
    one.kind.is(other.kind)
        & (one.parent == other.parent)
        & (one.first == other.first)
        & (one.past == other.past)
        & (one.below == other.below)
}

/// Whether both have the same rows of tokens.
pub(crate) fn are_same_tokens(one: &TokenRows, other: &TokenRows) -> bool
    ensures { IsTrue result ↔ (one.now ≡ other.now) }
{
    if one.len() != other.len() {
        return false;
    }
    for number in 0..one.len() {
        if !is_same_token(one.row(number), other.row(number)) {
            return false;
        }
    }
    true
}

/// Whether both have the same rows of nodes.
pub(crate) fn are_same_nodes(one: &NodeRows, other: &NodeRows) -> bool
    ensures { IsTrue result ↔ (one.now ≡ other.now) }
{
    if one.len() != other.len() {
        return false;
    }
    for number in 0..one.len() {
        if !is_same_node(one.row(number), other.row(number)) {
            return false;
        }
    }
    true
}
