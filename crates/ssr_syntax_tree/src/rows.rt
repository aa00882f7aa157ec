//! The rows of a tree's nodes.

use ssr_syntax_kinds::SyntaxKind;

/// A node of a tree, in preorder.
#[derive(Clone, Copy)]
pub struct NodeRow {
    pub kind: SyntaxKind,
    /// The number of the node above it; the root's own is 0.
    pub parent: u32,
    /// The number of its first token; of the next token, where it has none.
    pub first: u32,
    /// The number of the token past its last one.
    pub past: u32,
    /// How many nodes are below it.
    pub below: u32,
}
