//! What the parser writes: the nodes of a tree, each behind those below it, and its joined tokens.

use ssr_syntax_kinds::SyntaxKind;
use ssr_syntax_tree::NodeRows;

/// The most rows, and the most tokens of a tree, that are counted.
pub(crate) const MOST_COUNTED: usize = u32::MAX as usize;

/// A token of a tree that is none of the text as it is: where the kinds are the text's, one that is joined from several.
#[derive(Clone, Copy)]
pub struct Joined {
    /// The token's number in the tree.
    pub number: u32,
    pub kind: SyntaxKind,
    /// How many solid tokens it is joined from.
    pub size: u8,
}

/// What the parser writes: the rows of nodes, each behind those below it, and the joined tokens.
#[derive(Drop)]
pub struct Output {
    /// A row's parent is not filled in. A node without tokens stands behind the token in front of it.
    pub rows: NodeRows,
    /// In the order of the text.
    pub joined: Vec<Joined>,
}
