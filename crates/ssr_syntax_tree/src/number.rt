//! The numbers that name the nodes and the tokens of a tree.

/// The number of a node in its tree: nodes are counted in preorder, the root is 0.
#[derive(Clone, Copy, Debug, PartialEq, Eq, PartialOrd, Ord)]
pub struct NodeNo(pub u32);

/// The number of a token in its tree, counted from the left; trivia count too.
#[derive(Clone, Copy, Debug, PartialEq, Eq, PartialOrd, Ord)]
pub struct TokenNo(pub u32);

/// A child of a node.
#[derive(Clone, Copy, Debug, PartialEq, Eq)]
pub enum Element {
    Node(NodeNo),
    Token(TokenNo),
}
