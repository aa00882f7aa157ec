//! Files, ranges and positions of files, nodes and tokens of trees, and the numbers that a provider of names and types gives.

use ssr_syntax_kinds::TextRange;
use ssr_syntax_tree::NodeNo;

/// The number of a file.
#[derive(Clone, Copy, Debug, PartialEq, Eq, PartialOrd, Ord)]
pub struct FileId(pub u32);

/// A range of bytes in a file.
#[derive(Clone, Copy, Debug, PartialEq, Eq)]
pub struct FileRange {
    pub file_id: FileId,
    pub range: TextRange,
}

/// A place in a file: in front of the byte `offset`, or at the end.
#[derive(Clone, Copy, Debug, PartialEq, Eq)]
pub struct FilePosition {
    pub file_id: FileId,
    pub offset: u32,
}

/// A node of the tree with the number `tree`.
#[derive(Clone, Copy, Debug, PartialEq, Eq, PartialOrd, Ord)]
pub struct NodeId {
    pub tree: u32,
    pub node: NodeNo,
}

/// Tokens of a tree that follow each other: so many from the first one on.
#[derive(Clone, Copy, Debug, PartialEq, Eq)]
pub struct TokenRun {
    pub first: u32,
    pub count: u32,
}

/// The number of a scope, in which names are looked up.
#[derive(Clone, Copy, Debug, PartialEq, Eq, PartialOrd, Ord)]
pub struct ScopeId(pub u32);

/// The number of a definition.
#[derive(Clone, Copy, Debug, PartialEq, Eq, PartialOrd, Ord)]
pub struct DefId(pub u32);

/// The number of a type.
#[derive(Clone, Copy, Debug, PartialEq, Eq)]
pub struct TypeId(pub u32);
