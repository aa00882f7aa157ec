//! Trees that stand in the places of nodes.

use ssr_syntax_tree::{NodeNo, Tree};

/// A tree that stands in the place of a node.
#[derive(Drop)]
pub struct Swap {
    pub node: NodeNo,
    pub tree: Tree,
}
