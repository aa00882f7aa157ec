//! Usages that are told and are none.

use ssr_base::{NodeId, Workspace};
use ssr_syntax_tree::{NodeNo, Tree};
use std::alloc::{AllocError, Global};

/// All nodes of a workspace, which are of every kind and use whatever they do; a node that there isn't behind those of each
/// tree, one of a tree that there isn't, and the one with the greatest numbers.
pub(crate) fn strays_of(alloc: Global, workspace: &Workspace) -> Result<Vec<NodeId>, AllocError> {
    let mut strays = Vec::new(alloc);
    for number in 0..u32::MAX {
        match workspace.tree(number) {
            Some(tree) => push_nodes(&mut strays, number, tree)?,
            None => {
                strays.push(stray(number, 0))?;
                break;
            }
        }
    }
    strays.push(stray(u32::MAX, u32::MAX))?;
    Ok(strays)
}

/// Adds the nodes of a tree, and one that it doesn't have.
fn push_nodes(strays: &mut Vec<NodeId>, number: u32, tree: &Tree) -> Result<(), AllocError> {
    for node in 0..=tree.node_count() {
        strays.push(stray(number, node))?;
    }
    Ok(())
}

fn stray(tree: u32, node: u32) -> NodeId {
    NodeId {
        tree,
        node: NodeNo(node),
    }
}
