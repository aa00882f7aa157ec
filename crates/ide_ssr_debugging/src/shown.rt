//! The nodes that a snippet shows.

ghost use Rattle.std.specs.Prelude.{◌≡◌, ◌≢◌, ◌+◌, ◌<◌, ◌↔◌, IsTrue, IfOk, Some, AllPairs, Contains, length};
ghost use Rattle.ssr_base_trees.specs.declared.ids.NodeId.{NodeId as Id};
ghost use Rattle.ssr_base_trees.specs.Workspace.{trees, tree_of};
ghost use Rattle.ssr_base_trees.specs.Built.{IsNodeOf, IsBuilt};
ghost use Rattle.ide_ssr_debugging.specs.Debugging.{IsShown, NodeBefore};
ghost use Rattle.ide_ssr_debugging.specs.Private.Shown.{AreShownBefore};

use crate::order::put_in_order;
use ssr_base_trees::{FileId, NodeId, Trees};
use ssr_syntax_tree::{NodeNo, Tree};
use std::alloc::{AllocError, Global};

/// That each workspace is built as it has to be stands in the contract of its methods: this calls one for that alone.
fn is_built(workspace: &Trees)
    ensures { IsBuilt workspace.now }
{
    workspace.file_count();
}

/// Whether a snippet shows a node other than a root.
fn is_shown(workspace: &Trees, file: FileId, snippet: &str, node: NodeId) -> bool
    requires has_byte { 0 < length snippet.now }
    requires node { IsNodeOf (trees workspace.now) node }
    requires no_root { 0 < node.node.0 }
    ensures { IsTrue result ↔ IsShown workspace.now file snippet.now node }
{
    let Some(range) = workspace.original_range(node) else {
        return false;
    };
    if range.file_id.0 != file.0 {
        return false;
    }
    match workspace.text(range) {
        Some(text) => text == snippet,
        None => false,
    }
}

/// Adds the nodes of a tree that a snippet shows.
fn add_shown(
    workspace: &Trees,
    file: FileId,
    snippet: &str,
    number: u32,
    tree: &Tree,
    shown: &mut Vec<NodeId>,
) -> Result<(), AllocError>
    requires has_byte { 0 < length snippet.now }
    requires tree { tree_of workspace.now number ≡ Some tree.now }
    requires shown { AreShownBefore workspace.now file snippet.now number 0 shown.old.items }
    ensures { IfOk result (λ _. AreShownBefore workspace.now file snippet.now (number + 1) 0 shown.new.items) }
{
    for n in 1..tree.node_count() {
        let node = NodeId {
            tree: number,
            node: NodeNo(n),
        };
        if is_shown(workspace, file, snippet, node) {
            shown.push(node)?;
        }
    }
    Ok(())
}

/// The nodes that a snippet shows, which has a byte, as their trees and nodes are numbered. Trees of other files, and of what
/// calls in these stand for, are passed.
fn found_nodes(
    alloc: Global,
    workspace: &Trees,
    file: FileId,
    snippet: &str,
) -> Result<Vec<NodeId>, AllocError>
    requires built { IsBuilt workspace.now }
    requires has_byte { 0 < length snippet.now }
    ensures once { IfOk result (λ shown. AllPairs (λ a b. a ≢ b) shown.items) }
    ensures are { IfOk result (λ shown. (x : Id) → Contains shown.items x ↔ IsShown workspace.now file snippet.now x) }
{
    let mut shown = Vec::new(alloc);
    let mut number = 0;
    while let Some(tree) = workspace.tree(number) {
        if workspace.file_of(number) == file.0 {
            add_shown(workspace, file, snippet, number, tree, &mut shown)?;
        }
        number += 1;
    }
    Ok(shown)
}

/// The nodes that a snippet shows, in order.
pub(crate) fn shown_nodes(
    alloc: Global,
    workspace: &Trees,
    file: FileId,
    snippet: &str,
) -> Result<Vec<NodeId>, AllocError>
    ensures in_order { IfOk result (λ shown. AllPairs (NodeBefore (trees workspace.now)) shown.items) }
    ensures are { IfOk result (λ shown. (x : Id) → Contains shown.items x ↔ IsShown workspace.now file snippet.now x) }
{
    if snippet.is_empty() {
        return Ok(Vec::new(alloc));
    }
    is_built(workspace);
    let mut shown = found_nodes(alloc, workspace, file, snippet)?;
    put_in_order(workspace, &mut shown);
    Ok(shown)
}
