//! Nodes of a workspace by their places.

ghost use Rattle.std.specs.Prelude.{◌≡◌, ◌+◌, ◌≤◌, length, IfOk, OnOk};
ghost use Rattle.std.specs.BTreeMap.{get};
ghost use Rattle.std.specs.List.{filter_map};
ghost use Rattle.std.specs.Option.{option_map, option_or};
ghost use Rattle.ssr_facts_rows.specs.declared.places.PlaceRow.{PlaceRow as Place};
ghost use Rattle.ssr_syntax_tree.specs.Places.{HasNode};
ghost use Rattle.ssr_base_trees.specs.Built.{most_trees};
ghost use Rattle.ssr_facts.specs.Nodes.{node_at};
ghost use Rattle.ssr_facts.specs.Private.Nodes.{place_at, found_in, at_place};

use crate::grouping::add_first;
use ssr_base::{NodeId, Workspace};
use ssr_facts_rows::PlaceRow;
use ssr_syntax_kinds::SyntaxKind;
use ssr_syntax_tree::{NodeNo, Tree};
use std::alloc::{AllocError, Global};
use std::collections::BTreeMap;

/// How many trees there are.
pub(crate) fn tree_count(workspace: &Workspace) -> u32
    requires { length workspace.now.files + length workspace.now.expansions ≤ most_trees }
    ensures { result ≡ length workspace.now.files + length workspace.now.expansions }
{
    workspace.file_count() + workspace.trees().expansion_count()
}

/// The place of a node of the tree with this number.
pub(crate) fn place(number: u32, tree: &Tree, node: NodeNo) -> PlaceRow
    requires { HasNode tree.now node.0 }
    ensures { result ≡ place_at number tree.now node.0 }
{
    let range = tree.range(node);
    PlaceRow {
        tree: number,
        start: range.start,
        end: range.end,
    }
}

/// Adds the nodes of a kind in a tree, unless there is one of their place.
fn add_nodes(
    nodes: &mut BTreeMap<PlaceRow, NodeId>,
    number: u32,
    tree: &Tree,
    kind: SyntaxKind,
) -> Result<(), AllocError>
    ensures { OnOk result ((place : Place) → at_place nodes.new place ≡ option_or (at_place nodes.old place) (found_in number tree.now kind place)) }
{
    for node in 0..tree.node_count() {
        let node = NodeNo(node);
        if tree.kind(node) == kind {
            let id = NodeId { tree: number, node };
            add_first(nodes, place(number, tree, node), id)?;
        }
    }
    Ok(())
}

/// The nodes of a kind by their places, of several of one place the first one in preorder.
pub(crate) fn nodes_by_place(
    alloc: Global,
    workspace: &Workspace,
    kind: SyntaxKind,
) -> Result<BTreeMap<PlaceRow, NodeId>, AllocError>
    requires { length workspace.now.files + length workspace.now.expansions ≤ most_trees }
    ensures { IfOk result (λ nodes. (place : Place) → at_place nodes place ≡ node_at workspace.now kind place) }
{
    let mut nodes = BTreeMap::new(alloc);
    let count = tree_count(workspace);
    for number in 0..count {
        if let Some(tree) = workspace.tree(number) {
            add_nodes(&mut nodes, number, tree, kind)?;
        }
    }
    Ok(nodes)
}

/// What rows say of the nodes at their places.
pub(crate) fn at_nodes<V: Copy>(
    alloc: Global,
    nodes: &BTreeMap<PlaceRow, NodeId>,
    rows: &[(PlaceRow, V)],
) -> Result<Vec<(NodeId, V)>, AllocError>
    ensures { IfOk result (λ told. told.items ≡ filter_map (λ row. option_map (λ node. (node, row.1)) (at_place nodes.now row.0)) rows.now) }
{
    let mut told = Vec::new(alloc);
    for (place, value) in rows {
        if let Some(node) = nodes.get(place) {
            told.push((*node, *value))?;
        }
    }
    Ok(told)
}
