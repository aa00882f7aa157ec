//! The types of nodes.

ghost use Rattle.std.specs.Prelude.{◌≡◌, ◌+◌, ◌≤◌, length, IfOk, OnOk};
ghost use Rattle.std.specs.Option.{option_map, option_or, option_and_then};
ghost use Rattle.ssr_base_trees.specs.declared.ids.NodeId.{NodeId as Id};
ghost use Rattle.ssr_syntax_tree.specs.Syntax.{node_count};
ghost use Rattle.ssr_base_trees.specs.Built.{most_trees};
ghost use Rattle.ssr_facts.specs.Nodes.{place_of};
ghost use Rattle.ssr_facts.specs.Private.Nodes.{at_place, told_up_to, types_at, types_of_node};

use crate::nodes::{place, tree_count};
use ssr_base::{NodeId, TypeId, Workspace};
use ssr_facts_rows::PlaceRow;
use ssr_syntax_tree::{NodeNo, Tree};
use std::alloc::{AllocError, Global};
use std::collections::BTreeMap;

/// Adds the types of the nodes of a tree.
fn add_types(
    alloc: Global,
    told: &mut Vec<(NodeId, Vec<TypeId>)>,
    number: u32,
    tree: &Tree,
    by_place: &BTreeMap<PlaceRow, Vec<TypeId>>,
) -> Result<(), AllocError>
    ensures { OnOk result ((x : Id) → types_at told.new.items x ≡ option_or (types_at told.old.items x) (told_up_to number (1 + node_count tree.now.children) (λ n. types_of_node by_place.now number tree.now n) x)) }
{
    for node in 0..tree.node_count() {
        let node = NodeNo(node);
        if let Some(types) = by_place.get(&place(number, tree, node)) {
            let id = NodeId { tree: number, node };
            told.push((id, Vec::from_slice(alloc, types)?))?;
        }
    }
    Ok(())
}

/// The types of all nodes that have any by their places.
pub(crate) fn types_of_nodes(
    alloc: Global,
    workspace: &Workspace,
    by_place: &BTreeMap<PlaceRow, Vec<TypeId>>,
) -> Result<Vec<(NodeId, Vec<TypeId>)>, AllocError>
    requires { length workspace.now.files + length workspace.now.expansions ≤ most_trees }
    ensures { IfOk result (λ told. (x : Id) → types_at told.items x ≡ option_and_then (λ place. option_map (λ v. v.items) (at_place by_place.now place)) (place_of workspace.now x)) }
{
    let mut told = Vec::new(alloc);
    let count = tree_count(workspace);
    for number in 0..count {
        if let Some(tree) = workspace.tree(number) {
            add_types(alloc, &mut told, number, tree, by_place)?;
        }
    }
    Ok(told)
}
