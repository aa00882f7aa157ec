//! The scopes of nodes. Nodes come in preorder, so their starts ascend, and scopes are kept as they begin.

ghost use Rattle.std.specs.Prelude.{◌≡◌, ◌+◌, ◌≤◌, ℕ, length, IfOk, OnOk, IsTrue, IsPermutation, Option, false};
ghost use Rattle.std.specs.List.Sorted.{IsNonDecreasingBy};
ghost use Rattle.std.specs.Map.{lookup};
ghost use Rattle.std.specs.Option.{option_and_then, option_map, option_or};
ghost use Rattle.std.specs.Ordering.{nat_cmp};
ghost use Rattle.ssr_base_trees.specs.declared.ids.NodeId.{NodeId as Id};
ghost use Rattle.ssr_facts.specs.declared.scopes.Scope.{Scope as Begun};
ghost use Rattle.ssr_syntax_tree.specs.Syntax.{node_count};
ghost use Rattle.ssr_base_trees.specs.Built.{most_trees};
ghost use Rattle.ssr_base_trees.specs.Workspace.{same_id};
ghost use Rattle.ssr_facts.specs.Nodes.{place_of};
ghost use Rattle.ssr_facts.specs.Scopes.{scope_of};
ghost use Rattle.ssr_facts.specs.Grouping.{group_at};
ghost use Rattle.ssr_facts.specs.Private.Nodes.{told_up_to};
ghost use Rattle.ssr_facts.specs.Private.Scopes.{scopes_in, IsBestAt, id_of, AsGood, IsBetter};

use crate::grouping::add;
use crate::kept::{first_from, keep_begun};
use crate::nodes::tree_count;
use ssr_base::{NodeId, ScopeId, Workspace};
use ssr_facts_rows::PlaceRow;
use ssr_syntax_tree::{NodeNo, Tree};
use std::alloc::{AllocError, Global};
use std::collections::BTreeMap;

/// A scope of a tree: its bytes, and the number of its row.
#[derive(Clone, Copy)]
pub(crate) struct Scope {
    pub(crate) start: u32,
    pub(crate) end: u32,
    pub(crate) number: u32,
}

impl Scope {
    /// Whether this scope is shorter than another one, or as short and its row stands behind or is the same.
    pub(crate) fn is_as_good(&self, other: &Scope) -> bool
        ensures good { IsTrue result → AsGood self.now other.now }
        ensures worse { result ≡ false → IsBetter other.now self.now }
    {
        let size = self.end.saturating_sub(self.start);
        let other_size = other.end.saturating_sub(other.start);
        if size == other_size {
            return self.number >= other.number;
        }
        size < other_size
    }
}

/// The scopes of each tree, in their order.
fn scopes_by_tree(alloc: Global, rows: &[PlaceRow]) -> Result<BTreeMap<u32, Vec<Scope>>, AllocError>
    ensures { IfOk result (λ by_tree. (t : ℕ) → group_at nat_cmp by_tree t ≡ scopes_in t 0 rows.now) }
{
    if rows.len() > u32::MAX as usize {
        return Err(AllocError);
    }
    let mut by_tree = BTreeMap::new(alloc);
    for (number, row) in rows.iter().enumerate() {
        let scope = Scope {
            start: row.start,
            end: row.end,
            number: number as u32,
        };
        add(alloc, &mut by_tree, row.tree, scope)?;
    }
    Ok(by_tree)
}

/// The scopes of a tree in the order of their starts.
fn sorted_scopes(
    alloc: Global,
    by_tree: &BTreeMap<u32, Vec<Scope>>,
    tree: u32,
) -> Result<Vec<Scope>, AllocError>
    ensures same { IfOk result (λ scopes. IsPermutation (group_at nat_cmp by_tree.now tree) scopes.items) }
    ensures sorted { IfOk result (λ scopes. IsNonDecreasingBy (λ scope. scope.start) scopes.items) }
{
    match by_tree.get(&tree) {
        Some(scopes) => {
            let mut sorted = Vec::from_slice(alloc, scopes)?;
            sorted.sort_by_key(|scope| scope.start)?;
            Ok(sorted)
        }
        None => Ok(Vec::new(alloc)),
    }
}

/// Adds the scopes of the nodes of a tree. Its scopes are in the order of their starts.
fn add_scopes(
    alloc: Global,
    told: &mut Vec<(NodeId, ScopeId)>,
    number: u32,
    tree: &Tree,
    scopes: &[Scope],
) -> Result<(), AllocError>
    requires { IsNonDecreasingBy (λ scope. scope.start) scopes.now }
    ensures { OnOk result ((x : Id) (best : Option Begun) → IsBestAt tree.now x.node.0 scopes.now best → lookup (same_id x) told.new.items ≡ option_or (lookup (same_id x) told.old.items) (told_up_to number (1 + node_count tree.now.children) (λ _. option_map id_of best) x)) }
{
    let mut kept = BTreeMap::new(alloc);
    let mut next = 0;
    for node in 0..tree.node_count() {
        let range = tree.range(NodeNo(node));
        next = keep_begun(&mut kept, scopes, next, range.start)?;
        if let Some(scope) = first_from(&kept, range.end) {
            let id = NodeId {
                tree: number,
                node: NodeNo(node),
            };
            told.push((id, ScopeId(scope.number)))?;
        }
    }
    Ok(())
}

/// The scopes of all nodes that stand in one.
pub(crate) fn scopes_of_nodes(
    alloc: Global,
    workspace: &Workspace,
    rows: &[PlaceRow],
) -> Result<Vec<(NodeId, ScopeId)>, AllocError>
    requires { length workspace.now.files + length workspace.now.expansions ≤ most_trees }
    ensures { IfOk result (λ told. (x : Id) → lookup (same_id x) told.items ≡ option_and_then (scope_of rows.now) (place_of workspace.now x)) }
{
    let by_tree = scopes_by_tree(alloc, rows)?;
    let mut told = Vec::new(alloc);
    let count = tree_count(workspace);
    for number in 0..count {
        if let Some(tree) = workspace.tree(number) {
            let scopes = sorted_scopes(alloc, &by_tree, number)?;
            add_scopes(alloc, &mut told, number, tree, &scopes)?;
        }
    }
    Ok(told)
}
