//! Whether the numbers of a facts file name something.

ghost use Rattle.std.specs.Prelude.{◌≡◌, ◌&&◌, is_some};
ghost use Rattle.std.specs.List.{list_all};
ghost use Rattle.ssr_facts_rows.specs.Facts.{plain_facts};
ghost use Rattle.ssr_facts.specs.Naming.{is_tree, is_scope, is_definition, is_resolution, scopes_named};
ghost use Rattle.ssr_facts.specs.Private.Nodes.{at_place};
ghost use Rattle.ssr_facts.specs.Private.Reading.{rows_named};

use ssr_base::{DefId, NodeId, Res, ScopeId, Workspace};
use ssr_facts_rows::{FactRows, PlaceRow};
use std::collections::BTreeMap;

/// Whether there is a tree of this number.
fn is_tree(workspace: &Workspace, tree: u32) -> bool
    ensures { result ≡ is_tree workspace.now tree }
{
    match workspace.tree(tree) {
        Some(_) => true,
        None => false,
    }
}

/// Whether there is a scope of this number.
fn is_scope(rows: &FactRows, scope: ScopeId) -> bool
    ensures { result ≡ is_scope (plain_facts rows.now) scope }
{
    (scope.0 as usize) < rows.scopes.len()
}

/// Whether there is a definition of this number.
fn is_definition(rows: &FactRows, def: DefId) -> bool
    ensures { result ≡ is_definition (plain_facts rows.now) def }
{
    (def.0 as usize) < rows.definitions.len()
}

/// Whether what is told to be a definition is one.
fn is_resolution(rows: &FactRows, res: Res) -> bool
    ensures { result ≡ is_resolution (plain_facts rows.now) res }
{
    match res {
        Res::Def(def) => is_definition(rows, def),
        _ => true,
    }
}

/// Whether each scope's tree is there.
fn scopes_named(workspace: &Workspace, rows: &FactRows) -> bool
    ensures { result ≡ scopes_named workspace.now (plain_facts rows.now) }
{
    rows.scopes.iter().all(|row| is_tree(workspace, row.tree))
}

/// Whether each scope in which a path has a name is there, and what it stands for.
fn names_named(rows: &FactRows) -> bool
    ensures { result ≡ list_all (λ row. is_scope (plain_facts rows.now) row.0.scope && is_resolution (plain_facts rows.now) row.1) rows.now.names.items }
{
    rows.names.iter().all(|row| is_scope(rows, row.0.scope) && is_resolution(rows, row.1))
}

/// Whether each scope and the definitions of each member are there.
fn members_named(rows: &FactRows) -> bool
    ensures { result ≡ list_all (λ row. is_scope (plain_facts rows.now) row.0.scope && (is_definition (plain_facts rows.now) row.0.adt && is_definition (plain_facts rows.now) row.1)) rows.now.members.items }
{
    rows.members.iter().all(|row| {
        is_scope(rows, row.0.scope) && is_definition(rows, row.0.adt) && is_definition(rows, row.1)
    })
}

/// Whether each path's place is that of one of these nodes, and what it stands for is there.
fn paths_named(rows: &FactRows, nodes: &BTreeMap<PlaceRow, NodeId>) -> bool
    ensures { result ≡ list_all (λ row. is_some (at_place nodes.now row.0) && is_resolution (plain_facts rows.now) row.1) rows.now.paths.items }
{
    rows.paths.iter().all(|row| nodes.contains_key(&row.0) && is_resolution(rows, row.1))
}

/// Whether each method call's place is that of one of these nodes, and what it calls is there.
fn methods_named(rows: &FactRows, nodes: &BTreeMap<PlaceRow, NodeId>) -> bool
    ensures { result ≡ list_all (λ row. is_some (at_place nodes.now row.0) && is_definition (plain_facts rows.now) row.1.def) rows.now.methods.items }
{
    rows.methods.iter().all(|row| nodes.contains_key(&row.0) && is_definition(rows, row.1.def))
}

/// Whether the tree of each expression with types is there.
fn types_named(workspace: &Workspace, rows: &FactRows) -> bool
    ensures { result ≡ list_all (λ row. is_tree workspace.now row.0.tree) rows.now.types.items }
{
    rows.types.iter().all(|row| is_tree(workspace, row.0.tree))
}

/// Whether each scope and definition that a path is printed for is there.
fn printed_named(rows: &FactRows) -> bool
    ensures { result ≡ list_all (λ row. is_scope (plain_facts rows.now) row.0.scope && is_definition (plain_facts rows.now) row.0.def) rows.now.printed.items }
{
    rows.printed.iter().all(|row| is_scope(rows, row.0.scope) && is_definition(rows, row.0.def))
}

/// Whether each number names something, where these are the paths and the method calls of the workspace.
pub(crate) fn all_named(
    workspace: &Workspace,
    rows: &FactRows,
    paths: &BTreeMap<PlaceRow, NodeId>,
    calls: &BTreeMap<PlaceRow, NodeId>,
) -> bool
    ensures { result ≡ rows_named workspace.now rows.now (at_place paths.now) (at_place calls.now) }
{
    scopes_named(workspace, rows)
        && names_named(rows)
        && members_named(rows)
        && paths_named(rows, paths)
        && methods_named(rows, calls)
        && types_named(workspace, rows)
        && printed_named(rows)
}
