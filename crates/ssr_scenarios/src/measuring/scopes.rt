//! A provider for measuring alone: all nodes stand in one scope, in which no name is known.

use ssr_base::{NodeId, ScopeId, Workspace};
use ssr_facts::{TableSemantics, Tables};
use ssr_syntax_tree::{NodeNo, Tree};
use std::alloc::{AllocError, Global};

/// The one scope.
const SCOPE: ScopeId = ScopeId(0);

/// Adds the scope of the nodes of a tree.
fn push_scopes(
    scopes: &mut Vec<(NodeId, ScopeId)>,
    tree: &Tree,
    number: u32,
) -> Result<(), AllocError> {
    for node in 0..tree.node_count() {
        let id = NodeId {
            tree: number,
            node: NodeNo(node),
        };
        scopes.push((id, SCOPE))?;
    }
    Ok(())
}

/// The provider of a workspace's files.
pub(crate) fn semantics(
    alloc: Global,
    workspace: &Workspace,
) -> Result<TableSemantics, AllocError> {
    let mut scopes = Vec::new(alloc);
    for number in 0..workspace.file_count() {
        if let Some(tree) = workspace.tree(number) {
            push_scopes(&mut scopes, tree, number)?;
        }
    }
    let tables = Tables {
        definitions: Vec::new(alloc),
        scopes,
        names: Vec::new(alloc),
        members: Vec::new(alloc),
        paths: Vec::new(alloc),
        methods: Vec::new(alloc),
        types: Vec::new(alloc),
        printed: Vec::new(alloc),
    };
    TableSemantics::new(alloc, tables)
}
