//! The nodes of workspaces, and what facts tell of them.

use crate::matches::write_range;
use crate::paths::write_res;
use crate::told::Told;
use ssr_base::{NodeId, Semantics, Workspace};
use ssr_facts::{Facts, TableSemantics};
use ssr_syntax_tree::{NodeNo, Tree};
use std::alloc::Global;

/// The nodes of all trees, a line each.
pub(crate) fn write_nodes(alloc: Global, out: &mut Told, facts: &Facts) {
    for number in 0..u32::MAX {
        match facts.workspace.tree(number) {
            Some(tree) => write_nodes_of(alloc, out, facts, number, tree),
            None => break,
        }
    }
}

/// The nodes of a tree, each with its kind, where it comes from, and what is told of it.
fn write_nodes_of(alloc: Global, out: &mut Told, facts: &Facts, number: u32, tree: &Tree) {
    for node in 0..tree.node_count() {
        let kind = tree.kind(NodeNo(node)).name();
        let node = NodeId {
            tree: number,
            node: NodeNo(node),
        };
        write_id(out, node);
        out.text(" ");
        out.text(kind);
        write_places(out, &facts.workspace, node);
        write_names(alloc, out, &facts.semantics, node);
        write_types(alloc, out, &facts.semantics, node);
        out.text("\n");
    }
}

fn write_id(out: &mut Told, node: NodeId) {
    out.shown(&node.tree);
    out.text(":");
    out.shown(&node.node.0);
}

/// Where a node comes from, what stands above it, and what it stands for as a macro call.
fn write_places(out: &mut Told, workspace: &Workspace, node: NodeId) {
    if let Some(range) = workspace.original_range(node) {
        out.text(" from ");
        write_range(out, range);
    }
    if let Some(above) = workspace.above(node) {
        out.text(" in ");
        write_id(out, above);
    }
    if let Some(root) = workspace.expansion_of(node) {
        out.text(" for ");
        write_id(out, root);
    }
}

/// The scope that a node stands in, and what it stands for as a path.
fn write_names(alloc: Global, out: &mut Told, semantics: &TableSemantics, node: NodeId) {
    if let Some(scope) = out.got(semantics.scope(alloc, node)).flatten() {
        out.text(" scope ");
        out.shown(&scope.0);
    }
    if let Some(res) = out.got(semantics.resolve_path(alloc, node)).flatten() {
        out.text(" is ");
        write_res(out, res);
    }
}

/// What a node calls as a method call, and its types.
fn write_types(alloc: Global, out: &mut Told, semantics: &TableSemantics, node: NodeId) {
    if let Some(def) = out.got(semantics.resolve_method(alloc, node)).flatten() {
        out.text(" calls ");
        out.shown(&def.0);
        out.text(" ");
        out.debug(&semantics.self_kind(node));
    }
    if let Some(types) = out.got(semantics.types(alloc, node)).flatten() {
        out.text(" has ");
        out.debug(&types);
    }
}
