//! Which path leads the search for a rule, and where its usages lead.

use crate::matches::write_range;
use crate::paths::text_at;
use crate::rules::kinds_of;
use crate::told::Told;
use ide_ssr_leading::{led_to, picked_path};
use ide_ssr_resolved_rule::ResolvedRule;
use ssr_base::{NodeId, Semantics, Workspace};
use ssr_facts::Facts;
use std::alloc::Global;

/// Which path leads the search for the first kind of a rule, and below it where its usages lead.
pub(crate) fn write_leads(alloc: Global, out: &mut Told, facts: &Facts, text: &str) {
    match kinds_of(alloc, &facts.semantics, text) {
        Ok(kinds) => match kinds.first() {
            Some(kind) => write_lead(alloc, out, facts, kind),
            None => {}
        },
        Err(error) => {
            out.shown(&error);
            out.text("\n");
        }
    }
}

/// The path with its depth, and its usages.
fn write_lead(alloc: Global, out: &mut Told, facts: &Facts, kind: &ResolvedRule) {
    let Some(path) = picked_path(kind) else {
        return out.line("nothing");
    };
    let depth = kind.pattern().depth(path.node);
    out.text(text_at(kind.pattern(), path.node));
    out.text(" ");
    out.shown(&depth);
    out.text("\n");
    let Some(usages) = out.got(facts.semantics.usages(alloc, path.res)) else {
        return;
    };
    for usage in &usages {
        write_usage(out, &facts.workspace, depth, *usage);
    }
}

/// Where a usage stands, and the node that it leads to.
fn write_usage(out: &mut Told, workspace: &Workspace, depth: u32, usage: NodeId) {
    write_place(out, workspace, usage);
    out.text(" leads to ");
    match led_to(workspace.trees(), depth, usage) {
        Some(node) => write_place(out, workspace, node),
        None => out.text("nothing"),
    }
    out.text("\n");
}

/// Where a node comes from.
fn write_place(out: &mut Told, workspace: &Workspace, node: NodeId) {
    match workspace.original_range(node) {
        Some(range) => write_range(out, range),
        None => out.text("nowhere"),
    }
}
