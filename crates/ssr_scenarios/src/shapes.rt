//! Which nodes the first phase of matching accepts.

use crate::paths::text_at;
use crate::rules::kinds_of;
use crate::told::Told;
use ide_ssr::laws::first_phase;
use ide_ssr_resolved_rule::ResolvedRule;
use ssr_base::NodeId;
use ssr_facts::Facts;
use ssr_syntax_tree::{NodeNo, Tree};
use std::alloc::Global;

/// The texts of the nodes of the first file that have the shape of the first kind of a rule.
pub(crate) fn write_shapes(alloc: Global, out: &mut Told, facts: &Facts, text: &str) {
    match kinds_of(alloc, &facts.semantics, text) {
        Ok(kinds) => {
            if let (Some(kind), Some(tree)) = (kinds.first(), facts.workspace.tree(0)) {
                write_accepted(alloc, out, facts, kind, tree);
            }
        }
        Err(error) => {
            out.shown(&error);
            out.text("\n");
        }
    }
}

/// The texts of the nodes of the first tree that have the shape.
fn write_accepted(alloc: Global, out: &mut Told, facts: &Facts, kind: &ResolvedRule, tree: &Tree) {
    for number in 0..tree.node_count() {
        let node = NodeId {
            tree: 0,
            node: NodeNo(number),
        };
        let accepts = first_phase(alloc, &facts.semantics, kind, tree, node);
        if out.got(accepts) == Some(true) {
            out.line(text_at(tree, node.node));
        }
    }
}
