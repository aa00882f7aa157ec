//! Which placeholders of a template are receivers of method calls.
ghost use Rattle.std.specs.Prelude.{◌≡◌, ◌<◌, ◌^◌, IfOk, IfSome, length};
ghost use Rattle.std.specs.Option.{option_map};
ghost use Rattle.ssr_syntax_tree.specs.Places.{HasNode, node_of};
ghost use Rattle.ide_ssr_resolved_rule.specs.Receivers.{placeholder_called_on, receiver_of};
ghost use Rattle.ide_ssr_resolved_rule.specs.Private.ReceiverTables.{TellsReceivers};

use crate::names::Names;
use crate::placeholders::placeholder_at;
use ssr_syntax_kinds::SyntaxKind;
use ssr_syntax_tree::{Element, NodeNo, Tree};
use std::alloc::{AllocError, Global};

/// The receiver of a method call, its first child.
fn receiver_of(tree: &Tree, call: NodeNo) -> Option<NodeNo>
    requires { HasNode tree.now call.0 }
    ensures node { option_map (λ receiver. node_of tree.now receiver.0) result ≡ receiver_of (node_of tree.now call.0) }
    ensures has { IfSome result (λ receiver. HasNode tree.now receiver.0) }
{
    match tree.children(call).next() {
        Some(Element::Node(receiver)) => Some(receiver),
        _ => None,
    }
}

/// The placeholder that is alone the receiver of the method call that a node is.
fn placeholder_called_on(names: &Names<'_>, tree: &Tree, node: NodeNo) -> Option<u32>
    requires few { length names.now < 2 ^ 32 }
    requires has { HasNode tree.now node.0 }
    ensures { result ≡ placeholder_called_on names.now (node_of tree.now node.0) }
{
    if !tree.kind(node).is(SyntaxKind::METHOD_CALL_EXPR) {
        return None;
    }
    placeholder_at(names, tree, receiver_of(tree, node)?)
}

/// For each placeholder whether it is alone the receiver of a method call.
pub(crate) fn receivers(
    alloc: Global,
    names: &Names<'_>,
    tree: &Tree,
) -> Result<Vec<bool>, AllocError>
    requires { length names.now < 2 ^ 32 }
    ensures { IfOk result (λ table. TellsReceivers names.now tree.now table.items) }
{
    let mut table = vec![in alloc; false; names.as_slice().len()]?;
    for node in 0..tree.node_count() {
        if let Some(placeholder) = placeholder_called_on(names, tree, NodeNo(node)) {
            table[placeholder as usize] = true;
        }
    }
    Ok(table)
}
