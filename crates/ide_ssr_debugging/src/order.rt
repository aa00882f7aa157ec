//! Nodes in the order of the debug list.

ghost use Rattle.std.specs.Prelude.{◌≡◌, ◌≢◌, ◌↔◌, All, AllPairs, Contains};
ghost use Rattle.std.specs.Ordering.{is_lt};
ghost use Rattle.ssr_base_trees.specs.declared.ids.NodeId.{NodeId as Id};
ghost use Rattle.ssr_base_trees.specs.Workspace.{trees};
ghost use Rattle.ssr_base_trees.specs.Built.{IsNodeOf, IsBuilt};
ghost use Rattle.ide_ssr_debugging.specs.Debugging.{start, NodeBefore};
ghost use Rattle.ide_ssr_debugging.specs.Private.Order.{is_node, is_ahead};

use ide_ssr_nesting::{laws, precedes};
use ssr_base_trees::{NodeId, Trees};
use ssr_syntax_tree::Element;
use std::cmp::Ordering;

/// Where the original range of a node begins.
fn start(workspace: &Trees, node: NodeId) -> u32
    ensures { result ≡ start (trees workspace.now) node }
{
    match workspace.original_range(node) {
        Some(range) => range.range.start,
        None => 0,
    }
}

/// Whether the workspace has a node.
fn is_node(workspace: &Trees, node: NodeId) -> bool
    ensures { result ≡ is_node (trees workspace.now) node }
{
    match workspace.tree(node.tree) {
        Some(tree) => tree.has(Element::Node(node.node)),
        None => false,
    }
}

/// Whether `a` is sorted in front of `b`, where a node that the workspace lacks, which no snippet shows, comes before all others
/// that begin where it does.
fn is_ahead(workspace: &Trees, a: NodeId, b: NodeId) -> bool
    ensures { result ≡ is_ahead (trees workspace.now) a b }
{
    let (a_start, b_start) = (start(workspace, a), start(workspace, b));
    if a_start != b_start {
        return a_start < b_start;
    }
    if !is_node(workspace, b) {
        return false;
    }
    if !is_node(workspace, a) {
        return true;
    }
    precedes(workspace, a, b)
}

fn compare(workspace: &Trees, a: NodeId, b: NodeId) -> Ordering
    ensures { is_lt result ≡ is_ahead (trees workspace.now) a b }
{
    if is_ahead(workspace, a, b) {
        Ordering::Less
    } else if is_ahead(workspace, b, a) {
        Ordering::Greater
    } else {
        Ordering::Equal
    }
}

/// Puts nodes in order, of which none comes twice.
pub(crate) fn put_in_order(workspace: &Trees, nodes: &mut Vec<NodeId>)
    requires built { IsBuilt workspace.now }
    requires nodes { All (IsNodeOf (trees workspace.now)) nodes.old.items }
    requires once { AllPairs (λ a b. a ≢ b) nodes.old.items }
    ensures in_order { AllPairs (NodeBefore (trees workspace.now)) nodes.new.items }
    ensures same { (x : Id) → Contains nodes.new.items x ↔ Contains nodes.old.items x }
{
    // For its contract alone: no two nodes have one place.
    laws::ordering();
    nodes.sort_unstable_by(|a, b| compare(workspace, *a, *b));
}
