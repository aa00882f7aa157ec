//! The order of the nodes of a workspace, and which stands above which.

ghost use Rattle.std.specs.Prelude.{◌≡◌, ◌+◌, ◌<◌, ◌↔◌, IsTrue};
ghost use Rattle.ssr_base_trees.specs.Workspace.{trees, node_id, above};
ghost use Rattle.ssr_base_trees.specs.Built.{IsNodeOf, IsBuilt};
ghost use Rattle.ssr_base_trees.specs.Laws.{IsBelow};
ghost use Rattle.ide_ssr_bindings.specs.Found.{IsAtOrBelow};
ghost use Rattle.ide_ssr_nesting.specs.Order.{Precedes};

use ssr_base_trees::{NodeId, Trees};
use ssr_syntax_tree::NodeNo;

/// That each workspace is built as it has to be stands in the contract of its methods: this calls one for that alone.
pub(crate) fn is_built(workspace: &Trees)
    ensures { IsBuilt workspace.now }
{
    workspace.file_count();
}

/// The call that the tree of a number stands for. A file has none.
fn call_of(workspace: &Trees, tree: u32) -> Option<NodeId>
    ensures { result ≡ above (trees workspace.now) (node_id tree 0) }
{
    workspace.above(NodeId {
        tree,
        node: NodeNo(0),
    })
}

/// Whether a node comes before another one: files in order, the nodes of a tree in preorder, and those of an expansion
/// directly behind its call. Nothing is numbered: two nodes are compared in one tree, else by the call of the later tree.
pub fn precedes(workspace: &Trees, a: NodeId, b: NodeId) -> bool
    requires a_in { IsNodeOf (trees workspace.now) a }
    requires b_in { IsNodeOf (trees workspace.now) b }
    ensures { IsTrue result ↔ Precedes (trees workspace.now) a b }
{
    is_built(workspace);
    if a.tree == b.tree {
        return a.node.0 < b.node.0;
    }
    if a.tree < b.tree {
        match call_of(workspace, b.tree) {
            Some(call) => !precedes(workspace, call, a),
            None => true,
        }
    } else {
        match call_of(workspace, a.tree) {
            Some(call) => precedes(workspace, call, b),
            None => false,
        }
    }
}

/// Whether a node of a tree is another node of it, or stands below that one.
fn holds(workspace: &Trees, a: NodeId, b: NodeId) -> bool
    requires built { IsBuilt workspace.now }
    requires a_in { IsNodeOf (trees workspace.now) a }
    requires b_in { IsNodeOf (trees workspace.now) b }
    requires same { a.tree ≡ b.tree }
    ensures { IsTrue result ↔ IsAtOrBelow (trees workspace.now) b a }
{
    match workspace.tree(a.tree) {
        Some(tree) => a.node.0 <= b.node.0 && b.node.0 - a.node.0 <= tree.below(a.node),
        None => false,
    }
}

/// Whether a node is another one, or stands above it. It goes up by calls alone.
fn is_at_or_above(workspace: &Trees, a: NodeId, b: NodeId) -> bool
    requires built { IsBuilt workspace.now }
    requires a_in { IsNodeOf (trees workspace.now) a }
    requires b_in { IsNodeOf (trees workspace.now) b }
    ensures { IsTrue result ↔ IsAtOrBelow (trees workspace.now) b a }
{
    if a.tree == b.tree {
        return holds(workspace, a, b);
    }
    if b.tree < a.tree {
        return false;
    }
    match call_of(workspace, b.tree) {
        Some(call) => is_at_or_above(workspace, a, call),
        None => false,
    }
}

/// Whether a node stands above another one: what stands directly above a node is its parent, or, above the root of an
/// expansion, the call.
pub fn is_above(workspace: &Trees, a: NodeId, b: NodeId) -> bool
    requires a_in { IsNodeOf (trees workspace.now) a }
    requires b_in { IsNodeOf (trees workspace.now) b }
    ensures { IsTrue result ↔ IsBelow (trees workspace.now) b a }
{
    is_built(workspace);
    if a == b {
        return false;
    }
    is_at_or_above(workspace, a, b)
}
