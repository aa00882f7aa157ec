//! Which nodes that usages lead to are open to all rules, told by what stands above each.
ghost use Rattle.std.specs.Prelude.{◌≡◌, ◌<◌, ◌^◌, ◌↔◌, IsTrue, map};
ghost use Rattle.ssr_base_trees.specs.Workspace.{trees, file_span_of};
ghost use Rattle.ssr_base_trees.specs.Built.{IsNodeOf, IsBuilt};
ghost use Rattle.ide_ssr_search.specs.Permitted.{IsOpen, Shuts};
ghost use Rattle.ide_ssr_leading.specs.Private.Reached.{IsShutIn};

use ide_ssr_search::{is_searched, shuts};
use ssr_base_trees::{FileRange, NodeId, Trees};
use ssr_syntax_kinds::SyntaxKind;
use ssr_syntax_tree::Element;

/// Whether a node of the workspace shuts in what is below it.
fn shuts_below(workspace: &Trees, node: NodeId) -> bool
    requires { IsNodeOf (trees workspace.now) node }
    ensures shuts { IsTrue result ↔ Shuts (trees workspace.now) node }
    ensures fits { node.node.0 < 2 ^ 32 }
{
    match workspace.tree(node.tree) {
        Some(tree) => shuts(workspace, tree, node),
        None => false,
    }
}

/// Whether a node that shuts in what is below it stands above a node.
fn is_shut_in(workspace: &Trees, node: NodeId) -> bool
    requires { IsBuilt workspace.now }
    ensures { IsTrue result ↔ IsShutIn (trees workspace.now) node }
{
    let mut at = node;
    while let Some(above) = workspace.above(at) {
        if shuts_below(workspace, above) {
            return true;
        }
        at = above;
    }
    false
}

/// Whether a node is open to all rules.
pub(crate) fn is_open(workspace: &Trees, restrictions: &[FileRange], node: NodeId) -> bool
    requires { IsBuilt workspace.now }
    ensures { IsTrue result ↔ IsOpen workspace.now (map file_span_of restrictions.now) node }
{
    let Some(tree) = workspace.tree(node.tree) else {
        return false;
    };
    if !tree.has(Element::Node(node.node)) || tree.kind(node.node).is(SyntaxKind::USE) {
        return false;
    }
    let Some(range) = workspace.original_range(node) else {
        return false;
    };
    if range.range.is_empty() || !is_searched(restrictions, range) {
        return false;
    }
    !is_shut_in(workspace, node)
}
