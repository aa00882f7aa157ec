//! Where matches in a tree have to lie.
ghost use Rattle.std.specs.Prelude.{◌≡◌, ◌↔◌, IsTrue, IsSome};
ghost use Rattle.ssr_base_trees.specs.Workspace.{trees, tree_of, file_span_of};
ghost use Rattle.ssr_base_trees.specs.Built.{IsNodeOf};
ghost use Rattle.ide_ssr_search.specs.Permitted.{arguments_range};
ghost use Rattle.ide_ssr_search.specs.Private.Bounds.{AreBoundsOf, AreBounds, LiesInBounds};

use crate::permitted::{arguments_range, lies_in};
use ssr_base_trees::{FileRange, NodeId, Trees};
use ssr_syntax_tree::NodeNo;

/// Where the original ranges of matches in a tree have to lie: anywhere in a file, and in a tree that a macro call stands
/// for in the call's arguments, if these come from somewhere.
#[derive(Clone, Copy)]
pub(crate) enum Bounds {
    Everywhere,
    Within(FileRange),
    Nowhere,
}

impl Bounds {
    /// The bounds of the matches in a tree.
    pub(crate) fn of(workspace: &Trees, tree: u32) -> Bounds
        requires { IsSome (tree_of workspace.now tree) }
        ensures { AreBounds (trees workspace.now) tree result }
    {
        if tree < workspace.file_count() {
            return Bounds::Everywhere;
        }
        let root = NodeId {
            tree,
            node: NodeNo(0),
        };
        match workspace.above(root) {
            Some(call) => Bounds::of_call(workspace, call),
            None => Bounds::Everywhere,
        }
    }

    /// The bounds of the matches in what a call stands for.
    fn of_call(workspace: &Trees, call: NodeId) -> Bounds
        requires { IsNodeOf (trees workspace.now) call }
        ensures { AreBoundsOf (arguments_range (trees workspace.now) call) result }
    {
        let Some(tree) = workspace.tree(call.tree) else {
            return Bounds::Nowhere;
        };
        match arguments_range(workspace, tree, call) {
            Some(range) => Bounds::Within(range),
            None => Bounds::Nowhere,
        }
    }

    /// Whether a range lies in the bounds.
    pub(crate) fn hold(self, range: FileRange) -> bool
        ensures { IsTrue result ↔ LiesInBounds self (file_span_of range) }
    {
        match self {
            Bounds::Everywhere => true,
            Bounds::Within(within) => lies_in(range, within),
            Bounds::Nowhere => false,
        }
    }
}
