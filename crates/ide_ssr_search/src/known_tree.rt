//! A tree that is searched: what is known of it before its nodes are tried.
ghost use Rattle.std.specs.Prelude.{◌≡◌, ◌+◌, ◌↔◌, IsTrue, IfOk, IfSome, Some};
ghost use Rattle.std.specs.Option.{IsSomeAnd};
ghost use Rattle.ssr_syntax_tree.specs.Places.{HasNode};
ghost use Rattle.ssr_base_trees.specs.Workspace.{trees, tree_of, node_id};
ghost use Rattle.ssr_base_trees.specs.Built.{IsBuilt};
ghost use Rattle.ide_ssr_resolved_rule.specs.Resolved.{ResolvedRule as RuleValue};
ghost use Rattle.ide_ssr_search.specs.Permitted.{IsOpen, IsInFunction, IsPermitted};
ghost use Rattle.ide_ssr_search.specs.Private.Roots.{IsAskedBy};
ghost use Rattle.ide_ssr_search.specs.Private.Shut.{IsShutIn, IsShut, TellsPast};
ghost use Rattle.ide_ssr_search.specs.Private.KnownTrees.{IsKnownTree, KnowsShut, KnowsInside, IsEarlierCall, StandsIn};

use crate::bounds::Bounds;
use crate::context::Context;
use crate::permitted::{is_at_or_below, is_searched, shuts};
use crate::roots::Asked;
use ssr_base_trees::{NodeId, Trees};
use ssr_syntax_kinds::SyntaxKind;
use ssr_syntax_tree::{NodeNo, Tree};
use std::alloc::AllocError;
use std::collections::BTreeSet;

/// A tree that is searched, and what is known before its nodes are tried.
#[derive(Clone, Copy)]
pub(crate) struct KnownTree<'a> {
    pub(crate) workspace: &'a Trees,
    pub(crate) context: &'a Context,
    pub(crate) tree: &'a Tree,
    pub(crate) number: u32,
    pub(crate) bounds: Bounds,
    /// Whether what stands above the tree shuts it in.
    pub(crate) shut: bool,
    /// Whether the tree stands below the function around the position.
    pub(crate) inside: bool,
}

impl<'a> KnownTree<'a> {
    /// What is known of a tree, where `shut` are the calls of earlier trees that shut in what they stand for, and `inside`
    /// says which of those trees stand below the function.
    pub(crate) fn new(
        workspace: &'a Trees,
        context: &'a Context,
        tree: &'a Tree,
        number: u32,
        shut: &BTreeSet<NodeId>,
        inside: &[bool],
    ) -> KnownTree<'a>
        requires built { IsBuilt workspace.now }
        requires tree { tree_of workspace.now number ≡ Some tree.now }
        requires shut { KnowsShut workspace.now number 0 shut.now }
        requires inside { KnowsInside workspace.now context.now number inside.now }
        ensures known { IsKnownTree result }
        ensures workspace { result.workspace.now ≡ workspace.now }
        ensures context { result.context.now ≡ context.now }
        ensures number { result.number ≡ number }
    {
        let root = NodeId {
            tree: number,
            node: NodeNo(0),
        };
        let call = workspace.above(root);
        KnownTree {
            workspace,
            context,
            tree,
            number,
            bounds: Bounds::of(workspace, number),
            shut: is_shut(workspace, number, call, shut),
            inside: is_inside(workspace, context, number, call, inside),
        }
    }

    /// The node of a number.
    pub(crate) fn id(&self, node: NodeNo) -> NodeId
        ensures { result ≡ node_id self.now.number node.0 }
    {
        NodeId {
            tree: self.number,
            node,
        }
    }

    /// Whether a node that nothing above it shuts in is open to all rules.
    pub(crate) fn is_open(&self, node: NodeNo) -> bool
        requires known { IsKnownTree self.now }
        requires has { HasNode self.now.tree.now node.0 }
        requires free { ¬ IsShutIn (trees self.now.workspace.now) (node_id self.now.number node.0) }
        ensures { IsTrue result ↔ IsOpen self.now.workspace.now self.now.context.now.restrictions (node_id self.now.number node.0) }
    {
        if self.tree.kind(node).is(SyntaxKind::USE) {
            return false;
        }
        match self.workspace.original_range(self.id(node)) {
            Some(range) => {
                !range.range.is_empty() && is_searched(self.context.restrictions(), range)
            }
            None => false,
        }
    }

    /// Whether a node stands at the function around the position or below it.
    pub(crate) fn is_in_function(&self, node: NodeNo) -> bool
        requires known { IsKnownTree self.now }
        requires has { HasNode self.now.tree.now node.0 }
        ensures { IsTrue result ↔ IsInFunction (trees self.now.workspace.now) self.now.context.now.function (node_id self.now.number node.0) }
    {
        stands_in(
            self.context.function(),
            self.tree,
            self.number,
            self.inside,
            node,
        )
    }

    /// Whether a rule that asks this is permitted at a node that nothing above it shuts in.
    pub(crate) fn is_permitted(&self, asked: Asked<'_>, node: NodeNo) -> bool
        requires known { IsKnownTree self.now }
        requires has { HasNode self.now.tree.now node.0 }
        requires free { ¬ IsShutIn (trees self.now.workspace.now) (node_id self.now.number node.0) }
        ensures { (rule : RuleValue) → IsAskedBy rule asked.entry → IsTrue result ↔ IsPermitted self.now.workspace.now self.now.context.now rule (node_id self.now.number node.0) }
    {
        self.is_open(node) && (!asked.in_function || self.is_in_function(node))
    }

    /// The number behind a node that shuts in what is below it; of any other node 0.
    pub(crate) fn past(&self, node: NodeNo) -> u32
        requires known { IsKnownTree self.now }
        requires has { HasNode self.now.tree.now node.0 }
        ensures { TellsPast (trees self.now.workspace.now) self.now.number self.now.tree.now node.0 result }
    {
        if shuts(self.workspace, self.tree, self.id(node)) {
            self.tree.nodes_below(node).end
        } else {
            0
        }
    }

    /// Adds a macro call to those that shut in what they stand for, if it does so.
    pub(crate) fn add_shut(
        &self,
        node: NodeNo,
        shuts: bool,
        shut: &mut BTreeSet<NodeId>,
    ) -> Result<(), AllocError>
        requires known { IsKnownTree self.now }
        requires has { HasNode self.now.tree.now node.0 }
        requires shuts { IsTrue shuts ↔ IsShut (trees self.now.workspace.now) (node_id self.now.number node.0) }
        requires shut { KnowsShut self.now.workspace.now self.now.number node.0 shut.old }
        ensures { IfOk result (λ _. KnowsShut self.now.workspace.now self.now.number (node.0 + 1) shut.new) }
    {
        if shuts && self.tree.kind(node).is(SyntaxKind::MACRO_CALL) {
            shut.insert(self.id(node))?;
        }
        Ok(())
    }
}

/// Whether the call of a tree, if it has one, shuts in what it stands for.
fn is_shut(workspace: &Trees, number: u32, call: Option<NodeId>, shut: &BTreeSet<NodeId>) -> bool
    requires call { IfSome call (IsEarlierCall workspace.now number) }
    requires shut { KnowsShut workspace.now number 0 shut.now }
    ensures { IsTrue result ↔ IsSomeAnd call (IsShut (trees workspace.now)) }
{
    match call {
        Some(call) => shut.contains(&call),
        None => false,
    }
}

/// Whether the call of a tree, if it has one, stands in the function around the position.
fn is_inside(
    workspace: &Trees,
    context: &Context,
    number: u32,
    call: Option<NodeId>,
    inside: &[bool],
) -> bool
    requires built { IsBuilt workspace.now }
    requires call { IfSome call (IsEarlierCall workspace.now number) }
    requires inside { KnowsInside workspace.now context.now number inside.now }
    ensures { IsTrue result ↔ IsSomeAnd call (IsInFunction (trees workspace.now) context.now.function) }
{
    let Some(call) = call else {
        return false;
    };
    let Some(tree) = workspace.tree(call.tree) else {
        return false;
    };
    let above = inside[call.tree as usize];
    stands_in(context.function(), tree, call.tree, above, call.node)
}

/// Whether a node of a tree stands in the function, where it is known whether the tree stands below it.
fn stands_in(function: Option<NodeId>, tree: &Tree, number: u32, inside: bool, node: NodeNo) -> bool
    ensures { IsTrue result ↔ StandsIn function tree.now number inside node.0 }
{
    let Some(function) = function else {
        return false;
    };
    if function.tree != number {
        return inside;
    }
    is_at_or_below(tree, node, function.node)
}
