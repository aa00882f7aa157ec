//! Outlines of trees around the places that are replaced, node by node.
ghost use Rattle.std.specs.Prelude.{◌≡◌, ◌↔◌, [], IsFalse, IsTrue, map};
ghost use Rattle.ssr_syntax_tree.specs.Places.{HasNode, end_of, node_of, start_of};
ghost use Rattle.ssr_base_trees.specs.Origins.{span_of};
ghost use Rattle.ssr_standing.specs.Around.{around};
ghost use Rattle.ssr_standing.specs.Private.Outlines.{BeginAlike, IsAtKept, left_behind, left_of, left_past, own_marks, places_of};
ghost use Rattle.ssr_standing.specs.Private.Passing.{is_clear};
ghost use Rattle.ssr_standing.specs.Private.Siblings.{HasAll, marks_left};

use crate::passing::Passing;
use crate::runs::{self, Run};
use crate::siblings::{self, Siblings};
use ssr_syntax_kinds::{SyntaxKind, TextRange};
use ssr_syntax_tree::{Element, NodeNo, Tree};

/// The outline of a tree around places, from a node on.
#[derive(Drop)]
pub(crate) struct Outline<'a> {
    tree: &'a Tree,
    passing: Passing<'a>,
    node: u32,
}

impl<'a> Outline<'a> {
    /// The outline of a tree around places.
    pub(crate) fn new(tree: &'a Tree, places: &'a [TextRange]) -> Outline<'a>
        ensures { left_of result ≡ around tree.entry.now (map span_of places.entry.now) }
    {
        Outline {
            tree,
            passing: Passing::new(places),
            node: 0,
        }
    }

    /// Passes nodes that lie in places. Whether a node comes behind them.
    fn find(&mut self) -> bool
        ensures left { left_of self.new ≡ left_of self.old }
        ensures there { IsTrue result → IsAtKept self.new }
        ensures none { IsFalse result → left_of self.new ≡ [] }
    {
        while self.node < self.tree.node_count() {
            let node = Element::Node(NodeNo(self.node));
            if self.passing.hole_of(self.tree, node).is_none() {
                return true;
            }
            self.node += 1;
        }
        false
    }

    /// Passes the next node.
    fn pass_node(&mut self)
        requires { HasNode self.old.tree.now self.old.node }
        ensures { left_of self.new ≡ left_behind self.old }
    {
        self.node = self.tree.nodes_below(NodeNo(self.node)).start;
    }

    /// Passes the next node and all below it.
    fn pass_run(&mut self)
        requires { HasNode self.old.tree.now self.old.node }
        ensures { left_of self.new ≡ left_past self.old }
    {
        self.node = self.tree.nodes_below(NodeNo(self.node)).end;
    }

    /// The kind of the next node.
    fn kind(&self) -> SyntaxKind
        requires { HasNode self.now.tree.now self.now.node }
        ensures { result ≡ (node_of self.now.tree.now self.now.node).kind }
    {
        self.tree.kind(NodeNo(self.node))
    }

    /// The children of the next node.
    fn siblings(&self) -> Siblings<'a>
        requires { HasNode self.now.tree.now self.now.node }
        ensures had { HasAll result }
        ensures marks { marks_left result ≡ own_marks (places_of self.now) self.now.tree.now (node_of self.now.tree.now self.now.node) }
    {
        Siblings::new(self.tree, NodeNo(self.node), self.passing)
    }

    /// The next node and all below it.
    fn run(&self) -> Run<'a>
        requires { HasNode self.now.tree.now self.now.node }
        ensures tree { result.tree.now ≡ self.now.tree.now }
        ensures node { result.node.0 ≡ self.now.node }
    {
        Run::new(self.tree, NodeNo(self.node))
    }

    /// Whether no place touches the next node.
    fn is_clear(&self) -> bool
        requires { HasNode self.now.tree.now self.now.node }
        ensures { result ≡ is_clear (places_of self.now) (start_of self.now.tree.now (node_of self.now.tree.now self.now.node)) (end_of self.now.tree.now (node_of self.now.tree.now self.now.node)) }
    {
        self.passing.is_clear(self.tree.range(NodeNo(self.node)))
    }
}

/// Whether the next nodes are the same, with all below them, and no place touches them.
fn are_same_runs(one: &Outline<'_>, two: &Outline<'_>) -> bool
    requires one { IsAtKept one.now }
    requires two { IsAtKept two.now }
    ensures { IsTrue result → BeginAlike (left_of one.now) (left_of two.now) (left_past one.now) (left_past two.now) }
{
    if !one.is_clear() {
        return false;
    }
    if !two.is_clear() {
        return false;
    }
    runs::are_same(one.run(), two.run())
}

/// Whether the next nodes have the same marks.
fn are_same_nodes(one: &Outline<'_>, two: &Outline<'_>) -> bool
    requires one { IsAtKept one.now }
    requires two { IsAtKept two.now }
    ensures alike { IsTrue result → BeginAlike (left_of one.now) (left_of two.now) (left_behind one.now) (left_behind two.now) }
    ensures same { left_of one.now ≡ left_of two.now → IsTrue result }
{
    one.kind().is(two.kind()) && siblings::are_same(one.siblings(), two.siblings())
}

/// Whether the same is left of both.
pub(crate) fn are_same(mut one: Outline<'_>, mut two: Outline<'_>) -> bool
    ensures { IsTrue result ↔ (left_of one.entry ≡ left_of two.entry) }
{
    while one.find() {
        if !two.find() {
            return false;
        }
        if are_same_runs(&one, &two) {
            one.pass_run();
            two.pass_run();
        } else if are_same_nodes(&one, &two) {
            one.pass_node();
            two.pass_node();
        } else {
            return false;
        }
    }
    !two.find()
}
