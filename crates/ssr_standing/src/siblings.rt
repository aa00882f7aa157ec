//! The marks of a node's children, one after the other.
ghost use Rattle.std.specs.Prelude.{◌≡◌, ◌<◌, ◌∷◌, ◌++◌, ◌↔◌, [], false, None, All, IfNone, IfSome, IsTrue, length, map, option_to_list};
ghost use Rattle.ssr_syntax_tree.specs.Places.{HasElement, HasNode, node_of, part_of};
ghost use Rattle.ssr_base_trees.specs.Origins.{span_of};
ghost use Rattle.ssr_standing.specs.Around.{is_trivia_part};
ghost use Rattle.ssr_standing.specs.Private.Marks.{IsMarkOf, shown};
ghost use Rattle.ssr_standing.specs.Private.Outlines.{own_marks};
ghost use Rattle.ssr_standing.specs.Private.Siblings.{HasAll, HaveSameMarks, marks_left, marks_with};

use crate::marks::{Mark, is_same_mark, is_trivia, mark_of};
use crate::passing::Passing;
use ssr_syntax_kinds::SyntaxKind;
use ssr_syntax_tree::{Children, Element, NodeNo, Tree};

/// The children of a node that are left.
#[derive(Drop)]
pub(crate) struct Siblings<'a> {
    tree: &'a Tree,
    passing: Passing<'a>,
    left: Children<'a>,
    /// Whether those in one place are joined.
    joined: bool,
    /// The place that the one in front lies in, if it does.
    before: Option<usize>,
}

/// The next child that is neither white space nor a comment.
fn next_solid(tree: &Tree, left: &mut Children<'_>) -> Option<Element>
    requires { All (HasElement tree.now) left.old }
    ensures none { IfNone result (HaveSameMarks tree.now left.old []) }
    ensures some { IfSome result (λ child. HaveSameMarks tree.now left.old (child ∷ left.new)) }
    ensures solid { IfSome result (λ child. is_trivia_part (part_of tree.now child) ≡ false) }
    ensures has { IfSome result (HasElement tree.now) }
    ensures had { All (HasElement tree.now) left.new }
    ensures fewer { IfSome result (λ _. length left.new < length left.old) }
{
    while let Some(child) = left.next() {
        if !is_trivia(tree, child) {
            return Some(child);
        }
    }
    None
}

impl<'a> Siblings<'a> {
    /// All children of a node.
    pub(crate) fn new(tree: &'a Tree, node: NodeNo, passing: Passing<'a>) -> Siblings<'a>
        requires { HasNode tree.now node.0 }
        ensures had { HasAll result }
        ensures marks { marks_left result ≡ own_marks (map span_of passing.entry.places.now) tree.entry.now (node_of tree.entry.now node.0) }
    {
        Siblings {
            tree,
            passing,
            left: tree.children(node),
            joined: tree.kind(node).is(SyntaxKind::TOKEN_TREE),
            before: None,
        }
    }

    /// The mark of a child in front of those that are left, if it has one.
    fn mark_of(&mut self, child: Element) -> Option<Mark>
        requires has { HasElement self.old.tree.now child }
        requires solid { is_trivia_part (part_of self.old.tree.now child) ≡ false }
        ensures marks { marks_with self.old child ≡ map (shown self.old.tree.now) (option_to_list result) ++ marks_left self.new }
        ensures had { IfSome result (IsMarkOf self.old.tree.now) }
        ensures left { self.new.left ≡ self.old.left }
        ensures tree { self.new.tree ≡ self.old.tree }
    {
        let hole = self.passing.hole_of(self.tree, child);
        let mark = mark_of(self.tree, self.joined, self.before, hole, child);
        self.before = hole;
        mark
    }

    /// The mark of the next child that has one.
    fn next_mark(&mut self) -> Option<Mark>
        requires { HasAll self.old }
        ensures all { HasAll self.new }
        ensures none { IfNone result (marks_left self.old ≡ []) }
        ensures some { IfSome result (λ mark. marks_left self.old ≡ shown self.old.tree.now mark ∷ marks_left self.new) }
        ensures had { IfSome result (IsMarkOf self.old.tree.now) }
        ensures tree { self.new.tree ≡ self.old.tree }
    {
        while let Some(child) = next_solid(self.tree, &mut self.left) {
            let mark = self.mark_of(child);
            if mark.is_some() {
                return mark;
            }
        }
        None
    }
}

/// Whether the same marks are left.
pub(crate) fn are_same(mut one: Siblings<'_>, mut two: Siblings<'_>) -> bool
    requires one { HasAll one }
    requires two { HasAll two }
    ensures { IsTrue result ↔ (marks_left one.entry ≡ marks_left two.entry) }
{
    while let Some(mark) = one.next_mark() {
        let Some(other) = two.next_mark() else {
            return false;
        };
        if !is_same_mark(one.tree, mark, two.tree, other) {
            return false;
        }
    }
    two.next_mark().is_none()
}
