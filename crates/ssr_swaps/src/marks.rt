//! A tree without white space and comments as a list of marks: each node, and behind it its children.
ghost use Rattle.std.specs.Prelude.{◌≡◌, ◌↔◌, ◌++◌, IsTrue, OnOk, map};
ghost use Rattle.ssr_syntax_tree.specs.Places.{HasElement, HasNode, node_of, part_of};
ghost use Rattle.ssr_swaps.specs.Private.Marks.{marks_of, node_marks, part_marks, shown};

use ssr_syntax_kinds::SyntaxKind;
use ssr_syntax_tree::{Element, NodeNo, Tree};
use std::alloc::AllocError;

/// A mark of a tree.
#[derive(Clone, Copy)]
pub(crate) enum Mark<'a> {
    /// A node, whose children come next.
    Node(SyntaxKind),
    Token(SyntaxKind, &'a str),
    /// A child that is a node, whose own mark comes later.
    Child,
}

/// Adds the mark of a child, unless it is white space or a comment.
fn push_child<'a>(
    tree: &'a Tree,
    child: Element,
    marks: &mut Vec<Mark<'a>>,
) -> Result<(), AllocError>
    requires { HasElement tree.now child }
    ensures { OnOk result (map shown marks.new.items ≡ map shown marks.old.items ++ part_marks (part_of tree.now child)) }
{
    match child {
        Element::Node(_) => Ok(marks.push(Mark::Child)?),
        Element::Token(token) => {
            let kind = tree.token_kind(token);
            if kind.is_trivia() {
                return Ok(());
            }
            Ok(marks.push(Mark::Token(kind, tree.token_text(token)))?)
        }
    }
}

/// Adds the marks of a node and of its children.
pub(crate) fn push_node<'a>(
    tree: &'a Tree,
    node: NodeNo,
    marks: &mut Vec<Mark<'a>>,
) -> Result<(), AllocError>
    requires { HasNode tree.now node.0 }
    ensures { OnOk result (map shown marks.new.items ≡ map shown marks.old.items ++ node_marks (node_of tree.now node.0)) }
{
    let kind = tree.kind(node);
    marks.push(Mark::Node(kind))?;
    for child in tree.children(node) {
        push_child(tree, child, marks)?;
    }
    Ok(())
}

/// Adds the marks of all nodes of a tree.
pub(crate) fn push_tree<'a>(tree: &'a Tree, marks: &mut Vec<Mark<'a>>) -> Result<(), AllocError>
    ensures { OnOk result (map shown marks.new.items ≡ map shown marks.old.items ++ marks_of tree.now) }
{
    for number in 0..tree.node_count() {
        push_node(tree, NodeNo(number), marks)?;
    }
    Ok(())
}

/// Whether two marks are the same: of tokens their kinds and their texts count.
fn is_same_mark(mark: Mark<'_>, other: Mark<'_>) -> bool
    ensures { IsTrue result ↔ (shown mark.entry ≡ shown other.entry) }
{
    match (mark, other) {
        (Mark::Node(one), Mark::Node(two)) => one.is(two),
        (Mark::Token(one, text), Mark::Token(two, other_text)) => one.is(two) && text == other_text,
        (Mark::Child, Mark::Child) => true,
        _ => false,
    }
}

/// Whether both lists have the same marks.
pub(crate) fn are_same(marks: &[Mark<'_>], others: &[Mark<'_>]) -> bool
    ensures { IsTrue result ↔ (map shown marks.now ≡ map shown others.now) }
{
    if marks.len() != others.len() {
        return false;
    }
    for number in 0..marks.len() {
        if !is_same_mark(marks[number], others[number]) {
            return false;
        }
    }
    true
}
