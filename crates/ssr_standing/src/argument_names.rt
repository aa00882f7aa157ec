//! Whether something is put into an argument as an assignment, which a macro that formats takes for an argument with a name.
ghost use Rattle.std.specs.Prelude.{◌≡◌, IfOk, length, map};
ghost use Rattle.ssr_syntax_tree.specs.Places.{HasElement, HasNode, elements_of, node_of, part_of};
ghost use Rattle.ssr_base_trees.specs.Origins.{span_of};
ghost use Rattle.ssr_standing.specs.ArgumentNames.{is_assignment, is_equals, is_equals_at, is_in_place, is_put, names_arguments, names_at, some_below};

use crate::holes::Holes;
use ssr_syntax_kinds::{SyntaxKind, TextRange};
use ssr_syntax_tree::{Element, NodeNo, Tree};
use std::alloc::{AllocError, Global};

/// Whether a part of a tree is the token `=`.
fn is_equals(tree: &Tree, part: Element) -> bool
    requires { HasElement tree.now part }
    ensures { result ≡ is_equals (part_of tree.now part) }
{
    match part {
        Element::Token(token) => tree.token_kind(token).is(SyntaxKind::EQ),
        Element::Node(_) => false,
    }
}

/// Whether a child of a node is the token `=`.
fn has_equals(tree: &Tree, node: NodeNo) -> bool
    requires { HasNode tree.now node.0 }
    ensures { result ≡ some_below (is_equals_at (node_of tree.now node.0)) (length (elements_of (node_of tree.now node.0))) }
{
    for index in 0..tree.child_count(node) {
        let child = tree.child(node, index);
        let equals = is_equals(tree, child);
        if equals {
            return true;
        }
    }
    false
}

/// Whether a node is an assignment.
fn is_assignment(tree: &Tree, node: NodeNo) -> bool
    requires { HasNode tree.now node.0 }
    ensures { result ≡ is_assignment (node_of tree.now node.0) }
{
    tree.kind(node).is(SyntaxKind::BIN_EXPR) && has_equals(tree, node)
}

/// Whether a node lies in a place.
fn is_in_place(holes: &Holes<'_>, node: NodeNo) -> bool
    requires { HasNode holes.now.tree.now node.0 }
    ensures { result ≡ is_in_place (map span_of holes.now.places.now) holes.now.tree.now (node_of holes.now.tree.now node.0) }
{
    holes.hole_of(Element::Node(node)).is_some()
}

/// The node that a node stands in; the root stands in itself.
fn around(tree: &Tree, node: NodeNo) -> NodeNo
    requires { HasNode tree.now node.0 }
    ensures parent { result.0 ≡ (node_of tree.now node.0).parent }
    ensures has { HasNode tree.now result.0 }
{
    match tree.parent(node) {
        Some(parent) => parent,
        None => node,
    }
}

/// Whether a node lies in a place, directly in a tuple that doesn't.
fn is_put(holes: &Holes<'_>, node: NodeNo) -> bool
    requires { HasNode holes.now.tree.now node.0 }
    ensures { result ≡ is_put (map span_of holes.now.places.now) holes.now.tree.now (node_of holes.now.tree.now node.0) }
{
    if !is_in_place(holes, node) {
        return false;
    }
    let tuple = around(holes.tree(), node);
    holes.tree().kind(tuple).is(SyntaxKind::TUPLE_EXPR) && !is_in_place(holes, tuple)
}

/// Whether a node is an assignment that lies in a place, directly in a tuple that doesn't.
fn names_at(holes: &Holes<'_>, node: NodeNo) -> bool
    requires { HasNode holes.now.tree.now node.0 }
    ensures { result ≡ names_at (map span_of holes.now.places.now) holes.now.tree.now node.0 }
{
    is_put(holes, node) && is_assignment(holes.tree(), node)
}

/// Whether in one of the places stands an assignment that is a whole argument. `println!("{}", a = b)` prints `b` and assigns nothing.
pub(crate) fn names_arguments(
    alloc: Global,
    tree: &Tree,
    places: &[TextRange],
) -> Result<bool, AllocError>
    ensures { IfOk result (λ answer. answer ≡ names_arguments tree.now (map span_of places.now)) }
{
    let holes = Holes::new(alloc, tree, places)?;
    for number in 0..tree.node_count() {
        let names = names_at(&holes, NodeNo(number));
        if names {
            return Ok(true);
        }
    }
    Ok(false)
}
