//! The children of a node that are neither white space nor comments.
ghost use Rattle.std.specs.Prelude.{◌≡◌, ◌∷◌, ◌++◌, [], IfSome, if◌then◌else◌};
ghost use Rattle.ssr_syntax_kinds.specs.Kinds.{is_trivia};
ghost use Rattle.ssr_syntax_tree.specs.Places.{HasElement, HasNode, part_of};
ghost use Rattle.ssr_syntax_shorts.specs.Private.Shapes.{elements_in, solid_parts, AreSolid};

use ssr_syntax_tree::{Element, NodeNo, Tree};

/// Up to four children of a node.
#[derive(Clone, Copy)]
pub(crate) enum Shape {
    Empty,
    One(Element),
    Two(Element, Element),
    Three(Element, Element, Element),
    Four(Element, Element, Element, Element),
}

/// The children with one more, if there is room.
fn with(shape: Shape, child: Element) -> Option<Shape>
    ensures { IfSome result (λ longer. elements_in longer ≡ elements_in shape ++ child ∷ []) }
{
    match shape {
        Shape::Empty => Some(Shape::One(child)),
        Shape::One(a) => Some(Shape::Two(a, child)),
        Shape::Two(a, b) => Some(Shape::Three(a, b, child)),
        Shape::Three(a, b, c) => Some(Shape::Four(a, b, c, child)),
        Shape::Four(_, _, _, _) => None,
    }
}

/// Whether a child is white space or a comment.
pub(crate) fn is_trivia(tree: &Tree, child: Element) -> bool
    requires { HasElement tree.now child }
    ensures { solid_parts (part_of tree.now child ∷ []) ≡ (if result then [] else part_of tree.now child ∷ []) }
{
    match child {
        Element::Token(token) => tree.token_kind(token).is_trivia(),
        Element::Node(_) => false,
    }
}

/// The children of a node without white space and comments, if they are at most four.
pub(crate) fn shape_of(tree: &Tree, node: NodeNo) -> Option<Shape>
    requires { HasNode tree.now node.0 }
    ensures { IfSome result (λ shape. AreSolid tree.now node.0 (elements_in shape)) }
{
    let mut shape = Shape::Empty;
    for child in tree.children(node) {
        if !is_trivia(tree, child) {
            shape = with(shape, child)?;
        }
    }
    Some(shape)
}
