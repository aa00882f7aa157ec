//! Paths of names.
ghost use Rattle.std.specs.Prelude.{◌∷◌, [], IsTrue};
ghost use Rattle.ssr_syntax_kinds.specs.Kinds.{same_kind};
ghost use Rattle.ssr_syntax_tree.specs.Places.{HasNode, HasToken, node_of};
ghost use Rattle.ssr_syntax_shorts.specs.Private.Marks.{IsMark, IsNameRef, IsPathAt, IsSegment};

use crate::shapes::{Shape, shape_of};
use crate::tokens::Walk;
use ssr_syntax_kinds::SyntaxKind;
use ssr_syntax_tree::{Element, NodeNo, TokenNo};

/// What a segment of a path may be.
const PATH_NAMES: &[SyntaxKind] = &[
    SyntaxKind::IDENT,
    SyntaxKind::SELF_KW,
    SyntaxKind::SELF_TYPE_KW,
    SyntaxKind::SUPER_KW,
    SyntaxKind::CRATE_KW,
];

/// Whether a node is one token of these kinds, as a name that stands for itself.
pub(crate) fn is_name_ref(walk: &Walk<'_>, node: NodeNo, kinds: &[SyntaxKind]) -> bool
    requires { HasNode walk.now.tree.now node.0 }
    ensures { IsTrue result → IsNameRef walk.now.tree.now walk.now.names.now kinds.now node.0 }
{
    match shape_of(walk.tree, node) {
        Some(Shape::One(Element::Token(name))) => {
            walk.tree.kind(node).is(SyntaxKind::NAME_REF) && walk.is_mark(name, kinds)
        }
        _ => false,
    }
}

/// Whether a node is a segment of a path that is a name, which stands for itself.
fn is_segment(walk: &Walk<'_>, node: NodeNo) -> bool
    requires { HasNode walk.now.tree.now node.0 }
    ensures { IsTrue result → IsSegment walk.now.tree.now walk.now.names.now node.0 }
{
    match shape_of(walk.tree, node) {
        Some(Shape::One(Element::Node(name))) => {
            walk.tree.kind(node).is(SyntaxKind::PATH_SEGMENT) && is_name_ref(walk, name, PATH_NAMES)
        }
        _ => false,
    }
}

/// Whether what stands behind a path goes on with it: `::` and a name.
fn goes_on(walk: &Walk<'_>, path: NodeNo, colons: TokenNo, name: NodeNo) -> bool
    requires path { HasNode walk.now.tree.now path.0 }
    requires colons { HasToken walk.now.tree.now colons.0 }
    requires name { HasNode walk.now.tree.now name.0 }
    ensures path { IsTrue result → IsTrue (same_kind (node_of walk.now.tree.now path.0).kind SyntaxKind.PATH) }
    ensures colons { IsTrue result → IsMark walk.now.tree.now walk.now.names.now (SyntaxKind.COLON2 ∷ []) colons.0 }
    ensures name { IsTrue result → IsSegment walk.now.tree.now walk.now.names.now name.0 }
{
    walk.tree.kind(path).is(SyntaxKind::PATH)
        && walk.is_mark(colons, &[SyntaxKind::COLON2])
        && is_segment(walk, name)
}

/// Whether what is below a node is a path of names.
pub(crate) fn is_path(walk: &Walk<'_>, node: NodeNo) -> bool
    requires { HasNode walk.now.tree.now node.0 }
    ensures { IsTrue result → IsPathAt walk.now.tree.now walk.now.names.now node.0 }
{
    match shape_of(walk.tree, node) {
        Some(Shape::One(Element::Node(name))) => is_segment(walk, name),
        Some(Shape::Three(Element::Node(path), Element::Token(colons), Element::Node(name))) => {
            goes_on(walk, path, colons, name) && is_path(walk, path)
        }
        _ => false,
    }
}
