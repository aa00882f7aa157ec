//! Nodes of a path: its last segment, and what there are arguments.
ghost use Rattle.std.specs.Prelude.{◌≡◌, [], ◌∷◌, IfSome};
ghost use Rattle.std.specs.Option.{option_map};
ghost use Rattle.ssr_syntax_tree.specs.Places.{HasElement, HasNode, node_of, part_of, parts_of};
ghost use Rattle.ide_ssr_resolved_rule.specs.Paths.{below_first, first_of_kind, last_segment, is_arguments};

use ssr_syntax_kinds::SyntaxKind;
use ssr_syntax_tree::{Element, NodeNo, Tree};

/// A child that is a node of this kind.
fn node_of_kind(tree: &Tree, child: Element, kind: SyntaxKind) -> Option<NodeNo>
    requires { HasElement tree.now child }
    ensures node { option_map (λ node. node_of tree.now node.0) result ≡ first_of_kind kind (part_of tree.now child ∷ []) }
    ensures has { IfSome result (λ node. HasNode tree.now node.0) }
{
    let Element::Node(node) = child else {
        return None;
    };
    if tree.kind(node).is(kind) {
        Some(node)
    } else {
        None
    }
}

/// The first child of a node that is a node of this kind.
pub fn first_child(tree: &Tree, node: NodeNo, kind: SyntaxKind) -> Option<NodeNo>
    requires { HasNode tree.now node.0 }
    ensures node { option_map (λ child. node_of tree.now child.0) result ≡ first_of_kind kind (parts_of (node_of tree.now node.0)) }
    ensures below { option_map (λ child. (node_of tree.now child.0).children) result ≡ below_first kind (node_of tree.now node.0).children }
    ensures has { IfSome result (λ child. HasNode tree.now child.0) }
{
    for child in tree.children(node) {
        if let Some(found) = node_of_kind(tree, child, kind) {
            return Some(found);
        }
    }
    None
}

/// The last segment of a path.
pub fn last_segment(tree: &Tree, path: NodeNo) -> Option<NodeNo>
    requires { HasNode tree.now path.0 }
    ensures node { option_map (λ segment. node_of tree.now segment.0) result ≡ first_of_kind SyntaxKind.PATH_SEGMENT (parts_of (node_of tree.now path.0)) }
    ensures below { option_map (λ segment. (node_of tree.now segment.0).children) result ≡ last_segment (node_of tree.now path.0).children }
    ensures has { IfSome result (λ segment. HasNode tree.now segment.0) }
{
    first_child(tree, path, SyntaxKind::PATH_SEGMENT)
}

/// Whether a node of this kind holds arguments of a segment, or the return type behind them.
pub fn is_arguments(kind: SyntaxKind) -> bool
    ensures { result ≡ is_arguments kind }
{
    matches!(
        kind,
        SyntaxKind::GENERIC_ARG_LIST | SyntaxKind::PARENTHESIZED_ARG_LIST | SyntaxKind::RET_TYPE
    )
}
