//! The nodes among the children of a node, one after the other.

ghost use Rattle.std.specs.Prelude.{◌≡◌, ◌<◌, ◌^◌, All, IfSome, length, option_map};
ghost use Rattle.std.specs.Iterator.{YieldsFirst};
ghost use Rattle.ssr_syntax_tree.specs.Places.{HasNode, node_of};
ghost use Rattle.ide_ssr_matching.specs.Calls.{child_nodes, first_among};
ghost use Rattle.ide_ssr_matching.specs.Private.ChildNodes.{numbers_among, nodes_at, only_among, IsNodeBelow};

use ssr_syntax_tree::{Children, Element, NodeNo, Tree};
use std::marker::Model;

/// The nodes among the children of a node, from the left.
#[derive(Drop)]
pub(crate) struct ChildNodes<'a> {
    left: Children<'a>,
}

impl<'a> Model for ChildNodes<'a> {
    ghost use Rattle.std.specs.Prelude.{List};
    ghost use Rattle.ssr_syntax_tree.specs.declared.number.NodeNo.{NodeNo};
    ghost use Rattle.ide_ssr_matching.specs.Private.ChildNodes.{numbers_among};

    ghost Value = { List NodeNo };

    ghost view = { λ nodes. numbers_among nodes.left };
}

impl<'a> ChildNodes<'a> {
    /// The nodes among the children of a node.
    pub(crate) fn of(tree: &'a Tree, node: NodeNo) -> ChildNodes<'a>
        requires { HasNode tree.now node.0 }
        ensures nodes { nodes_at tree.now result ≡ child_nodes (node_of tree.now node.0) }
        ensures below { All (IsNodeBelow tree.now node.0) result }
        ensures few { length result < 2 ^ 33 }
    {
        ChildNodes {
            left: tree.children(node),
        }
    }
}

/// The next node among the children that are left.
fn next_node(left: &mut Children<'_>) -> Option<NodeNo>
    ensures { YieldsFirst numbers_among left.old result left.new }
{
    while let Some(child) = left.next() {
        if let Element::Node(node) = child {
            return Some(node);
        }
    }
    None
}

impl<'a> Iterator for ChildNodes<'a> {
    type Item = NodeNo;

    ghost use Rattle.std.specs.Iterator.{YieldsFirst, item_count};

    ghost next_gives = { YieldsFirst (λ left. left) };

    ghost remaining = { item_count (λ left. left) };

    fn next(&mut self) -> Option<NodeNo> {
        next_node(&mut self.left)
    }
}

/// The first child of a node that is a node.
pub(crate) fn first_child_node(tree: &Tree, node: NodeNo) -> Option<NodeNo>
    requires { HasNode tree.now node.0 }
    ensures node { option_map (λ child. node_of tree.now child.0) result ≡ first_among (child_nodes (node_of tree.now node.0)) }
    ensures below { IfSome result (IsNodeBelow tree.now node.0) }
{
    ChildNodes::of(tree, node).next()
}

/// The child of a node that is a node, if there is only one.
pub(crate) fn only_child_node(tree: &Tree, node: NodeNo) -> Option<NodeNo>
    requires { HasNode tree.now node.0 }
    ensures node { option_map (λ child. node_of tree.now child.0) result ≡ only_among (child_nodes (node_of tree.now node.0)) }
    ensures below { IfSome result (IsNodeBelow tree.now node.0) }
{
    let mut nodes = ChildNodes::of(tree, node);
    let only = nodes.next()?;
    if nodes.next().is_some() {
        return None;
    }
    Some(only)
}
