//! A node's children, one after the other.

ghost use Rattle.std.specs.Prelude.{All, ◌≡◌, ◌^◌, ◌<◌, length};

use crate::number::{Element, NodeNo, TokenNo};
use crate::tree::Tree;
use std::marker::Model;

/// The children of a node, from the left.
#[derive(Drop)]
pub struct Children<'a> {
    tree: &'a Tree,
    node: NodeNo,
    /// How many children have come.
    count: usize,
    /// The next child is this node, if the node begins at the next token, and else that token.
    next_node: u32,
    next_token: u32,
    past_node: u32,
    past_token: u32,
}

impl<'a> Model for Children<'a> {
    ghost use Rattle.std.specs.Prelude.{List};
    ghost use Rattle.ssr_syntax_tree.specs.declared.number.Element.{Element};

    ghost Value = { List Element };

    ghost use Rattle.ssr_syntax_tree.specs.Private.Siblings.{elements_left, IsStep};

    ghost view = { elements_left };

    ghost invariant = { IsStep };
}

impl<'a> Children<'a> {
    ghost use Rattle.ssr_syntax_tree.specs.Places.{node_of, elements_of, HasNode, HasElement};

    pub(crate) fn new(tree: &'a Tree, node: NodeNo) -> Children<'a>
        requires { HasNode tree.now node.0 }
        ensures elements { result ≡ elements_of (node_of tree.now node.0) }
        ensures had { All (HasElement tree.now) result }
        ensures few { length result < 2 ^ 33 }
    {
        let nodes = tree.nodes_below(node);
        let tokens = tree.tokens_below(node);
        Children {
            tree,
            node,
            count: 0,
            next_node: nodes.start,
            next_token: tokens.start,
            past_node: nodes.end,
            past_token: tokens.end,
        }
    }
}

impl<'a> Iterator for Children<'a> {
    type Item = Element;

    ghost use Rattle.std.specs.Iterator.{YieldsFirst, item_count};

    ghost next_gives = { YieldsFirst (λ left. left) };

    ghost remaining = { item_count (λ left. left) };

    fn next(&mut self) -> Option<Element> {
        if self.next_node < self.past_node {
            let node = NodeNo(self.next_node);
            let tokens = self.tree.tokens_below(node);
            if tokens.start == self.next_token {
                self.count += 1;
                self.next_node = self.tree.nodes_below(node).end;
                self.next_token = tokens.end;
                return Some(Element::Node(node));
            }
        }
        if self.next_token < self.past_token {
            let token = TokenNo(self.next_token);
            self.count += 1;
            self.next_token += 1;
            return Some(Element::Token(token));
        }
        None
    }
}
