//! A tree and its text, asked by numbers of which some may be none of the tree's: what is asked of these has a plain answer.

use ssr_base_trees::NodeId;
use ssr_syntax_kinds::SyntaxKind;
use ssr_syntax_tree::{Element, NodeNo, TokenNo, Tree};
use std::ops::Range;

/// A tree with its number.
#[derive(Clone, Copy)]
pub(crate) struct Code<'a> {
    pub(crate) number: u32,
    pub(crate) tree: &'a Tree,
}

impl<'a> Code<'a> {
    /// The node among those of all trees.
    pub(crate) fn id(&self, node: NodeNo) -> NodeId {
        NodeId {
            tree: self.number,
            node,
        }
    }

    /// The kind of a node; where there is none, that of white space, which no node has.
    pub(crate) fn kind(&self, node: NodeNo) -> SyntaxKind {
        let tree = self.tree;
        if tree.has(Element::Node(node)) {
            tree.kind(node)
        } else {
            SyntaxKind::WHITESPACE
        }
    }

    /// The kind of a token; where there is none, that of white space.
    pub(crate) fn token_kind(&self, token: u32) -> SyntaxKind {
        let tree = self.tree;
        if tree.has(Element::Token(TokenNo(token))) {
            tree.token_kind(TokenNo(token))
        } else {
            SyntaxKind::WHITESPACE
        }
    }

    /// The text of a token; where there is none, an empty one.
    pub(crate) fn token_text(&self, token: u32) -> &'a str {
        let tree = self.tree;
        if tree.has(Element::Token(TokenNo(token))) {
            tree.token_text(TokenNo(token))
        } else {
            ""
        }
    }

    /// Where a token begins; where there is none, at 0.
    pub(crate) fn token_start(&self, token: u32) -> u32 {
        let tree = self.tree;
        if tree.has(Element::Token(TokenNo(token))) {
            tree.token_range(TokenNo(token)).start
        } else {
            0
        }
    }

    /// The byte behind a token; where there is none, 0.
    pub(crate) fn token_end(&self, token: u32) -> u32 {
        let tree = self.tree;
        if tree.has(Element::Token(TokenNo(token))) {
            tree.token_range(TokenNo(token)).end
        } else {
            0
        }
    }

    /// The tokens below a node.
    pub(crate) fn tokens(&self, node: NodeNo) -> Range<u32> {
        let tree = self.tree;
        if tree.has(Element::Node(node)) {
            tree.tokens_below(node)
        } else {
            0..0
        }
    }

    /// The number behind those of a node and the nodes below it.
    pub(crate) fn end(&self, node: NodeNo) -> u32 {
        let tree = self.tree;
        if tree.has(Element::Node(node)) {
            tree.nodes_below(node).end
        } else {
            0
        }
    }

    /// The node above.
    pub(crate) fn parent(&self, node: NodeNo) -> Option<NodeNo> {
        let tree = self.tree;
        if tree.has(Element::Node(node)) {
            tree.parent(node)
        } else {
            None
        }
    }

    /// The kind of the node above; of the root that of white space, which no node has.
    pub(crate) fn parent_kind(&self, node: NodeNo) -> SyntaxKind {
        match self.parent(node) {
            Some(parent) => self.kind(parent),
            None => SyntaxKind::WHITESPACE,
        }
    }

    /// The first child of a kind.
    pub(crate) fn child(&self, node: NodeNo, kind: SyntaxKind) -> Option<NodeNo> {
        let tree = self.tree;
        if !tree.has(Element::Node(node)) {
            return None;
        }
        for child in tree.children(node) {
            if let Element::Node(below) = child {
                if self.kind(below).is(kind) {
                    return Some(below);
                }
            }
        }
        None
    }

    /// The first token of a kind below a node.
    pub(crate) fn token(&self, node: NodeNo, kind: SyntaxKind) -> Option<u32> {
        let tokens = self.tokens(node);
        for token in tokens.start..tokens.end {
            if self.token_kind(token).is(kind) {
                return Some(token);
            }
        }
        None
    }

    /// The text of an item's name, if it has one.
    pub(crate) fn name(&self, item: NodeNo) -> Option<&'a str> {
        let name = self.child(item, SyntaxKind::NAME)?;
        Some(self.token_text(self.tokens(name).start))
    }
}
