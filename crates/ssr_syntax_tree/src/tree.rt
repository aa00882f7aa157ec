//! A syntax tree over one source, and what it tells of its nodes and tokens.

ghost use Rattle.std.specs.Prelude.{All, ◌≡◌, ◌+◌, ◌^◌, ◌<◌, ◌≤◌, ◌↔◌, ℕ, Some, IsTrue, IsNone, IfSome, IfNone, length, slice_get, string_bytes};
ghost use Rattle.std.specs.Str.{IsCharBoundary};

use crate::children::Children;
use crate::node_rows::NodeRows;
use crate::number::{Element, NodeNo, TokenNo};
use crate::rows::NodeRow;
use crate::same::{are_same_nodes, are_same_tokens};
use ssr_syntax_kinds::{SyntaxKind, TextRange, TokenRows};
use std::marker::Model;
use std::ops::Range;

/// A syntax tree over one source, whose texts are slices of that source.
#[derive(Drop)]
pub struct Tree {
    source: String,
    tokens: TokenRows,
    nodes: NodeRows,
}

impl Model for Tree {
    ghost use Rattle.ssr_syntax_tree.specs.Syntax.{Syntax};
    ghost use Rattle.ssr_syntax_tree.specs.SyntaxCode.{syntax_code};

    ghost Value = { Syntax };

    ghost coded = { syntax_code };

    ghost use Rattle.ssr_syntax_tree.specs.Private.Flat.{syntax_of, IsFlat};

    ghost view = { syntax_of };

    ghost invariant = { IsFlat };
}

impl Tree {
    ghost use Rattle.ssr_syntax_tree.specs.Syntax.{Syntax, node_count, token_count, source_of};
    ghost use Rattle.ssr_syntax_tree.specs.Parts.{AreParts, node_row};
    ghost use Rattle.ssr_syntax_tree.specs.Places.{node_of, token_of, size_of, parts_of, part_of, elements_of, text_of, offset_of, depth_at, start_of, end_of, HasNode, HasToken, HasElement, HoldsByte, HoldsRange, IsCovering};

    /// The tree that the parts stand for. The source is shorter than 2^32 bytes.
    pub fn from_parts(source: String, tokens: TokenRows, nodes: NodeRows) -> Tree
        requires { (syntax : Syntax) × AreParts (string_bytes source) tokens nodes syntax }
        ensures { (syntax : Syntax) → AreParts (string_bytes source) tokens nodes syntax → result ≡ syntax }
    {
        Tree {
            source,
            tokens,
            nodes,
        }
    }

    /// The text that the tree spells.
    pub fn source(&self) -> &str
        ensures { result.now ≡ source_of self.now }
    {
        self.source.as_str()
    }

    /// Whether both are the same tree, of the same text.
    pub fn is_same(&self, other: &Tree) -> bool
        ensures { IsTrue result ↔ (self.now ≡ other.now) }
    {
        self.source() == other.source()
            && are_same_tokens(&self.tokens, &other.tokens)
            && are_same_nodes(&self.nodes, &other.nodes)
    }

    /// How many nodes there are, the root among them.
    pub fn node_count(&self) -> u32
        ensures { result ≡ 1 + node_count self.now.children }
    {
        self.nodes.len() as u32
    }

    /// How many tokens there are, trivia among them.
    pub fn token_count(&self) -> u32
        ensures { result ≡ token_count self.now.children }
    {
        self.nodes.row(0).past
    }

    /// Whether the number is that of a node or a token of the tree.
    pub fn has(&self, element: Element) -> bool
        ensures { IsTrue result ↔ HasElement self.now element }
    {
        match element {
            Element::Node(node) => node.0 < self.node_count(),
            Element::Token(token) => token.0 < self.token_count(),
        }
    }

    /// The row of a node.
    fn row(&self, node: NodeNo) -> NodeRow
        requires { HasNode self.now node.0 }
        ensures value { result ≡ node_row (node_of self.now node.0) }
        ensures few { 1 + node_count self.now.children < 2 ^ 32 }
    {
        self.nodes.row(node.0 as usize)
    }

    /// The kind of a node.
    pub fn kind(&self, node: NodeNo) -> SyntaxKind
        requires { HasNode self.now node.0 }
        ensures { result ≡ (node_of self.now node.0).kind }
    {
        self.nodes.kind(node.0 as usize)
    }

    /// Whether some node is of this kind. All kinds are compared, which takes fewer jumps than a stop at the first one.
    pub fn has_kind(&self, kind: SyntaxKind) -> bool
        ensures { IsTrue result ↔ ((n : ℕ) × (HasNode self.now n × ((node_of self.now n).kind ≡ kind))) }
    {
        let kinds = self.nodes.kinds();
        let mut found = false;
        for own in kinds {
            found |= own.is(kind);
        }
        found
    }

    /// The node above; the root has none.
    pub fn parent(&self, node: NodeNo) -> Option<NodeNo>
        requires { HasNode self.now node.0 }
        ensures root { IsNone result ↔ (node.0 ≡ 0) }
        ensures value { IfSome result (λ parent. parent.0 ≡ (node_of self.now node.0).parent) }
        ensures has { IfSome result (λ parent. HasNode self.now parent.0) }
    {
        if node.0 == 0 {
            return None;
        }
        Some(NodeNo(self.row(node).parent))
    }

    /// How many nodes are below the node.
    pub fn below(&self, node: NodeNo) -> u32
        requires { HasNode self.now node.0 }
        ensures { result ≡ node_count (node_of self.now node.0).children }
    {
        self.row(node).below
    }

    /// The numbers of the nodes below the node.
    pub fn nodes_below(&self, node: NodeNo) -> Range<u32>
        requires { HasNode self.now node.0 }
        ensures start { result.start ≡ 1 + node.0 }
        ensures end { result.end ≡ node.0 + size_of (node_of self.now node.0) }
        ensures has { result.end ≤ 1 + node_count self.now.children }
    {
        let row = self.row(node);
        node.0 + 1..node.0 + 1 + row.below
    }

    /// The numbers of the tokens below the node.
    pub fn tokens_below(&self, node: NodeNo) -> Range<u32>
        requires { HasNode self.now node.0 }
        ensures start { result.start ≡ (node_of self.now node.0).first }
        ensures end { result.end ≡ (node_of self.now node.0).first + token_count (node_of self.now node.0).children }
        ensures has { result.end ≤ token_count self.now.children }
    {
        let row = self.row(node);
        row.first..row.past
    }

    /// Where a token begins, in bytes; behind the last one, the length of the source.
    fn offset(&self, token: usize) -> u32
        ensures value { result ≡ offset_of self.now token }
        ensures boundary { IsCharBoundary (source_of self.now) result }
    {
        match self.tokens.get(token) {
            Some(row) => row.start,
            None => self.source.len() as u32,
        }
    }

    /// The bytes of the tokens from `first` up to before `past`.
    fn range_of_tokens(&self, first: usize, past: usize) -> TextRange
        requires { first ≤ past }
        ensures start { result.start ≡ offset_of self.now first }
        ensures end { result.end ≡ offset_of self.now past }
        ensures start_boundary { IsCharBoundary (source_of self.now) result.start }
        ensures end_boundary { IsCharBoundary (source_of self.now) result.end }
    {
        TextRange::new(self.offset(first), self.offset(past))
    }

    /// Where a node stands in the source, in bytes, at character boundaries. A node without tokens has an empty range.
    pub fn range(&self, node: NodeNo) -> TextRange
        requires { HasNode self.now node.0 }
        ensures start { result.start ≡ start_of self.now (node_of self.now node.0) }
        ensures end { result.end ≡ end_of self.now (node_of self.now node.0) }
        ensures start_boundary { IsCharBoundary (source_of self.now) result.start }
        ensures end_boundary { IsCharBoundary (source_of self.now) result.end }
    {
        let tokens = self.tokens_below(node);
        self.range_of_tokens(tokens.start as usize, tokens.end as usize)
    }

    /// The text of a node, with the trivia between its tokens.
    pub fn text(&self, node: NodeNo) -> &str
        requires { HasNode self.now node.0 }
        ensures { result.now ≡ text_of (node_of self.now node.0) }
    {
        let range = self.range(node);
        &self.source[range.start as usize..range.end as usize]
    }

    /// The kind of a token.
    pub fn token_kind(&self, token: TokenNo) -> SyntaxKind
        requires { HasToken self.now token.0 }
        ensures { result ≡ (token_of self.now token.0).kind }
    {
        self.tokens.kinds()[token.0 as usize]
    }

    /// Where a token stands in the source, in bytes, at character boundaries.
    pub fn token_range(&self, token: TokenNo) -> TextRange
        requires { HasToken self.now token.0 }
        ensures start { result.start ≡ offset_of self.now token.0 }
        ensures end { result.end ≡ offset_of self.now (1 + token.0) }
        ensures start_boundary { IsCharBoundary (source_of self.now) result.start }
        ensures end_boundary { IsCharBoundary (source_of self.now) result.end }
    {
        self.range_of_tokens(token.0 as usize, token.0 as usize + 1)
    }

    /// The text of a token.
    pub fn token_text(&self, token: TokenNo) -> &str
        requires { HasToken self.now token.0 }
        ensures { result.now ≡ (token_of self.now token.0).text }
    {
        let range = self.token_range(token);
        &self.source[range.start as usize..range.end as usize]
    }

    /// The token that holds the byte at `offset`; none from the source's end on.
    pub fn token_at(&self, offset: u32) -> Option<TokenNo>
        ensures holds { IfSome result (λ token. HoldsByte self.now token.0 offset) }
        ensures has { IfSome result (λ token. HasToken self.now token.0) }
        ensures none { IsNone result ↔ (length (source_of self.now) ≤ offset) }
    {
        if self.source.len() <= offset as usize {
            return None;
        }
        let mut first = 0;
        let mut past = self.token_count();
        while past - first > 1 {
            let middle = first + (past - first) / 2;
            if self.offset(middle as usize) <= offset {
                first = middle;
            } else {
                past = middle;
            }
        }
        Some(TokenNo(first))
    }

    /// The children of a node, from the left.
    pub fn children(&self, node: NodeNo) -> Children<'_>
        requires { HasNode self.now node.0 }
        ensures elements { result ≡ elements_of (node_of self.now node.0) }
        ensures had { All (HasElement self.now) result }
        ensures few { length result < 2 ^ 33 }
    {
        Children::new(self, node)
    }

    /// How many children a node has; it counts them one by one.
    pub fn child_count(&self, node: NodeNo) -> usize
        requires { HasNode self.now node.0 }
        ensures { result ≡ length (elements_of (node_of self.now node.0)) }
    {
        self.children(node).count()
    }

    /// The child at an index, which is less than `child_count`; it passes those before it one by one.
    pub fn child(&self, node: NodeNo, index: usize) -> Element
        requires has_node { HasNode self.now node.0 }
        requires within { index < length (elements_of (node_of self.now node.0)) }
        ensures element { slice_get (elements_of (node_of self.now node.0)) index ≡ Some result }
        ensures part { slice_get (parts_of (node_of self.now node.0)) index ≡ Some (part_of self.now result) }
        ensures has { HasElement self.now result }
    {
        self.children(node).nth(index).unwrap()
    }

    /// Whether the range of a node holds a range.
    fn holds(&self, node: NodeNo, range: TextRange) -> bool
        requires { HasNode self.now node.0 }
        ensures { IsTrue result ↔ HoldsRange self.now node.0 range }
    {
        let own = self.range(node);
        own.start <= range.start && range.end <= own.end
    }

    /// How many nodes are above a node.
    pub fn depth(&self, node: NodeNo) -> u32
        requires { HasNode self.now node.0 }
        ensures { result ≡ depth_at self.now node.0 }
    {
        let mut depth = 0;
        let mut at = node.0;
        while let Some(parent) = self.parent(NodeNo(at)) {
            depth += 1;
            at = parent.0;
        }
        depth
    }

    /// How many nodes are above a node, where `depth` are above `other`, which often is its parent.
    fn depth_beside(&self, node: NodeNo, other: NodeNo, depth: u32) -> u32
        requires has { HasNode self.now node.0 }
        requires known { depth ≡ depth_at self.now other.0 }
        ensures { result ≡ depth_at self.now node.0 }
    {
        if node.0 > 0 && self.row(node).parent == other.0 {
            return depth + 1;
        }
        self.depth(node)
    }

    /// The deepest node whose range holds the range, the first in preorder on ties.
    pub fn covering(&self, range: TextRange) -> Option<NodeNo>
        ensures deepest { IfSome result (λ node. IsCovering self.now range node.0) }
        ensures none { IfNone result ((n : ℕ) → HasNode self.now n → ¬ HoldsRange self.now n range) }
    {
        let mut found = NodeNo(0);
        if !self.holds(found, range) {
            return None;
        }
        let mut depth = 0;
        let mut next = 1;
        while next < self.node_count() {
            let node = NodeNo(next);
            if self.holds(node, range) {
                let own_depth = self.depth_beside(node, found, depth);
                if depth < own_depth {
                    found = node;
                    depth = own_depth;
                }
                next += 1;
            } else {
                // No node below holds it either.
                next = self.nodes_below(node).end;
            }
        }
        Some(found)
    }
}
