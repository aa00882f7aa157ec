//! Whether the same stands at and below two nodes, token by token and node by node.
ghost use Rattle.std.specs.Prelude.{◌≡◌, ◌+◌, ◌≤◌, IsTrue, length, map};
ghost use Rattle.ssr_syntax_tree.specs.Places.{HasNode, HasToken, node_of, size_of, text_of, token_of};
ghost use Rattle.ssr_syntax_tree.specs.Syntax.{token_count, tokens_in};
ghost use Rattle.ssr_standing.specs.Private.Runs.{HaveSameNodes, IsFilled, mould_of, shape_of};

use ssr_syntax_tree::{NodeNo, TokenNo, Tree};

/// A node of a tree with all that is below it.
#[derive(Clone, Copy)]
pub(crate) struct Run<'a> {
    tree: &'a Tree,
    node: NodeNo,
    /// The number of the node behind the last one below it.
    past_node: u32,
    /// The numbers of its first token, and of the one behind its last one.
    token: u32,
    past_token: u32,
    ghost has: { HasNode tree.now node.0 },
    ghost nodes: { past_node ≡ node.0 + size_of (node_of tree.now node.0) },
    ghost begins: { token ≡ (node_of tree.now node.0).first },
    ghost ends: { past_token ≡ token + token_count (node_of tree.now node.0).children },
    ghost within: { past_token ≤ token_count tree.now.children },
}

/// How many bytes a token has.
fn byte_count(tree: &Tree, token: TokenNo) -> u32
    requires { HasToken tree.now token.0 }
    ensures { result ≡ length (token_of tree.now token.0).text }
{
    let range = tree.token_range(token);
    range.end - range.start
}

/// Whether two tokens have the same kind, and as many bytes.
fn is_same_token(tree: &Tree, token: TokenNo, other_tree: &Tree, other: TokenNo) -> bool
    requires token { HasToken tree.now token.0 }
    requires other { HasToken other_tree.now other.0 }
    ensures { IsTrue result → mould_of (token_of tree.now token.0) ≡ mould_of (token_of other_tree.now other.0) }
{
    tree.token_kind(token).is(other_tree.token_kind(other))
        && byte_count(tree, token) == byte_count(other_tree, other)
}

/// Whether two nodes have the same kind and as many tokens, some, behind as many others.
fn is_same_node(
    tree: &Tree,
    node: NodeNo,
    first: u32,
    other_tree: &Tree,
    other: NodeNo,
    other_first: u32,
) -> bool
    requires node { HasNode tree.now node.0 }
    requires other { HasNode other_tree.now other.0 }
    requires first { first ≤ (node_of tree.now node.0).first }
    requires other_first { other_first ≤ (node_of other_tree.now other.0).first }
    ensures same { IsTrue result → shape_of first (node_of tree.now node.0) ≡ shape_of other_first (node_of other_tree.now other.0) }
    ensures filled { IsTrue result → IsFilled (node_of tree.now node.0) }
{
    let tokens = tree.tokens_below(node);
    let others = other_tree.tokens_below(other);
    tree.kind(node).is(other_tree.kind(other))
        && tokens.start < tokens.end
        && tokens.start - first == others.start - other_first
        && tokens.end - tokens.start == others.end - others.start
}

impl<'a> Run<'a> {
    /// A node with all that is below it.
    pub(crate) fn new(tree: &'a Tree, node: NodeNo) -> Run<'a>
        requires { HasNode tree.now node.0 }
        ensures tree { result.tree.now ≡ tree.entry.now }
        ensures node { result.node ≡ node }
    {
        let nodes = tree.nodes_below(node);
        let tokens = tree.tokens_below(node);
        Run {
            tree,
            node,
            past_node: nodes.end,
            token: tokens.start,
            past_token: tokens.end,
        }
    }

    /// The text of the node.
    fn text(&self) -> &'a str
        ensures { result.now ≡ text_of (node_of self.now.tree.now self.now.node.0) }
    {
        self.tree.text(self.node)
    }
}

/// Whether two nodes have as many tokens, each of the same kind and with as many bytes.
fn have_same_tokens(one: Run<'_>, two: Run<'_>) -> bool
    ensures { IsTrue result → map mould_of (tokens_in (node_of one.entry.tree.now one.entry.node.0).children) ≡ map mould_of (tokens_in (node_of two.entry.tree.now two.entry.node.0).children) }
{
    if one.past_token - one.token != two.past_token - two.token {
        return false;
    }
    for number in 0..one.past_token - one.token {
        if !is_same_token(
            one.tree,
            TokenNo(one.token + number),
            two.tree,
            TokenNo(two.token + number),
        ) {
            return false;
        }
    }
    true
}

/// Whether below two nodes stand as many, each of the same kind and with as many tokens, some, at the same place.
fn have_same_nodes(one: Run<'_>, two: Run<'_>) -> bool
    ensures { IsTrue result → HaveSameNodes (node_of one.entry.tree.now one.entry.node.0) (node_of two.entry.tree.now two.entry.node.0) }
{
    if one.past_node - one.node.0 != two.past_node - two.node.0 {
        return false;
    }
    for number in 1..one.past_node - one.node.0 {
        if !is_same_node(
            one.tree,
            NodeNo(one.node.0 + number),
            one.token,
            two.tree,
            NodeNo(two.node.0 + number),
            two.token,
        ) {
            return false;
        }
    }
    true
}

/// Whether two nodes are the same, with all that is below them. No node without tokens is taken for the same as another one.
pub(crate) fn are_same(one: Run<'_>, two: Run<'_>) -> bool
    ensures kind { IsTrue result → (node_of one.entry.tree.now one.entry.node.0).kind ≡ (node_of two.entry.tree.now two.entry.node.0).kind }
    ensures children { IsTrue result → (node_of one.entry.tree.now one.entry.node.0).children ≡ (node_of two.entry.tree.now two.entry.node.0).children }
{
    if !one.tree.kind(one.node).is(two.tree.kind(two.node)) {
        return false;
    }
    if one.text() != two.text() {
        return false;
    }
    if !have_same_tokens(one, two) {
        return false;
    }
    have_same_nodes(one, two)
}
