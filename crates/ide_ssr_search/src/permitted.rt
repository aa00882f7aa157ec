//! At which nodes a rule is tried.
ghost use Rattle.std.specs.Prelude.{◌≡◌, ◌+◌, ◌<◌, ◌≤◌, ◌↔◌, ◌&&◌, ◌||◌, not, IsTrue, Some, [], ◌∷◌, drop, map, option_map};
ghost use Rattle.ssr_syntax_kinds.specs.Kinds.{same_kind, is_trivia};
ghost use Rattle.ssr_syntax_tree.specs.Syntax.{tokens_of};
ghost use Rattle.ssr_syntax_tree.specs.Places.{HasNode, HasToken, HasElement, node_of, token_of, part_of, parts_of, size_of};
ghost use Rattle.ssr_base_trees.specs.Workspace.{trees, tree_of, file_span_of};
ghost use Rattle.ssr_base_trees.specs.Laws.{LiesIn};
ghost use Rattle.ide_ssr_search.specs.Permitted.{IsSearched, begins_with, first_token_tree, arguments_range, Shuts, is_double_colon, names_self};

use ssr_base_trees::{FileRange, NodeId, Trees};
use ssr_syntax_kinds::SyntaxKind;
use ssr_syntax_tree::{Element, NodeNo, TokenNo, Tree};

/// A child that is a token tree.
fn token_tree(tree: &Tree, child: Element) -> Option<NodeNo>
    requires { HasElement tree.now child }
    ensures { option_map (λ node. node.0) result ≡ first_token_tree (part_of tree.now child ∷ []) }
{
    let Element::Node(node) = child else {
        return None;
    };
    if tree.kind(node).is(SyntaxKind::TOKEN_TREE) {
        Some(node)
    } else {
        None
    }
}

/// The arguments of a macro call: its first child that is a token tree.
fn arguments(tree: &Tree, call: NodeNo) -> Option<NodeNo>
    requires { HasNode tree.now call.0 }
    ensures { option_map (λ node. node.0) result ≡ first_token_tree (parts_of (node_of tree.now call.0)) }
{
    for child in tree.children(call) {
        if let Some(node) = token_tree(tree, child) {
            return Some(node);
        }
    }
    None
}

/// Where the arguments of a macro call come from.
pub(crate) fn arguments_range(workspace: &Trees, tree: &Tree, call: NodeId) -> Option<FileRange>
    requires tree { tree_of workspace.now call.tree ≡ Some tree.now }
    requires has { HasNode tree.now call.node.0 }
    ensures { option_map file_span_of result ≡ arguments_range (trees workspace.now) call }
{
    let node = arguments(tree, call.node)?;
    workspace.original_range(NodeId {
        tree: call.tree,
        node,
    })
}

/// Whether nothing is tried below a node: it is a USE, or a macro call whose arguments have no original range.
pub fn shuts(workspace: &Trees, tree: &Tree, node: NodeId) -> bool
    requires tree { tree_of workspace.now node.tree ≡ Some tree.now }
    requires has { HasNode tree.now node.node.0 }
    ensures { IsTrue result ↔ Shuts (trees workspace.now) node }
{
    let kind = tree.kind(node.node);
    if kind.is(SyntaxKind::USE) {
        return true;
    }
    if !kind.is(SyntaxKind::MACRO_CALL) {
        return false;
    }
    arguments_range(workspace, tree, node).is_none()
}

/// Whether a range lies in another one.
pub(crate) fn lies_in(inner: FileRange, outer: FileRange) -> bool
    ensures { IsTrue result ↔ LiesIn (file_span_of inner) (file_span_of outer) }
{
    inner.file_id.0 == outer.file_id.0
        && outer.range.start <= inner.range.start
        && inner.range.end <= outer.range.end
}

/// Whether a range is searched: without restrictions each is, else one that lies in one of them.
pub fn is_searched(restrictions: &[FileRange], range: FileRange) -> bool
    ensures { IsTrue result ↔ IsSearched (map file_span_of restrictions.now) (file_span_of range) }
{
    if restrictions.is_empty() {
        return true;
    }
    for restriction in restrictions {
        if lies_in(range, *restriction) {
            return true;
        }
    }
    false
}

/// Whether `:` stands directly behind a token.
fn colon_follows(tree: &Tree, token: TokenNo) -> bool
    requires { HasToken tree.now token.0 }
    ensures { result ≡ begins_with SyntaxKind.COLON (drop (token.0 + 1) (tokens_of tree.now)) }
{
    let count = tree.token_count();
    let next = token.0 + 1;
    next < count && tree.token_kind(TokenNo(next)).is(SyntaxKind::COLON)
}

/// Whether `::` begins at a token: in token trees it is two tokens, one directly behind the other.
fn is_double_colon(tree: &Tree, token: TokenNo) -> bool
    requires { HasToken tree.now token.0 }
    ensures { result ≡ is_double_colon (token_of tree.now token.0) (drop (token.0 + 1) (tokens_of tree.now)) }
{
    let kind = tree.token_kind(token);
    kind.is(SyntaxKind::COLON2) || kind.is(SyntaxKind::COLON) && colon_follows(tree, token)
}

/// Whether a token comes behind a `self`, trivia aside, and isn't `::`.
fn ends_self(tree: &Tree, begun: bool, token: TokenNo) -> bool
    requires { HasToken tree.now token.0 }
    ensures { result ≡ (begun && (not (is_trivia (token_of tree.now token.0).kind) && not (is_double_colon (token_of tree.now token.0) (drop (token.0 + 1) (tokens_of tree.now))))) }
{
    begun && !tree.token_kind(token).is_trivia() && !is_double_colon(tree, token)
}

/// Whether a `self` is followed by trivia alone, once a token has come.
fn stays_begun(begun: bool, kind: SyntaxKind) -> bool
    ensures { result ≡ (same_kind kind SyntaxKind.SELF_KW || (begun && is_trivia kind)) }
{
    kind.is(SyntaxKind::SELF_KW) || begun && kind.is_trivia()
}

/// Whether a tree has a token `self` that isn't followed, trivia aside, by `::`.
pub fn names_self(tree: &Tree) -> bool
    ensures { result ≡ names_self (tokens_of tree.now) }
{
    // Whether a `self` has come that trivia alone have followed so far.
    let mut begun = false;
    for number in 0..tree.token_count() {
        let token = TokenNo(number);
        if ends_self(tree, begun, token) {
            return true;
        }
        begun = stays_begun(begun, tree.token_kind(token));
    }
    begun
}

/// Whether a node of a tree is another one or stands below it, if there is such a node.
pub(crate) fn is_at_or_below(tree: &Tree, node: NodeNo, upper: NodeNo) -> bool
    ensures { IsTrue result ↔ (HasNode tree.now upper.0 × ((upper.0 ≤ node.0) × (node.0 < upper.0 + size_of (node_of tree.now upper.0)))) }
{
    tree.has(Element::Node(upper)) && upper.0 <= node.0 && node.0 < tree.nodes_below(upper).end
}
