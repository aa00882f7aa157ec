//! What the text of a tree is asked for: words that are identifiers elsewhere.
ghost use Rattle.std.specs.Prelude.{◌≡◌};
ghost use Rattle.std.specs.List.{list_any};
ghost use Rattle.ssr_syntax_rows.specs.MacroRules.{is_other_word, is_misnamed, misnames, misnames_macros};
ghost use Rattle.ssr_syntax_tree.specs.Places.{node_of, part_of, parts_of, HasElement, HasNode};

use ssr_syntax_kinds::SyntaxKind;
use ssr_syntax_tree::{Element, NodeNo, Tree};

/// Whether a child is an identifier other than the word.
fn is_other_word(tree: &Tree, child: Element, word: &str) -> bool
    requires { HasElement tree.now child }
    ensures { result ≡ is_other_word word.now (part_of tree.now child) }
{
    match child {
        Element::Token(token) => {
            tree.token_kind(token) == SyntaxKind::IDENT && tree.token_text(token) != word
        }
        Element::Node(_) => false,
    }
}

/// Whether a child of the node is an identifier other than the word.
fn has_other_word(tree: &Tree, node: NodeNo, word: &str) -> bool
    requires { HasNode tree.now node.0 }
    ensures { result ≡ list_any (is_other_word word.now) (parts_of (node_of tree.now node.0)) }
{
    for child in tree.children(node) {
        if is_other_word(tree, child, word) {
            return true;
        }
    }
    false
}

/// Whether the node is of the kind, with an identifier other than the word.
fn is_misnamed(tree: &Tree, node: NodeNo, kind: SyntaxKind, word: &str) -> bool
    requires { HasNode tree.now node.0 }
    ensures { result ≡ is_misnamed kind word.now (node_of tree.now node.0) }
{
    tree.kind(node) == kind && has_other_word(tree, node, word)
}

/// Whether one of the tree's nodes of the kind has an identifier other than the word. Few trees have such a node at all.
fn misnames(tree: &Tree, kind: SyntaxKind, word: &str) -> bool
    ensures { result ≡ misnames kind word.now tree.now }
{
    tree.has_kind(kind) && has_misnamed(tree, kind, word)
}

/// The same, where each node is looked at by itself.
fn has_misnamed(tree: &Tree, kind: SyntaxKind, word: &str) -> bool
    ensures { result ≡ misnames kind word.now tree.now }
{
    for number in 0..tree.node_count() {
        if is_misnamed(tree, NodeNo(number), kind, word) {
            return true;
        }
    }
    false
}

/// Whether one of the tree's nodes is MACRO_RULES, UNION_KW, RAW_KW or SAFE_KW, with an identifier other than its word.
#[tactic(auto, unfolding(crate::specs::MacroRules::misnames_macros))]
pub fn misnames_macros(tree: &Tree) -> bool
    ensures { result ≡ misnames_macros tree.now }
{
    misnames(tree, SyntaxKind::MACRO_RULES, "macro_rules")
        || misnames(tree, SyntaxKind::UNION_KW, "union")
        || misnames(tree, SyntaxKind::RAW_KW, "raw")
        || misnames(tree, SyntaxKind::SAFE_KW, "safe")
}
