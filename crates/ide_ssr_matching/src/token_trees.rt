//! Nodes of a pattern that have placeholders among their own tokens.

ghost use Rattle.std.specs.Prelude.{◌≡◌, ◌∷◌, [], IfOk};
ghost use Rattle.ssr_syntax_tree.specs.Places.{HasNode, HasElement, node_of, part_of, parts_of};
ghost use Rattle.ide_ssr_token_trees.specs.Bindings.{Answers};
ghost use Rattle.ide_ssr_matching.specs.TokenTrees.{is_token_tree, tree_by, has_token_placeholder, is_plain};

use ide_ssr_resolved_rule::ResolvedRule;
use ide_ssr_token_trees::{Record, match_token_trees};
use ssr_syntax_kinds::SyntaxKind;
use ssr_syntax_tree::{Element, NodeNo, Tree};
use std::alloc::AllocError;

/// Whether a node is a token tree.
pub(crate) fn is_token_tree(tree: &Tree, node: NodeNo) -> bool
    requires { HasNode tree.now node.0 }
    ensures { result ≡ is_token_tree (node_of tree.now node.0) }
{
    tree.kind(node).is(SyntaxKind::TOKEN_TREE)
}

/// Whether the node `c` of the code is a token tree that matches the token tree `p` of the rule's pattern; if so, `out` gets what
/// the placeholders hold.
pub(crate) fn tree_matches(
    rule: &ResolvedRule,
    code: &Tree,
    p: NodeNo,
    c: NodeNo,
    out: &mut Record,
) -> Result<bool, AllocError>
    requires p_in { HasNode rule.now.pattern p.0 }
    requires c_in { HasNode code.now c.0 }
    ensures { IfOk result (λ answer. Answers (tree_by rule.now (node_of rule.now.pattern p.0) (node_of code.now c.0)) out.old out.new answer) }
{
    if !is_token_tree(code, c) {
        return Ok(false);
    }
    match_token_trees(rule.token_placeholders(), rule.pattern(), p, code, c, out)
}

/// Whether a child of a node of the pattern is a token that is a placeholder.
fn is_token_placeholder(rule: &ResolvedRule, child: Element) -> bool
    requires { HasElement rule.now.pattern child }
    ensures { result ≡ has_token_placeholder rule.now (part_of rule.now.pattern child ∷ []) }
{
    match child {
        Element::Token(token) => rule.token_placeholders()[token.0 as usize].is_some(),
        Element::Node(_) => false,
    }
}

/// Whether one of the children of a node of the pattern is a token that is a placeholder.
fn has_token_placeholder(rule: &ResolvedRule, p: NodeNo) -> bool
    requires { HasNode rule.now.pattern p.0 }
    ensures { result ≡ has_token_placeholder rule.now (parts_of (node_of rule.now.pattern p.0)) }
{
    for child in rule.pattern().children(p) {
        if is_token_placeholder(rule, child) {
            return true;
        }
    }
    false
}

/// Whether a node of the pattern is no `macro_rules` item of which a token of its own is a placeholder.
pub(crate) fn is_plain(rule: &ResolvedRule, p: NodeNo) -> bool
    requires { HasNode rule.now.pattern p.0 }
    ensures { result ≡ is_plain rule.now (node_of rule.now.pattern p.0) }
{
    !rule.pattern().kind(p).is(SyntaxKind::MACRO_RULES) || !has_token_placeholder(rule, p)
}
