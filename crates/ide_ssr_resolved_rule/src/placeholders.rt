//! Where placeholders stand in a tree.
ghost use Rattle.std.specs.Prelude.{◌≡◌, ◌<◌, ◌^◌, length, IfOk, IfSome};
ghost use Rattle.std.specs.Option.{option_map};
ghost use Rattle.ssr_syntax_tree.specs.Places.{HasNode, HasToken, node_of, token_of};
ghost use Rattle.ide_ssr_resolved_rule.specs.StandIns.{name_at};
ghost use Rattle.ide_ssr_resolved_rule.specs.Placeholders.{only_token, placeholder_at, token_placeholders};
ghost use Rattle.ide_ssr_resolved_rule.specs.Private.Placeholders.{placeholders};

use crate::names::Names;
use ssr_syntax_kinds::SyntaxKind;
use ssr_syntax_tree::{Element, NodeNo, TokenNo, Tree};
use std::alloc::{AllocError, Global};

/// The only token of a node, reached through single children.
fn only_token(tree: &Tree, node: NodeNo) -> Option<TokenNo>
    requires { HasNode tree.now node.0 }
    ensures token { option_map (λ token. token_of tree.now token.0) result ≡ only_token (node_of tree.now node.0).children }
    ensures has { IfSome result (λ token. HasToken tree.now token.0) }
{
    if tree.child_count(node) != 1 {
        return None;
    }
    match tree.child(node, 0) {
        Element::Token(token) => Some(token),
        Element::Node(below) => only_token(tree, below),
    }
}

/// Which name's stand-in a token is.
#[tactic(auto, unfolding(crate::specs::StandIns::name_at))]
pub(crate) fn name_at(names: &Names<'_>, tree: &Tree, token: TokenNo) -> Option<u32>
    requires few { length names.now < 2 ^ 32 }
    requires has { HasToken tree.now token.0 }
    ensures { result ≡ name_at names.now (token_of tree.now token.0) }
{
    if !matches!(tree.token_kind(token), SyntaxKind::IDENT) {
        return None;
    }
    let place = names.place_of_stand_in(tree.token_text(token))?;
    Some(place as u32)
}

/// Which name's stand-in a node is.
pub(crate) fn placeholder_at(names: &Names<'_>, tree: &Tree, node: NodeNo) -> Option<u32>
    requires few { length names.now < 2 ^ 32 }
    requires has { HasNode tree.now node.0 }
    ensures { result ≡ placeholder_at names.now (node_of tree.now node.0) }
{
    name_at(names, tree, only_token(tree, node)?)
}

/// Which name's stand-in each node of a tree is.
pub(crate) fn placeholders(
    alloc: Global,
    names: &Names<'_>,
    tree: &Tree,
) -> Result<Vec<Option<u32>>, AllocError>
    requires { length names.now < 2 ^ 32 }
    ensures { IfOk result (λ v. v.items ≡ placeholders names.now tree.now) }
{
    let mut table = Vec::new(alloc);
    for node in 0..tree.node_count() {
        table.push(placeholder_at(names, tree, NodeNo(node)))?;
    }
    Ok(table)
}

/// Which name's stand-in each token of a tree is.
pub(crate) fn token_placeholders(
    alloc: Global,
    names: &Names<'_>,
    tree: &Tree,
) -> Result<Vec<Option<u32>>, AllocError>
    requires { length names.now < 2 ^ 32 }
    ensures { IfOk result (λ v. v.items ≡ token_placeholders names.now tree.now) }
{
    let mut table = Vec::new(alloc);
    for token in 0..tree.token_count() {
        table.push(name_at(names, tree, TokenNo(token)))?;
    }
    Ok(table)
}
