//! What each token of a template is: what is written for it.
ghost use Rattle.std.specs.Prelude.{◌≡◌, ◌<◌, ◌≤◌, ◌^◌, ℕ, IfOk, IfSome, if◌then◌else◌, length, slice_index_or};
ghost use Rattle.std.specs.Option.{option_map};
ghost use Rattle.ssr_syntax_tree.specs.Places.{HasNode, HasToken, node_of, token_of};
ghost use Rattle.ssr_syntax_tree.specs.Syntax.{token_count};
ghost use Rattle.ide_ssr_resolved_rule.specs.Templates.{is_among, is_printed, name_of, past_name, printed_token, unprinted};
ghost use Rattle.ide_ssr_resolved_rule.specs.Private.TemplateTables.{TellsTokens, unprinted_tokens};
ghost use Rattle.ide_ssr_resolved_rule.specs.UsedPaths.{HasPaths};
ghost use Rattle.ide_ssr_resolved_rule.specs.declared.templates.TemplateToken.TheVariants as t;

use crate::names::Names;
use crate::paths::{first_child, last_segment};
use crate::placeholders::name_at;
use crate::used_paths::UsedPath;
use ssr_base_trees::Res;
use ssr_syntax_kinds::SyntaxKind;
use ssr_syntax_tree::{NodeNo, TokenNo, Tree};
use std::alloc::{AllocError, Global};

/// What a token of a template is.
#[derive(Clone, Copy, Debug, PartialEq, Eq)]
pub enum TemplateToken {
    /// It is written as it is spelled.
    Spelled,
    /// The stand-in of the placeholder whose name has this place.
    Placeholder(u32),
    /// The first token of a used path that names a definition: the one with this place among the template's. The path up to
    /// its name is written as a scope reaches the definition.
    Path(usize),
    /// Another token of such a path up to its name. Nothing is written for it.
    InPath,
}

/// The name of a path's last segment.
fn name_of(tree: &Tree, path: NodeNo) -> Option<NodeNo>
    requires { HasNode tree.now path.0 }
    ensures node { option_map (λ name. node_of tree.now name.0) result ≡ name_of (node_of tree.now path.0) }
    ensures has { IfSome result (λ name. HasNode tree.now name.0) }
{
    let segment = last_segment(tree, path)?;
    first_child(tree, segment, SyntaxKind::NAME_REF)
}

/// The number of the token past those of a path up to its name, or past all of them, where it has none.
fn past_name(tree: &Tree, path: NodeNo) -> u32
    requires { HasNode tree.now path.0 }
    ensures past { result ≡ past_name (node_of tree.now path.0) }
    ensures within { result ≤ token_count tree.now.children }
{
    match name_of(tree, path) {
        Some(name) => tree.tokens_below(name).end,
        None => tree.tokens_below(path).end,
    }
}

/// What a token is that is printed: the first one stands for all of its path.
fn printed_token(first: u32, place: usize, token: u32) -> TemplateToken
    ensures { result ≡ printed_token first place token }
{
    if token == first {
        TemplateToken::Path(place)
    } else {
        TemplateToken::InPath
    }
}

/// Notes that the tokens from `first` up to before `past` are printed for the path with this place.
fn mark(table: &mut Vec<TemplateToken>, first: u32, past: u32, place: usize)
    requires { past ≤ length table.old.items }
    ensures long { length table.new.items ≡ length table.old.items }
    ensures marked { (n : ℕ) → slice_index_or table.new.items n t.Spelled ≡ (if is_among first past n then printed_token first place n else slice_index_or table.old.items n t.Spelled) }
{
    for token in first..past {
        table[token as usize] = printed_token(first, place, token);
    }
}

/// Notes which tokens are printed for the used path with this place.
fn mark_path(table: &mut Vec<TemplateToken>, tree: &Tree, path: UsedPath, place: usize)
    requires has { HasNode tree.now path.node.0 }
    requires within { length table.old.items ≡ token_count tree.now.children }
    ensures long { length table.new.items ≡ length table.old.items }
    ensures marked { (n : ℕ) → slice_index_or table.new.items n t.Spelled ≡ (if is_printed tree.now n path then printed_token (node_of tree.now path.node.0).first place n else slice_index_or table.old.items n t.Spelled) }
{
    if let Res::Def(_) = path.res {
        let first = tree.tokens_below(path.node).start;
        mark(table, first, past_name(tree, path.node), place);
    }
}

/// What a token is that is not printed.
fn unprinted(names: &Names<'_>, tree: &Tree, token: TokenNo) -> TemplateToken
    requires few { length names.now < 2 ^ 32 }
    requires has { HasToken tree.now token.0 }
    ensures { result ≡ unprinted names.now (token_of tree.now token.0) }
{
    match name_at(names, tree, token) {
        Some(place) => TemplateToken::Placeholder(place),
        None => TemplateToken::Spelled,
    }
}

/// What each token of a template is, where none is printed.
fn unprinted_tokens(
    alloc: Global,
    names: &Names<'_>,
    tree: &Tree,
) -> Result<Vec<TemplateToken>, AllocError>
    requires { length names.now < 2 ^ 32 }
    ensures { IfOk result (λ table. table.items ≡ unprinted_tokens names.now tree.now) }
{
    let mut table = Vec::with_capacity(alloc, tree.token_count() as usize)?;
    for token in 0..tree.token_count() {
        table.push(unprinted(names, tree, TokenNo(token)))?;
    }
    Ok(table)
}

/// What each token of a template is, which has these used paths.
pub(crate) fn template_tokens(
    alloc: Global,
    names: &Names<'_>,
    tree: &Tree,
    paths: &[UsedPath],
) -> Result<Vec<TemplateToken>, AllocError>
    requires few { length names.now < 2 ^ 32 }
    requires has { HasPaths tree.now paths.now }
    ensures { IfOk result (λ table. TellsTokens names.now paths.now tree.now table.items) }
{
    let mut table = unprinted_tokens(alloc, names, tree)?;
    // From the last path to the first, so that the first one that has a token keeps it.
    for place in (0..paths.len()).rev() {
        mark_path(&mut table, tree, paths[place], place);
    }
    Ok(table)
}
