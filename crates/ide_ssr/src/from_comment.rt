//! A finder with the rule that a comment says.

ghost use Rattle.std.specs.Prelude.{◌≡◌, ℕ, None, IfNone, IfOk, IfSome, IsSome, map, option_map};
ghost use Rattle.std.specs.Option.{option_copied};
ghost use Rattle.ide_ssr_refusals.specs.Refusals.{message_of};
ghost use Rattle.ide_ssr_search.specs.Positions.{EndsAt, HoldsAt};
ghost use Rattle.ide_ssr.specs.FromComment.{HasRule, IsComment, IsCommentAt, IsCommentOf, IsFromComment, LacksComment, LacksRule, RefusesRule, behind, behind_first, comment_rule, prefixes, start_of};

use crate::finder::MatchFinder;
use ide_ssr_refusals::SsrError;
use ide_ssr_rules::SsrRule;
use ssr_base::Workspace;
use ssr_base_trees::{FilePosition, FileRange, Semantics, Trees};
use ssr_syntax_kinds::{SyntaxKind, TextRange};
use ssr_syntax_tree::{TokenNo, Tree};
use std::alloc::{AllocError, Global};

/// What a comment begins with: the first of these that fits.
const PREFIXES: [&str; 9] = [
    "/**/", "/***", "////", "///", "//!", "/**", "/*!", "//", "/*",
];

/// The comment that has the byte at an offset.
fn comment_over(tree: &Tree, offset: u32) -> Option<TokenNo>
    ensures some { IfSome result (λ token. IsComment tree.now token.0 × HoldsAt tree.now offset token.0) }
    ensures none { IfNone result ((u : ℕ) → IsComment tree.now u → ¬ HoldsAt tree.now offset u) }
{
    let token = tree.token_at(offset)?;
    if tree.token_kind(token).is(SyntaxKind::COMMENT) {
        Some(token)
    } else {
        None
    }
}

/// The comment that ends at an offset.
fn ending_comment(tree: &Tree, offset: u32) -> Option<TokenNo>
    ensures some { IfSome result (λ token. IsComment tree.now token.0 × EndsAt tree.now offset token.0) }
    ensures none { IfNone result ((u : ℕ) → IsComment tree.now u → ¬ EndsAt tree.now offset u) }
{
    if offset == 0 {
        return None;
    }
    let token = comment_over(tree, offset - 1)?;
    if tree.token_range(token).end == offset {
        Some(token)
    } else {
        None
    }
}

/// The comment that ends at an offset, else the one that holds or begins at it.
fn comment_at(tree: &Tree, offset: u32) -> Option<TokenNo>
    ensures is { IsCommentAt tree.now offset (option_map (λ token. token.0) result) }
    ensures comment { IfSome result (λ token. IsComment tree.now token.0) }
{
    match ending_comment(tree, offset) {
        Some(token) => Some(token),
        None => comment_over(tree, offset),
    }
}

/// The text of the comment at a position, and where it stands.
fn comment_of(workspace: &Trees, position: FilePosition) -> Option<(&str, TextRange)>
    ensures some { IfSome result (λ comment. IsCommentOf workspace.now position comment.0.now comment.1) }
    ensures none { IfNone result (LacksComment workspace.now position) }
{
    let file = position.file_id.0;
    if file >= workspace.file_count() {
        return None;
    }
    let tree = workspace.tree(file)?;
    let token = comment_at(tree, position.offset)?;
    Some((tree.token_text(token), tree.token_range(token)))
}

/// What stands behind a prefix of a text.
fn behind<'a>(text: &'a str, prefix: &str) -> Option<&'a str>
    ensures { option_copied result ≡ behind prefix.now text.now }
{
    text.strip_prefix(prefix)
}

/// What stands behind the first of these prefixes that a text has.
fn behind_first<'a>(text: &'a str, prefixes: &[&str]) -> Option<&'a str>
    ensures { option_copied result ≡ behind_first (map (λ prefix. prefix.now) prefixes.now) text.now }
{
    for prefix in prefixes {
        if let Some(rest) = behind(text, prefix) {
            return Some(rest);
        }
    }
    None
}

/// What stands behind the prefix of a comment.
fn behind_prefix(comment: &str) -> Option<&str>
    ensures { option_copied result ≡ behind_first prefixes comment.now }
{
    behind_first(comment, &PREFIXES)
}

/// The rule that a comment says behind its prefix, if it says one.
fn comment_rule(alloc: Global, comment: &str) -> Result<Option<SsrRule>, AllocError>
    ensures { IfOk result (λ rule. rule ≡ comment_rule comment.now) }
{
    let Some(text) = behind_prefix(comment) else {
        return Ok(None);
    };
    match SsrRule::parse(alloc, text) {
        Ok(rule) => Ok(Some(rule)),
        Err(error) => refused(error),
    }
}

/// Nothing, where something is refused; want of memory stays an error.
fn refused<T>(error: SsrError) -> Result<Option<T>, AllocError>
    ensures nothing { IfOk result (λ found. found ≡ None) }
    ensures message { IfOk result (λ _. IsSome (message_of error)) }
{
    match error {
        SsrError::Message(_) => Ok(None),
        SsrError::Memory => Err(AllocError),
    }
}

/// A finder that is made at a position, without restrictions, and has the rule, if neither is refused.
fn finder_with<'a, S: Semantics>(
    alloc: Global,
    workspace: &'a Workspace,
    semantics: &'a S,
    position: FilePosition,
    rule: SsrRule,
) -> Result<Option<MatchFinder<'a, S>>, AllocError>
    ensures some { IfOk result (λ found. IfSome found (HasRule S.meanings workspace.now semantics.now position rule)) }
    ensures none { IfOk result (λ found. IfNone found (RefusesRule workspace.now (S.meanings semantics.now) position rule)) }
{
    let made = MatchFinder::in_context(alloc, workspace, semantics, position, Vec::new(alloc));
    let mut finder = match made {
        Ok(finder) => finder,
        Err(error) => return refused(error),
    };
    match finder.add_rule(rule) {
        Ok(()) => Ok(Some(finder)),
        Err(error) => refused(error),
    }
}

/// A finder with the rule that a comment says, and where the comment stands: the comment that ends where the range begins, else
/// the one that holds or begins there. Its prefix is taken off, the first that fits of `/**/`, `/***`, `////`, `///`, `//!`,
/// `/**`, `/*!`, `//` and `/*`, and the rest is a rule, also of a block comment its `*/`. The rule's names are looked up where
/// the range begins, and all files are searched. There is none where there is no such file, no comment or no scope, or where
/// the rule is refused.
pub fn ssr_from_comment<'a, S: Semantics>(
    alloc: Global,
    workspace: &'a Workspace,
    semantics: &'a S,
    range: FileRange,
) -> Result<Option<(MatchFinder<'a, S>, TextRange)>, AllocError>
    ensures some { IfOk result (λ found. IfSome found (λ entry. IsFromComment S.meanings workspace.now semantics.now (start_of range) entry.0 entry.1)) }
    ensures none { IfOk result (λ found. IfNone found (LacksRule workspace.now (S.meanings semantics.now) (start_of range))) }
{
    let position = FilePosition {
        file_id: range.file_id,
        offset: range.range.start,
    };
    let Some((comment, place)) = comment_of(workspace.trees(), position) else {
        return Ok(None);
    };
    let Some(rule) = comment_rule(alloc, comment)? else {
        return Ok(None);
    };
    match finder_with(alloc, workspace, semantics, position, rule)? {
        Some(finder) => Ok(Some((finder, place))),
        None => Ok(None),
    }
}
