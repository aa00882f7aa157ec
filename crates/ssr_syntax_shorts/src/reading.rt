//! What is read of a short text in the place of the long one.
ghost use Rattle.std.specs.Prelude.{◌≡◌, ◌+◌, ◌-◌, ◌<◌, ◌≤◌, ◌==◌, ◌&&◌, ℕ, List, [], ◌∷◌, IfOk, IfSome, IsTrue, Some};
ghost use Rattle.ssr_syntax_kinds.specs.declared.reach.Reach.{Reach};
ghost use Rattle.ssr_syntax_lex.specs.Seams.{has_token_at};
ghost use Rattle.ssr_syntax_lex.specs.Tokens.{tokens};
ghost use Rattle.ssr_syntax_tree.specs.Places.{HasToken, token_of};
ghost use Rattle.ssr_syntax_forms.specs.Kinds.{mem};
ghost use Rattle.ssr_syntax.specs.Reading.{trimmed, trimmed_front};
ghost use Rattle.ssr_syntax_places.specs.PlainCore.{of_three, of_two, size_of_kind, solid_size};
ghost use Rattle.ssr_syntax_places.specs.Spans.{has_node_at};
ghost use Rattle.ssr_syntax_shorts.specs.Names.{place_of};
ghost use Rattle.ssr_syntax_shorts.specs.Shorts.{IsOutside, IsReadOf, IsShort, long_place};
ghost use Rattle.ssr_syntax_shorts.specs.Told.{AreTokens, IsCut, IsFilledWithin, IsSolidAt, IsTold, depth_below, solid_before};

use crate::short::Short;
use crate::stand_ins::Name;
use crate::walk::is_core;
use ssr_syntax::{Fragment, Reach, SyntaxError, fragment_of};
use ssr_syntax_kinds::SyntaxKind;
use ssr_syntax_lex::{LexError, RawToken, lex};
use ssr_syntax_tree::{NodeNo, TokenNo, Tree};
use std::alloc::{AllocError, Global};
use std::marker::Model;

/// How deep a tree may be.
const MOST_DEEP: u32 = 1024;

/// The tree of a short text, which tells the nodes of the long one. `IsReadOf` says of which long text it is.
#[derive(Drop)]
pub struct ShortTree<'a> {
    tree: Tree,
    names: &'a [Name],
    depth: u32,
    bytes: usize,
}

impl<'a> Model for ShortTree<'a> {
    ghost use Rattle.ssr_syntax_shorts.specs.Shorts.{ShortRead};
    ghost use Rattle.ssr_syntax_shorts.specs.ShortsCode.{read_code};

    ghost Value = { ShortRead };

    ghost coded = { read_code };

    ghost view = { λ read. record { tree = read.tree; names = read.names.now; depth = read.depth; bytes = read.bytes } };
}

impl<'a> ShortTree<'a> {
    /// How deep the tree of the long text is at most.
    pub fn depth(&self) -> u32
        ensures { result ≡ self.now.depth }
    {
        self.depth
    }

    /// How many bytes the long text has.
    pub fn bytes(&self) -> usize
        ensures { result ≡ self.now.bytes }
    {
        self.bytes
    }

    /// Whether a node of the long text has exactly the bytes from one place to another, which are told in the short one, not where a
    /// name begins or ends.
    pub fn is_node(&self, from: usize, to: usize) -> bool
        ensures short { result ≡ has_node_at self.now.tree 0 from to }
        ensures long { (reach : Reach) (long : List ℕ) (read : IsReadOf reach self.now long) → from < to → IsOutside self.now.names from
            → IsOutside self.now.names to
            → result ≡ has_node_at read.syntax 0 (long_place self.now.names from) (long_place self.now.names to) }
    {
        is_node(&self.tree, from, to)
    }
}

/// Whether a node has exactly the bytes from one place to another.
fn is_node(tree: &Tree, from: usize, to: usize) -> bool
    ensures { result ≡ has_node_at tree.now 0 from to }
{
    for node in 0..tree.node_count() {
        let range = tree.range(NodeNo(node));
        if range.start as usize == from && range.end as usize == to {
            return true;
        }
    }
    false
}

/// Whether no white space stands around a text.
fn is_alone(text: &str) -> bool
    ensures alone { IsTrue result → trimmed text.now ≡ text.now }
    ensures front { IsTrue result → trimmed_front text.now ≡ 0 }
{
    text.trim_start().len() == text.len() && text.trim().len() == text.len()
}

/// How deep a tree is at most that stands in the place of a node of this kind, where each path stands for one so deep.
fn depth_below(kind: SyntaxKind, depth: u32) -> u32
    ensures { result ≡ depth_below depth kind }
{
    if kind.is(SyntaxKind::PATH_EXPR) {
        depth
    } else {
        0
    }
}

/// At least as deep as all nodes of a tree, also with trees so deep in the places of its paths. Nothing if that can't be counted.
fn filled_depth(tree: &Tree, depth: u32) -> Option<u32>
    ensures { IfSome result (λ most. IsFilledWithin depth tree.now most) }
{
    let mut most = 0;
    for number in 0..tree.node_count() {
        let node = NodeNo(number);
        let below = depth_below(tree.kind(node), depth);
        most = tree.depth(node).checked_add(below)?.max(most);
    }
    Some(most)
}

/// Whether one of the tokens begins at a byte.
fn has_token_at(raw: &[RawToken], byte: usize) -> bool
    ensures { result ≡ has_token_at byte raw.now }
{
    raw.iter().any(|token| token.range.start as usize == byte)
}

/// How many of the tokens begin in front of a byte, without white space and comments.
fn solid_before(raw: &[RawToken], byte: usize) -> usize
    ensures { result ≡ solid_before byte raw.now }
{
    raw.iter()
        .filter(|token| !token.kind.is_trivia() && (token.range.start as usize) < byte)
        .count()
}

/// Whether the characters beside a name are tokens.
fn is_cut(raw: &[RawToken], name: Name) -> bool
    ensures { IsTrue result → IsCut raw.now name }
{
    let Some(behind) = name.at.checked_add(1) else {
        return false;
    };
    has_token_at(raw, name.at.saturating_sub(1)) && has_token_at(raw, behind)
}

/// From how many tokens one of this kind is joined.
fn size_of_kind(kind: SyntaxKind) -> usize
    ensures { result ≡ size_of_kind kind }
{
    if is_of_three(kind) {
        3
    } else if is_of_two(kind) {
        2
    } else {
        1
    }
}

/// Whether a token of this kind is joined from three.
fn is_of_three(kind: SyntaxKind) -> bool
    ensures { result ≡ mem kind of_three }
{
    kind.is(SyntaxKind::DOT2EQ) || kind.is(SyntaxKind::SHLEQ) || kind.is(SyntaxKind::SHREQ)
}

/// Whether a token of this kind is joined from two.
fn is_of_two(kind: SyntaxKind) -> bool
    ensures { result ≡ mem kind of_two }
{
    kind.is(SyntaxKind::EQ2)
        || kind.is(SyntaxKind::NEQ)
        || kind.is(SyntaxKind::LTEQ)
        || kind.is(SyntaxKind::GTEQ)
        || kind.is(SyntaxKind::PLUSEQ)
        || kind.is(SyntaxKind::MINUSEQ)
        || kind.is(SyntaxKind::STAREQ)
        || kind.is(SyntaxKind::SLASHEQ)
        || kind.is(SyntaxKind::PERCENTEQ)
        || kind.is(SyntaxKind::CARETEQ)
        || kind.is(SyntaxKind::AMPEQ)
        || kind.is(SyntaxKind::PIPEEQ)
        || kind.is(SyntaxKind::THIN_ARROW)
        || kind.is(SyntaxKind::FAT_ARROW)
        || kind.is(SyntaxKind::COLON2)
        || kind.is(SyntaxKind::DOT2)
        || kind.is(SyntaxKind::AMP2)
        || kind.is(SyntaxKind::PIPE2)
        || kind.is(SyntaxKind::SHL)
        || kind.is(SyntaxKind::SHR)
}

/// How many tokens the grammar reads of one of the tree's.
fn size_of(tree: &Tree, token: TokenNo) -> usize
    requires { HasToken tree.now token.0 }
    ensures value { result ≡ solid_size (token_of tree.now token.0 ∷ []) }
    ensures few { result ≤ 3 }
{
    let kind = tree.token_kind(token);
    if kind.is_trivia() {
        0
    } else {
        size_of_kind(kind)
    }
}

/// The number of a token among those that the grammar reads.
fn place_of(tree: &Tree, token: TokenNo) -> usize
    requires { HasToken tree.now token.0 }
    ensures { result ≡ place_of tree.now token.0 }
{
    let mut number = 0;
    for before in 0..token.0 {
        number += size_of(tree, TokenNo(before));
    }
    number
}

/// The token of the tree at a byte, if it is neither white space nor a comment and has the same number there as among the raw
/// tokens.
fn name_token(tree: &Tree, raw: &[RawToken], name: Name) -> Option<TokenNo>
    ensures cut { IfSome result (λ _. IsCut raw.now name) }
    ensures solid { IfSome result (λ token. IsSolidAt tree.now token) }
    ensures same { IfSome result (λ token. place_of tree.now token.0 ≡ solid_before name.at raw.now) }
{
    if name.at > u32::MAX as usize || !is_cut(raw, name) {
        return None;
    }
    let token = tree.token_at(name.at as u32)?;
    if tree.token_kind(token).is_trivia() {
        return None;
    }
    if place_of(tree, token) == solid_before(raw, name.at) {
        Some(token)
    } else {
        None
    }
}

/// The tokens of the tree that the names are, if each is one.
fn name_tokens(
    alloc: Global,
    tree: &Tree,
    raw: &[RawToken],
    names: &[Name],
) -> Result<Option<Vec<TokenNo>>, AllocError>
    ensures { IfOk result (λ found. IfSome found (λ tokens. AreTokens tree.now raw.now names.now tokens.items)) }
{
    let mut tokens = Vec::with_capacity(alloc, names.len())?;
    for name in names {
        let Some(token) = name_token(tree, raw, *name) else {
            return Ok(None);
        };
        tokens.push(token)?;
    }
    Ok(Some(tokens))
}

/// The tokens of a text, if it has some.
fn lexed(alloc: Global, text: &str) -> Result<Option<Vec<RawToken>>, AllocError>
    ensures { IfOk result (λ found. IfSome found (λ raw. tokens text.now ≡ Some raw.items)) }
{
    match lex(alloc, text) {
        Ok(raw) => Ok(Some(raw)),
        Err(LexError::Memory) => Err(AllocError),
        Err(_) => Ok(None),
    }
}

/// What the tree of a short text tells of the long one, which has so many bytes: nothing if it isn't core, or the long text's
/// tree might be too deep.
fn told<'a>(
    alloc: Global,
    short: &'a Short,
    tree: Tree,
    bytes: usize,
) -> Result<Option<ShortTree<'a>>, AllocError>
    ensures told { IfOk result (λ answer. IfSome answer (λ read. IsTold short.now read)) }
    ensures tree { IfOk result (λ answer. IfSome answer (λ read. read.tree ≡ tree)) }
    ensures bytes { IfOk result (λ answer. IfSome answer (λ read. read.bytes ≡ bytes)) }
{
    let Some(depth) = filled_depth(&tree, short.depth()) else {
        return Ok(None);
    };
    if depth > MOST_DEEP {
        return Ok(None);
    }
    let names = short.names();
    let Some(raw) = lexed(alloc, short.text())? else {
        return Ok(None);
    };
    let Some(tokens) = name_tokens(alloc, &tree, raw.as_slice(), names)? else {
        return Ok(None);
    };
    if !is_core(&tree, tokens.as_slice()) {
        return Ok(None);
    }
    Ok(Some(ShortTree {
        tree,
        names,
        depth,
        bytes,
    }))
}

/// Reads a short text as an expression, in the place of the long one. Nothing where that doesn't tell the long text's tree.
pub(crate) fn read<'a>(
    alloc: Global,
    reach: Reach,
    short: &'a Short,
    long: &str,
) -> Result<Option<ShortTree<'a>>, AllocError>
    ensures read { IfOk result (λ answer. IfSome answer (λ read. IsShort reach short.now long.now → IsReadOf reach read long.now)) }
    ensures names { IfOk result (λ answer. IfSome answer (λ read. read.names ≡ short.now.names)) }
{
    if long.is_empty() || long.len() > u32::MAX as usize {
        return Ok(None);
    }
    if !is_alone(long) || !is_alone(short.text()) {
        return Ok(None);
    }
    match fragment_of(alloc, reach, Fragment::Expr, short.text()) {
        Ok((tree, _)) => told(alloc, short, tree, long.len()),
        Err(SyntaxError::Memory) => Err(AllocError),
        Err(_) => Ok(None),
    }
}
