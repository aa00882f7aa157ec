//! The key of a path: the texts under which a provider is asked for it.
ghost use Rattle.std.specs.Prelude.{◌≡◌, ◌++◌, All, IfOk, OnOk, map, string_bytes};
ghost use Rattle.std.specs.List.{flat_map};
ghost use Rattle.ssr_syntax_tree.specs.Places.{HasNode, node_of};
ghost use Rattle.ssr_syntax_tree.specs.Syntax.{tokens_in};
ghost use Rattle.ide_ssr_resolved_rule.specs.Paths.{qualifying, before_arguments};
ghost use Rattle.ide_ssr_resolving.specs.Keys.{begins_with_colons, pieces, pieces_of, spaced, key_of};
ghost use Rattle.ide_ssr_resolving.specs.Private.Pieces.{tokens_at, HasPiece};

use crate::paths::{name_end, qualifying};
use ide_ssr_resolved_rule::last_segment;
use ssr_syntax_kinds::SyntaxKind;
use ssr_syntax_tree::{NodeNo, TokenNo, Tree};
use std::alloc::{AllocError, Global};

/// Tokens of a path that are one text of its key, from the number `first` up to before `past`.
#[derive(Clone, Copy)]
pub(crate) struct Piece {
    pub(crate) first: u32,
    pub(crate) past: u32,
}

/// Whether the first token of a piece is `::`.
fn begins_with_colons(tree: &Tree, piece: Piece) -> bool
    requires { HasPiece tree.now piece }
    ensures { result ≡ begins_with_colons (tokens_at tree.now piece) }
{
    piece.first < piece.past && tree.token_kind(TokenNo(piece.first)).is(SyntaxKind::COLON2)
}

/// Adds the tokens of a segment, behind an empty piece where `::` stands in front of it.
fn push_pieces(tree: &Tree, segment: Piece, found: &mut Vec<Piece>) -> Result<(), AllocError>
    requires segment { HasPiece tree.now segment }
    requires had { All (HasPiece tree.now) found.old.items }
    ensures pieces { OnOk result (map (tokens_at tree.now) found.new.items ≡ map (tokens_at tree.now) found.old.items ++ pieces (tokens_at tree.now segment)) }
    ensures has { OnOk result (All (HasPiece tree.now) found.new.items) }
{
    let Piece { first, past } = segment;
    if !begins_with_colons(tree, segment) {
        found.push(segment)?;
        return Ok(());
    }
    found.push(Piece { first, past: first })?;
    found.push(Piece {
        first: first + 1,
        past,
    })?;
    Ok(())
}

/// The pieces of the segments in front of the last one.
fn qualifying_pieces(alloc: Global, tree: &Tree, path: NodeNo) -> Result<Vec<Piece>, AllocError>
    requires { HasNode tree.now path.0 }
    ensures pieces { IfOk result (λ v. map (tokens_at tree.now) v.items ≡ flat_map (λ segment. pieces (tokens_in segment)) (qualifying (node_of tree.now path.0).children)) }
    ensures has { IfOk result (λ v. All (HasPiece tree.now) v.items) }
{
    let segments = qualifying(alloc, tree, path)?;
    let mut pieces = Vec::new(alloc);
    for segment in &segments {
        let tokens = tree.tokens_below(*segment);
        let whole = Piece {
            first: tokens.start,
            past: tokens.end,
        };
        push_pieces(tree, whole, &mut pieces)?;
    }
    Ok(pieces)
}

/// The tokens of a segment in front of its arguments.
fn name_piece(tree: &Tree, segment: NodeNo) -> Piece
    requires { HasNode tree.now segment.0 }
    ensures tokens { tokens_at tree.now result ≡ tokens_in (before_arguments (node_of tree.now segment.0).children) }
    ensures has { HasPiece tree.now result }
{
    let tokens = tree.tokens_below(segment);
    let past = name_end(tree, segment);
    Piece {
        first: tokens.start,
        past,
    }
}

/// The pieces of a path.
pub(crate) fn pieces_of(alloc: Global, tree: &Tree, path: NodeNo) -> Result<Vec<Piece>, AllocError>
    requires { HasNode tree.now path.0 }
    ensures pieces { IfOk result (λ v. map (tokens_at tree.now) v.items ≡ pieces_of (node_of tree.now path.0).children) }
    ensures has { IfOk result (λ v. All (HasPiece tree.now) v.items) }
{
    let mut pieces = qualifying_pieces(alloc, tree, path)?;
    let Some(last) = last_segment(tree, path) else {
        return Ok(pieces);
    };
    push_pieces(tree, name_piece(tree, last), &mut pieces)?;
    Ok(pieces)
}

/// The texts of the tokens of a piece but for trivia, with one space between each two.
fn spaced(alloc: Global, tree: &Tree, piece: Piece) -> Result<String, AllocError>
    requires { HasPiece tree.now piece }
    ensures { IfOk result (λ text. string_bytes text ≡ spaced (tokens_at tree.now piece)) }
{
    let mut texts = Vec::new(alloc);
    for number in piece.first..piece.past {
        let token = TokenNo(number);
        if !tree.token_kind(token).is_trivia() {
            texts.push(tree.token_text(token))?;
        }
    }
    let text = texts.as_slice().join(alloc, " ")?;
    Ok(text)
}

/// The key of a path, as a provider is asked for it: one text a segment, behind an empty one where the path begins with
/// `::`. A text has the tokens of its segment but for trivia, with one space between each two; of the last segment without
/// arguments.
pub fn key_of(alloc: Global, tree: &Tree, path: NodeNo) -> Result<Vec<String>, AllocError>
    requires { HasNode tree.now path.0 }
    ensures { IfOk result (λ key. map string_bytes key.items ≡ key_of (node_of tree.now path.0).children) }
{
    let pieces = pieces_of(alloc, tree, path)?;
    let mut key = Vec::new(alloc);
    for piece in &pieces {
        let text = spaced(alloc, tree, *piece)?;
        key.push(text)?;
    }
    Ok(key)
}
