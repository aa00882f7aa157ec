//! The solid tokens of a text: all but white space and comments, joined to the longest ones.
ghost use Rattle.std.specs.Prelude.{◌≡◌, IfOk, drop, false, None};
ghost use Rattle.ssr_syntax_rows.specs.Solid.{with_eq, with_r_angle, twice, joined};
ghost use Rattle.ssr_syntax_rows.specs.Private.SolidKinds.{ends_joined};
ghost use Rattle.ssr_syntax_rows.specs.SolidKinds.{with_next, solid_kind, solid_kinds};
ghost use Rattle.ssr_syntax_kinds.specs.declared.kinds.SyntaxKind.{SyntaxKind};

use ssr_syntax_forms::Token;
use ssr_syntax_kinds::SyntaxKind;
use std::alloc::{AllocError, Global};

/// The kind of a token of this kind and `=`.
fn with_eq(kind: SyntaxKind) -> Option<SyntaxKind>
    ensures { result ≡ with_eq kind }
{
    match kind {
        SyntaxKind::EQ => Some(SyntaxKind::EQ2),
        SyntaxKind::BANG => Some(SyntaxKind::NEQ),
        SyntaxKind::L_ANGLE => Some(SyntaxKind::LTEQ),
        SyntaxKind::R_ANGLE => Some(SyntaxKind::GTEQ),
        SyntaxKind::PLUS => Some(SyntaxKind::PLUSEQ),
        SyntaxKind::MINUS => Some(SyntaxKind::MINUSEQ),
        SyntaxKind::STAR => Some(SyntaxKind::STAREQ),
        SyntaxKind::SLASH => Some(SyntaxKind::SLASHEQ),
        SyntaxKind::PERCENT => Some(SyntaxKind::PERCENTEQ),
        SyntaxKind::CARET => Some(SyntaxKind::CARETEQ),
        SyntaxKind::AMP => Some(SyntaxKind::AMPEQ),
        SyntaxKind::PIPE => Some(SyntaxKind::PIPEEQ),
        SyntaxKind::DOT2 => Some(SyntaxKind::DOT2EQ),
        SyntaxKind::SHL => Some(SyntaxKind::SHLEQ),
        SyntaxKind::SHR => Some(SyntaxKind::SHREQ),
        _ => None,
    }
}

/// The kind of a token of this kind and `>`.
fn with_r_angle(kind: SyntaxKind) -> Option<SyntaxKind>
    ensures { result ≡ with_r_angle kind }
{
    match kind {
        SyntaxKind::MINUS => Some(SyntaxKind::THIN_ARROW),
        SyntaxKind::EQ => Some(SyntaxKind::FAT_ARROW),
        SyntaxKind::R_ANGLE => Some(SyntaxKind::SHR),
        _ => None,
    }
}

/// The kind of two tokens of this kind.
fn twice(kind: SyntaxKind) -> Option<SyntaxKind>
    ensures { result ≡ twice kind }
{
    match kind {
        SyntaxKind::COLON => Some(SyntaxKind::COLON2),
        SyntaxKind::DOT => Some(SyntaxKind::DOT2),
        SyntaxKind::AMP => Some(SyntaxKind::AMP2),
        SyntaxKind::PIPE => Some(SyntaxKind::PIPE2),
        SyntaxKind::L_ANGLE => Some(SyntaxKind::SHL),
        _ => None,
    }
}

/// The kind of a token joined from one of `kind` and one of `next` directly behind it.
fn joined(next: SyntaxKind, kind: SyntaxKind) -> Option<SyntaxKind>
    ensures { result ≡ joined next kind }
{
    match next {
        SyntaxKind::EQ => with_eq(kind),
        SyntaxKind::R_ANGLE => with_r_angle(kind),
        _ if kind == next => twice(kind),
        _ => None,
    }
}

/// Whether there are joined tokens whose last part is of this kind.
fn ends_joined(kind: SyntaxKind) -> bool
    ensures { result ≡ ends_joined kind }
{
    matches!(
        kind,
        SyntaxKind::EQ
            | SyntaxKind::R_ANGLE
            | SyntaxKind::COLON
            | SyntaxKind::DOT
            | SyntaxKind::AMP
            | SyntaxKind::PIPE
            | SyntaxKind::L_ANGLE
    )
}

/// Whether a token may be joined with the first of those behind it. Most tokens stand alone, and the kind of the next one
/// tells it of nearly all: it is white space, or no punctuation that ends joined tokens.
fn may_go_on(behind: &[SyntaxKind]) -> bool
    ensures { (kind : SyntaxKind) → result ≡ false → with_next kind behind.now ≡ None }
{
    match behind.first() {
        None => false,
        Some(next) => !next.is_trivia() && ends_joined(*next),
    }
}

/// The kind joined from a token of this kind and the first of those behind it.
fn lengthened(kind: SyntaxKind, behind: &[SyntaxKind]) -> Option<SyntaxKind>
    ensures { result ≡ with_next kind behind.now }
{
    let next = behind.first()?;
    joined(*next, kind)
}

/// All kinds but the first one.
fn others(kinds: &[SyntaxKind]) -> &[SyntaxKind]
    ensures { result.now ≡ drop 1 kinds.now }
{
    match kinds.split_first() {
        Some((_, others)) => others,
        None => kinds,
    }
}

/// A token of this kind that is joined with no other one.
fn alone(kind: SyntaxKind) -> Token
    ensures { result ≡ record { kind = kind; joined = kind; size = 1 } }
{
    Token {
        kind,
        joined: kind,
        size: 1,
    }
}

/// The token in front of others, with the longest one that is joined from it and those.
fn solid_token(kind: SyntaxKind, behind: &[SyntaxKind]) -> Token
    ensures { result ≡ solid_kind kind behind.now }
{
    if !may_go_on(behind) {
        return alone(kind);
    }
    let Some(two) = lengthened(kind, behind) else {
        return alone(kind);
    };
    match lengthened(two, others(behind)) {
        None => Token {
            kind,
            joined: two,
            size: 2,
        },
        Some(three) => Token {
            kind,
            joined: three,
            size: 3,
        },
    }
}

/// All tokens of a text but white space and comments, from the kinds of all: only punctuation is joined, and whatever
/// stands directly before that is joint.
pub fn solid_tokens(alloc: Global, kinds: &[SyntaxKind]) -> Result<Vec<Token>, AllocError>
    ensures { IfOk result (λ v. v.items ≡ solid_kinds kinds.now) }
{
    let mut tokens = Vec::with_capacity(alloc, kinds.len())?;
    let mut rest = kinds;
    while let Some((first, others)) = rest.split_first() {
        if !first.is_trivia() {
            tokens.push_reserved(solid_token(*first, others));
        }
        rest = others;
    }
    Ok(tokens)
}
