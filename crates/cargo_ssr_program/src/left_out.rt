//! Files that are left out: why, and where that is seen.

use crate::telling::{place_of, text_in};
use ssr_changes::Unread;
use ssr_diff::quoted;
use ssr_reports::place_words;
use ssr_syntax::SyntaxError;
use ssr_syntax_kinds::{SyntaxKind, TextRange};
use ssr_syntax_lex::{LexError, RawToken, lex};
use std::alloc::{AllocError, Global};

/// What marks the first side of a merge conflict, where a line begins with it.
const CONFLICT: &str = "<<<<<<< ";

/// Why a file isn't read, and the byte where that is seen, if there is one.
#[derive(Drop)]
struct Fault {
    at: Option<u32>,
    why: String,
}

/// Tells that a file is left out: `src/lib.rs:1:7: left out: { is not closed`.
pub(crate) fn left_out_words(alloc: Global, file: &Unread) -> Result<String, AllocError> {
    let (name, text) = (file.name.as_str(), file.text.as_str());
    let Fault { at, why } = fault_of(alloc, text, file.why)?;
    let place = match at {
        Some(at) => place_words(alloc, name, place_of(text, at))?,
        None => quoted(alloc, name)?,
    };
    format!(in alloc; "{place}: left out: {why}")
}

/// What is wrong with a text, where this is why it isn't read.
fn fault_of(alloc: Global, text: &str, why: SyntaxError) -> Result<Fault, AllocError> {
    let words = match why {
        SyntaxError::Lex | SyntaxError::NoTree => return unread_fault(alloc, text),
        SyntaxError::TooDeep => "nested too deeply",
        SyntaxError::TooLong => "too long",
        SyntaxError::Memory => "out of memory",
    };
    Ok(Fault {
        at: None,
        why: String::from_str(alloc, words)?,
    })
}

/// What is wrong with a text that has no tokens or no tree: a merge conflict, a token, a bracket, or else all of it.
fn unread_fault(alloc: Global, text: &str) -> Result<Fault, AllocError> {
    if let Some(at) = conflict(text) {
        return Ok(Fault {
            at: Some(at),
            why: String::from_str(alloc, "a merge conflict")?,
        });
    }
    match lex(alloc, text) {
        Ok(tokens) => bracket_fault(alloc, text, &tokens),
        Err(LexError::Fault(fault)) => Ok(Fault {
            at: None,
            why: fault.to_string(alloc)?,
        }),
        Err(LexError::TooLong) => Ok(Fault {
            at: None,
            why: String::from_str(alloc, "too long")?,
        }),
        Err(LexError::Memory) => Err(AllocError),
    }
}

/// Where the first line begins that marks a merge conflict.
fn conflict(text: &str) -> Option<u32> {
    let mut at = 0usize;
    for line in text.split_inclusive('\n') {
        if line.starts_with(CONFLICT) {
            return u32::try_from(at).ok();
        }
        at = at.saturating_add(line.len());
    }
    None
}

/// The first bracket of a text that has no other side; all of it, where each has one.
fn bracket_fault(alloc: Global, text: &str, tokens: &[RawToken]) -> Result<Fault, AllocError> {
    let mut open = Vec::new(alloc);
    for token in tokens {
        if let Some(closing) = closing_of(token.kind) {
            open.push((token.range, closing))?;
        } else if is_closing(token.kind) {
            match open.pop() {
                Some((_, closing)) if token.kind.is(closing) => {}
                Some((range, _)) => return bracket_words(alloc, text, range, "is not closed"),
                None => return bracket_words(alloc, text, token.range, "closes nothing"),
            }
        }
    }
    match open.pop() {
        Some((range, _)) => bracket_words(alloc, text, range, "is not closed"),
        None => Ok(Fault {
            at: Some(0),
            why: String::from_str(alloc, "nothing of it is read")?,
        }),
    }
}

fn bracket_words(
    alloc: Global,
    text: &str,
    range: TextRange,
    words: &str,
) -> Result<Fault, AllocError> {
    let bracket = text_in(text, range);
    Ok(Fault {
        at: Some(range.start),
        why: format!(in alloc; "{bracket} {words}")?,
    })
}

/// What closes an opening bracket.
fn closing_of(kind: SyntaxKind) -> Option<SyntaxKind> {
    match kind {
        SyntaxKind::L_PAREN => Some(SyntaxKind::R_PAREN),
        SyntaxKind::L_BRACK => Some(SyntaxKind::R_BRACK),
        SyntaxKind::L_CURLY => Some(SyntaxKind::R_CURLY),
        _ => None,
    }
}

fn is_closing(kind: SyntaxKind) -> bool {
    matches!(
        kind,
        SyntaxKind::R_PAREN | SyntaxKind::R_BRACK | SyntaxKind::R_CURLY
    )
}
