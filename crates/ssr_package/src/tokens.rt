//! The tokens by which a text's modules are found.
ghost use Rattle.std.specs.Prelude.{◌≡◌, IfOk};
ghost use Rattle.ssr_package.specs.Tokens as spec;

use ssr_syntax_lex::{LexError, RawToken, lex};
use std::alloc::{AllocError, Global};

/// The tokens of a text without white space and comments; none, where the text can't be cut into tokens.
pub(crate) fn solid_tokens(alloc: Global, text: &str) -> Result<Vec<RawToken>, AllocError> {
    match lex(alloc, text) {
        Ok(tokens) => solid(alloc, &tokens),
        Err(LexError::Memory) => Err(AllocError),
        Err(_) => Ok(Vec::new(alloc)),
    }
}

/// The tokens that are neither white space nor comments.
fn solid(alloc: Global, tokens: &[RawToken]) -> Result<Vec<RawToken>, AllocError>
    ensures { IfOk result (λ v. v.items ≡ spec.solid tokens.now) }
{
    let mut kept = Vec::new(alloc);
    let mut rest = tokens;
    while let Some((first, after)) = rest.split_first() {
        if !first.kind.is_trivia() {
            kept.push(*first)?;
        }
        rest = after;
    }
    Ok(kept)
}

/// What of a text is cut into tokens: not a byte order mark in front, and not a first line that names an interpreter.
pub(crate) fn behind_front(text: &str) -> &str
    ensures { result.now ≡ spec.behind_front text.now }
{
    let text = unmarked(text);
    if names_interpreter(text) {
        behind_line(text)
    } else {
        text
    }
}

/// A text without a byte order mark in front.
#[tactic(auto, using(crate::proofs::Fronts::stripped))]
fn unmarked(text: &str) -> &str
    ensures { result.now ≡ spec.unmarked text.now }
{
    match text.strip_prefix("\u{feff}") {
        Some(rest) => rest,
        None => text,
    }
}

/// Whether a text begins with `#!` and no attribute: a `[` may stand behind white space.
#[tactic(auto, using(crate::proofs::Fronts::stripped))]
fn names_interpreter(text: &str) -> bool
    ensures { result ≡ spec.names_interpreter text.now }
{
    match text.strip_prefix("#!") {
        Some(rest) => !rest.trim_start().starts_with('['),
        None => false,
    }
}

/// A text from its second line on.
#[tactic(auto, using(std::proofs::lemmas::Str::Pattern::split_once_first))]
fn behind_line(text: &str) -> &str
    ensures { result.now ≡ spec.behind_line text.now }
{
    match text.split_once('\n') {
        Some((_, rest)) => rest,
        None => "",
    }
}
