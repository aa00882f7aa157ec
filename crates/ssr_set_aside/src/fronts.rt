//! What stands in front of a text's tokens.
ghost use Rattle.std.specs.Prelude.{◌≡◌, IfOk, string_bytes};
ghost use Rattle.ssr_set_aside.specs.Fronts as spec;

use std::alloc::{AllocError, Global};

/// A text as it is cut into tokens: with blanks for a byte order mark and a first line that names an interpreter.
pub(crate) fn bare(alloc: Global, text: &str) -> Result<String, AllocError>
    ensures { IfOk result (λ bare. string_bytes bare ≡ spec.bare text.now) }
{
    let mut bare = blanked(alloc, front(text))?;
    bare.push_str(behind_front(text))?;
    Ok(bare)
}

/// Blanks in the place of bytes; line breaks stay.
#[tactic(auto, using(crate::proofs::Blanks::blanked_none, crate::proofs::Blanks::blanked_more))]
pub(crate) fn blanked(alloc: Global, bytes: &[u8]) -> Result<String, AllocError>
    ensures { IfOk result (λ blanks. string_bytes blanks ≡ spec.blanked bytes.now) }
{
    let mut blanks = String::new(alloc);
    for byte in bytes {
        blanks.push(if *byte == b'\n' { '\n' } else { ' ' })?;
    }
    Ok(blanks)
}

/// What stands in front of a text's tokens: a byte order mark, and a first line that names an interpreter.
#[tactic(auto, unfolding(crate::specs::Fronts::front))]
pub(crate) fn front(text: &str) -> &[u8]
    ensures { result.now ≡ spec.front text.now }
{
    &text.as_bytes()[..text.len().saturating_sub(behind_front(text).len())]
}

/// A text without that.
#[tactic(auto, unfolding(crate::specs::Fronts::behind_front))]
fn behind_front(text: &str) -> &str
    ensures { result.now ≡ spec.behind_front text.now }
{
    let text = unmarked(text);
    if names_interpreter(text) {
        behind_line(text)
    } else {
        text
    }
}

/// A text without a byte order mark in front.
#[tactic(auto, using(crate::proofs::Stripped::stripped))]
fn unmarked(text: &str) -> &str
    ensures { result.now ≡ spec.unmarked text.now }
{
    match text.strip_prefix("\u{feff}") {
        Some(rest) => rest,
        None => text,
    }
}

/// Whether a text begins with `#!` and no attribute: a `[` may stand behind white space.
#[tactic(auto, using(crate::proofs::Stripped::stripped))]
fn names_interpreter(text: &str) -> bool
    ensures { result ≡ spec.names_interpreter text.now }
{
    match text.strip_prefix("#!") {
        Some(rest) => !rest.trim_start().starts_with('['),
        None => false,
    }
}

/// A text from its second line on.
#[tactic(auto, using(std::proofs::lemmas::Str::Pattern::split_once_first))]
fn behind_line(text: &str) -> &str
    ensures { result.now ≡ spec.behind_line text.now }
{
    match text.split_once('\n') {
        Some((_, rest)) => rest,
        None => "",
    }
}
