//! Texts as they are written in lines.

use crate::told::Told;
use anyhow::{Result, bail};
use std::alloc::Global;

/// The text that stands in a line: as it is written, or, where it begins with `, what stands between two ` each.
pub(crate) fn text_of(alloc: Global, written: &str) -> Result<String> {
    let mut text = Told::nothing(alloc);
    push_written(alloc, &mut text, written)?;
    Ok(text.end()?)
}

fn push_written(alloc: Global, text: &mut Told, written: &str) -> Result<()> {
    if !written.starts_with('`') {
        text.text(written);
        return Ok(());
    }
    let mut part = "";
    let mut is_quoted = false;
    for piece in written.split('`') {
        if is_quoted {
            part = piece;
        } else {
            push_part(alloc, text, part, piece)?;
        }
        is_quoted = !is_quoted;
    }
    Ok(())
}

/// Adds a part to a text, as often as is said behind it: `*3` times, or once.
fn push_part(alloc: Global, text: &mut Told, part: &str, said: &str) -> Result<()> {
    let times = match said.strip_prefix('*') {
        Some(times) => times.parse::<usize>()?,
        None => 1,
    };
    let part = unescaped(alloc, part)?;
    for _ in 0..times {
        text.text(part.as_str());
    }
    Ok(())
}

/// A part with the characters that its escapes stand for.
fn unescaped(alloc: Global, part: &str) -> Result<String> {
    let mut text = Told::nothing(alloc);
    push_unescaped(&mut text, part)?;
    Ok(text.end()?)
}

fn push_unescaped(text: &mut Told, part: &str) -> Result<()> {
    for (number, piece) in part.split('\\').enumerate() {
        if number == 0 {
            text.text(piece);
        } else {
            push_escape(text, piece)?;
        }
    }
    Ok(())
}

/// Adds a character that stands behind a `\` as `n`, `r`, `t` or `u{..}`, and what follows it.
fn push_escape(text: &mut Told, piece: &str) -> Result<()> {
    let Some((meant, rest)) = escape_of(piece)? else {
        bail!("\\{piece} is no escape");
    };
    text.letter(meant);
    text.text(rest);
    Ok(())
}

/// The character of an escape, and what follows it.
fn escape_of(piece: &str) -> Result<Option<(char, &str)>> {
    for (letter, meant) in [('n', '\n'), ('r', '\r'), ('t', '\t')] {
        if let Some(rest) = piece.strip_prefix(letter) {
            return Ok(Some((meant, rest)));
        }
    }
    let Some((code, rest)) = piece.split_once('}') else {
        return Ok(None);
    };
    match char_of(code)? {
        Some(meant) => Ok(Some((meant, rest))),
        None => Ok(None),
    }
}

/// The character of a code, as `u{feff` has one.
fn char_of(code: &str) -> Result<Option<char>> {
    match code.strip_prefix("u{") {
        Some(code) => Ok(char::from_u32(u32::from_str_radix(code, 16)?)),
        None => Ok(None),
    }
}
