//! Passing over comments, strings and characters.

ghost use Rattle.std.specs.Prelude.{◌≡◌, false, true, drop};
ghost use Rattle.ssr_syntax_lex.specs.Scan as spec;
ghost use Rattle.ssr_syntax_lex.specs.Private.Steps.{PassesOver};
ghost use Rattle.ssr_syntax_lex.specs.declared.fault.FaultKind.TheVariants as faults;
ghost use Rattle.ssr_syntax_lex.specs.Characters.{is_hash};
ghost use Rattle.ssr_syntax_lex.specs.Cursor.{past};

use crate::characters::{is_hash, is_in_char};
use crate::cursor::Cursor;
use crate::fault::FaultKind;

/// Passes over a block comment, with those inside of it.
#[tactic(auto, using(crate::proofs::ScanSteps::comment_steps))]
pub(crate) fn eat_block_comment(cursor: &mut Cursor<'_>) -> Result<(), FaultKind>
    ensures { PassesOver faults.UnclosedComment result (spec.past_comments 1 (drop 2 cursor.old)) cursor.new }
{
    cursor.bump_pair();
    let mut depth = 1u32;
    while depth > 0 {
        if cursor.is_empty() {
            return Err(FaultKind::UnclosedComment);
        }
        if cursor.is_pair('/', '*') {
            cursor.bump_pair();
            depth += 1;
        } else if cursor.is_pair('*', '/') {
            cursor.bump_pair();
            depth -= 1;
        } else {
            cursor.bump();
        }
    }
    Ok(())
}

/// Passes over a string from behind its `"`.
#[tactic(auto, using(crate::proofs::ScanSteps::escape_takes_one))]
pub(crate) fn eat_quoted(cursor: &mut Cursor<'_>) -> Result<(), FaultKind>
    ensures { PassesOver faults.UnclosedString result (spec.past_quoted false cursor.old) cursor.new }
{
    while let Some(c) = cursor.next() {
        match c {
            '"' => return Ok(()),
            '\\' => cursor.bump(),
            _ => {}
        }
    }
    Err(FaultKind::UnclosedString)
}

/// Passes over a raw string from behind its `r`.
pub(crate) fn eat_raw_string(cursor: &mut Cursor<'_>) -> Result<(), FaultKind>
    ensures { PassesOver faults.UnclosedString result (spec.past_raw_string cursor.old) cursor.new }
{
    let hashes = cursor.eat_while(is_hash).len();
    cursor.bump();
    eat_raw(cursor, hashes)
}

/// Passes over a raw string from behind its first `"`, which has so many `#` in front.
fn eat_raw(cursor: &mut Cursor<'_>, hashes: usize) -> Result<(), FaultKind>
    ensures { PassesOver faults.UnclosedString result (spec.past_raw hashes cursor.old) cursor.new }
{
    while let Some(c) = cursor.next() {
        if c == '"' && eat_hashes(cursor, hashes) {
            return Ok(());
        }
    }
    Err(FaultKind::UnclosedString)
}

/// Passes over so many `#`, and tells whether they were there; if not, over those that are.
fn eat_hashes(cursor: &mut Cursor<'_>, hashes: usize) -> bool
    ensures told { result ≡ spec.begins_with_hashes hashes cursor.old }
    ensures all { result ≡ true → cursor.new ≡ drop hashes cursor.old }
    ensures some { result ≡ false → cursor.new ≡ past is_hash cursor.old }
{
    for _ in 0..hashes {
        if !cursor.is_at('#') {
            return false;
        }
        cursor.bump();
    }
    true
}

/// Passes over `'`.
fn eat_apostrophe(cursor: &mut Cursor<'_>, fault: FaultKind) -> Result<(), FaultKind>
    ensures { PassesOver fault result (spec.past_apostrophe cursor.old) cursor.new }
{
    if !cursor.is_at('\'') {
        return Err(fault);
    }
    cursor.bump();
    Ok(())
}

/// Passes over a character or a byte from behind its first `'`; `fault` is what it is told as if it isn't closed.
pub(crate) fn eat_char(cursor: &mut Cursor<'_>, fault: FaultKind) -> Result<(), FaultKind>
    ensures { PassesOver fault result (spec.past_char cursor.old) cursor.new }
{
    if cursor.is_at('\\') {
        cursor.bump_pair();
        cursor.eat_while(is_in_char);
        return eat_apostrophe(cursor, fault);
    }
    if !cursor.first().is_some_and(is_in_char) {
        return Err(fault);
    }
    cursor.bump();
    eat_apostrophe(cursor, fault)
}
