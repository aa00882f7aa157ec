//! The raw token at the front of a text.

ghost use Rattle.std.specs.Prelude.{ℕ, ◌≡◌, Some, drop, slice_get};
ghost use Rattle.ssr_syntax_lex.specs.Raw as spec;
ghost use Rattle.ssr_syntax_lex.specs.Characters.{the_char};
ghost use Rattle.ssr_syntax_lex.specs.Private.Steps.{PassesOver, Takes, IsPlain};
ghost use Rattle.ssr_syntax_lex.specs.declared.fault.FaultKind.TheVariants as faults;

use crate::characters::{
    continues_word, is_digit, is_hash, is_in_line, is_whitespace, starts_word,
};
use crate::cursor::Cursor;
use crate::fault::FaultKind;
use crate::numbers::eat_number;
use crate::scan::{eat_block_comment, eat_char, eat_quoted, eat_raw_string};
use crate::words::{mark_kind, word_kind};
use ssr_syntax_kinds::SyntaxKind;

/// Whether `r`, any number of `#` and `"` come next.
fn begins_raw_string(cursor: &Cursor<'_>) -> bool
    ensures { result ≡ spec.begins_raw_string cursor.now }
{
    if !cursor.is_at('r') {
        return false;
    }
    let mut ahead = cursor.fork();
    ahead.bump();
    ahead.eat_while(is_hash);
    ahead.is_at('"')
}

/// Whether a string comes behind the next character.
fn begins_string_behind(cursor: &Cursor<'_>) -> bool
    ensures { result ≡ spec.begins_string (drop 1 cursor.now) }
{
    let mut ahead = cursor.fork();
    ahead.bump();
    ahead.is_at('"') || begins_raw_string(&ahead)
}

/// Whether `r#` and a word other than `_` come next.
fn begins_raw_identifier(cursor: &Cursor<'_>) -> bool
    ensures { result ≡ spec.begins_raw_identifier cursor.now }
{
    cursor.is_pair('r', '#')
        && cursor.third().is_some_and(starts_word)
        && !(cursor.third().is_some_and(|c| c == '_')
            && !cursor.fourth().is_some_and(continues_word))
}

/// Whether a word, whose first character isn't directly followed by `'`, comes behind the next character.
fn begins_lifetime_behind(cursor: &Cursor<'_>) -> bool
    ensures { result ≡ spec.begins_lifetime_behind cursor.now }
{
    cursor.second().is_some_and(starts_word) && !cursor.third().is_some_and(|c| c == '\'')
}

/// Passes over a word, and gives its kind.
fn eat_word(cursor: &mut Cursor<'_>) -> SyntaxKind
    ensures kind { result ≡ spec.kind_of_word cursor.old }
    ensures rest { cursor.new ≡ spec.past_word cursor.old }
{
    let word = cursor.eat_while(continues_word);
    word_kind(word)
}

/// Passes over the string that comes next.
fn eat_string(cursor: &mut Cursor<'_>) -> Result<(), FaultKind>
    ensures { PassesOver faults.UnclosedString result (spec.past_string cursor.old) cursor.new }
{
    let plain = cursor.is_at('"');
    cursor.bump();
    if plain {
        eat_quoted(cursor)
    } else {
        eat_raw_string(cursor)
    }
}

/// Passes over a comment or `/`.
#[tactic(auto, using(crate::proofs::FirstCharacters::slash_rows))]
fn eat_slash(cursor: &mut Cursor<'_>) -> Result<SyntaxKind, FaultKind>
    requires { slice_get cursor.old 0 ≡ Some (the_char "/") }
    ensures { (dots : ℕ) → Takes (spec.fault_of cursor.old) result (spec.token dots cursor.old) cursor.new }
{
    if cursor.is_second('/') {
        cursor.eat_while(is_in_line);
        return Ok(SyntaxKind::COMMENT);
    }
    if cursor.is_second('*') {
        eat_block_comment(cursor)?;
        return Ok(SyntaxKind::COMMENT);
    }
    cursor.bump();
    Ok(SyntaxKind::SLASH)
}

/// Passes over what begins with `"`.
#[tactic(auto, using(crate::proofs::FirstCharacters::quote_rows))]
fn eat_quote(cursor: &mut Cursor<'_>) -> Result<SyntaxKind, FaultKind>
    requires { slice_get cursor.old 0 ≡ Some (the_char "\"") }
    ensures { (dots : ℕ) → Takes (spec.fault_of cursor.old) result (spec.token dots cursor.old) cursor.new }
{
    cursor.bump();
    eat_quoted(cursor)?;
    Ok(SyntaxKind::STRING)
}

/// Passes over what begins with `r`: a raw string, a raw identifier or a word.
#[tactic(auto, using(crate::proofs::FirstCharacters::r_rows))]
fn eat_r(cursor: &mut Cursor<'_>) -> Result<SyntaxKind, FaultKind>
    requires { slice_get cursor.old 0 ≡ Some (the_char "r") }
    ensures { (dots : ℕ) → Takes (spec.fault_of cursor.old) result (spec.token dots cursor.old) cursor.new }
{
    if begins_raw_string(cursor) {
        cursor.bump();
        eat_raw_string(cursor)?;
        return Ok(SyntaxKind::STRING);
    }
    if begins_raw_identifier(cursor) {
        cursor.bump_pair();
        cursor.eat_while(continues_word);
        return Ok(SyntaxKind::IDENT);
    }
    Ok(eat_word(cursor))
}

/// Passes over what begins with `b`: a string of bytes, a byte or a word.
#[tactic(auto, using(crate::proofs::FirstCharacters::b_rows))]
fn eat_b(cursor: &mut Cursor<'_>) -> Result<SyntaxKind, FaultKind>
    requires { slice_get cursor.old 0 ≡ Some (the_char "b") }
    ensures { (dots : ℕ) → Takes (spec.fault_of cursor.old) result (spec.token dots cursor.old) cursor.new }
{
    if begins_string_behind(cursor) {
        cursor.bump();
        eat_string(cursor)?;
        return Ok(SyntaxKind::BYTE_STRING);
    }
    if cursor.is_second('\'') {
        cursor.bump_pair();
        eat_char(cursor, FaultKind::UnclosedByte)?;
        return Ok(SyntaxKind::BYTE);
    }
    Ok(eat_word(cursor))
}

/// Passes over what begins with `c`: a C string or a word.
#[tactic(auto, using(crate::proofs::FirstCharacters::c_rows))]
fn eat_c(cursor: &mut Cursor<'_>) -> Result<SyntaxKind, FaultKind>
    requires { slice_get cursor.old 0 ≡ Some (the_char "c") }
    ensures { (dots : ℕ) → Takes (spec.fault_of cursor.old) result (spec.token dots cursor.old) cursor.new }
{
    if begins_string_behind(cursor) {
        cursor.bump();
        eat_string(cursor)?;
        return Ok(SyntaxKind::C_STRING);
    }
    Ok(eat_word(cursor))
}

/// Passes over what begins with `'`: a lifetime or a character.
#[tactic(auto, using(crate::proofs::FirstCharacters::apostrophe_rows))]
fn eat_lifetime_or_char(cursor: &mut Cursor<'_>) -> Result<SyntaxKind, FaultKind>
    requires { slice_get cursor.old 0 ≡ Some (the_char "'") }
    ensures { (dots : ℕ) → Takes (spec.fault_of cursor.old) result (spec.token dots cursor.old) cursor.new }
{
    let is_lifetime = begins_lifetime_behind(cursor);
    cursor.bump();
    if is_lifetime {
        cursor.eat_while(continues_word);
        return Ok(SyntaxKind::LIFETIME_IDENT);
    }
    eat_char(cursor, FaultKind::UnclosedChar)?;
    Ok(SyntaxKind::CHAR)
}

/// Passes over a token that needs no second look: punctuation, white space, a word or a number.
#[tactic(auto, using(crate::proofs::FirstCharacters::plain_rows))]
fn eat_other(cursor: &mut Cursor<'_>, first: char, dots: u32) -> Result<SyntaxKind, FaultKind>
    requires comes { slice_get cursor.old 0 ≡ Some first }
    requires plain { IsPlain first }
    ensures { Takes (spec.fault_of cursor.old) result (spec.token dots cursor.old) cursor.new }
{
    if let Some(kind) = mark_kind(first) {
        cursor.bump();
        return Ok(kind);
    }
    if is_whitespace(first) {
        cursor.bump();
        cursor.eat_while(is_whitespace);
        return Ok(SyntaxKind::WHITESPACE);
    }
    if starts_word(first) {
        return Ok(eat_word(cursor));
    }
    if is_digit(first) {
        return Ok(eat_number(cursor, dots));
    }
    Err(FaultKind::NoToken)
}

/// Passes over the token that comes next, and gives its kind. `dots` counts the `.` directly in front of it.
#[tactic(auto, using(crate::proofs::FirstCharacters::no_rows))]
pub(crate) fn eat_token(cursor: &mut Cursor<'_>, dots: u32) -> Result<SyntaxKind, FaultKind>
    ensures { Takes (spec.fault_of cursor.old) result (spec.token dots cursor.old) cursor.new }
{
    let Some(first) = cursor.first() else {
        return Err(FaultKind::NoToken);
    };
    match first {
        '/' => eat_slash(cursor),
        '"' => eat_quote(cursor),
        'r' => eat_r(cursor),
        'b' => eat_b(cursor),
        'c' => eat_c(cursor),
        '\'' => eat_lifetime_or_char(cursor),
        _ => eat_other(cursor, first, dots),
    }
}
