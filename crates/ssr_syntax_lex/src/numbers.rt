//! Number tokens.

ghost use Rattle.std.specs.Prelude.{◌≡◌, ◌&&◌, ◌<◌, ◌^◌, length, drop};
ghost use Rattle.std.specs.Str.{chars};
ghost use Rattle.std.specs.List.{list_all};
ghost use Rattle.ssr_syntax_lex.specs.Numbers as spec;
ghost use Rattle.ssr_syntax_lex.specs.Characters.{is_digit_or_underscore, continues_word};
ghost use Rattle.ssr_syntax_lex.specs.Cursor.{past};
ghost use Rattle.ssr_syntax_lex.specs.Private.Steps.{comes_point};

use crate::characters::{
    continues_word, is_digit, is_digit_or_underscore, is_exponent_mark, starts_word,
};
use crate::cursor::{Cursor, split_last_char};
use ssr_syntax_kinds::SyntaxKind;

/// Whether a text is digits and `_` only.
#[tactic(auto, using(crate::proofs::NumberLaws::all_passed))]
fn is_plain(text: &str) -> bool
    requires { length text.now < 2 ^ 32 }
    ensures { result ≡ list_all is_digit_or_underscore (chars text.now) }
{
    let mut rest = Cursor::new(text);
    rest.eat_while(is_digit_or_underscore);
    rest.is_empty()
}

/// Whether a text begins with `0x`, `0o` or `0b`.
fn has_radix(text: &str) -> bool
    requires { length text.now < 2 ^ 32 }
    ensures { result ≡ spec.has_radix (chars text.now) }
{
    let text = Cursor::new(text);
    text.is_pair('0', 'x') || text.is_pair('0', 'o') || text.is_pair('0', 'b')
}

fn ends_with_exponent_mark(text: &str) -> bool
    ensures { result ≡ spec.ends_with_exponent_mark (chars text.now) }
{
    let Some((_, last)) = split_last_char(text) else {
        return false;
    };
    is_exponent_mark(last)
}

/// Whether the first character of a text that is no digit and no `_` is `e` or `E`, and the text has no radix.
fn has_exponent(text: &str) -> bool
    requires { length text.now < 2 ^ 32 }
    ensures { result ≡ spec.has_exponent (chars text.now) }
{
    if has_radix(text) {
        return false;
    }
    let mut rest = Cursor::new(text);
    rest.eat_while(is_digit_or_underscore);
    rest.first().is_some_and(is_exponent_mark)
}

/// Whether a point comes next that belongs to a number of digits and `_` in front of it.
fn is_point(cursor: &Cursor<'_>) -> bool
    ensures { result ≡ comes_point cursor.now }
{
    cursor.is_at('.') && !cursor.is_second('.') && !cursor.second().is_some_and(starts_word)
}

/// Whether a sign and a digit come next.
fn is_signed_digit(cursor: &Cursor<'_>) -> bool
    ensures { result ≡ spec.is_signed_digit cursor.now }
{
    (cursor.is_at('+') || cursor.is_at('-')) && cursor.second().is_some_and(is_digit)
}

/// Whether a text ends with `e` or `E`, and a sign and a digit come next.
fn has_signed_exponent(text: &str, cursor: &Cursor<'_>) -> bool
    ensures { result ≡ (spec.ends_with_exponent_mark (chars text.now) && spec.is_signed_digit cursor.now) }
{
    ends_with_exponent_mark(text) && is_signed_digit(cursor)
}

/// Whether a sign that comes next belongs to the number that begins with this run.
fn takes_sign(run: &str, cursor: &Cursor<'_>) -> bool
    requires { length run.now < 2 ^ 32 }
    ensures { result ≡ spec.takes_sign (chars run.now, cursor.now) }
{
    !has_radix(run) && has_signed_exponent(run, cursor)
}

/// Passes over a number, and gives its kind. `dots` counts the `.` directly in front of it.
#[tactic(auto, unfolding(crate::specs::Numbers::number))]
pub(crate) fn eat_number(cursor: &mut Cursor<'_>, dots: u32) -> SyntaxKind
    ensures kind { result ≡ (spec.number dots cursor.old).0 }
    ensures rest { cursor.new ≡ (spec.number dots cursor.old).1 }
{
    if dots == 1 {
        cursor.eat_while(is_digit);
        return SyntaxKind::INT_NUMBER;
    }
    let run = cursor.eat_while(continues_word);
    if is_plain(run) {
        // Digits and `_` have no radix and no exponent, so that a point alone can make them a float.
        if !is_point(cursor) {
            return SyntaxKind::INT_NUMBER;
        }
        cursor.bump();
        let fraction = cursor.eat_while(continues_word);
        if has_signed_exponent(fraction, cursor) {
            eat_signed_run(cursor);
        }
        return SyntaxKind::FLOAT_NUMBER;
    }
    if takes_sign(run, cursor) {
        eat_signed_run(cursor);
        return SyntaxKind::FLOAT_NUMBER;
    }
    if has_exponent(run) {
        SyntaxKind::FLOAT_NUMBER
    } else {
        SyntaxKind::INT_NUMBER
    }
}

/// Passes over a sign, its digit and the run behind them.
fn eat_signed_run(cursor: &mut Cursor<'_>)
    ensures { cursor.new ≡ past continues_word (drop 2 cursor.old) }
{
    cursor.bump_pair();
    cursor.eat_while(continues_word);
}
