//! Classes of characters.

ghost use Rattle.std.specs.Prelude.{◌≡◌};
ghost use Rattle.ssr_syntax_lex.specs.Characters as spec;

pub(crate) fn is_whitespace(c: char) -> bool
    ensures { result ≡ spec.is_whitespace c }
{
    if c.is_ascii() {
        return c == ' ' || matches!(c, '\u{9}'..='\u{d}');
    }
    matches!(
        c,
        '\u{85}' | '\u{200e}' | '\u{200f}' | '\u{2028}' | '\u{2029}'
    )
}

pub(crate) fn is_hash(c: char) -> bool
    ensures { result ≡ spec.is_hash c }
{
    c == '#'
}

pub(crate) fn is_digit(c: char) -> bool
    ensures { result ≡ spec.is_digit c }
{
    c.is_ascii_digit()
}

pub(crate) fn is_digit_or_underscore(c: char) -> bool
    ensures { result ≡ spec.is_digit_or_underscore c }
{
    is_digit(c) || c == '_'
}

pub(crate) fn is_exponent_mark(c: char) -> bool
    ensures { result ≡ spec.is_exponent_mark c }
{
    matches!(c, 'e' | 'E')
}

#[tactic(auto, using(crate::proofs::WordLaws::ascii_starts))]
pub(crate) fn starts_word(c: char) -> bool
    ensures { result ≡ spec.starts_word c }
{
    if c.is_ascii() {
        return c.is_ascii_alphabetic() || c == '_';
    }
    unicode_ident::is_xid_start(c)
}

#[tactic(auto, using(crate::proofs::WordLaws::ascii_words))]
pub(crate) fn continues_word(c: char) -> bool
    ensures { result ≡ spec.continues_word c }
{
    if c.is_ascii() {
        return c.is_ascii_alphanumeric() || c == '_';
    }
    unicode_ident::is_xid_continue(c)
}

pub(crate) fn is_in_line(c: char) -> bool
    ensures { result ≡ spec.is_in_line c }
{
    c != '\n'
}

/// Whether a character may stand between the first one and the end of `'..'`.
pub(crate) fn is_in_char(c: char) -> bool
    ensures { result ≡ spec.is_in_char c }
{
    !matches!(c, '\'' | '\n')
}
