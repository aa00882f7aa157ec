//! A cursor over the characters that are left of a text.

ghost use Rattle.std.specs.Prelude.{◌≡◌, ◌<◌, ◌^◌, ℕ, Bool, [], ◌∷◌, ◌++◌, length, drop, slice_get, MatchOption, ◌==◌, encode_utf8, encode_utf8_all};
ghost use Rattle.std.specs.Str.{chars};
ghost use Rattle.ssr_syntax_lex.specs.Cursor.{stand_at, run, past};

use std::marker::Model;

/// The first character of a text, and the text behind it.
fn split_first_char(text: &str) -> Option<(char, &str)>
    ensures bytes { MatchOption result (text.now ≡ []) (λ p. text.now ≡ encode_utf8 p.0 ++ p.1.now) }
    ensures chars { MatchOption result (chars text.now ≡ []) (λ p. chars text.now ≡ p.0 ∷ chars p.1.now) }
{
    let mut chars = text.chars();
    let first = chars.next()?;
    Some((first, chars.as_str()))
}

/// The last character of a text, and the text in front of it.
pub(crate) fn split_last_char(text: &str) -> Option<(&str, char)>
    ensures { MatchOption result (chars text.now ≡ []) (λ p. chars text.now ≡ chars p.0.now ++ p.1 ∷ []) }
{
    let mut chars = text.chars();
    let last = chars.next_back()?;
    Some((chars.as_str(), last))
}

/// A place in a text that is shorter than 2^32 bytes. A contract sees the characters from there on.
#[derive(Drop)]
pub(crate) struct Cursor<'a> {
    rest: &'a str,
}

impl<'a> Model for Cursor<'a> {
    ghost use Rattle.std.specs.Prelude.{List, ℕ, ◌<◌, ◌^◌, length};
    ghost use Rattle.std.specs.Str.{chars, IsUtf8};

    ghost Value = { List ℕ };

    ghost view = { λ c. chars c.rest.now };

    ghost invariant = { λ c. IsUtf8 c.rest.now × (length c.rest.now < 2 ^ 32) };
}

impl<'a> Cursor<'a> {
    pub(crate) fn new(text: &'a str) -> Cursor<'a>
        requires { length text.now < 2 ^ 32 }
        ensures { result ≡ chars text.now }
    {
        Cursor { rest: text }
    }

    /// A second cursor at the same place, to look ahead with.
    pub(crate) fn fork(&self) -> Cursor<'a>
        ensures { result ≡ self.now }
    {
        Cursor { rest: self.rest }
    }

    /// How many bytes are left.
    pub(crate) fn len(&self) -> usize
        ensures bytes { result ≡ length (encode_utf8_all self.now) }
        ensures small { result < 2 ^ 32 }
    {
        self.rest.len()
    }

    pub(crate) fn is_empty(&self) -> bool
        ensures { result ≡ (length self.now == 0) }
    {
        self.rest.is_empty()
    }

    pub(crate) fn first(&self) -> Option<char>
        ensures { result ≡ slice_get self.now 0 }
    {
        let (first, _) = split_first_char(self.rest)?;
        Some(first)
    }

    pub(crate) fn second(&self) -> Option<char>
        ensures { result ≡ slice_get self.now 1 }
    {
        let (_, rest) = split_first_char(self.rest)?;
        let (second, _) = split_first_char(rest)?;
        Some(second)
    }

    pub(crate) fn third(&self) -> Option<char>
        ensures { result ≡ slice_get self.now 2 }
    {
        let (_, rest) = split_first_char(self.rest)?;
        let (_, rest) = split_first_char(rest)?;
        let (third, _) = split_first_char(rest)?;
        Some(third)
    }

    pub(crate) fn fourth(&self) -> Option<char>
        ensures { result ≡ slice_get self.now 3 }
    {
        let (_, rest) = split_first_char(self.rest)?;
        let (_, rest) = split_first_char(rest)?;
        let (_, rest) = split_first_char(rest)?;
        let (fourth, _) = split_first_char(rest)?;
        Some(fourth)
    }

    /// Whether this character comes next.
    pub(crate) fn is_at(&self, c: char) -> bool
        ensures { result ≡ stand_at 0 (c ∷ []) self.now }
    {
        self.first().is_some_and(|first| first == c)
    }

    /// Whether this character comes behind the next one.
    pub(crate) fn is_second(&self, c: char) -> bool
        ensures { result ≡ stand_at 1 (c ∷ []) self.now }
    {
        self.second().is_some_and(|second| second == c)
    }

    /// Whether these two characters come next.
    pub(crate) fn is_pair(&self, first: char, second: char) -> bool
        ensures { result ≡ stand_at 0 (first ∷ second ∷ []) self.now }
    {
        self.is_at(first) && self.is_second(second)
    }

    /// Passes over the next character, if there is one.
    pub(crate) fn bump(&mut self)
        ensures rest { self.new ≡ drop 1 self.old }
        ensures small { length self.old < 2 ^ 32 }
    {
        if let Some((_, rest)) = split_first_char(self.rest) {
            self.rest = rest;
        }
    }

    /// Passes over the next two characters, as far as they are there.
    pub(crate) fn bump_pair(&mut self)
        ensures rest { self.new ≡ drop 2 self.old }
        ensures small { length self.old < 2 ^ 32 }
    {
        self.bump();
        self.bump();
    }

    /// Passes over the next character, if there is one, and gives it.
    pub(crate) fn next(&mut self) -> Option<char>
        ensures { MatchOption result ((self.old ≡ []) × (self.new ≡ [])) (λ c. self.old ≡ c ∷ self.new) }
    {
        let (first, rest) = split_first_char(self.rest)?;
        self.rest = rest;
        Some(first)
    }

    /// Passes over the longest run of characters that pass the test, and gives it.
    pub(crate) fn eat_while<P: Fn(char) -> bool + Drop>(&mut self, passes: P) -> &'a str
        requires { P.IsAlwaysCallable passes }
        ensures text { (p : ℕ → Bool) → ((c : ℕ) (r : Bool) → P.post passes c r → r ≡ p c) → chars result.now ≡ run p self.old }
        ensures rest { (p : ℕ → Bool) → ((c : ℕ) (r : Bool) → P.post passes c r → r ≡ p c) → self.new ≡ past p self.old }
        ensures bytes { (p : ℕ → Bool) → ((c : ℕ) (r : Bool) → P.post passes c r → r ≡ p c) → result.now ≡ encode_utf8_all (run p self.old) }
        ensures small { length result.now < 2 ^ 32 }
    {
        let start = self.rest;
        let mut rest = start;
        while let Some((first, behind)) = split_first_char(rest) {
            if !passes(first) {
                break;
            }
            rest = behind;
        }
        self.rest = rest;
        &start[..start.len() - rest.len()]
    }
}
