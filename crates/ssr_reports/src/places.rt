//! Lines and columns.
ghost use Rattle.std.specs.Prelude.{◌≡◌, ◌+◌, ◌<◌, ◌≤◌, ◌^◌, IfOk, MatchOption, length, count_by, string_bytes};
ghost use Rattle.ssr_reports.specs.Places.{is_line_break, begins_character, last_line, first_line as first_line_of, mark_of, line_of, column_of, IsAt, HasNone, place_words as words_of_place, place_text, undecided_text};

use ssr_diff::quoted;
use std::alloc::{AllocError, Global};
use std::marker::Model;

/// A place in a text: its line, and its column in characters, both from 1.
#[derive(Clone, Copy, Debug, PartialEq, Eq)]
pub struct LinePlace {
    pub line: usize,
    pub column: usize,
}

/// The line and the column of a byte of a text; it goes over the text up to there.
pub fn line_place(text: &str, offset: usize) -> LinePlace
    requires { offset ≤ length text.now }
    ensures line { result.line ≡ line_of text.now offset }
    ensures column { result.column ≡ column_of text.now offset }
{
    let before = &text.as_bytes()[..offset];
    LinePlace {
        line: line_breaks(before) + 1,
        column: characters_of_last_line(before) + 1,
    }
}

/// The byte of a text at a line and a column; its end has a place too. None where no character begins at the place.
pub fn byte_at(text: &str, place: LinePlace) -> Option<usize>
    ensures { MatchOption result (HasNone text.now place) (λ offset. IsAt text.now place offset) }
{
    let mut here = LinePlace { line: 1, column: 1 };
    for offset in 0..text.len() {
        if here == place && text.is_char_boundary(offset) {
            return Some(offset);
        }
        here = place_behind(text, offset, here, offset + 1);
    }
    if here == place {
        Some(text.len())
    } else {
        None
    }
}

/// The places of bytes of a text, each found from the one before: bytes in their order take one pass over the text.
#[derive(Drop)]
pub struct Places<'a> {
    text: &'a str,
    /// The byte that was asked for last.
    at: usize,
    /// Its place.
    place: LinePlace,
}

impl<'a> Model for Places<'a> {
    ghost use Rattle.std.specs.Prelude.{ℕ, ◌≡◌, ◌≤◌, List, length};
    ghost use Rattle.ssr_reports.specs.Places.{line_of, column_of};

    ghost Value = { List ℕ };

    ghost view = { λ p. p.text.now };

    ghost invariant = { λ p. (p.at ≤ length p.text.now) × (p.place.line ≡ line_of p.text.now p.at) × (p.place.column ≡ column_of p.text.now p.at) };
}

impl<'a> Places<'a> {
    /// Those of this text.
    pub fn new(text: &'a str) -> Places<'a>
        ensures { result ≡ text.now }
    {
        Places {
            text,
            at: 0,
            place: LinePlace { line: 1, column: 1 },
        }
    }

    /// The line and the column of a byte, or of the end where there is no such byte.
    pub fn place(&mut self, offset: usize) -> LinePlace
        ensures line { result.line ≡ line_of self.old offset }
        ensures column { result.column ≡ column_of self.old offset }
        ensures text { self.new ≡ self.old }
    {
        let at = offset.min(self.text.len());
        self.place = if at < self.at {
            line_place(self.text, at)
        } else {
            place_behind(self.text, self.at, self.place, at)
        };
        self.at = at;
        self.place
    }
}

/// The place of a byte that stands at or behind another one, from the place of that one.
fn place_behind(text: &str, at: usize, place: LinePlace, offset: usize) -> LinePlace
    requires order { at ≤ offset }
    requires inside { offset ≤ length text.now }
    requires line { place.line ≡ line_of text.now at }
    requires column { place.column ≡ column_of text.now at }
    ensures line { result.line ≡ line_of text.now offset }
    ensures column { result.column ≡ column_of text.now offset }
{
    let between = &text.as_bytes()[at..offset];
    let lines = line_breaks(between);
    let characters = characters_of_last_line(between);
    LinePlace {
        line: place.line + lines,
        column: if lines == 0 {
            place.column + characters
        } else {
            characters + 1
        },
    }
}

fn line_breaks(bytes: &[u8]) -> usize
    ensures count { result ≡ count_by is_line_break bytes.now }
    ensures bound { result < 2 ^ 63 }
{
    bytes.iter().filter(|byte| **byte == b'\n').count()
}

fn characters_of_last_line(bytes: &[u8]) -> usize
    ensures count { result ≡ count_by begins_character (last_line bytes.now) }
    ensures bound { result < 2 ^ 63 }
{
    bytes
        .iter()
        .rev()
        .take_while(|byte| **byte != b'\n')
        .filter(|byte| **byte < 128 || **byte >= 192)
        .count()
}

/// `src/lib.rs:12:9`: a place of a file, whose name is [`quoted`].
pub fn place_words(alloc: Global, file: &str, place: LinePlace) -> Result<String, AllocError>
    ensures { IfOk result (λ words. string_bytes words ≡ words_of_place file.now place) }
{
    let name = quoted(alloc, file)?;
    let LinePlace { line, column } = place;
    format!(in alloc; "{name}:{line}:{column}")
}

/// `src/lib.rs:12:9: text` and a line break, of what is found at a place of a file; of several lines the first one, and ` ..` behind it.
pub fn place_line(
    alloc: Global,
    file: &str,
    place: LinePlace,
    found: &str,
) -> Result<String, AllocError>
    ensures { IfOk result (λ line. string_bytes line ≡ place_text file.now place found.now) }
{
    let place = place_words(alloc, file, place)?;
    let (first, mark) = first_line(found);
    format!(in alloc; "{place}: {first}{mark}\n")
}

/// ``src/lib.rs:12:9: undecided by `name`: text``, of what may match at a place, since it isn't known what a name stands for.
pub fn undecided_words(
    alloc: Global,
    place: &str,
    name: &str,
    found: &str,
) -> Result<String, AllocError>
    ensures { IfOk result (λ line. string_bytes line ≡ undecided_text place.now name.now found.now) }
{
    let (first, mark) = first_line(found);
    format!(in alloc; "{place}: undecided by `{name}`: {first}{mark}")
}

/// A text up to its first line break, and a mark where there is one.
fn first_line(text: &str) -> (&str, &'static str)
    ensures first { result.0.now ≡ first_line_of text.now }
    ensures mark { result.1.now ≡ mark_of text.now }
{
    match text.split_once('\n') {
        Some((first, _)) => (first, " .."),
        None => (text, ""),
    }
}
