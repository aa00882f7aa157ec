//! The lines of texts.
ghost use Rattle.std.specs.Prelude.{◌≡◌, ◌↔◌, ◌<◌, ◌≤◌, Some, IfOk, IsTrue, length, slice_get};
ghost use Rattle.ssr_diff.specs.Patch.{lines_of};

use crate::places::Place;
use std::alloc::{AllocError, Global};
use std::marker::Model;

/// The lines of a text, each with its line break; the last one may have none.
#[derive(Drop)]
pub struct Lines<'a> {
    lines: Vec<&'a str>,
}

impl<'a> Model for Lines<'a> {
    ghost use Rattle.std.specs.Prelude.{List, ℕ, map};

    ghost Value = { List (List ℕ) };

    ghost view = { λ text. map (λ line. line.now) text.lines.items };
}

impl<'a> Lines<'a> {
    /// The lines of a text.
    pub fn of_text(alloc: Global, text: &'a str) -> Result<Lines<'a>, AllocError>
        ensures { IfOk result (λ lines. lines ≡ lines_of text.now) }
    {
        let lines = text.split_inclusive('\n').collect(alloc)?;
        Ok(Lines { lines })
    }

    /// How many lines there are.
    pub fn len(&self) -> usize
        ensures { result ≡ length self.now }
    {
        self.lines.len()
    }

    /// The line at a place, counted from 0.
    pub fn line(&self, place: usize) -> &'a str
        requires { place < length self.now }
        ensures { slice_get self.now place ≡ Some result.now }
    {
        self.lines[place]
    }
}

/// The lines of a file before and after an edit.
#[derive(Drop)]
pub(crate) struct Texts<'old, 'new> {
    pub(crate) old: Lines<'old>,
    pub(crate) new: Lines<'new>,
}

impl Texts<'_, '_> {
    /// Whether both texts have the same line at a place.
    pub(crate) fn agree_at(&self, place: Place) -> bool
        requires old { place.old < length self.now.old }
        requires new { place.new < length self.now.new }
        ensures { IsTrue result ↔ (slice_get self.now.old place.old ≡ slice_get self.now.new place.new) }
    {
        self.old.line(place.old) == self.new.line(place.new)
    }

    /// Whether a place stands before another one or at it, which lies in both texts.
    pub(crate) fn has_in_order(&self, from: Place, to: Place) -> bool
        ensures { IsTrue result ↔ ((from.old ≤ to.old) × (from.new ≤ to.new) × (to.old ≤ length self.now.old) × (to.new ≤ length self.now.new)) }
    {
        from.old <= to.old
            && from.new <= to.new
            && to.old <= self.old.len()
            && to.new <= self.new.len()
    }

    /// The place behind the last lines.
    pub(crate) fn end(&self) -> Place
        ensures { result ≡ record { old = length self.now.old; new = length self.now.new } }
    {
        Place {
            old: self.old.len(),
            new: self.new.len(),
        }
    }
}
