//! Hunks, written from block to block.
ghost use Rattle.std.specs.Prelude.{◌≡◌, ◌↔◌, ◌+◌, ◌-◌, ◌<◌, ◌≤◌, ◌++◌, None, [], IfOk, IsTrue, OnOk, length, map, min, flat_map, string_bytes};
ghost use Rattle.std.specs.List.{slice_range};
ghost use Rattle.ssr_diff.specs.Patch.{Kept, Removed, Added, line_text};
ghost use Rattle.ssr_diff.specs.Private.Writing.{AreInOrder, SameLines, Extends, open_text, IsWriting, IsReady, IsTrimmed, IsOpen, AreClosed, AreHunks, origin};

use crate::lines::Texts;
use crate::places::{Block, Place};
use crate::trimming::trimmed;
use crate::writing::{push_lines, push_span};
use std::alloc::{AllocError, Global};

/// How many lines are kept before the first change of a hunk and behind its last one.
const CONTEXT: usize = 3;

/// How many lines two changes of one hunk are apart at most.
const NEAR: usize = 6;

/// A hunk that a block which is near may join: the places where it begins and ends, and its lines as they are written.
#[derive(Drop)]
pub(crate) struct OpenHunk {
    start: Place,
    end: Place,
    text: String,
}

/// The hunks that are written, the one that is open, and the place up to which the texts are gone over.
#[derive(Drop)]
pub(crate) struct Hunks {
    text: String,
    current: Option<OpenHunk>,
    at: Place,
}

impl OpenHunk {
    /// A hunk with the context before a place.
    fn before(alloc: Global, texts: &Texts<'_, '_>, place: Place) -> Result<OpenHunk, AllocError>
        requires old { place.old ≤ length texts.now.old }
        requires new { min place.old 3 ≤ place.new }
        ensures start { IfOk result (λ hunk. hunk.start ≡ record { old = place.old - 3; new = place.new - min place.old 3 }) }
        ensures end { IfOk result (λ hunk. hunk.end ≡ place) }
        ensures text { IfOk result (λ hunk. string_bytes hunk.text ≡ flat_map line_text (map Kept (slice_range texts.now.old (place.old - 3) place.old))) }
    {
        let context = place.old.min(CONTEXT);
        let start = Place {
            old: place.old - context,
            new: place.new - context,
        };
        let mut text = String::new(alloc);
        push_lines(&mut text, " ", &texts.old, start.old, place.old)?;
        Ok(OpenHunk {
            start,
            end: place,
            text,
        })
    }

    /// The first hunk, behind no other one, up to a place.
    fn first(
        alloc: Global,
        text: String,
        texts: &Texts<'_, '_>,
        place: Place,
    ) -> Result<(String, OpenHunk), AllocError>
        requires empty { string_bytes text ≡ [] }
        requires same { SameLines texts.now.old texts.now.new origin place }
        ensures { IfOk result (λ ready. IsReady texts.now.old texts.now.new (string_bytes ready.0) ready.1 place) }
    {
        let hunk = OpenHunk::before(alloc, texts, place)?;
        Ok((text, hunk))
    }

    /// Goes on with kept lines up to a place.
    fn keep(mut self, texts: &Texts<'_, '_>, place: Place) -> Result<OpenHunk, AllocError>
        requires order { self.end.old ≤ place.old }
        requires fits { place.old ≤ length texts.now.old }
        ensures { IfOk result (λ next. Extends self next (map Kept (slice_range texts.now.old self.end.old place.old)) place) }
    {
        push_lines(&mut self.text, " ", &texts.old, self.end.old, place.old)?;
        self.end = place;
        Ok(self)
    }

    /// Goes on with a block.
    fn replace(mut self, texts: &Texts<'_, '_>, block: &Block) -> Result<OpenHunk, AllocError>
        requires { AreInOrder texts.now.old texts.now.new block.now.from block.now.to }
        ensures { IfOk result (λ next. Extends self next (map Removed (slice_range texts.now.old block.now.from.old block.now.to.old) ++ map Added (slice_range texts.now.new block.now.from.new block.now.to.new)) block.now.to) }
    {
        push_lines(
            &mut self.text,
            "-",
            &texts.old,
            block.from.old,
            block.to.old,
        )?;
        push_lines(
            &mut self.text,
            "+",
            &texts.new,
            block.from.new,
            block.to.new,
        )?;
        self.end = block.to;
        Ok(self)
    }

    /// Puts the hunk behind a text, with the context behind its last change, where both texts have the same lines up to a place.
    fn close(
        self,
        mut text: String,
        texts: &Texts<'_, '_>,
        place: Place,
    ) -> Result<String, AllocError>
        requires shown { IsOpen texts.now.old texts.now.new (string_bytes text) self }
        requires same { SameLines texts.now.old texts.now.new self.end place }
        requires context { place.old < self.end.old + 3 → place.old ≡ length texts.now.old }
        ensures { IfOk result (λ text. AreClosed texts.now.old texts.now.new (string_bytes text) self.end place) }
    {
        let context = (place.old - self.end.old).min(CONTEXT);
        let end = Place {
            old: self.end.old + context,
            new: self.end.new + context,
        };
        let hunk = self.keep(texts, end)?;
        hunk.write(&mut text)?;
        Ok(text)
    }

    /// Goes on up to a place, in this hunk or in a new one behind it: the text of the hunks that are closed, and the one that is open.
    fn reach(
        self,
        alloc: Global,
        text: String,
        texts: &Texts<'_, '_>,
        place: Place,
    ) -> Result<(String, OpenHunk), AllocError>
        requires shown { IsOpen texts.now.old texts.now.new (string_bytes text) self }
        requires same { SameLines texts.now.old texts.now.new self.end place }
        ensures { IfOk result (λ ready. IsReady texts.now.old texts.now.new (string_bytes ready.0) ready.1 place) }
    {
        if self.is_near(place) {
            let hunk = self.keep(texts, place)?;
            return Ok((text, hunk));
        }
        let text = self.close(text, texts, place)?;
        let hunk = OpenHunk::before(alloc, texts, place)?;
        Ok((text, hunk))
    }

    /// Whether a change at a place joins the hunk.
    fn is_near(&self, place: Place) -> bool
        requires { self.now.end.old ≤ place.old }
        ensures { IsTrue result ↔ (place.old ≤ self.now.end.old + 6) }
    {
        place.old - self.end.old <= NEAR
    }

    /// Writes the hunk with its head.
    fn write(&self, text: &mut String) -> Result<(), AllocError>
        requires old { self.now.start.old ≤ self.now.end.old }
        requires new { self.now.start.new ≤ self.now.end.new }
        ensures { OnOk result (string_bytes text.new ≡ string_bytes text.old ++ open_text self.now) }
    {
        text.push_str("@@ -")?;
        push_span(text, self.start.old, self.end.old)?;
        text.push_str(" +")?;
        push_span(text, self.start.new, self.end.new)?;
        text.push_str(" @@\n")?;
        text.push_str(self.text.as_str())
    }
}

impl Hunks {
    pub(crate) fn new(alloc: Global) -> Hunks
        ensures text { string_bytes result.text ≡ [] }
        ensures current { result.current ≡ None }
        ensures at { result.at ≡ origin }
    {
        Hunks {
            text: String::new(alloc),
            current: None,
            at: Place { old: 0, new: 0 },
        }
    }

    /// Goes on up to a place, if it doesn't stand before the one where the last call ended, and lies in the texts.
    pub(crate) fn cut(
        self,
        alloc: Global,
        texts: &Texts<'_, '_>,
        to: Place,
    ) -> Result<Hunks, AllocError>
        requires { IsWriting texts.now.old texts.now.new self }
        ensures { IfOk result (λ next. IsWriting texts.now.old texts.now.new next) }
    {
        if texts.has_in_order(self.at, to) {
            self.advance(alloc, texts, to)
        } else {
            Ok(self)
        }
    }

    /// Goes on up to a place.
    fn advance(self, alloc: Global, texts: &Texts<'_, '_>, to: Place) -> Result<Hunks, AllocError>
        requires writing { IsWriting texts.now.old texts.now.new self }
        requires order { AreInOrder texts.now.old texts.now.new self.at to }
        ensures writing { IfOk result (λ next. IsWriting texts.now.old texts.now.new next) }
        ensures at { IfOk result (λ next. next.at ≡ to) }
    {
        match trimmed(texts, self.at, to) {
            None => {
                let Hunks { text, current, .. } = self;
                Ok(Hunks {
                    text,
                    current,
                    at: to,
                })
            }
            Some(block) => self.change(alloc, texts, &block, to),
        }
    }

    /// Goes on with a block, up to a place behind it: in the open hunk where the block is near, else in a new one.
    fn change(
        self,
        alloc: Global,
        texts: &Texts<'_, '_>,
        block: &Block,
        to: Place,
    ) -> Result<Hunks, AllocError>
        requires writing { IsWriting texts.now.old texts.now.new self }
        requires trimmed { IsTrimmed texts.now.old texts.now.new self.at to block.now }
        ensures writing { IfOk result (λ next. IsWriting texts.now.old texts.now.new next) }
        ensures at { IfOk result (λ next. next.at ≡ to) }
    {
        let ready = self.reach(alloc, texts, block.from)?;
        let (text, hunk) = ready;
        let hunk = hunk.replace(texts, block)?;
        Ok(Hunks {
            text,
            current: Some(hunk),
            at: to,
        })
    }

    /// The text of the hunks that are closed before a place, and a hunk that is open up to it.
    fn reach(
        self,
        alloc: Global,
        texts: &Texts<'_, '_>,
        place: Place,
    ) -> Result<(String, OpenHunk), AllocError>
        requires writing { IsWriting texts.now.old texts.now.new self }
        requires same { SameLines texts.now.old texts.now.new self.at place }
        ensures { IfOk result (λ ready. IsReady texts.now.old texts.now.new (string_bytes ready.0) ready.1 place) }
    {
        let Hunks { text, current, .. } = self;
        match current {
            None => OpenHunk::first(alloc, text, texts, place),
            Some(hunk) => hunk.reach(alloc, text, texts, place),
        }
    }

    /// The text of all hunks, where both texts are the same from the last block on.
    pub(crate) fn finish(self, alloc: Global, texts: &Texts<'_, '_>) -> Result<String, AllocError>
        requires { IsWriting texts.now.old texts.now.new self }
        ensures { IfOk result (λ text. AreHunks texts.now.old texts.now.new (string_bytes text)) }
    {
        let end = texts.end();
        let hunks = self.advance(alloc, texts, end)?;
        let Hunks { text, current, .. } = hunks;
        match current {
            None => Ok(text),
            Some(hunk) => hunk.close(text, texts, end),
        }
    }
}
