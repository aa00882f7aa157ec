//! Where the texts before and after an edit are cut, so that what differs is sought in short pieces.

use crate::lines::{Lines, Texts};
use crate::places::Place;
use ssr_base_trees::TextEdit;
use ssr_syntax_kinds::TextRange;
use std::alloc::{AllocError, Global};

/// A line of a text, and the byte at which it begins.
#[derive(Clone, Copy)]
struct Cursor {
    line: usize,
    byte: usize,
}

impl Cursor {
    /// Goes on to the first line that begins at a byte or behind it, or to the end.
    fn seek(&mut self, lines: &Lines<'_>, byte: usize) {
        while self.byte < byte && self.line < lines.len() {
            self.byte = self.byte.saturating_add(lines.line(self.line).len());
            self.line += 1;
        }
    }

    /// The byte behind the line.
    fn line_end(self, lines: &Lines<'_>) -> usize {
        if self.line < lines.len() {
            self.byte.saturating_add(lines.line(self.line).len())
        } else {
            self.byte
        }
    }
}

/// A walk over the changes of an edit: the first lines behind them that both texts begin, and where the last change ended.
///
/// The sums saturate: a byte past the end of a text is one at which no line begins.
#[derive(Drop)]
struct Walk {
    old: Cursor,
    new: Cursor,
    old_byte: usize,
    new_byte: usize,
}

impl Walk {
    fn start() -> Walk {
        let start = Cursor { line: 0, byte: 0 };
        Walk {
            old: start,
            new: start,
            old_byte: 0,
            new_byte: 0,
        }
    }

    /// Goes on behind a change of a range to a text of so many bytes.
    fn pass(&mut self, texts: &Texts<'_, '_>, range: TextRange, len: usize) {
        let kept = (range.start as usize).saturating_sub(self.old_byte);
        self.new_byte = self.new_byte.saturating_add(kept).saturating_add(len);
        self.old_byte = range.end as usize;
        if !self.meets(texts, self.old_byte) {
            self.meets(texts, self.old_byte.saturating_add(1));
        }
    }

    /// Goes on to the first line of the old text from a byte on; whether the new text begins a line at the same place.
    fn meets(&mut self, texts: &Texts<'_, '_>, byte: usize) -> bool {
        self.old.seek(&texts.old, byte);
        let behind = self.old.byte.saturating_sub(self.old_byte);
        let place = self.new_byte.saturating_add(behind);
        self.new.seek(&texts.new, place);
        self.new.byte == place
    }

    /// The place before the lines that both texts begin.
    fn place(&self) -> Place {
        Place {
            old: self.old.line,
            new: self.new.line,
        }
    }
}

/// The places behind the changes of an edit, but where the next change touches the line there.
pub(crate) fn cuts(
    alloc: Global,
    texts: &Texts<'_, '_>,
    edit: &TextEdit,
) -> Result<Vec<Place>, AllocError> {
    let mut cuts = Vec::new(alloc);
    let mut walk = Walk::start();
    for (range, text) in edit.iter() {
        if walk.old.line_end(&texts.old) <= range.start as usize {
            cuts.push(walk.place())?;
        }
        walk.pass(texts, *range, text.len());
    }
    Ok(cuts)
}
