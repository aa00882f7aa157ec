//! Edits of a text, and what is in the way of applying one.
ghost use Rattle.std.specs.Prelude.{◌≡◌, ◌↔◌, IsTrue, IfOk, length, string_bytes};
ghost use Rattle.std.specs.List.{All};
ghost use Rattle.std.specs.Slice.Iter.{iter_rest};
ghost use Rattle.ssr_base_trees.specs.Changes.{ChangesInOrder, FitsText, replaced};
ghost use Rattle.ssr_base_trees.specs.Applied.{changes_of, Applies};
ghost use Rattle.ssr_base_trees.specs.declared.edit.ApplyError.TheVariants as errors;

use ssr_syntax_kinds::TextRange;
use std::alloc::{AllocError, Global};
use std::error::Error;
use std::marker::Model;
use std::{fmt, slice};

/// Why an edit was not applied.
#[derive(Clone, Copy, Debug, PartialEq, Eq)]
pub enum ApplyError {
    /// A change lies past the end of the text, or begins or ends inside of a character.
    Range,
    /// Memory ran out.
    Memory,
}

impl fmt::Display for ApplyError {
    ghost use Rattle.std.specs.Prelude.{Some};
    ghost use Rattle.ssr_base_trees.specs.Applied.{error_words};

    ghost output = { λ error. Some (error_words error) };

    fn fmt<W: fmt::Write>(&self, f: &mut fmt::Formatter<W>) -> fmt::Result {
        f.write_str(match self {
            ApplyError::Range => "a change lies past the end of the text or inside of a character",
            ApplyError::Memory => "out of memory",
        })
    }
}

impl Error for ApplyError {}

impl From<AllocError> for ApplyError {
    ghost use Rattle.std.specs.Prelude.{◌≡◌};

    ghost from_gives = { λ _ error. error ≡ errors.Memory };

    fn from(_: AllocError) -> ApplyError {
        ApplyError::Memory
    }
}

/// Changes of a text, in order and sharing no byte: each puts a text in the place of a range of bytes.
#[derive(Debug, Drop)]
pub struct TextEdit {
    changes: Vec<(TextRange, String)>,
}

impl Model for TextEdit {
    ghost use Rattle.std.specs.Prelude.{List};
    ghost use Rattle.ssr_base_trees.specs.Changes.{Change, ChangesInOrder};
    ghost use Rattle.ssr_base_trees.specs.Applied.{changes_of};

    ghost Value = { List Change };

    ghost view = { λ edit. changes_of edit.changes.items };

    ghost invariant = { λ edit. ChangesInOrder 0 (changes_of edit.changes.items) };
}

impl TextEdit {
    /// The edit that makes these changes; each begins at or after the end of the one before.
    pub fn new(changes: Vec<(TextRange, String)>) -> TextEdit
        requires { ChangesInOrder 0 (changes_of changes.items) }
        ensures { result ≡ changes_of changes.items }
    {
        TextEdit { changes }
    }

    /// The changes in order, each with its range and its new text.
    pub fn iter(&self) -> slice::Iter<'_, (TextRange, String)>
        ensures items { changes_of (iter_rest result) ≡ self.now }
        ensures order { ChangesInOrder 0 self.now }
    {
        self.changes.iter()
    }

    /// The text with the changes made. `Range` where one of them lies past the end of the text or begins or
    /// ends inside of a character.
    pub fn apply(&self, alloc: Global, text: &str) -> Result<String, ApplyError>
        ensures answer { Applies self.now text.now result }
        ensures text { IfOk result (λ new. string_bytes new ≡ replaced text.now 0 (length text.now) self.now) }
    {
        if !self.fits(text) {
            return Err(ApplyError::Range);
        }
        Ok(self.written(alloc, text)?)
    }

    /// Whether each change begins and ends between two characters of the text.
    fn fits(&self, text: &str) -> bool
        ensures fits { IsTrue result ↔ All (FitsText text.now) self.now }
        ensures order { ChangesInOrder 0 self.now }
    {
        self.changes.iter().all(|(range, _)| {
            text.is_char_boundary(range.start as usize) && text.is_char_boundary(range.end as usize)
        })
    }

    /// The text with the changes made, each of which fits it.
    fn written(&self, alloc: Global, text: &str) -> Result<String, AllocError>
        requires { All (FitsText text.now) self.now }
        ensures { IfOk result (λ new. string_bytes new ≡ replaced text.now 0 (length text.now) self.now) }
    {
        let mut new = String::new(alloc);
        let mut at = 0;
        for (range, replacement) in &self.changes {
            new.push_str(&text[at..range.start as usize])?;
            new.push_str(replacement.as_str())?;
            at = range.end as usize;
        }
        new.push_str(&text[at..])?;
        Ok(new)
    }
}
