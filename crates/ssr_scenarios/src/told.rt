//! Texts that are told piece by piece.

use std::alloc::{AllocError, Global};
use std::fmt::{Debug, Display, Write};

/// A text that grows piece by piece. Where memory runs out, it isn't whole from then on, and only its end tells that.
#[derive(Drop)]
pub(crate) struct Told {
    text: String,
    is_whole: bool,
}

impl Told {
    /// The empty text.
    pub(crate) fn nothing(alloc: Global) -> Told {
        Told {
            text: String::new(alloc),
            is_whole: true,
        }
    }

    /// Adds a text.
    pub(crate) fn text(&mut self, text: &str) {
        self.is_whole = self.is_whole && self.text.push_str(text).is_ok();
    }

    /// Adds a text that ends a line.
    pub(crate) fn line(&mut self, text: &str) {
        self.text(text);
        self.text("\n");
    }

    /// Adds a character.
    pub(crate) fn letter(&mut self, letter: char) {
        self.is_whole = self.is_whole && self.text.push(letter).is_ok();
    }

    /// Adds a text as it is quoted in Rust.
    pub(crate) fn quoted(&mut self, text: &str) {
        self.is_whole = self.is_whole && write!(self.text, "{text:?}").is_ok();
    }

    /// Adds a value as a user is shown it.
    pub(crate) fn shown<T: Display>(&mut self, value: &T) {
        self.is_whole = self.is_whole && write!(self.text, "{value}").is_ok();
    }

    /// Adds a value as a programmer is shown it.
    pub(crate) fn debug<T: Debug>(&mut self, value: &T) {
        self.is_whole = self.is_whole && write!(self.text, "{value:?}").is_ok();
    }

    /// Adds another text, which is whole only if both are.
    pub(crate) fn told(&mut self, other: &Told) {
        self.text(other.as_str());
        self.is_whole = self.is_whole && other.is_whole;
    }

    /// A value that is about to be told, unless memory ran out for it.
    pub(crate) fn got<T>(&mut self, value: Result<T, AllocError>) -> Option<T> {
        match value {
            Ok(value) => Some(value),
            Err(AllocError) => {
                self.lose();
                None
            }
        }
    }

    /// Notes that memory ran out.
    pub(crate) fn lose(&mut self) {
        self.is_whole = false;
    }

    /// Whether the text is whole and has nothing.
    pub(crate) fn is_empty(&self) -> bool {
        self.is_whole && self.text.is_empty()
    }

    /// How many bytes the text has.
    pub(crate) fn len(&self) -> usize {
        self.text.len()
    }

    /// What the text has so far.
    pub(crate) fn as_str(&self) -> &str {
        self.text.as_str()
    }

    /// The whole text, unless memory ran out.
    pub(crate) fn end(self) -> Result<String, AllocError> {
        if self.is_whole {
            Ok(self.text)
        } else {
            Err(AllocError)
        }
    }
}
