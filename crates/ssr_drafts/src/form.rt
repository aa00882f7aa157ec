//! What becomes of a token in the text that is searched, and what it belongs to.
ghost use Rattle.std.specs.Prelude.{◌≡◌};
ghost use Rattle.ssr_drafts.specs.Forms.{word_of};

use std::alloc::{AllocError, Global};

/// The form that a token is part of.
#[derive(Clone, Copy, Debug, PartialEq, Eq)]
pub enum Form {
    /// One that is read: the token stays.
    Kept,
    /// A word in front of an item, as `default` and `auto`.
    Modifier,
    /// `for<..>` of a closure.
    Binder,
    /// What can go from the inside of what is read, as `~const`.
    Inner,
    /// The `try` of `try!(..)`, for which a name stands.
    Name,
    /// The last dot of a pattern's `...`, for which `=` stands.
    Inclusive,
    /// A unit that isn't read.
    Unread,
}

/// Where the node stands that a part set aside belongs to.
#[derive(Clone, Copy, Debug, PartialEq, Eq)]
pub(crate) enum Side {
    /// Around the part.
    Inside,
    /// Behind the part: it begins with the next token that stays.
    Ahead,
}

impl Form {
    /// What stands in the place of a token that doesn't stay; blanks follow, up to the token's length.
    pub fn word(self) -> &'static str
        ensures { result.now ≡ word_of self }
    {
        match self {
            Form::Name => "x",
            Form::Inclusive => "=",
            _ => "",
        }
    }

    /// What the part belongs to.
    pub(crate) fn side(self) -> Side {
        match self {
            Form::Modifier | Form::Binder => Side::Ahead,
            Form::Kept | Form::Inner | Form::Name | Form::Inclusive | Form::Unread => Side::Inside,
        }
    }
}

/// A word, and behind it a blank for each further byte of a text. Lines stay: a line feed isn't replaced.
pub(crate) fn filled(alloc: Global, word: &str, old: &str) -> Result<String, AllocError> {
    let mut new = String::from_str(alloc, word)?;
    for byte in old.bytes().skip(word.len()) {
        new.push(if byte == b'\n' { '\n' } else { ' ' })?;
    }
    Ok(new)
}
