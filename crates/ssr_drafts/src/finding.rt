//! Finds the parts of a text that are set aside.

use crate::draft::Draft;
use crate::form::{Form, filled};
use crate::units::Unit;
use ssr_syntax_kinds::TextRange;
use ssr_syntax_lex::RawToken;
use std::alloc::{AllocError, Global};

/// How much of an item that isn't read is set aside.
#[derive(Clone, Copy, Debug, PartialEq, Eq)]
pub enum Care {
    /// As little as it takes.
    Fine,
    /// All of it.
    Coarse,
}

/// What a change sets aside.
#[derive(Debug, Drop)]
pub enum Part {
    /// The bytes in front of all tokens.
    Front,
    /// A token, by its place among those that are neither white space nor comments, and the form that it is part of.
    Token(usize, Form),
    /// Units that aren't read and follow each other.
    Units(Vec<Unit>),
}

/// The parts of a text that are set aside to read it.
#[derive(Debug, Drop)]
pub struct Parts {
    /// The changes that set them aside: in order, sharing no byte, and each with a text of as many bytes as it replaces.
    pub changes: Vec<(TextRange, String)>,
    /// What each change sets aside.
    pub parts: Vec<Part>,
    /// Of each change the bytes that no match may touch: its own, and where the part belongs to what begins behind it, those up to
    /// behind the first byte of that.
    pub reaches: Vec<TextRange>,
    /// The ranges of those of the changes that set aside what isn't read, where blanks alone are left to search.
    pub unsearched: Vec<TextRange>,
}

impl Parts {
    /// No parts.
    pub(crate) fn new(alloc: Global) -> Parts {
        Parts {
            changes: Vec::new(alloc),
            parts: Vec::new(alloc),
            reaches: Vec::new(alloc),
            unsearched: Vec::new(alloc),
        }
    }
}

/// The parts of a text to set aside, as far as the tokens tell that, which are neither white space nor comments. In front of them
/// stand so many bytes that are blanks already. There are no parts where the brackets don't pair, or where no item would be left.
pub fn found(
    alloc: Global,
    text: &str,
    front: usize,
    tokens: &[RawToken],
    care: Care,
) -> Result<Option<Parts>, AllocError> {
    let Some(mut draft) = Draft::new(alloc, text, tokens)? else {
        return Ok(None);
    };
    match care {
        Care::Fine => draft.settle_finely(alloc)?,
        Care::Coarse => draft.settle_coarsely(alloc)?,
    }
    if draft.is_set_aside_whole() {
        return Ok(None);
    }
    let front = text.get(..front).unwrap_or("");
    Ok(Some(with_front(alloc, front, draft.parts(alloc)?)?))
}

/// The parts, and in front of them that of the text in front of the tokens.
fn with_front(alloc: Global, front: &str, parts: Parts) -> Result<Parts, AllocError> {
    let Parts {
        mut changes,
        mut parts,
        mut reaches,
        unsearched,
    } = parts;
    match u32::try_from(front.len()) {
        Ok(end) if end > 0 => {
            let range = TextRange::new(0, end);
            changes.insert(0, (range, filled(alloc, "", front)?))?;
            parts.insert(0, Part::Front)?;
            reaches.insert(0, range)?;
        }
        _ => {}
    }
    Ok(Parts {
        changes,
        parts,
        reaches,
        unsearched,
    })
}
