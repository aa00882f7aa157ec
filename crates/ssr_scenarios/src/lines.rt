//! The lines of a scenario.

use std::alloc::{AllocError, Global};

/// A line: its first word, what stands behind that, and the indented lines below it.
#[derive(Drop)]
pub(crate) struct Line<'a> {
    pub(crate) word: &'a str,
    pub(crate) rest: &'a str,
    pub(crate) wanted: String,
}

/// The line of a text that is not indented.
fn line_of(alloc: Global, text: &str) -> Line<'_> {
    let (word, rest) = text.split_once(" ").unwrap_or((text, ""));
    Line {
        word,
        rest,
        wanted: String::new(alloc),
    }
}

/// Adds a text, indented or not, to the lines above it.
fn push_text<'a>(
    alloc: Global,
    lines: &mut Vec<Line<'a>>,
    text: &'a str,
) -> Result<(), AllocError> {
    let Some(wanted) = text.strip_prefix("  ") else {
        lines.push(line_of(alloc, text))?;
        return Ok(());
    };
    if let Some(line) = lines.last_mut() {
        line.wanted.push_str(wanted)?;
        line.wanted.push('\n')?;
    }
    Ok(())
}

/// The lines of a text, without remarks.
pub(crate) fn lines_of(alloc: Global, text: &str) -> Result<Vec<Line<'_>>, AllocError> {
    let mut lines = Vec::new(alloc);
    for text in text.lines() {
        if !text.starts_with('#') {
            push_text(alloc, &mut lines, text)?;
        }
    }
    Ok(lines)
}

/// What stands behind the first of these words.
pub(crate) fn rest_of<'a>(lines: &[Line<'a>], word: &str) -> Option<&'a str> {
    for line in lines {
        if line.word == word {
            return Some(line.rest);
        }
    }
    None
}
