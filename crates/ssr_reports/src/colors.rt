//! A diff in colours.

use std::alloc::{AllocError, Global};

/// What a terminal takes to end a colour.
const PLAIN: &str = "\u{1b}[0m";

/// A diff with codes of colours round its lines: heads bold, heads of hunks cyan, removed lines red and added ones green.
///
/// A line is known by its first characters, so a removed line that begins with `--` counts as a head.
pub fn colored(alloc: Global, diff: &str) -> Result<String, AllocError> {
    let mut text = String::new(alloc);
    for line in diff.split_inclusive('\n') {
        push_painted(&mut text, line)?;
    }
    Ok(text)
}

fn push_painted(text: &mut String, line: &str) -> Result<(), AllocError> {
    match paint_of(line) {
        Some(paint) => {
            text.push_str(paint)?;
            text.push_str(line)?;
            text.push_str(PLAIN)
        }
        None => text.push_str(line),
    }
}

/// The code before a line; none for a line that is kept.
fn paint_of(line: &str) -> Option<&'static str> {
    if line.starts_with("---") || line.starts_with("+++") {
        Some("\u{1b}[1m")
    } else if line.starts_with("@@") {
        Some("\u{1b}[36m")
    } else if line.starts_with("-") {
        Some("\u{1b}[31m")
    } else if line.starts_with("+") {
        Some("\u{1b}[32m")
    } else {
        None
    }
}
