//! The line that ends a run, and the one that tells what of a file isn't searched.
ghost use Rattle.std.specs.Prelude.{◌≡◌, ◌++◌, IfOk, OnOk, string_bytes};
ghost use Rattle.ssr_reports.specs.Summary.{summary_text, counted, some_counted, unchanged_text, not_searched_text};

use crate::places::{LinePlace, place_words};
use std::alloc::{AllocError, Global};

/// How many files have matches, how many matches there are and how many edits are made; how many matches stay because of what is set
/// aside, and how many because the file can't be read with what stands for them; of how many places it isn't known whether they match;
/// how many files are left out, and how many more aren't searched whole.
#[derive(Clone, Copy, Debug, PartialEq, Eq)]
pub struct Summary {
    pub files: usize,
    pub matches: usize,
    pub edits: usize,
    pub set_aside: usize,
    pub unread: usize,
    pub undecided: usize,
    pub left_out: usize,
    pub not_searched: usize,
}

/// `61 matches in 4 files: 58 edits; 3 left as they are; 1 undecided; 2 files left out; 1 file not searched whole` and a line break. Of
/// what is none but the matches, nothing is said.
pub fn summary_line(alloc: Global, summary: Summary) -> Result<String, AllocError>
    ensures { IfOk result (λ line. string_bytes line ≡ summary_text summary) }
{
    let mut text = String::new(alloc);
    push_counted(&mut text, summary.matches as u128, "match", "matches")?;
    push_some(&mut text, " in ", summary.files as u128, "file", "files")?;
    push_some(&mut text, ": ", summary.edits as u128, "edit", "edits")?;
    push_unchanged(&mut text, summary)?;
    push_some(
        &mut text,
        "; ",
        summary.left_out as u128,
        "file left out",
        "files left out",
    )?;
    push_some(
        &mut text,
        "; ",
        summary.not_searched as u128,
        "file not searched whole",
        "files not searched whole",
    )?;
    text.push_str("\n")?;
    Ok(text)
}

/// `; 3 left as they are; 1 undecided`: the places that aren't changed.
fn push_unchanged(text: &mut String, summary: Summary) -> Result<(), AllocError>
    ensures { OnOk result (string_bytes text.new ≡ string_bytes text.old ++ unchanged_text summary) }
{
    // two counts together, which need not fit their type
    let left = summary.set_aside as u128 + summary.unread as u128;
    push_some(text, "; ", left, "left as it is", "left as they are")?;
    let undecided = summary.undecided as u128;
    push_some(text, "; ", undecided, "undecided", "undecided")
}

/// `src/a.rs:3:5: not searched: 2 lines that aren't read, and 4 more places`: of what isn't searched of a file the first place, how
/// many lines it has there, and how many more places there are.
pub fn not_searched_words(
    alloc: Global,
    file: &str,
    place: LinePlace,
    lines: usize,
    more: usize,
) -> Result<String, AllocError>
    ensures { IfOk result (λ words. string_bytes words ≡ not_searched_text file.now place lines more) }
{
    let mut text = place_words(alloc, file, place)?;
    text.push_str(": not searched: ")?;
    push_counted(
        &mut text,
        lines as u128,
        "line that isn't read",
        "lines that aren't read",
    )?;
    push_some(
        &mut text,
        ", and ",
        more as u128,
        "more place",
        "more places",
    )?;
    Ok(text)
}

/// A number with words behind a front; nothing where it is 0.
fn push_some(
    text: &mut String,
    front: &str,
    count: u128,
    one: &str,
    many: &str,
) -> Result<(), AllocError>
    ensures { OnOk result (string_bytes text.new ≡ string_bytes text.old ++ some_counted front.now count one.now many.now) }
{
    if count == 0 {
        return Ok(());
    }
    text.push_str(front)?;
    push_counted(text, count, one, many)
}

fn push_counted(text: &mut String, count: u128, one: &str, many: &str) -> Result<(), AllocError>
    ensures { OnOk result (string_bytes text.new ≡ string_bytes text.old ++ counted count one.now many.now) }
{
    let words = if count == 1 { one } else { many };
    write!(text, "{count} {words}")
}
