//! Files that `include!` puts into those that are searched, and that aren't searched themselves.
ghost use Rattle.cargo_ssr_program.specs.Private.Telling.{TellsOnly};

use crate::console::Console;
use crate::passed_over::is_among;
use ssr_diff::quoted;
use ssr_package::{Include, SourceFile, unsearched_includes};
use ssr_reports::{line_place, place_words};
use ssr_streams::Sink;
use std::alloc::{AllocError, Global};
use std::collections::BTreeSet;
use std::io::Write;

/// How many calls of a file are told.
const TOLD: usize = 3;

/// Tells the calls of `include!` whose files aren't searched, the first ones of each file with one of these names, or of all.
pub(crate) fn tell_includes<W: Sink, E: Write>(
    alloc: Global,
    files: &[SourceFile],
    names: Option<&BTreeSet<String>>,
    console: &mut Console<W, E>,
) -> Result<(), AllocError>
    ensures { TellsOnly console.old console.new }
{
    let mut last = None;
    let mut earlier = 0usize;
    for include in &unsearched_includes(alloc, files)? {
        if !is_wanted(files, include, names) {
            continue;
        }
        earlier = if last == Some(include.file) {
            earlier.saturating_add(1)
        } else {
            0
        };
        last = Some(include.file);
        if earlier <= TOLD {
            console.tell(include_words(alloc, files, include, earlier)?.as_str());
        }
    }
    Ok(())
}

/// Whether a call stands in a file with one of these names, where there are some.
fn is_wanted(files: &[SourceFile], include: &Include, names: Option<&BTreeSet<String>>) -> bool {
    match files.get(include.file) {
        Some(file) => is_among(names, file.name.as_str()),
        None => false,
    }
}

/// `src/a.rs:1:1: include!: b.rs isn't searched; name that file behind --`, and behind the last that is told `src/a.rs: include!: ..`.
fn include_words(
    alloc: Global,
    files: &[SourceFile],
    include: &Include,
    earlier: usize,
) -> Result<String, AllocError> {
    let Some(file) = files.get(include.file) else {
        return Ok(String::new(alloc));
    };
    let (name, text, path) = (
        file.name.as_str(),
        file.text.as_str(),
        include.path.as_str(),
    );
    if earlier >= TOLD {
        let name = quoted(alloc, name)?;
        return format!(in alloc; "{name}: include!: ..");
    }
    let place = place_words(alloc, name, line_place(text, include.at.min(text.len())))?;
    let path = quoted(alloc, path)?;
    format!(in alloc; "{place}: include!: {path} isn't searched; name that file behind --")
}
