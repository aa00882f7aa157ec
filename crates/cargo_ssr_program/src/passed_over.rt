//! What a run passes over: files that are left out, and of others what isn't read.
ghost use Rattle.cargo_ssr_program.specs.Private.Telling.{TellsOnly};

use crate::console::Console;
use ssr_changes::Searchable;
use ssr_reports::{NotSearched, Places, not_searched_json, not_searched_words};
use ssr_streams::Sink;
use std::alloc::{AllocError, Global};
use std::collections::BTreeSet;
use std::io::Write;

/// How many files aren't searched, and which others not whole, by their numbers.
#[derive(Debug, Drop)]
pub(crate) struct PassedOver {
    pub(crate) left_out: usize,
    pub(crate) not_searched: Vec<usize>,
}

impl PassedOver {
    /// None of them.
    pub(crate) fn none(alloc: Global) -> PassedOver {
        PassedOver {
            left_out: 0,
            not_searched: Vec::new(alloc),
        }
    }
}

/// Which of the files with these names, or of all, aren't searched whole.
pub(crate) fn unsearched_files(
    alloc: Global,
    files: &Searchable,
    names: Option<&BTreeSet<String>>,
) -> Result<Vec<usize>, AllocError> {
    let mut found = Vec::new(alloc);
    for file in 0..files.file_count() {
        if is_among(names, files.name(file)) && !files.unsearched(file).is_empty() {
            found.push(file)?;
        }
    }
    Ok(found)
}

/// Whether a name is one of these, where there are some.
pub(crate) fn is_among(names: Option<&BTreeSet<String>>, name: &str) -> bool {
    match names {
        Some(names) => names.contains(name),
        None => true,
    }
}

/// Tells of each of these files, which aren't searched whole, where that begins.
pub(crate) fn tell_unsearched<W: Sink, E: Write>(
    alloc: Global,
    files: &Searchable,
    numbers: &[usize],
    console: &mut Console<W, E>,
) -> Result<(), AllocError>
    ensures { TellsOnly console.old console.new }
{
    for file in numbers {
        tell_of_file(alloc, files, *file, console)?;
    }
    Ok(())
}

/// Tells it of a file, unless that is searched whole.
fn tell_of_file<W: Sink, E: Write>(
    alloc: Global,
    files: &Searchable,
    file: usize,
    console: &mut Console<W, E>,
) -> Result<(), AllocError>
    ensures { TellsOnly console.old console.new }
{
    if file >= files.file_count() {
        return Ok(());
    }
    let Some((first, others)) = files.unsearched(file).split_first() else {
        return Ok(());
    };
    let mut places = Places::new(files.text(file));
    let place = places.place(first.start as usize);
    let last = places.place(first.end as usize);
    let lines = last.line.saturating_sub(place.line).saturating_add(1);
    let words = not_searched_words(alloc, files.name(file), place, lines, others.len())?;
    console.tell(words.as_str());
    Ok(())
}

/// What isn't searched of these files, as lines of JSON.
pub(crate) fn unsearched_json(
    alloc: Global,
    files: &Searchable,
    numbers: &[usize],
) -> Result<Vec<u8>, AllocError> {
    let mut lines = Vec::new(alloc);
    for file in numbers {
        push_unsearched(alloc, files, *file, &mut lines)?;
    }
    Ok(lines)
}

/// Adds the lines of a file.
fn push_unsearched(
    alloc: Global,
    files: &Searchable,
    file: usize,
    lines: &mut Vec<u8>,
) -> Result<(), AllocError> {
    if file >= files.file_count() {
        return Ok(());
    }
    let mut places = Places::new(files.text(file));
    for range in files.unsearched(file) {
        let report = NotSearched {
            file: files.name(file),
            range: *range,
            place: places.place(range.start as usize),
        };
        lines.extend_from_slice(&not_searched_json(alloc, &report)?)?;
    }
    Ok(())
}
