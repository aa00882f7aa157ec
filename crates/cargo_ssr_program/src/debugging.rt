//! Why rules match or don't where a snippet stands.

use crate::console::Console;
use crate::failure::Failure;
use crate::input::Input;
use crate::telling::search_failure;
use cargo_ssr_options::Options;
use ssr_base::FileRange;
use ssr_changes::{DebugEntry, Searchable, debug};
use ssr_reports::{Places, place_words};
use ssr_streams::Sink;
use std::alloc::{AllocError, Global};
use std::io::Write;

/// Tells of each rule that asks for a node that the snippet shows whether it matches there, and why not.
pub(crate) fn show_debug<W: Sink, E: Write>(
    alloc: Global,
    input: &Input,
    snippet: &str,
    options: &Options,
    console: &mut Console<W, E>,
) -> Result<(), Failure> {
    let (files, rules) = (&input.files, &options.rules);
    let told = debug(
        alloc,
        files,
        &input.semantics,
        input.position,
        rules,
        snippet,
    );
    let entries = match told {
        Ok(entries) => entries,
        Err(error) => return Err(search_failure(alloc, input, options, error)?),
    };
    if entries.is_empty() && !options.quiet {
        console.tell("no rule asks for what the text shows");
    }
    let mut places = FilePlaces::new(files);
    let mut last = String::new(alloc);
    for entry in &entries {
        let line = entry_line(alloc, &mut places, entry)?;
        // two kinds of a rule have one number, and often one reason
        if line.as_str() != last.as_str() {
            console.show(line.as_str())?;
            last = line;
        }
    }
    Ok(())
}

/// Places in files: those of a file that follow each other in their order take one pass over its text.
#[derive(Drop)]
pub(crate) struct FilePlaces<'a> {
    files: &'a Searchable,
    /// The file of the last place.
    file: Option<usize>,
    places: Places<'a>,
}

impl<'a> FilePlaces<'a> {
    pub(crate) fn new(files: &'a Searchable) -> FilePlaces<'a> {
        FilePlaces {
            files,
            file: None,
            places: Places::new(""),
        }
    }

    /// Where a range begins, as FILE:LINE:COLUMN.
    pub(crate) fn words(&mut self, alloc: Global, range: FileRange) -> Result<String, AllocError> {
        let files = self.files;
        let file = range.file_id.0 as usize;
        if file >= files.file_count() {
            return Ok(String::new(alloc));
        }
        if self.file != Some(file) {
            self.file = Some(file);
            self.places = Places::new(files.text(file));
        }
        let place = self.places.place(range.range.start as usize);
        place_words(alloc, files.name(file), place)
    }
}

/// A line that tells of a rule at a node.
fn entry_line(
    alloc: Global,
    places: &mut FilePlaces<'_>,
    entry: &DebugEntry,
) -> Result<String, AllocError> {
    let place = match entry.range {
        Some(range) => places.words(alloc, range)?,
        None => String::from_str(alloc, "in a macro")?,
    };
    let rule = entry.rule;
    match &entry.reason {
        Some(reason) => {
            let reason = reason_words(alloc, reason.as_str())?;
            format!(in alloc; "{place}: rule {rule}: {reason}\n")
        }
        None => format!(in alloc; "{place}: rule {rule}: matches\n"),
    }
}

/// Why a rule doesn't match, with its placeholders as it spells them. That the code's name isn't known is said as such.
fn reason_words(alloc: Global, reason: &str) -> Result<String, AllocError> {
    match reason.strip_prefix("Failed to resolve path") {
        Some(path) => format!(in alloc; "no name known for{path}"),
        None => reason.replace(alloc, "__placeholder_", "$"),
    }
}
