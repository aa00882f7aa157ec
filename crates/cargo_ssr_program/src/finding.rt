//! Matches that are listed.
ghost use Rattle.std.specs.Prelude.{◌≤◌, length};
ghost use Rattle.cargo_ssr_program.specs.Private.Telling.{TellsOnly};

use crate::console::Console;
use crate::counting::counts_of_places;
use crate::failure::Failure;
use crate::input::Input;
use crate::passed_over::unsearched_json;
use crate::telling::{search_failure, text_in};
use cargo_ssr_options::Options;
use ssr_base::{FileRange, TextEdit};
use ssr_changes::{FileChange, FoundPlace, Searchable, pattern_matches};
use ssr_reports::{
    Held, LinePlace, MatchReport, Places, Summary, match_json, place_line, summary_json,
    summary_line,
};
use ssr_streams::Sink;
use ssr_syntax_kinds::TextRange;
use std::alloc::{AllocError, Global};
use std::io::Write;

/// Lists what matches patterns.
pub(crate) fn search<W: Sink, E: Write>(
    alloc: Global,
    input: &Input,
    patterns: &[String],
    options: &Options,
    console: &mut Console<W, E>,
) -> Result<(), Failure> {
    let found = pattern_matches(
        alloc,
        &input.files,
        &input.semantics,
        input.position,
        input.ranges(alloc)?,
        patterns,
    );
    let mut places = match found {
        Ok(places) => places,
        Err(error) => return Err(search_failure(alloc, input, options, error)?),
    };
    // of nested matches the inner ones come first
    places.sort_by_key(place_key)?;
    let counts = counts_of_places(&places, input);
    let listed = Listed {
        files: &input.files,
        places: &places,
        changes: &[],
        not_searched: &input.passed_over.not_searched,
    };
    if options.json {
        return show_json(alloc, &listed, counts, console);
    }
    let lines = lines_of(alloc, &listed, Form::Places)?;
    console.show_bytes(&lines)?;
    tell_summary(alloc, counts, options, console)
}

/// Where a match stands: its file, where it begins, and where it ends.
pub(crate) fn place_key(found: &FoundPlace) -> (u32, u32, u32) {
    let FileRange { file_id, range } = found.range;
    (file_id.0, range.start, range.end)
}

/// Tells the summary, unless it isn't wanted.
pub(crate) fn tell_summary<W: Sink, E: Write>(
    alloc: Global,
    counts: Summary,
    options: &Options,
    console: &mut Console<W, E>,
) -> Result<(), Failure>
    ensures { TellsOnly console.old console.new }
{
    if !options.quiet {
        let line = summary_line(alloc, counts)?;
        console.tell(line.as_str().trim_end());
    }
    Ok(())
}

/// Shows matches as lines of JSON, what isn't searched, and the counts.
pub(crate) fn show_json<W: Sink, E: Write>(
    alloc: Global,
    listed: &Listed<'_>,
    counts: Summary,
    console: &mut Console<W, E>,
) -> Result<(), Failure> {
    let lines = lines_of(alloc, listed, Form::Json)?;
    console.show_bytes(&lines)?;
    console.show_bytes(&unsearched_json(alloc, listed.files, listed.not_searched)?)?;
    console.show_bytes(&summary_json(alloc, counts)?)
}

/// How a match is told.
#[derive(Clone, Copy, Debug, PartialEq, Eq)]
enum Form {
    Places,
    Json,
}

/// Matches that are told, in the order of their files, and what changes in the files, in their order.
#[derive(Clone, Copy)]
pub(crate) struct Listed<'a> {
    pub(crate) files: &'a Searchable,
    pub(crate) places: &'a [FoundPlace],
    pub(crate) changes: &'a [FileChange],
    /// The files that aren't searched whole.
    pub(crate) not_searched: &'a [usize],
}

/// A line for each match.
fn lines_of(alloc: Global, listed: &Listed<'_>, form: Form) -> Result<Vec<u8>, AllocError> {
    let mut lines = Vec::new(alloc);
    let mut left = listed.places;
    let mut changes = listed.changes;
    for file in 0..listed.files.file_count() {
        let (edit, others) = edit_of(changes, file);
        changes = others;
        let (places, others) = left.split_at(count_in(left, file));
        left = others;
        let file = Told {
            name: listed.files.name(file),
            text: listed.files.text(file),
            edit,
        };
        push_lines(alloc, &mut lines, &file, places, form)?;
    }
    Ok(lines)
}

/// Adds a line for each match in a file.
fn push_lines(
    alloc: Global,
    lines: &mut Vec<u8>,
    file: &Told<'_>,
    found: &[FoundPlace],
    form: Form,
) -> Result<(), AllocError> {
    let mut places = Places::new(file.text);
    for one in found {
        let place = places.place(one.range.range.start as usize);
        push_line(alloc, lines, file, one, place, form)?;
    }
    Ok(())
}

/// A file of which matches are told, and what changes in it.
#[derive(Clone, Copy)]
struct Told<'a> {
    name: &'a str,
    text: &'a str,
    edit: Option<&'a TextEdit>,
}

/// What changes in a file, if it is the first of these, and the others.
fn edit_of(changes: &[FileChange], file: usize) -> (Option<&TextEdit>, &[FileChange]) {
    match changes.split_first() {
        Some((first, others)) if first.file == file => (Some(&first.edit), others),
        _ => (None, changes),
    }
}

/// How many matches stand in a file before one in another file.
fn count_in(places: &[FoundPlace], file: usize) -> usize
    ensures { result ≤ length places.now }
{
    for (count, place) in places.iter().enumerate() {
        if place.range.file_id.0 as usize != file {
            return count;
        }
    }
    places.len()
}

/// Adds the line for a match.
fn push_line(
    alloc: Global,
    lines: &mut Vec<u8>,
    file: &Told<'_>,
    found: &FoundPlace,
    place: LinePlace,
    form: Form,
) -> Result<(), AllocError> {
    let range = found.range.range;
    let old = text_in(file.text, range);
    if form == Form::Places {
        let line = place_line(alloc, file.name, place, old)?;
        return lines.extend_from_slice(line.as_bytes());
    }
    let placeholders = held(alloc, file.text, found)?;
    let report = MatchReport {
        rule: found.rule,
        file: file.name,
        range,
        place,
        old,
        new: new_text(file.edit, range),
        set_aside: found.holds_aside,
        placeholders: &placeholders,
    };
    lines.extend_from_slice(&match_json(alloc, &report)?)
}

/// What the placeholders of a match hold.
fn held<'a>(
    alloc: Global,
    text: &'a str,
    found: &'a FoundPlace,
) -> Result<Vec<Held<'a>>, AllocError> {
    let mut all = Vec::with_capacity(alloc, found.placeholders.len())?;
    for placeholder in &found.placeholders {
        all.push(Held {
            name: placeholder.name.as_str(),
            range: placeholder.range.range,
            text: text_in(text, placeholder.range.range),
        })?;
    }
    Ok(all)
}

/// What stands for the text at a range, if that changes.
fn new_text(edit: Option<&TextEdit>, range: TextRange) -> Option<&str> {
    let changes = edit?.iter().as_slice();
    let at = match changes.binary_search_by_key(&range.start, |change| change.0.start) {
        Ok(at) => at,
        Err(_) => return None,
    };
    match changes.get(at) {
        Some((there, new)) if *there == range => Some(new.as_str()),
        _ => None,
    }
}
