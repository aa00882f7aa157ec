//! Places of which it isn't known whether they match.
ghost use Rattle.cargo_ssr_program.specs.Private.Telling.{TellsOnly};

use crate::console::Console;
use crate::debugging::FilePlaces;
use crate::failure::Failure;
use crate::finding::place_key;
use crate::input::Input;
use crate::telling::{searched_for, text_in};
use cargo_ssr_options::{Mode, Options};
use ssr_base::{FileRange, Semantics};
use ssr_changes::{FoundPlace, Searchable, Sought, all_matches, further_matches};
use ssr_names::{Believing, Names};
use ssr_reports::undecided_words;
use ssr_searching::SearchError;
use ssr_streams::Sink;
use std::alloc::{AllocError, Global};
use std::io::Write;

/// The places that match where each name that isn't known stands for what rules mean, and else don't, in the order of their files. Where a
/// rule is refused, and for the debug list, there are none.
pub(crate) fn undecided_places(
    alloc: Global,
    input: &Input,
    names: &Names,
    options: &Options,
) -> Result<Vec<FoundPlace>, Failure> {
    if matches!(options.mode, Mode::Debug(_)) {
        return Ok(Vec::new(alloc));
    }
    let Some(known) = matches_of(alloc, input, names, options)? else {
        return Ok(Vec::new(alloc));
    };
    let Some(believed) = matches_of(alloc, input, &Believing { names }, options)? else {
        return Ok(Vec::new(alloc));
    };
    let mut further = further_matches(alloc, &known, believed)?;
    further.sort_by_key(place_key)?;
    Ok(further)
}

/// All matches of what a run searches for, with what a provider tells of names; none where that is refused.
fn matches_of<P: Semantics>(
    alloc: Global,
    input: &Input,
    provider: &P,
    options: &Options,
) -> Result<Option<Vec<FoundPlace>>, Failure> {
    let (form, texts) = searched_for(options);
    let found = all_matches(
        alloc,
        &input.files,
        provider,
        input.position,
        input.ranges(alloc)?,
        Sought { form, texts },
    );
    match found {
        Ok(found) => Ok(Some(found)),
        Err(SearchError::Memory) => Err(Failure::Memory),
        Err(_) => Ok(None),
    }
}

/// Lists undecided places, if that is asked for.
pub(crate) fn tell_undecided<W: Sink, E: Write>(
    alloc: Global,
    files: &Searchable,
    names: &Names,
    places: &[FoundPlace],
    options: &Options,
    console: &mut Console<W, E>,
) -> Result<(), AllocError>
    ensures { TellsOnly console.old console.new }
{
    if !options.undecided {
        return Ok(());
    }
    let unknown = unknown_names(alloc, files, names)?;
    let mut words = FilePlaces::new(files);
    for place in places {
        let at = words.words(alloc, place.range)?;
        let name = first_in(&unknown, place.range).unwrap_or("");
        let found = text_at(files, place.range);
        console.tell(undecided_words(alloc, at.as_str(), name, found)?.as_str());
    }
    Ok(())
}

/// A name of the code of which it isn't known what it stands for, and where it stands.
#[derive(Drop)]
struct UnknownName<'a> {
    range: FileRange,
    text: &'a str,
}

/// The names that aren't known, in the order of their files.
fn unknown_names<'a>(
    alloc: Global,
    files: &Searchable,
    names: &'a Names,
) -> Result<Vec<UnknownName<'a>>, AllocError> {
    let mut unknown = Vec::new(alloc);
    let workspace = files.workspace();
    for undecided in names.undecided() {
        if let Some(range) = workspace.original_range(undecided.path) {
            let text = undecided.name.as_str();
            unknown.push(UnknownName { range, text })?;
        }
    }
    unknown.sort_by_key(|name| start_key(name.range))?;
    Ok(unknown)
}

/// Where a range begins: its file, and the byte in it.
fn start_key(range: FileRange) -> (u32, u32) {
    (range.file_id.0, range.range.start)
}

/// The text of a file in a range.
fn text_at(files: &Searchable, range: FileRange) -> &str {
    let file = range.file_id.0 as usize;
    if file < files.file_count() {
        text_in(files.text(file), range.range)
    } else {
        ""
    }
}

/// The first of unknown names that lies in a range.
fn first_in<'a>(unknown: &[UnknownName<'a>], range: FileRange) -> Option<&'a str> {
    let first = match unknown.binary_search_by_key(
        &start_key(range),
        |name| start_key(name.range),
    ) {
        Ok(at) | Err(at) => at,
    };
    let found = unknown.get(first)?;
    let is_here = found.range.file_id == range.file_id;
    if is_here && found.range.range.end <= range.range.end {
        Some(found.text)
    } else {
        None
    }
}
