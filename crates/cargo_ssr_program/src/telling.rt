//! What is told of matches and of a search.
ghost use Rattle.std.specs.Prelude.{◌≡◌};
ghost use Rattle.cargo_ssr_program.specs.Planned.{is_colored};

use crate::failure::Failure;
use crate::input::Input;
use crate::refusals::{refusal_hint, refused};
use cargo_ssr_options::{Color, Mode, Options};
use ssr_base::FileRange;
use ssr_changes::{Form, Searchable, first_refused};
use ssr_reports::{LinePlace, line_place, place_words};
use ssr_searching::SearchError;
use ssr_syntax_kinds::TextRange;
use std::alloc::{AllocError, Global};

/// Whether a diff is shown in colours.
pub(crate) fn is_colored(color: Color, terminal: bool) -> bool
    ensures { result ≡ is_colored color terminal }
{
    match color {
        Color::Auto => terminal,
        Color::Always => true,
        Color::Never => false,
    }
}

/// Why a search comes to nothing.
pub(crate) fn search_failure(
    alloc: Global,
    input: &Input,
    options: &Options,
    error: SearchError,
) -> Result<Failure, AllocError> {
    match error {
        SearchError::Refused(message) => refusal(alloc, input, options, message.as_str()),
        SearchError::Clash(earlier, later) => {
            let earlier = start_words(alloc, &input.files, earlier)?;
            let later = start_words(alloc, &input.files, later)?;
            Ok(Failure::Told(format!(in alloc; "replacements clash at {earlier} and {later}")?))
        }
        SearchError::Memory => Ok(Failure::Memory),
    }
}

/// Which rule or pattern is refused, and why.
fn refusal(
    alloc: Global,
    input: &Input,
    options: &Options,
    message: &str,
) -> Result<Failure, AllocError> {
    let (files, semantics, position) = (&input.files, &input.semantics, input.position);
    let (form, texts) = searched_for(options);
    let why = refusal_words(alloc, input, options, message)?;
    match first_refused(alloc, files, semantics, position, form, texts) {
        Some(number) => refused(alloc, form, number, why),
        // there is no finder
        None => Ok(Failure::Told(why)),
    }
}

/// What is searched for: patterns, or rules.
pub(crate) fn searched_for(options: &Options) -> (Form, &[String]) {
    match &options.mode {
        Mode::Search(patterns) => (Form::Patterns, patterns),
        _ => (Form::Rules, &options.rules),
    }
}

/// Why a rule is refused, with its placeholders as it spells them, and what is known of a path in it that doesn't resolve.
fn refusal_words(
    alloc: Global,
    input: &Input,
    options: &Options,
    message: &str,
) -> Result<String, AllocError> {
    let mut words = message.replace(alloc, "__placeholder_", "$")?;
    words.push_str(refusal_hint(alloc, input, options, message)?.as_str())?;
    Ok(words)
}

/// Where a range begins, as FILE:LINE:COLUMN.
fn start_words(alloc: Global, files: &Searchable, range: FileRange) -> Result<String, AllocError> {
    let file = range.file_id.0 as usize;
    if file >= files.file_count() {
        return Ok(String::new(alloc));
    }
    let place = place_of(files.text(file), range.range.start);
    place_words(alloc, files.name(file), place)
}

/// The line and the column of a byte of a text, or those of its end.
pub(crate) fn place_of(text: &str, offset: u32) -> LinePlace {
    line_place(text, (offset as usize).min(text.len()))
}

/// The text in a range; none where the range doesn't fit the text.
pub(crate) fn text_in(text: &str, range: TextRange) -> &str {
    match text.get(range.start as usize..range.end as usize) {
        Some(part) => part,
        None => "",
    }
}

/// Why a match stays that touches the reach of a part set aside. The changes that set parts aside stand in order, and each has its
/// reach.
pub(crate) fn why_left(
    aside: &[(TextRange, String)],
    reaches: &[TextRange],
    range: TextRange,
) -> &'static str {
    let next = match aside.binary_search_by_key(&range.start, |part| part.0.end) {
        Ok(before) => before.saturating_add(1),
        Err(next) => next,
    };
    if begins_before(aside.get(next).map(|part| part.0), range.end) {
        "it holds what is set aside"
    } else if begins_before(reaches.get(next).copied(), range.end) {
        "what stands behind it belongs to it"
    } else {
        "what stands in front of it belongs to it"
    }
}

/// Whether there is a range, and it begins before a place.
fn begins_before(range: Option<TextRange>, place: u32) -> bool {
    range.is_some_and(|range| range.start < place)
}
