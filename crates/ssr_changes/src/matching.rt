//! Matches as plain values.
ghost use Rattle.std.specs.Prelude.{◌≡◌, ◌&&◌, [], IfOk, map, nat_lt, string_bytes};
ghost use Rattle.ssr_set_aside.specs.Sparing.{touches_aside};
ghost use Rattle.ide_ssr.specs.Flattened.{ShowEachOnce};
ghost use Rattle.ide_ssr.specs.Nesting.{ShowKept};
ghost use Rattle.ssr_changes.specs.declared.finding.Form.TheVariants as forms;
ghost use Rattle.ssr_changes.specs.Matching.{AreFound, found_by, found_of, held_by, held_of, is_aside};

use crate::finding::{Form, add_all};
use crate::searchable::Searchable;
use ide_ssr::{Match, MatchFinder, PlaceholderMatch};
use ssr_base::{FilePosition, FileRange, Semantics};
use ssr_searching::SearchError;
use ssr_set_aside::Reaches;
use ssr_syntax::TextRange;
use std::alloc::{AllocError, Global};

/// A match.
#[derive(Debug, Drop)]
pub struct FoundPlace {
    /// The place of the rule or the pattern among those that are searched for.
    pub rule: usize,
    /// The bytes of the file that match.
    pub range: FileRange,
    /// What the placeholders hold, by where it begins.
    pub placeholders: Vec<FoundPlaceholder>,
    /// Whether it touches the reach of a part set aside, so that it isn't replaced.
    pub holds_aside: bool,
}

/// What a placeholder holds.
#[derive(Debug, Drop)]
pub struct FoundPlaceholder {
    /// The placeholder's name, without its `$`.
    pub name: String,
    /// The bytes of the file that it holds.
    pub range: FileRange,
}

/// The matches that rules replace: the outermost ones, by file, start and end. The names of the rules are looked up at the
/// position; without ranges all is searched. The error is that of the search.
pub fn rule_matches<S: Semantics>(
    alloc: Global,
    files: &Searchable,
    semantics: &S,
    position: FilePosition,
    ranges: Vec<FileRange>,
    rules: &[String],
) -> Result<Vec<FoundPlace>, SearchError>
    ensures { IfOk result (λ places. AreFound ShowKept forms.Rules (record { workspace = files.now.workspace; meanings = S.meanings semantics.now; position = position; ranges = ranges.items }) (map string_bytes rules.now) files.now.files (map found_by places.items)) }
{
    let mut finder = MatchFinder::in_context(
        alloc,
        files.workspace(),
        semantics,
        position,
        ranges,
    )?;
    let owners = add_all(alloc, &mut finder, Form::Rules, rules)?;
    let found = finder.matches()?;
    Ok(places(alloc, files, &owners, &found.matches)?)
}

/// Texts that are searched for.
#[derive(Clone, Copy)]
pub struct Sought<'a> {
    pub form: Form,
    pub texts: &'a [String],
}

/// The matches of search patterns, each once, and those in a placeholder of another one before that. The names of the patterns
/// are looked up at the position; without ranges all is searched. The error is that of the search.
pub fn pattern_matches<S: Semantics>(
    alloc: Global,
    files: &Searchable,
    semantics: &S,
    position: FilePosition,
    ranges: Vec<FileRange>,
    patterns: &[String],
) -> Result<Vec<FoundPlace>, SearchError>
    ensures { IfOk result (λ places. AreFound ShowEachOnce forms.Patterns (record { workspace = files.now.workspace; meanings = S.meanings semantics.now; position = position; ranges = ranges.items }) (map string_bytes patterns.now) files.now.files (map found_by places.items)) }
{
    let sought = Sought {
        form: Form::Patterns,
        texts: patterns,
    };
    all_matches(alloc, files, semantics, position, ranges, sought)
}

/// The matches of what is sought, each once, and those in a placeholder of another one before that. Names are looked up at the
/// position; without ranges all is searched. The error is that of the search.
pub fn all_matches<S: Semantics>(
    alloc: Global,
    files: &Searchable,
    semantics: &S,
    position: FilePosition,
    ranges: Vec<FileRange>,
    sought: Sought<'_>,
) -> Result<Vec<FoundPlace>, SearchError>
    ensures { IfOk result (λ places. AreFound ShowEachOnce sought.entry.form (record { workspace = files.now.workspace; meanings = S.meanings semantics.now; position = position; ranges = ranges.items }) (map string_bytes sought.entry.texts.now) files.now.files (map found_by places.items)) }
{
    let mut finder = MatchFinder::in_context(
        alloc,
        files.workspace(),
        semantics,
        position,
        ranges,
    )?;
    let owners = add_all(alloc, &mut finder, sought.form, sought.texts)?;
    let nested = finder.matches()?;
    let found = nested.flattened(alloc)?;
    Ok(places(alloc, files, &owners, &found.matches)?)
}

/// What is told of matches.
fn places(
    alloc: Global,
    files: &Searchable,
    owners: &[usize],
    matches: &[Match<'_>],
) -> Result<Vec<FoundPlace>, AllocError>
    ensures { IfOk result (λ places. map found_by places.items ≡ map (found_of owners.now files.now.files) matches.now) }
{
    let mut places = Vec::with_capacity(alloc, matches.len())?;
    for m in matches {
        places.push(place(alloc, files, owners, m)?)?;
    }
    Ok(places)
}

/// What is told of a match.
fn place(
    alloc: Global,
    files: &Searchable,
    owners: &[usize],
    m: &Match<'_>,
) -> Result<FoundPlace, AllocError>
    ensures { IfOk result (λ place. found_by place ≡ found_of owners.now files.now.files m.now) }
{
    Ok(FoundPlace {
        rule: owners.get(m.rule_index()).copied().unwrap_or(0),
        range: m.range(),
        placeholders: placeholders(alloc, m.placeholders())?,
        holds_aside: holds_aside(files, m.range()),
    })
}

/// What is told of placeholders.
fn placeholders(
    alloc: Global,
    placeholders: &[PlaceholderMatch<'_>],
) -> Result<Vec<FoundPlaceholder>, AllocError>
    ensures { IfOk result (λ told. map held_by told.items ≡ map held_of placeholders.now) }
{
    let mut told = Vec::with_capacity(alloc, placeholders.len())?;
    for placeholder in placeholders {
        told.push(FoundPlaceholder {
            name: String::from_str(alloc, placeholder.var().0.as_str())?,
            range: placeholder.range(),
        })?;
    }
    Ok(told)
}

/// Whether a range touches the reach of a part set aside in its file.
fn holds_aside(files: &Searchable, range: FileRange) -> bool
    ensures { result ≡ is_aside files.now.files range }
{
    let file = range.file_id.0 as usize;
    file < files.file_count() && touches(files.file(file).reaches(), range.range)
}

/// Whether two ranges share a byte, or the one stands between two bytes of the other.
fn touch(one: TextRange, other: TextRange) -> bool
    ensures { result ≡ (nat_lt one.start other.end && nat_lt other.start one.end) }
{
    one.start < other.end && other.start < one.end
}

/// Whether a range touches a reach.
fn touches(reaches: &Reaches, range: TextRange) -> bool
    ensures { result ≡ touches_aside reaches.now (record { start = range.start; end = range.end; text = [] }) }
{
    for reach in reaches.ranges() {
        if touch(range, *reach) {
            return true;
        }
    }
    false
}
