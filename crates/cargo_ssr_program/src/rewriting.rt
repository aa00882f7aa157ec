//! What rules change: shown, told and written.
ghost use Rattle.std.specs.Prelude.{◌≡◌, All, IfOk, List, OnOk, false, map, string_bytes, true};
ghost use Rattle.cargo_ssr_program.specs.Planned.{IsPlanOf, IsShown, IsWritten, diffs_of, is_colored};
ghost use Rattle.cargo_ssr_program.specs.Private.Tasks.{search_of, task_of};
ghost use Rattle.cargo_ssr_program.specs.Private.Telling.{TellsOnly};
ghost use Rattle.ssr_changes.specs.Changing.{AreChanges, FitsIn, shown};
ghost use Rattle.ssr_changes.specs.Planning.{IsPlan};
ghost use Rattle.ssr_streams.specs.Streams.{Sent};

use crate::console::Console;
use crate::counting::counts_of_changes;
use crate::failure::Failure;
use crate::finding::{Listed, show_json, tell_summary};
use crate::input::Input;
use crate::telling::{is_colored, search_failure, why_left};
use crate::writing::write;
use cargo_ssr_options::{Color, Options};
use ssr_changes::{FileChange, PlanError, Planned, Searchable, changes, plan, rule_matches};
use ssr_package::Reads;
use ssr_reports::{Places, Summary, colored, place_words};
use ssr_streams::Sink;
use ssr_syntax_kinds::TextRange;
use ssr_writing::Disk;
use std::alloc::{AllocError, Global};
use std::io::Write;

/// Shows what rules change; whether there is something.
pub(crate) fn show_changes<W: Sink, E: Write>(
    alloc: Global,
    input: &Input,
    options: &Options,
    console: &mut Console<W, E>,
) -> Result<bool, Failure>
    ensures { IfOk result (IsShown (task_of input.now options.now) options.now.json (is_colored options.now.color console.old.terminal) (W.taken console.old.out) (W.taken console.new.out)) }
{
    let made = changes_of(alloc, input, options)?;
    let plan = plan_of(alloc, &input.files, &made)?;
    let counts = counts_of_changes(&made, input);
    let changes = !plan.is_empty();
    if options.json {
        show_matches(alloc, input, options, &made, counts, console)?;
        tell_left(alloc, &input.files, &made, console)?;
        return Ok(changes);
    }
    show_diffs(alloc, &plan, options.color, console)?;
    tell_left(alloc, &input.files, &made, console)?;
    tell_summary(alloc, counts, options, console)?;
    Ok(changes)
}

/// Writes what rules change.
pub(crate) fn write_changes<F: Reads, D: Disk, W: Sink, E: Write>(
    reader: &F,
    disk: &mut D,
    input: &Input,
    options: &Options,
    console: &mut Console<W, E>,
) -> Result<(), Failure>
    ensures { OnOk result ((plan : List Planned) × IsPlanOf (task_of input.now options.now) plan × IsWritten (string_bytes input.now.folder) input.now.files.files plan (D.calls disk.old) (D.calls disk.new)) }
{
    let alloc = reader.alloc();
    let made = changes_of(alloc, input, options)?;
    let plan = plan_of(alloc, &input.files, &made)?;
    let counts = counts_of_changes(&made, input);
    if options.json {
        show_matches(alloc, input, options, &made, counts, console)?;
    }
    tell_left(alloc, &input.files, &made, console)?;
    let written = write(reader, disk, input, &plan)?;
    tell_written(alloc, written, options, console)?;
    if !options.json {
        tell_summary(alloc, counts, options, console)?;
    }
    Ok(())
}

/// What the rules change.
fn changes_of(alloc: Global, input: &Input, options: &Options) -> Result<Vec<FileChange>, Failure>
    ensures changes { IfOk result (λ made. AreChanges (search_of input.now) (map string_bytes options.now.rules.items) input.now.files.files (map shown made.items)) }
    ensures fit { IfOk result (λ made. All (FitsIn input.now.files.files) made.items) }
{
    let ranges = input.ranges(alloc)?;
    let made = changes(
        alloc,
        &input.files,
        &input.semantics,
        input.position,
        ranges,
        &options.rules,
    );
    match made {
        Ok(made) => Ok(made),
        Err(error) => Err(search_failure(alloc, input, options, error)?),
    }
}

/// The name of a file; none where it isn't there.
fn name_of(files: &Searchable, file: usize) -> &str {
    if file < files.file_count() {
        files.name(file)
    } else {
        ""
    }
}

/// The plan of what the rules change. There is none where a file that changes may not be written.
fn plan_of<'a>(
    alloc: Global,
    files: &Searchable,
    made: &'a [FileChange],
) -> Result<Vec<Planned<'a>>, Failure>
    ensures { IfOk result (λ plan. IsPlan files.now.files made.now plan.items) }
{
    match plan(alloc, files, made) {
        Ok(plan) => Ok(plan),
        Err(error) => Err(plan_failure(alloc, files, &error)?),
    }
}

/// Why there is no plan.
fn plan_failure(
    alloc: Global,
    files: &Searchable,
    error: &PlanError,
) -> Result<Failure, AllocError> {
    let file = match error {
        PlanError::Outside(file) | PlanError::BelowTarget(file) | PlanError::Twice(file) => *file,
        PlanError::Memory => return Ok(Failure::Memory),
    };
    let name = name_of(files, file);
    Ok(Failure::Told(format!(in alloc; "{name}: {error}")?))
}

/// Shows the diffs of a plan.
fn show_diffs<W: Sink, E: Write>(
    alloc: Global,
    plan: &[Planned<'_>],
    color: Color,
    console: &mut Console<W, E>,
) -> Result<(), Failure>
    ensures { is_colored color console.old.terminal ≡ false → OnOk result (Sent (W.taken console.old.out) (W.taken console.new.out) (diffs_of plan.now) true) }
{
    if is_colored(color, console.terminal) {
        show_colored(alloc, plan, console)
    } else {
        show_plain(plan, console)
    }
}

/// Shows them as they are.
fn show_plain<W: Sink, E: Write>(
    plan: &[Planned<'_>],
    console: &mut Console<W, E>,
) -> Result<(), Failure>
    ensures { OnOk result (Sent (W.taken console.old.out) (W.taken console.new.out) (diffs_of plan.now) true) }
{
    for planned in plan {
        console.show(planned.diff.as_str())?;
    }
    Ok(())
}

/// Shows them in colours.
fn show_colored<W: Sink, E: Write>(
    alloc: Global,
    plan: &[Planned<'_>],
    console: &mut Console<W, E>,
) -> Result<(), Failure> {
    for planned in plan {
        console.show(colored(alloc, planned.diff.as_str())?.as_str())?;
    }
    Ok(())
}

/// Shows the matches of the rules as JSON.
fn show_matches<W: Sink, E: Write>(
    alloc: Global,
    input: &Input,
    options: &Options,
    made: &[FileChange],
    counts: Summary,
    console: &mut Console<W, E>,
) -> Result<(), Failure> {
    let found = rule_matches(
        alloc,
        &input.files,
        &input.semantics,
        input.position,
        input.ranges(alloc)?,
        &options.rules,
    );
    let places = match found {
        Ok(places) => places,
        Err(error) => return Err(search_failure(alloc, input, options, error)?),
    };
    let listed = Listed {
        files: &input.files,
        places: &places,
        changes: made,
        not_searched: &input.passed_over.not_searched,
    };
    show_json(alloc, &listed, counts, console)
}

/// Tells the matches that stay as they are.
#[tactic(auto, using(crate::proofs::InFiles::each_fits))]
fn tell_left<W: Sink, E: Write>(
    alloc: Global,
    files: &Searchable,
    made: &[FileChange],
    console: &mut Console<W, E>,
) -> Result<(), Failure>
    requires { All (FitsIn files.now.files) made.now }
    ensures { TellsOnly console.old console.new }
{
    for change in made {
        tell_of_file(alloc, files, change, console)?;
    }
    Ok(())
}

/// Tells those of a file, in the order of their places.
#[tactic(auto, using(crate::proofs::InFiles::is_there))]
fn tell_of_file<W: Sink, E: Write>(
    alloc: Global,
    files: &Searchable,
    change: &FileChange,
    console: &mut Console<W, E>,
) -> Result<(), Failure>
    requires { FitsIn files.now.files change.now }
    ensures { TellsOnly console.old console.new }
{
    let name = files.name(change.file);
    let mut places = Places::new(files.text(change.file));
    let aside = files.aside(change.file).iter().as_slice();
    let reaches = files.reaches(change.file).ranges();
    for left in all_left(alloc, change)? {
        let place = place_words(alloc, name, places.place(left.range.start as usize))?;
        let why = match left.why {
            Why::Aside => why_left(aside, reaches, left.range),
            Why::Unread => "the file can't be read with it",
        };
        console.tell(format!(in alloc; "{place}: left as it is: {why}")?.as_str());
    }
    Ok(())
}

/// Why a match stays as it is.
#[derive(Clone, Copy, Debug, PartialEq, Eq)]
enum Why {
    /// It touches the reach of a part set aside.
    Aside,
    /// The file isn't read with it.
    Unread,
}

/// A match that stays as it is.
#[derive(Clone, Copy, Debug, PartialEq, Eq)]
struct Left {
    range: TextRange,
    why: Why,
}

/// The matches of a file that stay as they are, by their places.
fn all_left(alloc: Global, change: &FileChange) -> Result<Vec<Left>, AllocError> {
    let mut left = Vec::with_capacity(alloc, change.told.len())?;
    push_left(&mut left, &change.told, Why::Aside)?;
    push_left(&mut left, &change.unread, Why::Unread)?;
    left.sort_by_key(|one| one.range.start)?;
    Ok(left)
}

/// Adds matches that stay for a reason.
fn push_left(left: &mut Vec<Left>, ranges: &[TextRange], why: Why) -> Result<(), AllocError> {
    for range in ranges {
        left.push(Left { range: *range, why })?;
    }
    Ok(())
}

/// Tells how many files were written, unless it isn't wanted.
fn tell_written<W: Sink, E: Write>(
    alloc: Global,
    written: usize,
    options: &Options,
    console: &mut Console<W, E>,
) -> Result<(), Failure> {
    if options.quiet {
        return Ok(());
    }
    let files = if written == 1 { "file" } else { "files" };
    console.tell(format!(in alloc; "{written} {files} written")?.as_str());
    Ok(())
}
