//! What the paths of imports stand for.

ghost use Rattle.std.specs.Prelude.{ℕ, ◌≡◌, ◌+◌, ◌<◌, true, false, Some, IfNone, IfOk, IfSome, OnOk, slice_get};
ghost use Rattle.std.specs.Option.{option_copied};
ghost use Rattle.ssr_names.specs.declared.space.Answers.{Answers};
ghost use Rattle.ssr_names.specs.Private.Meanings.{Means};
ghost use Rattle.ssr_names.specs.Lookup.{PathStandsFor};
ghost use Rattle.ssr_names.specs.Private.Answered.{IsFrontOf, place_of};
ghost use Rattle.ssr_names.specs.Settled.{AreAnswers, IsSettled, IsSettledAt, import_no};
ghost use Rattle.ssr_names.specs.Private.Settling.{IsAnswered, IsLookedUp, KeepsTaken, turned};

use crate::definitions::Meaning;
use crate::lookup::{Front, PathQuestion};
use crate::outside::OutsidePaths;
use crate::space::{Answers, Space};
use ssr_names_items::{Brings, Import, ImportNo, Namespace, Table};
use std::alloc::{AllocError, Global};

/// How often all imports are gone over at most.
const MOST_PASSES: u32 = 64;

/// What the path of an import stands for in a namespace, as far as is known of the other imports.
fn answer_in(
    alloc: Global,
    space: &Space<'_>,
    outside: &mut OutsidePaths,
    path: PathQuestion<'_>,
    front: Front,
    namespace: Namespace,
) -> Result<Meaning, AllocError>
    ensures { IsFrontOf space.now (place_of path.entry) path.entry.names.now front → IfOk result (λ found. Means found (PathStandsFor space.now (place_of path.entry) namespace path.entry.names.now)) }
{
    let question = PathQuestion { namespace, ..path };
    let answer = space.end(alloc, outside, question, front)?;
    Ok(answer.meaning)
}

/// What the path of an import stands for, as far as is known of the other imports.
fn answers_of(
    alloc: Global,
    space: &Space<'_>,
    outside: &mut OutsidePaths,
    number: ImportNo,
    import: &Import,
) -> Result<Answers, AllocError>
    ensures { IfOk result (AreAnswers space.now number import.now) }
{
    let path = PathQuestion {
        start: import.start,
        names: &import.segments,
        namespace: Namespace::Type,
        module: import.module,
        import: Some(number),
    };
    let front = space.front(alloc, outside, path)?;
    let as_type = answer_in(alloc, space, outside, path, front, Namespace::Type)?;
    if import.only_types || matches!(import.brings, Brings::Glob | Brings::Nothing) {
        return Ok(Answers {
            as_type,
            ..Answers::all(Meaning::Nothing)
        });
    }
    Ok(Answers {
        as_type,
        as_value: answer_in(alloc, space, outside, path, front, Namespace::Value)?,
        as_macro: answer_in(alloc, space, outside, path, front, Namespace::Macro)?,
    })
}

/// What an import is taken to stand for, where it stood for `had`: one that was found to have no answer stays unknown.
fn kept(had: Answers, found: Answers) -> Answers
    ensures { KeepsTaken found result }
{
    if !found.is_something() && had.same(Answers::all(Meaning::Unknown)) {
        had
    } else {
        found
    }
}

/// The import of a table at a place.
fn import_in<'a>(table: &'a Table, place: usize) -> Option<&'a Import>
    ensures { option_copied result ≡ slice_get table.now.imports.items place }
{
    table.imports.get(place)
}

/// What the import at a place is taken to stand for.
fn answers_at(space: &Space<'_>, place: usize) -> Option<Answers>
    ensures { result ≡ slice_get space.now.answers.items place }
{
    space.answers.get(place).copied()
}

/// The number of the import at a place; of places that no import can have all are one.
fn import_no(place: usize) -> ImportNo
    ensures { result ≡ import_no place }
{
    ImportNo(u32::try_from(place).unwrap_or(u32::MAX))
}

/// Sets what an import stands for; whether that is new.
fn set(space: &mut Space<'_>, place: usize, answers: Answers) -> bool
    ensures answered { IsAnswered space.old space.new }
    ensures same { result ≡ false → space.new ≡ space.old }
    ensures held { result ≡ false → (had : Answers) → slice_get space.old.answers.items place ≡ Some had → had ≡ answers }
{
    match space.answers.get(place) {
        Some(held) if !held.same(answers) => {}
        _ => return false,
    }
    if let Some(held) = space.answers.get_mut(place) {
        *held = answers;
    }
    true
}

/// What an import is taken to stand for, and what its path is found to stand for.
#[derive(Clone, Copy, Debug)]
struct LookedUp {
    had: Answers,
    found: Answers,
}

/// Looks up the path of the import at a place, if there is one.
fn looked_up(
    alloc: Global,
    space: &Space<'_>,
    outside: &mut OutsidePaths,
    place: usize,
) -> Result<Option<LookedUp>, AllocError>
    ensures found { IfOk result (λ at. IfSome at (IsLookedUp space.now place)) }
    ensures none { IfOk result (λ at. IfNone at (IsSettledAt space.now place)) }
{
    let table = space.table;
    let Some(import) = import_in(table, place) else {
        return Ok(None);
    };
    let Some(had) = answers_at(space, place) else {
        return Ok(None);
    };
    let found = answers_of(alloc, space, outside, import_no(place), import)?;
    Ok(Some(LookedUp { had, found }))
}

/// Finds what an import stands for; whether that is something else than before.
fn renew(
    alloc: Global,
    space: &mut Space<'_>,
    outside: &mut OutsidePaths,
    place: usize,
) -> Result<bool, AllocError>
    ensures answered { OnOk result (IsAnswered space.old space.new) }
    ensures settled { IfOk result (λ is_new. is_new ≡ false → (space.new ≡ space.old) × IsSettledAt space.old place) }
{
    match looked_up(alloc, space, outside, place)? {
        Some(LookedUp { had, found }) => Ok(set(space, place, kept(had, found))),
        None => Ok(false),
    }
}

/// Goes over all imports once, in order or from the last one on; whether some stands for something else than before.
fn pass(
    alloc: Global,
    space: &mut Space<'_>,
    outside: &mut OutsidePaths,
    is_backward: bool,
) -> Result<bool, AllocError>
    ensures answered { OnOk result (IsAnswered space.old space.new) }
    ensures settled { IfOk result (λ is_changed. is_changed ≡ false → (space.new ≡ space.old) × IsSettled space.old) }
{
    let count = space.answers.len();
    let mut is_changed = false;
    for step in 0..count {
        let is_new = renew(alloc, space, outside, turned(is_backward, count, step))?;
        is_changed |= is_new;
    }
    Ok(is_changed)
}

/// The place that is gone to at a step, in order or from the last one on.
fn turned(is_backward: bool, count: usize, step: usize) -> usize
    requires { step < count }
    ensures { result ≡ turned is_backward count step }
{
    if is_backward { count - 1 - step } else { step }
}

/// Takes each import without an answer as unknown; whether there is one.
fn doubt_unanswered(space: &mut Space<'_>) -> bool
    ensures answered { IsAnswered space.old space.new }
    ensures same { result ≡ false → space.new ≡ space.old }
{
    if space.answers.iter().all(|answers| answers.is_something()) {
        return false;
    }
    for answers in space.answers.iter_mut() {
        if !answers.is_something() {
            *answers = Answers::all(Meaning::Unknown);
        }
    }
    true
}

/// Takes an import as unknown that isn't what its path stands for; whether that is new.
fn doubt(
    alloc: Global,
    space: &mut Space<'_>,
    outside: &mut OutsidePaths,
    place: usize,
) -> Result<bool, AllocError>
    ensures answered { OnOk result (IsAnswered space.old space.new) }
    ensures settled { IfOk result (λ is_new. is_new ≡ false → (space.new ≡ space.old) × IsSettledAt space.old place) }
{
    match looked_up(alloc, space, outside, place)? {
        Some(LookedUp { had, found }) if !had.same(found) => {
            Ok(set(space, place, Answers::all(Meaning::Unknown)))
        }
        _ => Ok(false),
    }
}

/// Takes each import as unknown that isn't what its path stands for; whether there is one.
fn doubt_unsettled(
    alloc: Global,
    space: &mut Space<'_>,
    outside: &mut OutsidePaths,
) -> Result<bool, AllocError>
    ensures answered { OnOk result (IsAnswered space.old space.new) }
    ensures settled { IfOk result (λ is_changed. is_changed ≡ false → (space.new ≡ space.old) × IsSettled space.old) }
{
    let mut is_changed = false;
    for place in 0..space.answers.len() {
        let is_new = doubt(alloc, space, outside, place)?;
        is_changed |= is_new;
    }
    Ok(is_changed)
}

/// Goes over all imports once more; whether some stands for something else than before, or has no answer.
fn go_on(
    alloc: Global,
    space: &mut Space<'_>,
    outside: &mut OutsidePaths,
    is_backward: bool,
) -> Result<bool, AllocError>
    ensures answered { OnOk result (IsAnswered space.old space.new) }
    ensures settled { IfOk result (λ is_changed. is_changed ≡ false → IsSettled space.new) }
{
    if pass(alloc, space, outside, is_backward)? {
        return Ok(true);
    }
    Ok(doubt_unanswered(space))
}

/// Goes over all imports in passes, in turn forward and backward, until nothing changes; whether that came to an end.
fn settle_in_passes(
    alloc: Global,
    space: &mut Space<'_>,
    outside: &mut OutsidePaths,
) -> Result<bool, AllocError>
    ensures answered { OnOk result (IsAnswered space.old space.new) }
    ensures settled { IfOk result (λ is_settled. is_settled ≡ true → IsSettled space.new) }
{
    for number in 0..MOST_PASSES {
        let is_backward = number % 2 == 1;
        if !go_on(alloc, space, outside, is_backward)? {
            return Ok(true);
        }
    }
    Ok(false)
}

/// Takes imports as unknown until each is what its path stands for; whether that came to an end.
fn settle_by_doubt(
    alloc: Global,
    space: &mut Space<'_>,
    outside: &mut OutsidePaths,
) -> Result<bool, AllocError>
    ensures answered { OnOk result (IsAnswered space.old space.new) }
    ensures settled { IfOk result (λ is_settled. is_settled ≡ true → IsSettled space.new) }
{
    for _ in 0..MOST_PASSES {
        if !doubt_unsettled(alloc, space, outside)? {
            return Ok(true);
        }
    }
    Ok(false)
}

/// Takes all imports as unknown.
fn doubt_all(alloc: Global, space: &mut Space<'_>) -> Result<(), AllocError>
    ensures answered { OnOk result (IsAnswered space.old space.new) }
    ensures settled { OnOk result (IsSettled space.new) }
{
    let unknown = Answers::all(Meaning::Unknown);
    space.answers = vec![in alloc; unknown; space.answers.len()]?;
    Ok(())
}

/// Finds what each import's path stands for: nothing at first, and then in passes until nothing changes. After 64 passes what
/// isn't settled is unknown.
pub(crate) fn settle(
    alloc: Global,
    space: &mut Space<'_>,
    outside: &mut OutsidePaths,
) -> Result<(), AllocError>
    ensures answered { OnOk result (IsAnswered space.old space.new) }
    ensures settled { OnOk result (IsSettled space.new) }
{
    if settle_in_passes(alloc, space, outside)? {
        return Ok(());
    }
    if settle_by_doubt(alloc, space, outside)? {
        return Ok(());
    }
    doubt_all(alloc, space)
}
