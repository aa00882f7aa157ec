//! Which files get new texts, and what is shown of that.
ghost use Rattle.std.specs.Prelude.{◌≡◌, IfErr, IfOk, MatchResult, string_bytes};
ghost use Rattle.ssr_changes.specs.Planning.{IsFault, IsPlan, name_in};
ghost use Rattle.ssr_changes.specs.Private.Planning.{ArePlanned, HaveNames, IsNameFault, IsPlannedOf};

use crate::changing::FileChange;
use crate::naming::{is_below_target, is_inside, normal_name};
use crate::plan_error::PlanError;
use crate::searchable::Searchable;
use ssr_diff::diff_between;
use std::alloc::{AllocError, Global};
use std::collections::BTreeMap;

/// A file whose text changes.
#[derive(Debug, Drop)]
pub struct Planned<'a> {
    /// The file's number.
    pub file: usize,
    /// Its new text.
    pub new: &'a str,
    /// The unified diff of its text on the disk and the new one.
    pub diff: String,
}

/// The plan of changes: in their order, of each that gives its file another text the number of the file, the new text, and the
/// diff of the old text and that. What is shown and what is written are both read off this plan.
///
/// The normal name of each file planned leads into the folder and not below `target`, and no two have the same one. The diff names
/// the file by it. A change of a file that isn't there is no part of the plan.
pub fn plan<'a>(
    alloc: Global,
    files: &Searchable,
    made: &'a [FileChange],
) -> Result<Vec<Planned<'a>>, PlanError>
    ensures plan { IfOk result (λ plan. IsPlan files.now.files made.now plan.items) }
    ensures refused { IfErr result (IsFault files.now.files made.now) }
{
    let plan = all_planned(alloc, files, made)?;
    check_names(alloc, files, &plan)?;
    Ok(plan)
}

/// What is planned of changes.
fn all_planned<'a>(
    alloc: Global,
    files: &Searchable,
    made: &'a [FileChange],
) -> Result<Vec<Planned<'a>>, AllocError>
    ensures { IfOk result (λ plan. ArePlanned files.now.files made.now plan.items) }
{
    let mut plan = Vec::new(alloc);
    for change in made {
        if let Some(planned) = planned_of(alloc, files, change)? {
            plan.push(planned)?;
        }
    }
    Ok(plan)
}

/// What is planned of a change; nothing where its file keeps its text or isn't there.
fn planned_of<'a>(
    alloc: Global,
    files: &Searchable,
    change: &'a FileChange,
) -> Result<Option<Planned<'a>>, AllocError>
    ensures { IfOk result (IsPlannedOf files.now.files change.now) }
{
    let Some(there) = files.get(change.file) else {
        return Ok(None);
    };
    let (old, new) = (there.text(), change.new.as_str());
    if new == old {
        return Ok(None);
    }
    let name = normal_name(alloc, there.name())?;
    let diff = diff_between(alloc, name.as_str(), old, new, &change.edit)?;
    Ok(Some(Planned {
        file: change.file,
        new,
        diff,
    }))
}

/// Looks whether each file planned may be written, and none comes twice.
fn check_names(alloc: Global, files: &Searchable, plan: &[Planned<'_>]) -> Result<(), PlanError>
    ensures { MatchResult result (λ _. HaveNames files.now.files plan.now) (IsNameFault files.now.files plan.now) }
{
    let mut names = BTreeMap::new(alloc);
    for planned in plan {
        let name = name_in(alloc, files, planned.file)?;
        if !is_inside(name.as_str()) {
            return Err(PlanError::Outside(planned.file));
        }
        if is_below_target(name.as_str()) {
            return Err(PlanError::BelowTarget(planned.file));
        }
        if names.insert(name, ())?.is_some() {
            return Err(PlanError::Twice(planned.file));
        }
    }
    Ok(())
}

/// The normal name of a file; none where the file isn't there.
fn name_in(alloc: Global, files: &Searchable, file: usize) -> Result<String, AllocError>
    ensures { IfOk result (λ name. string_bytes name ≡ name_in files.now.files file) }
{
    match files.get(file) {
        Some(there) => normal_name(alloc, there.name()),
        None => Ok(String::new(alloc)),
    }
}
