//! The unified diff of an edit.
ghost use Rattle.std.specs.Prelude.{◌≡◌, ◌≤◌, IfOk, All, length, string_bytes};
ghost use Rattle.ssr_base_trees.specs.Changes.{FitsText, replaced};
ghost use Rattle.ssr_diff.specs.Patch.{IsDiff, lines_of, file_head, name_end as end_of_name};
ghost use Rattle.ssr_diff.specs.Private.Writing.{AreHunks};

use crate::cuts::cuts;
use crate::hunks::Hunks;
use crate::lines::{Lines, Texts};
use crate::names::quoted;
use crate::places::Place;
use ssr_base_trees::TextEdit;
use std::alloc::{AllocError, Global};

/// The unified diff of a file's text and what an edit makes of it, with three lines around each change; empty where nothing changes.
///
/// The heads are `--- a/NAME` and `+++ b/NAME`, each name [`quoted`] with what stands in front of it, and a tab ends one that has a blank.
pub fn unified_diff(
    alloc: Global,
    name: &str,
    old: &str,
    edit: &TextEdit,
) -> Result<String, AllocError>
    requires fits { All (FitsText old.now) edit.now }
    ensures { IfOk result (λ diff. IsDiff name.now old.now (replaced old.now 0 (length old.now) edit.now) (string_bytes diff)) }
{
    match edit.apply(alloc, old) {
        Ok(new) => diff_between(alloc, name, old, new.as_str(), edit),
        // The edit fits, so it's memory that it wants.
        Err(_) => Err(AllocError),
    }
}

/// The unified diff of two texts of a file, as that of an edit. Where the edit makes the new text of the old one, what differs is
/// told in short hunks; else the hunks are longer.
pub fn diff_between(
    alloc: Global,
    name: &str,
    old: &str,
    new: &str,
    edit: &TextEdit,
) -> Result<String, AllocError>
    ensures { IfOk result (λ diff. IsDiff name.now old.now new.now (string_bytes diff)) }
{
    if old == new {
        return Ok(String::new(alloc));
    }
    let mut diff = head(alloc, name)?;
    let hunks = hunks_of(alloc, old, new, edit)?;
    diff.push_str(hunks.as_str())?;
    Ok(diff)
}

/// The hunks of a text and what an edit makes of it, written.
fn hunks_of(alloc: Global, old: &str, new: &str, edit: &TextEdit) -> Result<String, AllocError>
    ensures { IfOk result (λ text. AreHunks (lines_of old.now) (lines_of new.now) (string_bytes text)) }
{
    let texts = Texts {
        old: Lines::of_text(alloc, old)?,
        new: Lines::of_text(alloc, new)?,
    };
    let cuts = cuts(alloc, &texts, edit)?;
    hunks(alloc, &texts, &cuts)
}

/// The hunks of two texts, written. The cuts say where what differs is sought: the nearer they stand, the shorter are the hunks.
fn hunks(alloc: Global, texts: &Texts<'_, '_>, cuts: &[Place]) -> Result<String, AllocError>
    ensures { IfOk result (λ text. AreHunks texts.now.old texts.now.new (string_bytes text)) }
{
    let mut hunks = Hunks::new(alloc);
    for cut in cuts {
        hunks = hunks.cut(alloc, texts, *cut)?;
    }
    hunks.finish(alloc, texts)
}

/// The two lines that name the file.
fn head(alloc: Global, name: &str) -> Result<String, AllocError>
    ensures { IfOk result (λ head. string_bytes head ≡ file_head name.now) }
{
    let end = name_end(name);
    let old = quoted(alloc, format!(in alloc; "a/{name}")?.as_str())?;
    let new = quoted(alloc, format!(in alloc; "b/{name}")?.as_str())?;
    format!(in alloc; "--- {old}{end}+++ {new}{end}")
}

/// What stands behind a name.
fn name_end(name: &str) -> &'static str
    ensures { result.now ≡ end_of_name name.now }
{
    if name.as_bytes().contains(&b' ') {
        "\t\n"
    } else {
        "\n"
    }
}
