//! Which changes of a file are made: those with which it is read and groups as it did.
ghost use Rattle.std.specs.Prelude.{◌≡◌, All, IfOk, map, string_bytes};
ghost use Rattle.std.specs.List.{filter_map};
ghost use Rattle.std.specs.Option.{option_map};
ghost use Rattle.ssr_syntax_tree.specs.Syntax.{source_of};
ghost use Rattle.ssr_base_trees.specs.Changes.{FitsText};
ghost use Rattle.ssr_set_aside.specs.Sparing.{bounds, bounds_of};
ghost use Rattle.ssr_standing.specs.Expansions.{stands_in};
ghost use Rattle.ssr_standing.specs.Fitted.{change_with};
ghost use Rattle.ssr_standing.specs.Near.{stands_by};
ghost use Rattle.ssr_changes.specs.Private.Standing.{tell};
ghost use Rattle.ssr_changes.specs.Standing.{falling, standing, untold};

use ssr_base::TextEdit;
use ssr_standing::{Judge, SearchedFile};
use ssr_syntax::TextRange;
use std::alloc::{AllocError, Global};

/// What trying an edit comes to.
#[derive(Drop)]
pub(crate) struct Tried {
    /// The changes that are made.
    pub(crate) edit: TextEdit,
    /// The ranges of the others.
    pub(crate) unread: Vec<TextRange>,
}

/// Which changes of a searched text are made. Where it isn't read as before with all of them, each is tried by the nearest block around
/// it, as it is and then in parentheses; where it doesn't stand by that, alone in the whole text. Those that stand are tried together. If
/// they don't stand together, each is tried alone in the whole text in place of that.
pub(crate) fn standing(
    alloc: Global,
    file: &SearchedFile<'_>,
    edit: TextEdit,
) -> Result<Tried, AllocError>
    requires { All (FitsText (source_of file.now.tree.now)) edit }
    ensures made { IfOk result (λ answer. answer.edit ≡ standing (stands_in file.now.trees.now file.now.number) (stands_by file.now.trees.now file.now.number) edit) }
    ensures unread { IfOk result (λ answer. map bounds answer.unread.items ≡ map bounds_of (falling (stands_in file.now.trees.now file.now.number) (stands_by file.now.trees.now file.now.number) edit)) }
{
    if file.stands(alloc, &edit)? {
        return Ok(Tried {
            edit,
            unread: Vec::new(alloc),
        });
    }
    let near = each_tried(alloc, file, Trial::Settled, &edit)?;
    if file.stands(alloc, &near.edit)? {
        return Ok(near);
    }
    let alone = each_tried(alloc, file, Trial::Alone, &edit)?;
    if file.stands(alloc, &alone.edit)? {
        return Ok(alone);
    }
    Ok(Tried {
        edit: TextEdit::new(Vec::new(alloc)),
        unread: ranges(alloc, &edit)?,
    })
}

/// How a change is tried without the others.
#[derive(Clone, Copy)]
enum Trial {
    /// By the nearest block around it; where it doesn't stand by that, alone in the whole text.
    Settled,
    /// Alone in the whole text.
    Alone,
}

/// The text of a change as it stands when it is tried so, if it does.
fn text_tried(
    alloc: Global,
    file: &SearchedFile<'_>,
    trial: Trial,
    range: TextRange,
    text: &str,
) -> Result<Option<String>, AllocError>
    requires { FitsText (source_of file.now.tree.now) (change_with range text.now) }
    ensures { IfOk result (λ answer. option_map (change_with range) (option_map string_bytes answer) ≡ tell trial (stands_by file.now.trees.now file.now.number) (change_with range text.now)) }
{
    match trial {
        Trial::Settled => file.settled(alloc, range, text),
        Trial::Alone => file.fitted(alloc, Judge::File, range, text),
    }
}

/// The changes of an edit that stand when each is tried so, and the others.
fn each_tried(
    alloc: Global,
    file: &SearchedFile<'_>,
    trial: Trial,
    edit: &TextEdit,
) -> Result<Tried, AllocError>
    requires { All (FitsText (source_of file.now.tree.now)) edit.now }
    ensures made { IfOk result (λ answer. answer.edit ≡ filter_map (tell trial (stands_by file.now.trees.now file.now.number)) edit.now) }
    ensures unread { IfOk result (λ answer. map bounds answer.unread.items ≡ map bounds_of (untold (tell trial (stands_by file.now.trees.now file.now.number)) edit.now)) }
{
    let mut made = Vec::new(alloc);
    let mut unread = Vec::new(alloc);
    for (range, text) in edit.iter().as_slice() {
        match text_tried(alloc, file, trial, *range, text.as_str())? {
            Some(text) => made.push((*range, text))?,
            None => unread.push(*range)?,
        }
    }
    Ok(Tried {
        edit: TextEdit::new(made),
        unread,
    })
}

/// The ranges of an edit's changes.
fn ranges(alloc: Global, edit: &TextEdit) -> Result<Vec<TextRange>, AllocError>
    ensures { IfOk result (λ ranges. map bounds ranges.items ≡ map bounds_of edit.now) }
{
    let mut ranges = Vec::new(alloc);
    for (range, _) in edit.iter().as_slice() {
        ranges.push(*range)?;
    }
    Ok(ranges)
}
