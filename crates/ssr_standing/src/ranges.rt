//! The ranges that an edit replaces, and those of what it writes.
ghost use Rattle.std.specs.Prelude.{◌≡◌, ℕ, List, All, IfOk, length, map};
ghost use Rattle.ssr_base_trees.specs.Applied.{changes_of};
ghost use Rattle.ssr_base_trees.specs.Changes.{ChangesInOrder, FitsText, replaced};
ghost use Rattle.ssr_base_trees.specs.Origins.{span_of};
ghost use Rattle.ssr_standing.specs.Ranges.{AreWritten, IsShort, new_places, old_place, old_places};

use ssr_base_trees::TextEdit;
use ssr_syntax_kinds::TextRange;
use std::alloc::{AllocError, Global};

/// The ranges that an edit replaces, in bytes of the old text.
pub fn old_ranges(alloc: Global, edit: &TextEdit) -> Result<Vec<TextRange>, AllocError>
    ensures ranges { IfOk result (λ ranges. map span_of ranges.items ≡ map old_place edit.now) }
    ensures order { IfOk result (λ _. ChangesInOrder 0 edit.now) }
{
    let mut ranges = Vec::new(alloc);
    for (range, _) in edit.iter().as_slice() {
        ranges.push(*range)?;
    }
    Ok(ranges)
}

/// The ranges of an edit's texts, in bytes of the new text. They end before the byte 2^32, as in each text that is read.
pub fn new_ranges(alloc: Global, edit: &TextEdit) -> Result<Vec<TextRange>, AllocError>
    requires { All IsShort (new_places 0 0 edit.now) }
    ensures places { IfOk result (λ ranges. map span_of ranges.items ≡ new_places 0 0 edit.now) }
    ensures written { IfOk result (λ ranges. (text : List ℕ) → All (FitsText text) edit.now
        → AreWritten (replaced text 0 (length text) edit.now) (map span_of ranges.items) edit.now) }
{
    new_ranges_from(alloc, edit.iter().as_slice(), 0, 0)
}

/// The ranges that changes replace in a part of a text, where its byte `from` stands at the byte `at`.
pub fn old_ranges_from(
    alloc: Global,
    changes: &[(TextRange, String)],
    at: u32,
    from: u32,
) -> Result<Vec<TextRange>, AllocError>
    requires { All IsShort (old_places at from (changes_of changes.now)) }
    ensures { IfOk result (λ ranges. map span_of ranges.items ≡ old_places at from (changes_of changes.now)) }
{
    let mut ranges = Vec::with_capacity(alloc, changes.len())?;
    for (range, _) in changes {
        let start = at + range.start.saturating_sub(from);
        let end = at + range.end.saturating_sub(from);
        ranges.push(TextRange::new(start, end))?;
    }
    Ok(ranges)
}

/// The ranges of the texts of changes, where what stands at the byte `from` of the old text stands at the byte `at` of the new one.
pub fn new_ranges_from(
    alloc: Global,
    changes: &[(TextRange, String)],
    mut at: u32,
    mut from: u32,
) -> Result<Vec<TextRange>, AllocError>
    requires { All IsShort (new_places at from (changes_of changes.now)) }
    ensures { IfOk result (λ ranges. map span_of ranges.items ≡ new_places at from (changes_of changes.now)) }
{
    let mut ranges = Vec::with_capacity(alloc, changes.len())?;
    for (range, text) in changes {
        let start = at + range.start.saturating_sub(from);
        let end = start + text.len() as u32;
        ranges.push(TextRange::new(start, end))?;
        at = end;
        from = range.end;
    }
    Ok(ranges)
}
