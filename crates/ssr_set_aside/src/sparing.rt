//! The changes of a searched text that are made in the file.
ghost use Rattle.std.specs.Prelude.{◌≡◌, All, IfOk, map};
ghost use Rattle.ssr_base_trees.specs.Changes.{FitsText};
ghost use Rattle.ssr_base_trees.specs.Origins.{span_of};
ghost use Rattle.ssr_syntax_tree.specs.Syntax.{source_of};
ghost use Rattle.ssr_set_aside.specs.SetAside.{SetAside as SetAsideValue, IsSetAside};
ghost use Rattle.ssr_set_aside.specs.Sparing.{spared, told, bounds};
ghost use Rattle.ssr_set_aside.specs.Private.Sparing.{behind, begins_before};

use crate::reaches::Reaches;
use ssr_base_trees::TextEdit;
use ssr_syntax_kinds::TextRange;
use std::alloc::{AllocError, Global};

/// What an edit of a searched text comes to in the file.
#[derive(Debug, Drop)]
pub struct Spared {
    /// The changes that touch no reach of a part set aside.
    pub edit: TextEdit,
    /// The ranges of the others, which are not made.
    pub told: Vec<TextRange>,
}

/// The changes of an edit of a searched text that touch no reach of a part set aside, and the ranges of the others.
///
/// A change that touches none and that fits the searched text fits the file's.
pub fn spare(alloc: Global, edit: TextEdit, reaches: &Reaches) -> Result<Spared, AllocError>
    ensures edit { IfOk result (λ answer. answer.edit ≡ spared reaches.now edit) }
    ensures told { IfOk result (λ answer. map bounds answer.told.items ≡ told reaches.now edit) }
    ensures fits { IfOk result (λ answer. (text : _) → (made : SetAsideValue) → made.reaches ≡ reaches.now → IsSetAside text made
        → All (FitsText (source_of made.tree)) edit → All (FitsText text) answer.edit) }
{
    let mut made = Vec::new(alloc);
    let mut told = Vec::new(alloc);
    let mut left = reaches.ranges();
    for (range, text) in edit.iter().as_slice() {
        left = behind(left, range.start);
        if begins_before(left, range.end) {
            told.push(*range)?;
        } else {
            made.push((*range, String::from_str(alloc, text.as_str())?))?;
        }
    }
    Ok(Spared {
        edit: TextEdit::new(made),
        told,
    })
}

/// The ranges from the first one on that ends behind a place.
fn behind(ranges: &[TextRange], place: u32) -> &[TextRange]
    ensures { map span_of result.now ≡ behind place (map span_of ranges.now) }
{
    let mut left = ranges;
    while let Some((first, rest)) = left.split_first() {
        if place < first.end {
            break;
        }
        left = rest;
    }
    left
}

/// Whether the first range, if there is one, begins before a place.
fn begins_before(ranges: &[TextRange], place: u32) -> bool
    ensures { result ≡ begins_before place (map span_of ranges.now) }
{
    match ranges.first() {
        Some(first) => first.start < place,
        None => false,
    }
}
