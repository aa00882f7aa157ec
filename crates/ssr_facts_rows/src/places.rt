//! Places in trees and in files.

ghost use Rattle.serde_json.specs.View.{view};
ghost use Rattle.ssr_base_trees.specs.Origins.{span_of};
ghost use Rattle.ssr_facts_rows.specs.Private.Answers.{Gives};
ghost use Rattle.ssr_facts_rows.specs.Places.{span, place};

use crate::fields::{three, two};
use crate::from_json::FromJson;
use crate::rows_error::RowsError;
use serde_json::Value;
use ssr_base_trees::{FileId, FilePosition, FileRange};
use ssr_syntax_kinds::TextRange;
use std::alloc::Global;

/// Bytes of a tree.
#[derive(Clone, Copy, Debug, PartialEq, Eq, PartialOrd, Ord)]
pub struct PlaceRow {
    pub tree: u32,
    pub start: u32,
    pub end: u32,
}

/// The bytes between two numbers.
pub(crate) fn span(alloc: Global, start: &Value, end: &Value) -> Result<TextRange, RowsError>
    ensures { Gives span_of (span (view start.now) (view end.now)) result }
{
    let start = u32::from_json(alloc, start)?;
    let end = u32::from_json(alloc, end)?;
    if start > end {
        return Err(RowsError::Shape);
    }
    Ok(TextRange::new(start, end))
}

/// The bytes between two numbers of a tree.
pub(crate) fn place(
    alloc: Global,
    tree: &Value,
    start: &Value,
    end: &Value,
) -> Result<PlaceRow, RowsError>
    ensures { Gives (λ row. row) (place (view tree.now) (view start.now) (view end.now)) result }
{
    let tree = u32::from_json(alloc, tree)?;
    let range = span(alloc, start, end)?;
    Ok(PlaceRow {
        tree,
        start: range.start,
        end: range.end,
    })
}

impl FromJson for PlaceRow {
    ghost use Rattle.ssr_facts_rows.specs.declared.places.PlaceRow.{PlaceRow};
    ghost use Rattle.ssr_facts_rows.specs.Places.{place_row};

    ghost Plain = { PlaceRow };

    ghost plain = { λ row. row };

    ghost reading = { place_row };

    fn from_json(alloc: Global, value: &Value) -> Result<PlaceRow, RowsError> {
        let (tree, start, end) = three(value)?;
        place(alloc, tree, start, end)
    }
}

impl FromJson for (u32, TextRange) {
    ghost use Rattle.ssr_facts_rows.specs.declared.places.PlaceRow.{PlaceRow};
    ghost use Rattle.ssr_facts_rows.specs.Places.{call_place, place_row};

    ghost Plain = { PlaceRow };

    ghost plain = { call_place };

    ghost reading = { place_row };

    fn from_json(alloc: Global, value: &Value) -> Result<(u32, TextRange), RowsError> {
        let (tree, start, end) = three(value)?;
        let tree = u32::from_json(alloc, tree)?;
        Ok((tree, span(alloc, start, end)?))
    }
}

impl FromJson for FileRange {
    ghost use Rattle.ssr_base_trees.specs.Workspace.{FileSpan, file_span_of};
    ghost use Rattle.ssr_facts_rows.specs.Places.{file_span};

    ghost Plain = { FileSpan };

    ghost plain = { file_span_of };

    ghost reading = { file_span };

    fn from_json(alloc: Global, value: &Value) -> Result<FileRange, RowsError> {
        let (file, start, end) = three(value)?;
        let file = u32::from_json(alloc, file)?;
        Ok(FileRange {
            file_id: FileId(file),
            range: span(alloc, start, end)?,
        })
    }
}

impl FromJson for FilePosition {
    ghost use Rattle.ssr_base_trees.specs.declared.ids.FilePosition.{FilePosition};
    ghost use Rattle.ssr_facts_rows.specs.Places.{file_position};

    ghost Plain = { FilePosition };

    ghost plain = { λ position. position };

    ghost reading = { file_position };

    fn from_json(alloc: Global, value: &Value) -> Result<FilePosition, RowsError> {
        let (file, offset) = two(value)?;
        let file = u32::from_json(alloc, file)?;
        Ok(FilePosition {
            file_id: FileId(file),
            offset: u32::from_json(alloc, offset)?,
        })
    }
}
