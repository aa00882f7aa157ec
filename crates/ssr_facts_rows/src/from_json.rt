//! How values of JSON are read to what they stand for.

ghost use Rattle.std.specs.Prelude.{◌≡◌, map, option_map, string_bytes, List, ℕ, Bool};
ghost use Rattle.serde_json.specs.Find.{as_str, as_bool};
ghost use Rattle.serde_json.specs.View.{view};
ghost use Rattle.ssr_facts_rows.specs.Private.Answers.{Gives};
ghost use Rattle.ssr_facts_rows.specs.Fields.{number, rows, required, optional, defaulted, rows_at};

use crate::fields::{items, text};
use crate::rows_error::RowsError;
use serde_json::Value;
use std::alloc::Global;

/// What values of JSON stand for.
pub(crate) trait FromJson: Sized + Drop {
    ghost use Rattle.std.specs.Prelude.{Option};
    ghost use Rattle.serde_json.specs.Data.{Data};

    // What is read, wherever it lies in memory.
    ghost Plain: { Type 0 };

    ghost plain: { Self → Self.Plain };

    ghost reading: { Data → Option Self.Plain };

    /// What a value stands for.
    fn from_json(alloc: Global, value: &Value) -> Result<Self, RowsError>
        ensures { Gives plain (reading (view value.now)) result };
}

impl FromJson for u32 {
    ghost Plain = { ℕ };

    ghost plain = { λ n. n };

    ghost reading = { number };

    fn from_json(_alloc: Global, value: &Value) -> Result<u32, RowsError> {
        match value.as_u64() {
            Some(number) if number < 1 << 32 => Ok(number as u32),
            _ => Err(RowsError::Shape),
        }
    }
}

impl FromJson for bool {
    ghost Plain = { Bool };

    ghost plain = { λ b. b };

    ghost reading = { as_bool };

    fn from_json(_alloc: Global, value: &Value) -> Result<bool, RowsError> {
        value.as_bool().ok_or(RowsError::Shape)
    }
}

impl FromJson for String {
    ghost Plain = { List ℕ };

    ghost plain = { string_bytes };

    ghost reading = { as_str };

    fn from_json(alloc: Global, value: &Value) -> Result<String, RowsError> {
        Ok(String::from_str(alloc, text(value)?)?)
    }
}

impl<R: FromJson> FromJson for Vec<R> {
    ghost Plain = { List R.Plain };

    ghost plain = { λ list. map R.plain list.items };

    ghost reading = { rows R.reading };

    fn from_json(alloc: Global, value: &Value) -> Result<Vec<R>, RowsError> {
        let mut list = Vec::new(alloc);
        for item in items(value)? {
            list.push(R::from_json(alloc, item)?)?;
        }
        Ok(list)
    }
}

/// What stands at a key that has to be there.
pub(crate) fn required<R: FromJson>(alloc: Global, value: &Value, key: &str) -> Result<R, RowsError>
    ensures { Gives R.plain (required key.now R.reading (view value.now)) result }
{
    match value.get(key) {
        Some(found) => R::from_json(alloc, found),
        None => Err(RowsError::Shape),
    }
}

/// What stands at a key, if it is there.
pub(crate) fn optional<R: FromJson>(
    alloc: Global,
    value: &Value,
    key: &str,
) -> Result<Option<R>, RowsError>
    ensures { Gives (option_map R.plain) (optional key.now R.reading (view value.now)) result }
{
    match value.get(key) {
        Some(found) => Ok(Some(R::from_json(alloc, found)?)),
        None => Ok(None),
    }
}

/// What stands at a key, and `default` where it isn't there.
pub(crate) fn defaulted<R: FromJson>(
    alloc: Global,
    value: &Value,
    key: &str,
    default: R,
) -> Result<R, RowsError>
    ensures { Gives R.plain (defaulted key.now R.reading (R.plain default) (view value.now)) result }
{
    match optional(alloc, value, key)? {
        Some(found) => Ok(found),
        None => Ok(default),
    }
}

/// The rows at a key, and none where it isn't there.
pub(crate) fn rows_at<R: FromJson>(
    alloc: Global,
    value: &Value,
    key: &str,
) -> Result<Vec<R>, RowsError>
    ensures { Gives (λ list. map R.plain list.items) (rows_at key.now R.reading (view value.now)) result }
{
    defaulted(alloc, value, key, Vec::new(alloc))
}
