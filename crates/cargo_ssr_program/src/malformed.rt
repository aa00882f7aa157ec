//! Where facts are malformed.

use serde_json::Value;
use ssr_facts_rows::{RowsError, read_rows};
use std::alloc::{AllocError, Global};

/// Where facts have the wrong shape: the key, and of a list of rows the first malformed one, counted from 0. Where each key is well
/// formed by itself, a number names nothing, or a row no node.
pub(crate) fn malformed_words(alloc: Global, facts: &[u8]) -> Result<String, AllocError> {
    let Ok(facts) = Value::from_slice(alloc, facts) else {
        return Err(AllocError);
    };
    let Some(keys) = facts.as_object() else {
        return String::from_str(alloc, "no object");
    };
    for (key, rows) in keys {
        let key = key.as_str();
        if is_malformed(alloc, key, rows.to_string(alloc)?.as_str())? {
            return malformed_at(alloc, key, rows);
        }
    }
    String::from_str(alloc, "a number names nothing, or a row no node")
}

/// Where a malformed key is so.
fn malformed_at(alloc: Global, key: &str, rows: &Value) -> Result<String, AllocError> {
    match malformed_row(alloc, key, rows)? {
        Some(row) => format!(in alloc; "row {row} of {key}"),
        None => format!(in alloc; "key {key}"),
    }
}

/// The first malformed row at a key, if the key has rows.
fn malformed_row(alloc: Global, key: &str, rows: &Value) -> Result<Option<usize>, AllocError> {
    let Some(rows) = rows.as_array() else {
        return Ok(None);
    };
    if is_malformed(alloc, key, "[]")? {
        return Ok(None);
    }
    for (number, row) in rows.iter().enumerate() {
        let row = row.to_string(alloc)?;
        if is_malformed(alloc, key, format!(in alloc; "[{row}]")?.as_str())? {
            return Ok(Some(number));
        }
    }
    Ok(None)
}

/// Whether facts are malformed that have this value, as JSON, at this key alone.
fn is_malformed(alloc: Global, key: &str, value: &str) -> Result<bool, AllocError> {
    let key = Value::String(String::from_str(alloc, key)?).to_string(alloc)?;
    let facts = format!(in alloc; "{{{key}:{value}}}")?;
    match read_rows(alloc, facts.as_bytes()) {
        Err(RowsError::Shape) => Ok(true),
        Err(RowsError::Memory) => Err(AllocError),
        _ => Ok(false),
    }
}
