//! All rows of a facts file.

ghost use Rattle.ssr_facts_rows.specs.Facts.{facts_of, Tells};

use crate::fields::has_only;
use crate::from_json::{FromJson, optional, rows_at};
use crate::meanings::{Definition, MemberKey, Method, NameKey, PrintedKey};
use crate::places::PlaceRow;
use crate::rows_error::RowsError;
use crate::sources::{ExpansionRow, FileRow};
use serde_json::Value;
use ssr_base_trees::{DefId, FilePosition, FileRange, Res, TypeId};
use std::alloc::Global;

/// All rows of a facts file.
#[derive(Debug, Drop)]
pub struct FactRows {
    pub files: Vec<FileRow>,
    pub expansions: Vec<ExpansionRow>,
    pub definitions: Vec<Definition>,
    pub scopes: Vec<PlaceRow>,
    pub names: Vec<(NameKey, Res)>,
    pub members: Vec<(MemberKey, DefId)>,
    /// What paths stand for, by their places.
    pub paths: Vec<(PlaceRow, Res)>,
    /// What method calls call, by their places.
    pub methods: Vec<(PlaceRow, Method)>,
    /// The types of expressions, by their places.
    pub types: Vec<(PlaceRow, Vec<TypeId>)>,
    pub printed: Vec<(PrintedKey, String)>,
    pub position: Option<FilePosition>,
    pub ranges: Vec<FileRange>,
}

/// The keys of a facts file.
const KEYS: [&str; 12] = [
    "files",
    "expansions",
    "defs",
    "scopes",
    "names",
    "members",
    "paths",
    "methods",
    "types",
    "printed",
    "position",
    "ranges",
];

impl FromJson for FactRows {
    ghost use Rattle.ssr_facts_rows.specs.Facts.{PlainFacts, plain_facts, rows_of};

    ghost Plain = { PlainFacts };

    ghost plain = { plain_facts };

    ghost reading = { rows_of };

    fn from_json(alloc: Global, value: &Value) -> Result<FactRows, RowsError> {
        has_only(&KEYS, value)?;
        Ok(FactRows {
            files: rows_at(alloc, value, "files")?,
            expansions: rows_at(alloc, value, "expansions")?,
            definitions: rows_at(alloc, value, "defs")?,
            scopes: rows_at(alloc, value, "scopes")?,
            names: rows_at(alloc, value, "names")?,
            members: rows_at(alloc, value, "members")?,
            paths: rows_at(alloc, value, "paths")?,
            methods: rows_at(alloc, value, "methods")?,
            types: rows_at(alloc, value, "types")?,
            printed: rows_at(alloc, value, "printed")?,
            position: optional(alloc, value, "position")?,
            ranges: rows_at(alloc, value, "ranges")?,
        })
    }
}

/// The rows that the bytes of a facts file say. It tells `NotJson` exactly where the bytes are no JSON, and `Shape` exactly
/// where they are JSON of another form. Want of memory says nothing of the bytes.
pub fn read_rows(alloc: Global, bytes: &[u8]) -> Result<FactRows, RowsError>
    ensures { Tells (facts_of bytes.now) result }
{
    match Value::from_slice(alloc, bytes) {
        Ok(value) => FactRows::from_json(alloc, &value),
        Err(error) if error.is_memory() => Err(RowsError::Memory),
        Err(_) => Err(RowsError::NotJson),
    }
}
