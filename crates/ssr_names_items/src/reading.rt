//! The table of what the sources of a run declare.

use crate::reader::Reader;
use crate::sources::Sources;
use crate::table::{Entry, Table, Thing};
use std::alloc::{AllocError, Global};

/// What the sources of a run declare.
pub fn read_items(alloc: Global, sources: Sources<'_>) -> Result<Table, AllocError> {
    let mut reader = Reader::new(alloc, sources)?;
    reader.know_trees()?;
    reader.know_modules()?;
    for number in 0..sources.modules.len() {
        reader.read_file(number)?;
    }
    reader.read_expansions()?;
    into_table(alloc, reader)
}

/// By what entries are sorted: those that are unknown stand behind the others of their name.
fn key(entry: &Entry) -> (u32, u32, (u32, bool)) {
    let is_unknown = entry.thing == Thing::Unknown;
    (
        entry.module.0,
        entry.name.0,
        (entry.namespace as u32, is_unknown),
    )
}

/// Entries in order, each once.
fn sorted(alloc: Global, entries: Vec<Entry>) -> Result<Vec<Entry>, AllocError> {
    let mut entries = entries;
    entries.sort_by_key(key)?;
    let mut kept = Vec::with_capacity(alloc, entries.len())?;
    let mut last = None;
    for entry in entries {
        if last != Some(entry) {
            kept.push(entry)?;
        }
        last = Some(entry);
    }
    Ok(kept)
}

/// What was read, as a table.
fn into_table(alloc: Global, reader: Reader<'_>) -> Result<Table, AllocError> {
    let Reader {
        names,
        modules,
        crates,
        entries,
        items,
        imports,
        impls,
        macro_crates,
        ..
    } = reader;
    Ok(Table {
        names,
        crates,
        modules: modules.into_rows(),
        entries: sorted(alloc, entries)?,
        items,
        imports,
        impls,
        macro_crates,
    })
}
