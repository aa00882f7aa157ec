//! What is read of facts files.

use crate::told::Told;
use ssr_facts::read;
use ssr_facts_rows::{FactRows, read_rows};
use std::alloc::Global;
use std::fmt::Debug;

/// Why a text is no facts file, if it is none.
pub(crate) fn write_facts(alloc: Global, out: &mut Told, text: &str) {
    if let Err(error) = read(alloc, text.as_bytes()) {
        out.debug(&error);
        out.text("\n");
    }
}

/// The rows of a facts file, or why it has none.
pub(crate) fn write_rows(alloc: Global, out: &mut Told, text: &str) {
    match read_rows(alloc, text.as_bytes()) {
        Ok(rows) => write_each(out, &rows),
        Err(error) => {
            out.debug(&error);
            out.text("\n");
        }
    }
}

/// What stands for each key that has something.
fn write_each(out: &mut Told, rows: &FactRows) {
    write_key(out, "files", &rows.files);
    write_key(out, "expansions", &rows.expansions);
    write_key(out, "defs", &rows.definitions);
    write_key(out, "scopes", &rows.scopes);
    write_key(out, "names", &rows.names);
    write_key(out, "members", &rows.members);
    write_key(out, "paths", &rows.paths);
    write_key(out, "methods", &rows.methods);
    write_key(out, "types", &rows.types);
    write_key(out, "printed", &rows.printed);
    if let Some(position) = &rows.position {
        write_value(out, "position", position);
    }
    write_key(out, "ranges", &rows.ranges);
}

/// A key with its rows, if there are some.
fn write_key<T: Debug>(out: &mut Told, key: &str, rows: &Vec<T>) {
    if !rows.is_empty() {
        write_value(out, key, rows);
    }
}

/// A key with its value.
fn write_value<T: Debug>(out: &mut Told, key: &str, value: &T) {
    out.text(key);
    out.text(" ");
    out.debug(value);
    out.text("\n");
}
