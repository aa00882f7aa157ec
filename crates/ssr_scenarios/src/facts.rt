//! The facts of a scenario.

use crate::lines::{Line, rest_of};
use crate::texts::text_of;
use crate::told::Told;
use anyhow::{Result, bail};
use std::alloc::Global;

/// More bytes than what a macro call stands for has here.
const LONG: usize = 1000;

/// The rows of a facts file, by their keys.
#[derive(Drop)]
struct Rows {
    files: Told,
    calls: Told,
    scopes: Told,
    paths: Told,
    methods: Told,
    types: Told,
    /// The text of the first file.
    first: Told,
    /// How many files and macro calls there are.
    trees: u32,
}

fn no_rows(alloc: Global) -> Rows {
    Rows {
        files: Told::nothing(alloc),
        calls: Told::nothing(alloc),
        scopes: Told::nothing(alloc),
        paths: Told::nothing(alloc),
        methods: Told::nothing(alloc),
        types: Told::nothing(alloc),
        first: Told::nothing(alloc),
        trees: 0,
    }
}

/// Adds what separates a row from those in front.
fn push_comma(rows: &mut Told) {
    if !rows.is_empty() {
        rows.text(",");
    }
}

/// Adds a row.
fn push_row(rows: &mut Told, row: &str) {
    push_comma(rows);
    rows.text(row);
}

/// The text of a facts file for a scenario, which has no names without a file. Each tree is one scope.
pub(crate) fn facts_text(alloc: Global, names: &str, lines: &[Line<'_>]) -> Result<String> {
    if let Some(facts) = rest_of(lines, "facts") {
        return text_of(alloc, facts);
    }
    if rest_of(lines, "file").is_none() {
        return Ok(String::from_str(alloc, "{}")?);
    }
    let text = rows_text(alloc, names, lines)?;
    Ok(text.end()?)
}

/// The text of a facts file for a scenario, by the rows that its lines tell.
fn rows_text(alloc: Global, names: &str, lines: &[Line<'_>]) -> Result<Told> {
    let mut rows = no_rows(alloc);
    let mut keys = Told::nothing(alloc);
    keys.text(names);
    match push_lines(alloc, &mut rows, &mut keys, lines) {
        Ok(()) => Ok(joined(alloc, &rows, &mut keys)),
        Err(error) => Err(error),
    }
}

/// Adds what lines tell.
fn push_lines(alloc: Global, rows: &mut Rows, keys: &mut Told, lines: &[Line<'_>]) -> Result<()> {
    for line in lines {
        push_line(alloc, rows, keys, line)?;
    }
    Ok(())
}

/// Adds what a line tells.
fn push_line(alloc: Global, rows: &mut Rows, keys: &mut Told, line: &Line<'_>) -> Result<()> {
    match line.word {
        "file" => return push_file(alloc, rows, line.rest),
        "told" => return push_told(rows, line.rest),
        "call" => push_call(rows, line.rest),
        "keys" => push_row(keys, line.rest),
        _ => {}
    }
    Ok(())
}

/// Adds a tree that is one scope of so many bytes.
fn push_scope(rows: &mut Rows, end: usize) {
    push_range(&mut rows.scopes, rows.trees, 0, end);
    rows.scopes.text("]");
    rows.trees = rows.trees.saturating_add(1);
}

/// Begins a row of a range in a tree.
fn push_range(rows: &mut Told, tree: u32, start: usize, end: usize) {
    push_comma(rows);
    rows.text("[");
    rows.shown(&tree);
    rows.text(",");
    rows.shown(&start);
    rows.text(",");
    rows.shown(&end);
}

/// Adds a file, whose text may have marked paths.
fn push_file(alloc: Global, rows: &mut Rows, written: &str) -> Result<()> {
    let marked = text_of(alloc, written)?;
    let text = unmarked(alloc, rows, marked.as_str())?;
    push_text(rows, text.as_str());
    Ok(())
}

/// Adds a file.
fn push_text(rows: &mut Rows, text: &str) {
    let number = rows.trees;
    push_row(&mut rows.files, "{\"name\":\"");
    rows.files.shown(&number);
    rows.files.text(".rs\",\"text\":");
    rows.files.quoted(text);
    rows.files.text("}");
    if number == 0 {
        rows.first.text(text);
    }
    push_scope(rows, text.len());
}

/// A text without its marks; its paths, each with what it stands for, are added to rows.
fn unmarked(alloc: Global, rows: &mut Rows, marked: &str) -> Result<String> {
    let mut text = Told::nothing(alloc);
    push_pieces(rows, &mut text, marked)?;
    Ok(text.end()?)
}

fn push_pieces(rows: &mut Rows, text: &mut Told, marked: &str) -> Result<()> {
    for piece in marked.split('«') {
        match piece.split_once('»') {
            Some((mark, behind)) => {
                push_mark(rows, text, mark)?;
                text.text(behind);
            }
            None => text.text(piece),
        }
    }
    Ok(())
}

/// Adds a marked path to a text, and what it stands for to rows.
fn push_mark(rows: &mut Rows, text: &mut Told, mark: &str) -> Result<()> {
    let Some((path, def)) = mark.split_once(" is ") else {
        bail!("{mark} doesn't say what it is");
    };
    let start = text.len();
    text.text(path);
    push_range(&mut rows.paths, rows.trees, start, text.len());
    rows.paths.text(",[\"def\",");
    rows.paths.text(def);
    rows.paths.text("]]");
    Ok(())
}

/// Adds a macro call, with what it stands for.
fn push_call(rows: &mut Rows, row: &str) {
    push_row(&mut rows.calls, row);
    push_scope(rows, LONG);
}

/// Adds what is told of snippets of the first file.
fn push_told(rows: &mut Rows, told: &str) -> Result<()> {
    for fact in told.split("; ") {
        push_fact(rows, fact)?;
    }
    Ok(())
}

/// Adds what is told of a snippet: that it is a path of a definition, a method call of a function with a self kind, or has
/// types.
fn push_fact(rows: &mut Rows, fact: &str) -> Result<()> {
    let first = rows.first.as_str();
    if let Some((path, def)) = fact.split_once(" is ") {
        return push_at(&mut rows.paths, first, path, ["[\"def\",", def, "]"]);
    }
    if let Some((call, told)) = fact.split_once(" calls ") {
        return push_at(&mut rows.methods, first, call, ["", told, ""]);
    }
    let Some((expression, types)) = fact.split_once(" has ") else {
        bail!("{fact} is no fact");
    };
    push_at(&mut rows.types, first, expression, ["[", types, "]"])
}

/// Adds what is told, in three parts, of the first place where a snippet stands in the first file.
fn push_at(rows: &mut Told, first: &str, snippet: &str, told: [&str; 3]) -> Result<()> {
    let Some((before, _)) = first.split_once(snippet) else {
        bail!("{snippet} stands nowhere in {first}");
    };
    let start = before.len();
    push_range(rows, 0, start, start.saturating_add(snippet.len()));
    rows.text(",");
    for part in told {
        rows.text(part);
    }
    rows.text("]");
    Ok(())
}

/// Adds a key with its rows, if there are some.
fn push_key(keys: &mut Told, key: &str, rows: &Told) {
    if !rows.is_empty() {
        push_row(keys, "\"");
        keys.text(key);
        keys.text("\":[");
        keys.told(rows);
        keys.text("]");
    }
}

/// All rows behind further keys.
fn joined(alloc: Global, rows: &Rows, keys: &mut Told) -> Told {
    for (key, rows) in [
        ("files", &rows.files),
        ("expansions", &rows.calls),
        ("scopes", &rows.scopes),
        ("paths", &rows.paths),
        ("methods", &rows.methods),
        ("types", &rows.types),
    ] {
        push_key(keys, key, rows);
    }
    let mut text = Told::nothing(alloc);
    text.text("{");
    text.told(keys);
    text.text("}");
    text
}
