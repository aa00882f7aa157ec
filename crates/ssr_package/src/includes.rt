//! Files that `include!` puts into those that are searched.

use crate::marks::eat;
use crate::modules::{slice, unquoted};
use crate::paths::normal_path;
use crate::places::file_folder;
use crate::source_file::SourceFile;
use crate::tokens::{behind_front, solid_tokens};
use ssr_syntax_kinds::SyntaxKind;
use ssr_syntax_lex::RawToken;
use std::alloc::{AllocError, Global};
use std::collections::BTreeSet;

/// A call `include!("b.rs");` of an item or a statement.
#[derive(Debug, Drop)]
pub struct Include {
    /// The number of the file that it stands in.
    pub file: usize,
    /// The byte where it begins.
    pub at: usize,
    /// The path between its quotes.
    pub path: String,
}

/// The calls of `include!` in these files of which none of them is included. Names are paths from one folder.
pub fn unsearched_includes(
    alloc: Global,
    files: &[SourceFile],
) -> Result<Vec<Include>, AllocError> {
    let names = names_of(alloc, files)?;
    let mut unsearched = Vec::new(alloc);
    for (number, file) in files.iter().enumerate() {
        let includes = includes_of(alloc, number, file)?;
        add_unsearched(alloc, &names, file, includes, &mut unsearched)?;
    }
    Ok(unsearched)
}

/// Adds the calls of a file by which none of the files of these names is included.
fn add_unsearched(
    alloc: Global,
    names: &BTreeSet<String>,
    file: &SourceFile,
    includes: Vec<Include>,
    unsearched: &mut Vec<Include>,
) -> Result<(), AllocError> {
    for include in includes {
        if !is_among(alloc, names, file, include.path.as_str())? {
            unsearched.push(include)?;
        }
    }
    Ok(())
}

/// The names of files.
fn names_of(alloc: Global, files: &[SourceFile]) -> Result<BTreeSet<String>, AllocError> {
    let mut names = BTreeSet::new(alloc);
    for file in files {
        names.insert(String::from_str(alloc, file.name.as_str())?)?;
    }
    Ok(names)
}

/// Whether the file at a path, which counts from a file's folder, has one of these names.
fn is_among(
    alloc: Global,
    names: &BTreeSet<String>,
    file: &SourceFile,
    path: &str,
) -> Result<bool, AllocError> {
    Ok(
        match normal_path(alloc, file_folder(file.name.as_str()), path)? {
            Some(name) => names.contains(name.as_str()),
            None => false,
        },
    )
}

/// The calls of `include!` in a file.
fn includes_of(
    alloc: Global,
    number: usize,
    file: &SourceFile,
) -> Result<Vec<Include>, AllocError> {
    let mut includes = Vec::new(alloc);
    let whole = file.text.as_str();
    if !whole.contains("include") {
        return Ok(includes);
    }
    let text = behind_front(whole);
    let front = whole.len().saturating_sub(text.len());
    let tokens = solid_tokens(alloc, text)?;
    let mut rest = tokens.as_slice();
    let mut begins = true;
    while let Some((first, after)) = rest.split_first() {
        if begins && let Some(path) = included(text, rest) {
            includes.push(Include {
                file: number,
                at: front.saturating_add(first.range.start as usize),
                path: String::from_str(alloc, path)?,
            })?;
        }
        begins = ends_something(first.kind);
        rest = after;
    }
    Ok(includes)
}

/// The path of a call of `include!` with which these tokens begin, if an item or a statement is that.
fn included<'a>(text: &'a str, tokens: &[RawToken]) -> Option<&'a str> {
    let (name, rest) = eat(SyntaxKind::IDENT, tokens)?;
    if slice(text, name) != "include" {
        return None;
    }
    let (_, rest) = eat(SyntaxKind::BANG, rest)?;
    let (opening, rest) = rest.split_first()?;
    let (path, rest) = eat(SyntaxKind::STRING, rest)?;
    if is_ended(opening.kind, behind_comma(rest)) {
        unquoted(slice(text, path))
    } else {
        None
    }
}

/// These tokens without a comma in front.
fn behind_comma(tokens: &[RawToken]) -> &[RawToken] {
    match eat(SyntaxKind::COMMA, tokens) {
        Some((_, rest)) => rest,
        None => tokens,
    }
}

/// Whether a call whose arguments open so ends with these tokens as an item or a statement does.
fn is_ended(opening: SyntaxKind, tokens: &[RawToken]) -> bool {
    if opening.is(SyntaxKind::L_CURLY) {
        return eat(SyntaxKind::R_CURLY, tokens).is_some();
    }
    match tokens.split_first() {
        Some((_, rest)) => eat(SyntaxKind::SEMICOLON, rest).is_some(),
        None => false,
    }
}

/// Whether an item or a statement may begin behind a token: the others end there, or attributes.
fn ends_something(kind: SyntaxKind) -> bool {
    matches!(
        kind,
        SyntaxKind::SEMICOLON | SyntaxKind::L_CURLY | SyntaxKind::R_CURLY | SyntaxKind::R_BRACK
    )
}
