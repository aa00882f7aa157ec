//! The files and expansions of a facts file, as a workspace is built of them. What rows have is moved.

ghost use Rattle.std.specs.Prelude.{◌≡◌, map, IfOk};
ghost use Rattle.ssr_facts_rows.specs.Sources.{plain_token, plain_expansion};
ghost use Rattle.ssr_facts.specs.Sources.{row_of_token, row_of_kind, row_of_expansion};

use ssr_base::Expansion;
use ssr_facts_rows::{ExpansionKindRow, ExpansionRow, ExpansionToken, FileRow};
use ssr_syntax::{ExpToken, ExpansionKind};
use std::alloc::{AllocError, Global};

/// The names of files, and their texts.
pub(crate) fn names_and_texts(
    alloc: Global,
    files: Vec<FileRow>,
) -> Result<(Vec<String>, Vec<String>), AllocError>
    ensures names { IfOk result (λ parts. parts.0.items ≡ map (λ file. file.name) files.items) }
    ensures texts { IfOk result (λ parts. parts.1.items ≡ map (λ file. file.text) files.items) }
{
    let mut names = Vec::with_capacity(alloc, files.len())?;
    let mut texts = Vec::with_capacity(alloc, files.len())?;
    for FileRow { name, text } in files {
        names.push(name)?;
        texts.push(text)?;
    }
    Ok((names, texts))
}

/// A token, as it is handed in.
fn token(row: ExpansionToken) -> ExpToken
    ensures { row_of_token result ≡ plain_token row }
{
    ExpToken {
        text: row.text,
        joint: row.joint,
        origin: row.origin,
    }
}

/// Tokens, as they are handed in.
fn tokens(alloc: Global, rows: Vec<ExpansionToken>) -> Result<Vec<ExpToken>, AllocError>
    ensures { IfOk result (λ tokens. map row_of_token tokens.items ≡ map plain_token rows.items) }
{
    let mut tokens = Vec::with_capacity(alloc, rows.len())?;
    for row in rows {
        tokens.push(token(row))?;
    }
    Ok(tokens)
}

/// What a macro call stands for.
fn kind(row: ExpansionKindRow) -> ExpansionKind
    ensures { row_of_kind result ≡ row }
{
    match row {
        ExpansionKindRow::Expr => ExpansionKind::Expr,
        ExpansionKindRow::Items => ExpansionKind::Items,
        ExpansionKindRow::Stmts => ExpansionKind::Stmts,
    }
}

/// An expansion, as it is handed in.
fn expansion(alloc: Global, row: ExpansionRow) -> Result<Expansion, AllocError>
    ensures { IfOk result (λ x. row_of_expansion x ≡ plain_expansion row) }
{
    Ok(Expansion {
        call: row.call,
        kind: kind(row.kind),
        tokens: tokens(alloc, row.tokens)?,
    })
}

/// Expansions, as they are handed in.
pub(crate) fn expansions(
    alloc: Global,
    rows: Vec<ExpansionRow>,
) -> Result<Vec<Expansion>, AllocError>
    ensures { IfOk result (λ xs. map row_of_expansion xs.items ≡ map plain_expansion rows.items) }
{
    let mut expansions = Vec::with_capacity(alloc, rows.len())?;
    for row in rows {
        expansions.push(expansion(alloc, row)?)?;
    }
    Ok(expansions)
}
