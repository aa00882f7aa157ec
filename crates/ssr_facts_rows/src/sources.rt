//! Files, and what macro calls in them stand for.

ghost use Rattle.std.specs.Prelude.{Option};
ghost use Rattle.serde_json.specs.View.{view};
ghost use Rattle.ssr_base_trees.specs.Origins.{plain_origin};
ghost use Rattle.ssr_facts_rows.specs.Private.Answers.{Gives};
ghost use Rattle.ssr_facts_rows.specs.Sources.{plain_token, token};

use crate::fields::{has_only, items, text};
use crate::from_json::{FromJson, required};
use crate::places::span;
use crate::rows_error::RowsError;
use serde_json::Value;
use ssr_syntax_kinds::TextRange;
use std::alloc::Global;

/// A file.
#[derive(Debug, Drop)]
pub struct FileRow {
    pub name: String,
    pub text: String,
}

/// A token of an expansion, and whence in the file at the top it comes, if from there.
#[derive(Debug, Drop)]
pub struct ExpansionToken {
    pub text: String,
    /// Whether the next token follows with nothing in between.
    pub joint: bool,
    pub origin: Option<TextRange>,
}

/// What a macro call stands for.
#[derive(Clone, Copy, Debug)]
pub enum ExpansionKindRow {
    Expr,
    Items,
    Stmts,
}

/// A macro call, and the tokens that it stands for.
#[derive(Debug, Drop)]
pub struct ExpansionRow {
    /// The tree of the call, and the call's range in it.
    pub call: (u32, TextRange),
    pub kind: ExpansionKindRow,
    pub tokens: Vec<ExpansionToken>,
}

impl FromJson for FileRow {
    ghost use Rattle.ssr_facts_rows.specs.Sources.{PlainFile, plain_file, file_row};

    ghost Plain = { PlainFile };

    ghost plain = { plain_file };

    ghost reading = { file_row };

    fn from_json(alloc: Global, value: &Value) -> Result<FileRow, RowsError> {
        has_only(&["name", "text"], value)?;
        Ok(FileRow {
            name: required(alloc, value, "name")?,
            text: required(alloc, value, "text")?,
        })
    }
}

/// A token of an expansion, by the parts of its row.
fn token(
    alloc: Global,
    text: &Value,
    joint: &Value,
    origin: Option<TextRange>,
) -> Result<ExpansionToken, RowsError>
    ensures { Gives plain_token (token (view text.now) (view joint.now) (plain_origin origin)) result }
{
    Ok(ExpansionToken {
        text: String::from_json(alloc, text)?,
        joint: bool::from_json(alloc, joint)?,
        origin,
    })
}

impl FromJson for ExpansionToken {
    ghost use Rattle.ssr_facts_rows.specs.Sources.{PlainToken, plain_token, token_row};

    ghost Plain = { PlainToken };

    ghost plain = { plain_token };

    ghost reading = { token_row };

    fn from_json(alloc: Global, value: &Value) -> Result<ExpansionToken, RowsError> {
        match items(value)? {
            [text, joint] => token(alloc, text, joint, None),
            [text, joint, start, end] => {
                let origin = span(alloc, start, end)?;
                token(alloc, text, joint, Some(origin))
            }
            _ => Err(RowsError::Shape),
        }
    }
}

impl FromJson for ExpansionKindRow {
    ghost use Rattle.ssr_facts_rows.specs.declared.sources.ExpansionKindRow.{ExpansionKindRow};
    ghost use Rattle.ssr_facts_rows.specs.Sources.{expansion_kind};

    ghost Plain = { ExpansionKindRow };

    ghost plain = { λ kind. kind };

    ghost reading = { expansion_kind };

    fn from_json(_alloc: Global, value: &Value) -> Result<ExpansionKindRow, RowsError> {
        match text(value)? {
            "expr" => Ok(ExpansionKindRow::Expr),
            "items" => Ok(ExpansionKindRow::Items),
            "stmts" => Ok(ExpansionKindRow::Stmts),
            _ => Err(RowsError::Shape),
        }
    }
}

impl FromJson for ExpansionRow {
    ghost use Rattle.ssr_facts_rows.specs.Sources.{PlainExpansion, plain_expansion, expansion_row};

    ghost Plain = { PlainExpansion };

    ghost plain = { plain_expansion };

    ghost reading = { expansion_row };

    fn from_json(alloc: Global, value: &Value) -> Result<ExpansionRow, RowsError> {
        has_only(&["call", "kind", "tokens"], value)?;
        Ok(ExpansionRow {
            call: required(alloc, value, "call")?,
            kind: required(alloc, value, "kind")?,
            tokens: required(alloc, value, "tokens")?,
        })
    }
}
