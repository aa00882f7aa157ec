//! The tokens of texts.

use crate::lists::separator;
use crate::told::Told;
use anyhow::{Result, bail};
use ssr_facts_rows::{ExpansionToken, read_rows};
use ssr_syntax::{ExpToken, RawToken, lex};
use ssr_syntax_kinds::TextRange;
use std::alloc::{AllocError, Global};

/// The tokens of a text, or why it has none.
pub(crate) fn write_tokens(alloc: Global, out: &mut Told, text: &str) {
    match lex(alloc, text) {
        Ok(tokens) => write_each(out, text, &tokens),
        Err(error) => {
            out.shown(&error);
            out.text("\n");
        }
    }
}

/// Each token with its text, and which are joint.
fn write_each(out: &mut Told, text: &str, tokens: &[RawToken]) {
    for (number, token) in tokens.iter().enumerate() {
        out.text(separator(number, ", "));
        out.debug(&token.kind);
        out.text(" ");
        out.quoted(text_in(text, token.range));
        if token.joint {
            out.text(" joint");
        }
    }
    out.text("\n");
}

/// The text in a range of another one.
fn text_in(text: &str, range: TextRange) -> &str {
    let bytes = range.start as usize..range.end as usize;
    text.get(bytes).unwrap_or("")
}

/// A token as a macro call gets it, of no origin.
fn token_of(alloc: Global, text: &str, joint: bool) -> Result<ExpToken, AllocError> {
    Ok(ExpToken {
        text: String::from_str(alloc, text)?,
        joint,
        origin: None,
    })
}

/// The tokens of a text as a macro call gets them: without white space and comments.
pub(crate) fn solid_tokens(alloc: Global, text: &str) -> Result<Vec<ExpToken>> {
    match lex(alloc, text) {
        Ok(raw) => Ok(solid(alloc, text, &raw)?),
        Err(error) => bail!("{error}"),
    }
}

fn solid(alloc: Global, text: &str, raw: &[RawToken]) -> Result<Vec<ExpToken>, AllocError> {
    let mut tokens = Vec::new(alloc);
    for token in raw {
        if !token.kind.is_trivia() {
            tokens.push(token_of(alloc, text_in(text, token.range), token.joint)?)?;
        }
    }
    Ok(tokens)
}

/// Tokens as facts tell them, without their origins.
pub(crate) fn told_tokens(alloc: Global, told: &str) -> Result<Vec<ExpToken>> {
    let facts = expansion(alloc, told)?;
    let rows = read_rows(alloc, facts.as_str().as_bytes())?;
    match rows.expansions.first() {
        Some(expansion) => Ok(tokens_of(alloc, &expansion.tokens)?),
        None => Ok(Vec::new(alloc)),
    }
}

/// A facts file with one macro call, which stands for these tokens.
fn expansion(alloc: Global, told: &str) -> Result<String, AllocError> {
    format!(in alloc;
        "{{\"expansions\":[{{\"call\":[0,0,0],\"kind\":\"expr\",\"tokens\":[{told}]}}]}}"
    )
}

fn tokens_of(alloc: Global, told: &[ExpansionToken]) -> Result<Vec<ExpToken>, AllocError> {
    let mut tokens = Vec::new(alloc);
    for token in told {
        tokens.push(token_of(alloc, token.text.as_str(), token.joint)?)?;
    }
    Ok(tokens)
}
