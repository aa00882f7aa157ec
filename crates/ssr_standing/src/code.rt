//! Where the code of a text ends, and the text with its code in parentheses.
ghost use Rattle.std.specs.Prelude.{◌≡◌, IfOk, IsCharBoundary, string_bytes};
ghost use Rattle.ssr_standing.specs.Code.{code_end, end_of_last, parenthesized};

use ssr_syntax_lex::{LexError, RawToken, lex};
use std::alloc::{AllocError, Global};

/// The end of the last token that is neither white space nor a comment; 0, where all are.
fn end_of_last(tokens: &[RawToken]) -> u32
    ensures { result ≡ end_of_last 0 tokens.now }
{
    let mut end = 0;
    for token in tokens {
        if !token.kind.is_trivia() {
            end = token.range.end;
        }
    }
    end
}

/// Where the code of a text ends: in front of the white space and the comments at its end. A text that isn't cut into tokens is code to
/// its end.
fn code_end(alloc: Global, text: &str) -> Result<usize, AllocError>
    ensures end { IfOk result (λ end. end ≡ code_end text.now) }
    ensures boundary { IfOk result (λ end. IsCharBoundary text.now end) }
{
    match lex(alloc, text) {
        Ok(tokens) => Ok(end_of_last(&tokens) as usize),
        Err(LexError::Memory) => Err(AllocError),
        Err(LexError::Fault(_)) => Ok(text.len()),
        Err(LexError::TooLong) => Ok(text.len()),
    }
}

/// A text with its code in parentheses: the white space and the comments at its end stay behind them.
pub fn in_parentheses(alloc: Global, text: &str) -> Result<String, AllocError>
    ensures { IfOk result (λ new. string_bytes new ≡ parenthesized text.now) }
{
    let end = code_end(alloc, text)?;
    let code = &text[..end];
    let behind = &text[end..];
    format!(in alloc; "({code}){behind}")
}
