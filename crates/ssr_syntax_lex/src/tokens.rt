//! The raw tokens of a text.

ghost use Rattle.std.specs.Prelude.{◌≡◌, ◌+◌, ◌<◌, ◌^◌, length, option_to_list, IfOk};
ghost use Rattle.ssr_syntax_lex.specs.Tokens as spec;
ghost use Rattle.ssr_syntax_lex.specs.Private.Steps.{token_before, tokens_of};

use crate::cursor::Cursor;
use crate::fault::FaultKind;
use crate::raw::eat_token;
use crate::words::is_punctuation;
use ssr_syntax_kinds::{SyntaxKind, TextRange, TokenRow, TokenRows};
use std::alloc::{AllocError, AllocFailed, Global};
use std::fmt;

/// A raw token: its kind, its bytes in the text, and whether punctuation follows it directly.
#[derive(Clone, Copy, Debug, PartialEq, Eq)]
pub struct RawToken {
    pub kind: SyntaxKind,
    pub range: TextRange,
    pub joint: bool,
}

/// The first place of a text where there is no token. Its `Display` says what is wrong there.
#[derive(Clone, Copy, Debug, PartialEq, Eq)]
pub struct LexFault {
    kind: FaultKind,
    /// The byte of the text where the token would begin.
    start: u32,
}

/// Why a text has no raw tokens.
#[derive(Clone, Copy, Debug, PartialEq, Eq)]
pub enum LexError {
    /// The text has 2^32 bytes or more.
    TooLong,
    /// There is something in the text that is no token.
    Fault(LexFault),
    /// Memory ran out.
    Memory,
}

impl From<AllocError> for LexError {
    ghost use Rattle.ssr_syntax_lex.specs.declared.tokens.LexError.TheVariants.{Memory};

    ghost from_gives = { λ _ e. e ≡ Memory };

    fn from(_: AllocError) -> LexError {
        LexError::Memory
    }
}

impl<T: Drop> From<AllocFailed<T>> for LexError {
    ghost use Rattle.ssr_syntax_lex.specs.declared.tokens.LexError.TheVariants.{Memory};

    ghost from_gives = { λ _ e. e ≡ Memory };

    fn from(_: AllocFailed<T>) -> LexError {
        LexError::Memory
    }
}

impl fmt::Display for LexFault {
    ghost use Rattle.std.specs.Prelude.{Some};
    ghost use Rattle.ssr_syntax_lex.specs.Fault.{fault_words};

    ghost output = { λ fault. Some (fault_words fault) };

    fn fmt<W: fmt::Write>(&self, f: &mut fmt::Formatter<W>) -> fmt::Result {
        write!(f, "{}, at byte {}", self.kind, self.start)
    }
}

impl fmt::Display for LexError {
    ghost use Rattle.std.specs.Prelude.{Some};
    ghost use Rattle.ssr_syntax_lex.specs.Fault.{error_words};

    ghost output = { λ error. Some (error_words error) };

    fn fmt<W: fmt::Write>(&self, f: &mut fmt::Formatter<W>) -> fmt::Result {
        match self {
            LexError::TooLong => f.write_str("text too long"),
            LexError::Fault(fault) => fault.fmt(f),
            LexError::Memory => f.write_str("out of memory"),
        }
    }
}

/// The raw tokens of a text, in order. They cover the text without a gap.
pub fn lex(alloc: Global, text: &str) -> Result<Vec<RawToken>, LexError>
    ensures value { spec.Lexes result text.now }
    ensures fault { spec.TellsFault result text.now }
    ensures tiles { IfOk result (λ v. spec.Tiles text.now v.items) }
    ensures spelled { IfOk result (λ v. spec.spell text.now v.items ≡ text.now) }
{
    let rows = lex_rows(alloc, text)?;
    Ok(raw_tokens(alloc, &rows, text.len() as u32)?)
}

/// The rows of a text's raw tokens, in order. They say all of these: a token ends where the next one begins, and is
/// joint if that one is punctuation.
pub fn lex_rows(alloc: Global, text: &str) -> Result<TokenRows, LexError>
    ensures value { spec.LexesRows result text.now }
    ensures fault { spec.TellsFault result text.now }
{
    if text.len() > u32::MAX as usize {
        return Err(LexError::TooLong);
    }
    cut(alloc, text)
}

/// Cuts a text into its tokens, from the front to its end.
fn cut(alloc: Global, text: &str) -> Result<TokenRows, LexError>
    requires { length text.now < 2 ^ 32 }
    ensures value { spec.LexesRows result text.now }
    ensures fault { spec.TellsFault result text.now }
{
    let mut cursor = Cursor::new(text);
    let total = cursor.len();
    // A token has a byte at least, so there is room for all of them. Room that isn't written to takes no memory.
    let mut kinds = Vec::with_capacity(alloc, total)?;
    let mut starts = Vec::with_capacity(alloc, total)?;
    let mut start = 0u32;
    let mut dots = 0u32;
    while !cursor.is_empty() {
        let kind = match eat_token(&mut cursor, dots) {
            Ok(kind) => kind,
            Err(kind) => return Err(LexError::Fault(LexFault { kind, start })),
        };
        kinds.push_reserved(kind);
        starts.push_reserved(start);
        dots = dots_behind(dots, kind);
        start = (total - cursor.len()) as u32;
    }
    Ok(TokenRows::from_columns(kinds, starts))
}

/// The raw tokens of rows, of which the last one ends at the byte `total`.
fn raw_tokens(alloc: Global, rows: &TokenRows, total: u32) -> Result<Vec<RawToken>, AllocError>
    ensures { IfOk result (λ v. v.items ≡ tokens_of total rows.now) }
{
    let mut tokens = Vec::with_capacity(alloc, rows.len())?;
    let mut number = 0;
    while let Some(row) = rows.get(number) {
        number += 1;
        tokens.push(raw_token(row, rows.get(number), total))?;
    }
    Ok(tokens)
}

/// The token of a row in front of the next one, or of the end of the text at the byte `total`.
fn raw_token(row: TokenRow, next: Option<TokenRow>, total: u32) -> RawToken
    ensures { result ≡ token_before total row (option_to_list next) }
{
    let (end, joint) = match next {
        Some(next) => (next.start, is_punctuation(next.kind)),
        None => (total, false),
    };
    RawToken {
        kind: row.kind,
        range: TextRange::new(row.start, row.start.max(end)),
        joint,
    }
}

/// How many `.` stand directly before what follows a token of this kind.
fn dots_behind(dots: u32, kind: SyntaxKind) -> u32
    requires { dots + 1 < 2 ^ 32 }
    ensures { result ≡ spec.dots_behind dots kind }
{
    if kind == SyntaxKind::DOT { dots + 1 } else { 0 }
}
