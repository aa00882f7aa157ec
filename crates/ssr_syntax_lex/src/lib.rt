//! Raw tokens of Rust texts: the lexer.
#![tactic(auto)]

mod characters;
mod cursor;
mod fault;
pub mod laws;
mod numbers;
mod raw;
mod scan;
mod tokens;
mod words;

pub use ssr_syntax_kinds::{SyntaxKind, TextRange, TokenRow, TokenRows};
pub use tokens::{LexError, LexFault, RawToken, lex, lex_rows};
