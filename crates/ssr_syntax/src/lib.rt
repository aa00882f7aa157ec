//! The grammar of Rust texts, and the parser.
#![tactic(auto)]

mod expansions;
mod fitting;
mod fragment_text;
mod fragments;
mod grammar;
pub mod laws;
mod reading;
mod syntax_error;

pub use expansions::{ExpToken, ExpansionKind, parse_tokens, parse_tokens_of};
pub use fitting::{
    fits_file, fits_file_of, fits_fragment, fits_fragment_of, fits_tokens, fits_tokens_of,
};
pub use fragment_text::FragmentText;
pub use reading::{
    fragment, fragment_of, parse_file, parse_file_of, parse_file_owned, parse_file_owned_of,
};
pub use ssr_syntax_kinds::{Fragment, Reach, SyntaxKind, TextRange};
pub use ssr_syntax_lex::{LexError, LexFault, RawToken, lex};
pub use ssr_syntax_tree::{Element, NodeNo, TokenNo, Tree};
pub use syntax_error::SyntaxError;
