//! The kinds of tokens and nodes, ranges of bytes, and the rows of a text's tokens.
#![tactic(auto)]

mod fragment;
mod kinds;
mod range;
mod reach;
mod token_rows;

pub use fragment::Fragment;
pub use kinds::SyntaxKind;
pub use range::TextRange;
pub use reach::Reach;
pub use token_rows::{TokenRow, TokenRows};
