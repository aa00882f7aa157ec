//! The parser's state, and what a grammar is as data: forms, what fits them, and how they are read.
#![tactic(auto)]

mod fault;
pub mod laws;
mod parser;
mod places;
mod rows;
mod tokens;

pub use fault::Fault;
pub use parser::{Mark, Parser};
pub use rows::{Joined, Output};
pub use tokens::{END, Token, TokenSet};
