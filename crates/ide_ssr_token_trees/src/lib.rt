//! Token trees: whether one of the code matches one of a pattern, and what the placeholders hold then.
#![tactic(auto)]

mod elements;
pub mod laws;
mod matching;
mod pattern_iterator;
mod recording;
mod siblings;

pub use elements::{closes, is_trivia, tokens_match};
pub use matching::match_token_trees;
pub use pattern_iterator::PatternIterator;
pub use recording::Record;
