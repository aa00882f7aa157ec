//! The tree of a file with its edit made: whether it is the tree that was there, with what was written in the places of the matches.
#![tactic(auto)]

mod edited;
mod expected;

pub use edited::{EditedError, edited_tree};
