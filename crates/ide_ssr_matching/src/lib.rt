//! Matching: whether a node of code has the shape of a rule's pattern, and what the placeholders hold then.
#![tactic(auto)]

mod calls;
mod child_nodes;
mod children;
pub mod laws;
mod matcher;
mod matching;
mod records;
mod token_trees;
mod tries;

pub use matching::match_node;
pub use tries::Tries;
