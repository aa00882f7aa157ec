//! Rewriting: what is written for matches, and the edits of the files.
#![tactic(auto)]

mod clashes;
mod comments;
mod editing;
mod files;
mod fitting;
pub mod laws;
mod piece;
mod prefixes;
mod printing;
mod rendering;
mod replacements;
mod writer;

pub use comments::{kept_comments, push_comments};
pub use editing::{EditError, edits};
pub use replacements::push_kept;
