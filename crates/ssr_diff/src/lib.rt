//! Unified diffs: what `diff -u` writes of a file's text before and after an edit, and `git apply` takes.
#![tactic(auto)]

mod cuts;
mod diff;
mod hunks;
mod lines;
mod names;
mod places;
mod trimming;
mod writing;

pub use diff::{diff_between, unified_diff};
pub use lines::Lines;
pub use names::quoted;
