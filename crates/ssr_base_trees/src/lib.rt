//! The trees of a workspace, edits of a text, and what a provider tells of names and types: plain values that the crates
//! of search and replace share, whatever the grammar of the trees.
#![tactic(auto)]

mod covers;
mod edit;
mod ids;
pub mod laws;
mod semantics;
mod trees;

pub use covers::Cover;
pub use edit::{ApplyError, TextEdit};
pub use ids::{DefId, FileId, FilePosition, FileRange, NodeId, ScopeId, TokenRun, TypeId};
pub use semantics::{DefInfo, DefKind, Res, SelfKind, Semantics};
pub use trees::Trees;
