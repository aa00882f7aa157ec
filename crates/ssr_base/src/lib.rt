//! The workspace of a search: trees of files, and of what macro calls in them stand for, read of their texts. What the
//! crates of search and replace share beside it stands in `ssr_base_trees`, and is shown here too.
#![tactic(auto)]

mod building;
mod editing;
pub mod laws;
mod workspace;
mod workspace_error;

pub use building::{Expansion, MOST_NESTED, MOST_TREES};
pub use editing::edited;
pub use ssr_base_trees::{
    ApplyError, DefId, DefInfo, DefKind, FileId, FilePosition, FileRange, NodeId, Res, ScopeId,
    SelfKind, Semantics, TextEdit, TokenRun, TypeId,
};
pub use workspace::Workspace;
pub use workspace_error::WorkspaceError;
