//! Why there is no workspace.

use ssr_syntax::SyntaxError;
use std::alloc::{AllocError, AllocFailed};
use thiserror::Error;

/// Why there is no workspace. Files and expansions are counted from 0.
#[derive(Clone, Copy, Debug, PartialEq, Eq, Error)]
pub enum WorkspaceError {
    /// There are more than 65,536 files and expansions.
    #[error("too many trees")]
    TooManyTrees,
    /// The file has no syntax tree.
    #[error("file {0} has no syntax tree: {1:?}")]
    File(u32, SyntaxError),
    /// What the expansion names is no macro call of an earlier tree, or has an expansion already.
    #[error("expansion {0} is of no macro call")]
    Call(u32),
    /// The expansion is nested more than 32 calls deep.
    #[error("expansion {0} is nested too deeply")]
    Nested(u32),
    /// An origin of the expansion is empty, or doesn't lie between characters of the file at the top.
    #[error("a token of expansion {0} has no such origin")]
    Origin(u32),
    /// The expansion has no syntax tree.
    #[error("expansion {0} has no syntax tree: {1:?}")]
    Expansion(u32, SyntaxError),
    /// Memory ran out.
    #[error("out of memory")]
    Memory,
}

impl From<AllocError> for WorkspaceError {
    ghost use Rattle.std.specs.Prelude.{◌≡◌};
    ghost use Rattle.ssr_base.specs.declared.workspace_error.WorkspaceError.TheVariants as errors;

    ghost from_gives = { λ _ error. error ≡ errors.Memory };

    fn from(_: AllocError) -> WorkspaceError {
        WorkspaceError::Memory
    }
}

impl<T: Drop> From<AllocFailed<T>> for WorkspaceError {
    ghost use Rattle.std.specs.Prelude.{◌≡◌};
    ghost use Rattle.ssr_base.specs.declared.workspace_error.WorkspaceError.TheVariants as errors;

    ghost from_gives = { λ _ error. error ≡ errors.Memory };

    fn from(_: AllocFailed<T>) -> WorkspaceError {
        WorkspaceError::Memory
    }
}
