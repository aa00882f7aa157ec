//! Why a facts file gives no facts.

use ssr_base::WorkspaceError;
use ssr_facts_rows::RowsError;
use std::alloc::{AllocError, AllocFailed};
use thiserror::Error;

/// Why a facts file gives no facts.
#[derive(Clone, Copy, Debug, PartialEq, Eq, Error)]
pub enum FactsError {
    /// The bytes are no JSON.
    #[error("not JSON")]
    NotJson,
    /// A key, a value or a number has another form, a number names nothing, or a row no such node.
    #[error("wrong shape")]
    Shape,
    /// There is no workspace of the files and expansions.
    #[error("{0}")]
    Workspace(WorkspaceError),
    /// Memory ran out.
    #[error("out of memory")]
    Memory,
}

impl From<AllocError> for FactsError {
    ghost use Rattle.std.specs.Prelude.{◌≡◌};
    ghost use Rattle.ssr_facts.specs.declared.facts_error.FactsError.TheVariants as errors;

    ghost from_gives = { λ _ error. error ≡ errors.Memory };

    fn from(_: AllocError) -> FactsError {
        FactsError::Memory
    }
}

impl<T: Drop> From<AllocFailed<T>> for FactsError {
    ghost use Rattle.std.specs.Prelude.{◌≡◌};
    ghost use Rattle.ssr_facts.specs.declared.facts_error.FactsError.TheVariants as errors;

    ghost from_gives = { λ _ error. error ≡ errors.Memory };

    fn from(_: AllocFailed<T>) -> FactsError {
        FactsError::Memory
    }
}

impl From<RowsError> for FactsError {
    ghost use Rattle.std.specs.Prelude.{◌≡◌};
    ghost use Rattle.ssr_facts.specs.Errors.{error_of_rows};

    ghost from_gives = { λ refused error. error ≡ error_of_rows refused };

    fn from(refused: RowsError) -> FactsError {
        match refused {
            RowsError::NotJson => FactsError::NotJson,
            RowsError::Shape => FactsError::Shape,
            RowsError::Memory => FactsError::Memory,
        }
    }
}
