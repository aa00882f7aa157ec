//! Why a facts file gives no rows.

use std::alloc::{AllocError, AllocFailed};
use thiserror::Error;

/// Why a facts file gives no rows.
#[derive(Clone, Copy, Debug, PartialEq, Eq, Error)]
pub enum RowsError {
    /// The bytes are no JSON.
    #[error("the facts are no JSON")]
    NotJson,
    /// A key, a value or a number has another form.
    #[error("the facts have another form")]
    Shape,
    /// Memory ran out.
    #[error("out of memory")]
    Memory,
}

impl From<AllocError> for RowsError {
    ghost use Rattle.std.specs.Prelude.{◌≡◌};
    ghost use Rattle.ssr_facts_rows.specs.declared.rows_error.RowsError.TheVariants as errors;

    ghost from_gives = { λ _ error. error ≡ errors.Memory };

    fn from(_: AllocError) -> RowsError {
        RowsError::Memory
    }
}

impl<T: Drop> From<AllocFailed<T>> for RowsError {
    ghost use Rattle.std.specs.Prelude.{◌≡◌};
    ghost use Rattle.ssr_facts_rows.specs.declared.rows_error.RowsError.TheVariants as errors;

    ghost from_gives = { λ _ error. error ≡ errors.Memory };

    fn from(_: AllocFailed<T>) -> RowsError {
        RowsError::Memory
    }
}
