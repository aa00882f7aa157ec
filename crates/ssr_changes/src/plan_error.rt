//! Why there is no plan.

use std::alloc::{AllocError, AllocFailed};
use thiserror::Error;

/// Why there is no plan. The number is that of a file whose text changes.
#[derive(Debug, PartialEq, Eq, Drop, Error)]
pub enum PlanError {
    /// Its name leads out of the folder.
    #[error("outside of the folder")]
    Outside(usize),
    /// Its name leads below the folder `target`.
    #[error("below target")]
    BelowTarget(usize),
    /// In front of it stands a change of a file with the same name.
    #[error("comes twice")]
    Twice(usize),
    /// Memory ran out.
    #[error("out of memory")]
    Memory,
}

impl From<AllocError> for PlanError {
    ghost use Rattle.std.specs.Prelude.{◌≡◌};
    ghost use Rattle.ssr_changes.specs.declared.plan_error.PlanError.TheVariants as errors;

    ghost from_gives = { λ _ error. error ≡ errors.Memory };

    fn from(_: AllocError) -> PlanError {
        PlanError::Memory
    }
}

impl<T: Drop> From<AllocFailed<T>> for PlanError {
    ghost use Rattle.std.specs.Prelude.{◌≡◌};
    ghost use Rattle.ssr_changes.specs.declared.plan_error.PlanError.TheVariants as errors;

    ghost from_gives = { λ _ error. error ≡ errors.Memory };

    fn from(_: AllocFailed<T>) -> PlanError {
        PlanError::Memory
    }
}
