//! The error of a rule that is refused.
ghost use Rattle.std.specs.Prelude.{Some};
ghost use Rattle.ide_ssr_refusals.specs.declared.error.SsrError.TheVariants as errors;

use std::alloc::{AllocError, AllocFailed};
use std::error::Error;
use std::fmt;

/// Why a rule is refused.
#[derive(Debug, PartialEq, Drop)]
pub enum SsrError {
    /// The rule's fault, in words for a user.
    Message(String),
    /// Memory ran out.
    Memory,
}

impl fmt::Display for SsrError {
    ghost use Rattle.ide_ssr_refusals.specs.Refusals.{shown};

    ghost output = { λ error. Some (shown error) };

    fn fmt<W: fmt::Write>(&self, f: &mut fmt::Formatter<W>) -> fmt::Result {
        match self {
            SsrError::Message(message) => write!(f, "Parse error: {message}"),
            SsrError::Memory => f.write_str("out of memory"),
        }
    }
}

impl Error for SsrError {}

impl From<AllocError> for SsrError {
    ghost use Rattle.std.specs.Prelude.{◌≡◌};

    ghost from_gives = { λ _ error. error ≡ errors.Memory };

    fn from(_: AllocError) -> SsrError {
        SsrError::Memory
    }
}

impl<T: Drop> From<AllocFailed<T>> for SsrError {
    ghost use Rattle.std.specs.Prelude.{◌≡◌};

    ghost from_gives = { λ _ error. error ≡ errors.Memory };

    fn from(_: AllocFailed<T>) -> SsrError {
        SsrError::Memory
    }
}
