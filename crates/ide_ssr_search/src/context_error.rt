//! Why there is nothing to make a search for.

use std::alloc::{AllocError, AllocFailed};
use std::error::Error;
use std::fmt;

/// Why a search can't be made at a position.
#[derive(Clone, Copy, Debug, PartialEq, Eq)]
pub enum ContextError {
    /// There is no file of the position's or a restriction's number.
    NoSuchFile,
    /// The position is past the end of its file.
    NoSuchPosition,
    /// The node of the position stands in no scope.
    NoScope,
    /// There is no first file.
    NoFiles,
    /// Memory ran out.
    Memory,
}

impl fmt::Display for ContextError {
    ghost use Rattle.std.specs.Prelude.{Some};
    ghost use Rattle.ide_ssr_search.specs.Making.{error_words};

    ghost output = { λ error. Some (error_words error) };

    fn fmt<W: fmt::Write>(&self, f: &mut fmt::Formatter<W>) -> fmt::Result {
        f.write_str(match self {
            ContextError::NoSuchFile => "No such file",
            ContextError::NoSuchPosition => "No such position",
            ContextError::NoScope => "no resolution scope for file",
            ContextError::NoFiles => "No files to search",
            ContextError::Memory => "out of memory",
        })
    }
}

impl Error for ContextError {}

impl From<AllocError> for ContextError {
    ghost use Rattle.std.specs.Prelude.{◌≡◌};
    ghost use Rattle.ide_ssr_search.specs.declared.context_error.ContextError.TheVariants as errors;

    ghost from_gives = { λ _ error. error ≡ errors.Memory };

    fn from(_: AllocError) -> ContextError {
        ContextError::Memory
    }
}

impl<T: Drop> From<AllocFailed<T>> for ContextError {
    ghost use Rattle.std.specs.Prelude.{◌≡◌};
    ghost use Rattle.ide_ssr_search.specs.declared.context_error.ContextError.TheVariants as errors;

    ghost from_gives = { λ _ error. error ≡ errors.Memory };

    fn from(_: AllocFailed<T>) -> ContextError {
        ContextError::Memory
    }
}
