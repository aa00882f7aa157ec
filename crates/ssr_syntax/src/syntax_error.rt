//! The error of the calls that read a text.

use ssr_syntax_forms::Fault;
use std::alloc::{AllocError, AllocFailed};

/// Why a text has no syntax tree.
#[derive(Debug, Clone, Copy, PartialEq, Eq, Drop)]
pub enum SyntaxError {
    /// Some of the text is no token.
    Lex,
    /// The tokens aren't those of a tree, or a text that is handed in as one token is several or none.
    NoTree,
    /// The tree's deepest node would have more than 1,024 nodes above it, or the text is nested so deeply that it was read
    /// no further, and may have no tree.
    TooDeep,
    /// The text isn't shorter than 2^32 bytes.
    TooLong,
    /// There is not enough memory, or there would be more nodes than are numbered.
    Memory,
}

impl From<AllocError> for SyntaxError {
    ghost use Rattle.std.specs.Prelude.{◌≡◌};
    ghost use Rattle.ssr_syntax.specs.declared.syntax_error.SyntaxError.TheVariants.{Memory};

    ghost from_gives = { λ _ e. e ≡ Memory };

    fn from(_error: AllocError) -> SyntaxError {
        SyntaxError::Memory
    }
}

impl<T: Drop> From<AllocFailed<T>> for SyntaxError {
    ghost use Rattle.std.specs.Prelude.{◌≡◌};
    ghost use Rattle.ssr_syntax.specs.declared.syntax_error.SyntaxError.TheVariants.{Memory};

    ghost from_gives = { λ _ e. e ≡ Memory };

    fn from(_error: AllocFailed<T>) -> SyntaxError {
        SyntaxError::Memory
    }
}

impl From<Fault> for SyntaxError {
    ghost use Rattle.std.specs.Prelude.{◌≡◌};
    ghost use Rattle.ssr_syntax.specs.Reading.{error_of};

    ghost from_gives = { λ fault error. error ≡ error_of fault };

    fn from(fault: Fault) -> SyntaxError {
        match fault {
            Fault::NoTree => SyntaxError::NoTree,
            Fault::TooDeep => SyntaxError::TooDeep,
            Fault::Memory => SyntaxError::Memory,
        }
    }
}
