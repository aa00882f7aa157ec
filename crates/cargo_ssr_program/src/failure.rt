//! Why a run ends without what it is asked for.

use std::alloc::{AllocError, AllocFailed};

/// Why a run ends without what it is asked for.
#[derive(Debug, Drop)]
pub(crate) enum Failure {
    /// For this reason.
    Told(String),
    /// A rule is refused, by its number among all rules, for this reason.
    Rule(usize, String),
    /// Standard output takes no more.
    Output,
    /// Nobody reads standard output any more.
    Closed,
    /// Memory ran out.
    Memory,
}

impl Failure {
    /// What is told of it.
    pub(crate) fn words(&self) -> &str {
        match self {
            Failure::Told(words) | Failure::Rule(_, words) => words.as_str(),
            Failure::Output => "standard output can't be written",
            Failure::Closed => "nobody reads standard output any more",
            Failure::Memory => "out of memory",
        }
    }
}

impl From<AllocError> for Failure {
    fn from(_: AllocError) -> Failure {
        Failure::Memory
    }
}

impl<T: Drop> From<AllocFailed<T>> for Failure {
    fn from(_: AllocFailed<T>) -> Failure {
        Failure::Memory
    }
}
