//! What can be in the way.

use ide_ssr::{EditError, SsrError};
use ssr_facts::FactsError;
use std::alloc::AllocError;
use thiserror::Error;

/// Why there is no answer.
#[derive(Debug, Drop, Error)]
pub enum UseError {
    /// The facts file gives no facts.
    #[error("{0}")]
    Facts(#[from] FactsError),
    /// The rule is refused, or there is nothing to search.
    #[error("{0}")]
    Rule(#[from] SsrError),
    /// The matches have no edits.
    #[error("{0}")]
    Edits(#[from] EditError),
    /// Memory ran out.
    #[error("out of memory")]
    Memory(#[from] AllocError),
}
