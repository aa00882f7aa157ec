//! How an editor or a lint engine calls the libraries: what the page `docs/EMBEDDING.md` quotes.
#![tactic(auto)]

mod by_facts;
mod error;
mod listing;
mod one_function;
mod rewriting;

pub use by_facts::edits_by_facts;
pub use error::UseError;
pub use listing::{Finding, findings};
pub use one_function::{OneFunction, paths_spelled};
pub use rewriting::{edits, new_text};

#[cfg(test)]
mod tests;
