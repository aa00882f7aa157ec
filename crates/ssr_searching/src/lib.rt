//! A search for rules in a workspace: from their texts to the edits that it comes to, or to why it comes to none.
#![tactic(auto)]

mod searching;
mod unresolved;

pub use searching::{Place, SearchError, edits, edits_once};
pub use unresolved::Unresolved;
