//! How matches lie to each other: the order of the nodes of a workspace, which of the matches that are found are kept, and what
//! holds them.
#![tactic(auto)]

mod holders;
mod kept;
mod kept_matches;
pub mod laws;
mod lists;
mod order;
mod sorting;

pub use holders::Holder;
pub use kept::holds_own_node;
pub use kept_matches::{KeptMatches, keep};
pub use lists::Lists;
pub use order::{is_above, precedes};
