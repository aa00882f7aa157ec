//! Search: where rules are tried, when they match as a whole, and all matches of a workspace, found by trying every node.
#![tactic(auto)]

mod bounds;
mod context;
mod context_error;
mod known_tree;
pub mod laws;
mod permitted;
mod positions;
mod printing;
mod roots;
mod scan;
mod whole;
mod words;

pub use context::Context;
pub use context_error::ContextError;
pub use permitted::{is_searched, names_self, shuts};
pub use scan::{Wanted, find_matches, find_wanted};
pub use whole::match_whole;
