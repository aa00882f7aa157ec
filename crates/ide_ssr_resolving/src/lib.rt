//! What the paths of a tree resolve to, as a provider tells it: used paths, qualified calls and eligible paths.
#![tactic(auto)]

mod eligible;
mod keys;
mod paths;
mod qualified_calls;
mod resolving;
mod stand_ins;
mod used;

pub use eligible::eligible_paths;
pub use keys::key_of;
pub use qualified_calls::qualified_calls_of;
pub use resolving::resolution;
pub use used::{Unresolved, has_to_resolve, used_paths};
