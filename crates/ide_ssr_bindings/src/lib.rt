//! What a search finds: matches, and what their placeholders hold.
#![tactic(auto)]

mod bindings;
mod found;
mod receivers;

pub use bindings::{Binding, Held};
pub use found::FoundMatch;
pub use receivers::Receiver;
