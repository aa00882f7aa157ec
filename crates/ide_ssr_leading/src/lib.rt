//! The search that is led by usages: which path of a pattern leads it, where the usages of that path lead, and that nothing is
//! missed so.
#![tactic(auto)]

mod find;
pub mod laws;
mod led;
mod led_rules;
mod named;
mod reached;
mod usages;

pub use find::find_led;
pub use led::{led_to, picked_path};
