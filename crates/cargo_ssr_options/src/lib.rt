//! What the words of the command `cargo ssr` say: what a run does, with which rules, in which files. Also what a file of rules
//! says, and what a place FILE:LINE:COLUMN names.
#![tactic(auto)]

mod command;
mod given;
mod options;
mod place;
mod rules_file;

pub use command::read_options;
pub use given::{Given, Mismatch};
pub use options::{Chosen, Color, Mode, Options};
pub use place::{Place, read_place};
pub use rules_file::{rule_lines, rules_of};
