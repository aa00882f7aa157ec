//! The command `cargo ssr`, from its words to its status, over any file system and any writers: which files are searched, what
//! rules change in them, and what of that is shown, told and written.
#![tactic(auto)]

mod console;
mod counting;
mod debugging;
mod ending_paths;
mod failure;
mod finding;
mod includes;
mod input;
mod known_names;
mod left_out;
mod malformed;
mod names_input;
mod passed_over;
mod positions;
mod program;
mod provider;
mod refusals;
mod rewriting;
mod rules;
mod sources;
mod telling;
mod undecided;
mod writing;

pub use console::Console;
pub use program::run;
