//! What the calls of the standard library's macros stand for whose arguments are expressions: expansions for a workspace, so
//! that a search finds what stands in the arguments.
#![tactic(auto)]

mod arguments;
mod expanding;
mod format_strings;
mod forms;
mod macros;
mod made;
mod own_names;
mod writer;

pub use expanding::{ReadExpansion, macro_arguments};
