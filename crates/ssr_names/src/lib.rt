//! What the paths of a run's code stand for, by its sources alone, and the provider that tells it.
#![tactic(auto)]

mod arguments;
mod code_paths;
mod copies;
mod definitions;
mod globs;
mod imports;
mod kinds;
mod locals;
mod lookup;
mod macros;
mod no_std;
mod outside;
mod paths;
mod places;
mod preparing;
mod printed;
mod provider;
mod reading;
mod resolving;
mod rule_paths;
mod scopes;
mod sorts;
mod space;
mod std_names;
mod taking;
mod types;
mod wanted;
mod words;

pub use provider::{Believing, Names, Undecided};
pub use reading::read_names;
pub use rule_paths::RulePath;
