//! The files of a package as they are searched, and what rules change in them. What the language leaves out of a file is set
//! aside where it is searched: a change that touches none of that is made in the file, any other one is told.
#![tactic(auto)]

mod asking;
mod building;
mod changing;
mod debugging;
mod file_text;
mod finding;
mod further;
mod matching;
mod naming;
mod naming_self;
mod plan_error;
mod planning;
mod read_in;
mod refused;
mod searchable;
mod sorting;
mod standing;

pub use asking::asked_paths;
pub use changing::{FileChange, changes};
pub use debugging::{DebugEntry, debug};
pub use finding::Form;
pub use further::further_matches;
pub use matching::{
    FoundPlace, FoundPlaceholder, Sought, all_matches, pattern_matches, rule_matches,
};
pub use naming::{normal_name, normal_names};
pub use naming_self::first_with_self;
pub use plan_error::PlanError;
pub use planning::{Planned, plan};
pub use refused::first_refused;
pub use searchable::Searchable;
pub use sorting::Unread;
