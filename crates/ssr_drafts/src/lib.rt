//! What of a text is set aside so that it is read, found by its tokens alone. Nothing here has a clause but the words of forms, and
//! what a unit is read between: what is found is looked at once it is made.
#![tactic(auto)]

mod draft;
mod finding;
mod form;
mod heads;
mod rules;
mod settling;
mod units;

pub use finding::{Care, Part, Parts, found};
pub use form::Form;
pub use units::{Unit, UnitKind};
