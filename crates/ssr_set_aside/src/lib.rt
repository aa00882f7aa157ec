//! What the language leaves out, set aside: a file that isn't read as it stands is read with some of its bytes replaced by as
//! many others. What a search changes in the text that is read stands at the same place in the file.
#![tactic(auto)]

mod aside;
mod forms;
mod fronts;
mod keeping;
pub mod laws;
mod parts;
mod reaches;
mod setting;
mod sparing;
mod units;

pub use aside::SetAside;
pub use reaches::Reaches;
pub use setting::set_aside;
pub use sparing::{Spared, spare};
