//! Texts kept short: one name stands in the place of what stands in parentheses, and what is read of the short text tells
//! which bytes of the long one are nodes.
#![tactic(auto)]

mod arguments;
mod joining;
pub mod laws;
mod made;
mod operands;
mod parts;
mod paths;
mod reading;
mod shapes;
mod short;
pub mod short_laws;
mod stand_ins;
mod tokens;
mod walk;

pub use made::MadeText;
pub use parts::{Part, put_together};
pub use reading::ShortTree;
pub use short::Short;
pub use stand_ins::Name;
pub use walk::is_core;
