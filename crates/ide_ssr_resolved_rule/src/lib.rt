//! A rule that resolves, as one value. It stands on trees, and knows no grammar.
#![tactic(auto)]

mod constraints;
mod names;
mod parts;
mod paths;
mod placeholders;
mod qualified_calls;
mod receivers;
mod resolved;
mod stand_ins;
mod templates;
mod used_paths;

pub use constraints::{Constraint, ConstraintSet};
pub use names::{Name, Names};
pub use parts::RuleParts;
pub use paths::{first_child, is_arguments, last_segment};
pub use qualified_calls::QualifiedCall;
pub use resolved::ResolvedRule;
pub use stand_ins::{STAND_IN_PREFIX, stand_in_name};
pub use templates::TemplateToken;
pub use used_paths::UsedPath;
