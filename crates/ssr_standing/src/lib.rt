//! Whether what is written into a text groups as what stood there did: outside of the places that are replaced, the tree of the new
//! text is that of the old one, and so are the trees of what calls of macros stand for.
#![tactic(auto)]

mod agreeing;
mod argument_names;
mod code;
mod expansions;
mod fitted;
mod holes;
mod marks;
mod near;
mod outlines;
mod parts;
mod passing;
mod ranges;
mod runs;
mod siblings;
mod spelling;
mod standing;

pub use agreeing::agree;
pub use code::in_parentheses;
pub use expansions::{SearchedFile, expression};
pub use fitted::Judge;
pub use parts::{Part, between, expression_behind, replaced};
pub use ranges::{new_ranges, new_ranges_from, old_ranges, old_ranges_from};
pub use standing::{stands, stands_of};
