//! Trees in which other trees stand in the places of nodes, and whether a tree is such a one, white space and comments aside.
#![tactic(auto)]

mod marks;
mod swap;
mod swapping;

pub use swap::Swap;
pub use swapping::is_swapped;
