//! Laws of the trees that fit: where one expression may stand in the place of another.
#![tactic(auto)]

pub mod laws;
