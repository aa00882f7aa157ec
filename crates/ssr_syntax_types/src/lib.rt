//! The grammar's goals, the functions that read literals, paths, types and token trees, and what patterns begin with.
#![tactic(auto)]

pub mod goals;
pub mod literals;
pub mod paths;
pub mod pattern_sets;
pub mod reader;
pub mod token_trees;
pub mod types;
