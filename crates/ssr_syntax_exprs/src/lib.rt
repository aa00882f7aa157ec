//! The functions that read expressions, conditions and generic arguments.
#![tactic(auto)]

pub mod atoms;
pub mod blocks;
pub mod conditions;
pub mod expressions;
pub mod generic_args;
