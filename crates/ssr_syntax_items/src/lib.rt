//! The functions that read items and statements.
#![tactic(auto)]

pub mod items;
pub mod statements;
