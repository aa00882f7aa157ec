//! The functions that read patterns.
#![tactic(auto)]

pub mod patterns;
