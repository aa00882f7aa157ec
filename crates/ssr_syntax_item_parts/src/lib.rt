//! The functions that read what stands in items: parameters, the fields of structs and enums, and what USE names.
#![tactic(auto)]

pub mod adts;
pub mod params;
pub mod uses;
