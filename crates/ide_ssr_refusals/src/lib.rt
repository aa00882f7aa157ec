//! Why rules of structural search and replace are refused, and in which words.
#![tactic(auto)]

mod error;
pub mod laws;
mod refusals;

pub use error::SsrError;
pub use refusals::{Fault, Refusal, Text};
