//! A provider that tells all that another one does, and more usages than there are: those who try a search by it see whether
//! usages that are wrong are passed over.
#![tactic(auto)]

mod careless;

pub use careless::Careless;
