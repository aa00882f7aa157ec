//! Facts about the names, types and scopes of a workspace: a provider that is told by tables, and facts files that are read to
//! a workspace and its provider.
#![tactic(auto)]

mod facts;
mod facts_error;
mod grouping;
mod kept;
pub mod laws;
mod maps;
mod naming;
mod nodes;
mod provider;
mod scopes;
mod sources;
mod tables;
mod types;

pub use facts::{Facts, read};
pub use facts_error::FactsError;
pub use provider::TableSemantics;
pub use ssr_facts_rows::{Definition, MemberKey, Method, NameKey, PrintedKey};
pub use tables::Tables;
