//! Tables of what is known of names, types and scopes.

use ssr_base::{DefId, NodeId, Res, ScopeId, TypeId};
use ssr_facts_rows::{Definition, MemberKey, Method, NameKey, PrintedKey};

/// What is known of names, types and scopes, as tables. A row is a key and what is known of it; of the rows of a table with
/// one key the first one counts. Definitions have their place as key.
#[derive(Debug, PartialEq, Eq, Drop)]
pub struct Tables {
    pub definitions: Vec<Definition>,
    /// The scopes that nodes stand in.
    pub scopes: Vec<(NodeId, ScopeId)>,
    pub names: Vec<(NameKey, Res)>,
    pub members: Vec<(MemberKey, DefId)>,
    pub paths: Vec<(NodeId, Res)>,
    pub methods: Vec<(NodeId, Method)>,
    pub types: Vec<(NodeId, Vec<TypeId>)>,
    pub printed: Vec<(PrintedKey, String)>,
}
