//! A provider that is told by tables.

ghost use Rattle.std.specs.Prelude.{◌≡◌, IfOk, map, string_bytes};
ghost use Rattle.ssr_facts.specs.Private.Maps.{IsIndexed};

use crate::maps::Maps;
use crate::tables::Tables;
use ssr_base::{DefId, DefInfo, DefKind, NodeId, Res, ScopeId, SelfKind, Semantics, TypeId};
use ssr_facts_rows::{Definition, MemberKey, NameKey, PrintedKey};
use std::alloc::{AllocError, Global};

/// A provider that answers what tables say: each question by a look-up of a map, usages too.
#[derive(Drop)]
pub struct TableSemantics {
    maps: Maps,
    ghost indexed: { IsIndexed maps },
}

/// The texts, copied.
fn copied(alloc: Global, texts: &[String]) -> Result<Vec<String>, AllocError>
    ensures { IfOk result (λ copies. map string_bytes copies.items ≡ map string_bytes texts.now) }
{
    let mut copies = Vec::with_capacity(alloc, texts.len())?;
    for text in texts {
        copies.push(String::from_str(alloc, text.as_str())?)?;
    }
    Ok(copies)
}

impl TableSemantics {
    ghost use Rattle.ssr_facts.specs.Tables.{definition_at, meanings_of};
    ghost use Rattle.ssr_facts.specs.Provider.{provided};

    /// A provider that answers what tables say; of the rows of a table with one key the first one counts.
    pub fn new(alloc: Global, tables: Tables) -> Result<TableSemantics, AllocError>
        ensures { IfOk result (λ semantics. provided semantics ≡ meanings_of tables) }
    {
        let maps = Maps::new(alloc, tables)?;
        Ok(TableSemantics { maps })
    }

    /// What is known of a definition; where there is none of this number it is a module that declares type 0.
    fn definition(&self, def: DefId) -> Definition
        ensures { result ≡ definition_at self.now.maps.definitions.items def }
    {
        self.maps
            .definitions
            .get(def.0 as usize)
            .copied()
            .unwrap_or(Definition {
                info: DefInfo {
                    kind: DefKind::Module,
                    assoc: false,
                    takes_self: false,
                },
                adt_type: TypeId(0),
            })
    }
}

impl Semantics for TableSemantics {
    ghost use Rattle.ssr_facts.specs.Provider.{provided};
    ghost use Rattle.ssr_facts.specs.Private.Complete.{is_complete};

    ghost meanings = { provided };

    ghost complete = { λ s. is_complete s.maps s.indexed };

    fn scope(&self, _: Global, node: NodeId) -> Result<Option<ScopeId>, AllocError> {
        Ok(self.maps.scopes.get(&node).copied())
    }

    fn lookup(&self, alloc: Global, s: ScopeId, key: &[String]) -> Result<Option<Res>, AllocError> {
        let key = NameKey {
            scope: s,
            path: copied(alloc, key)?,
        };
        Ok(self.maps.names.get(&key).copied())
    }

    fn member(
        &self,
        alloc: Global,
        s: ScopeId,
        adt: DefId,
        name: &str,
    ) -> Result<Option<DefId>, AllocError> {
        let key = MemberKey {
            scope: s,
            adt,
            name: String::from_str(alloc, name)?,
        };
        Ok(self.maps.members.get(&key).copied())
    }

    fn info(&self, def: DefId) -> DefInfo {
        self.definition(def).info
    }

    fn adt_type(&self, def: DefId) -> TypeId {
        self.definition(def).adt_type
    }

    fn resolve_path(&self, _: Global, path: NodeId) -> Result<Option<Res>, AllocError> {
        Ok(self.maps.paths.get(&path).copied())
    }

    fn resolve_method(&self, _: Global, call: NodeId) -> Result<Option<DefId>, AllocError> {
        match self.maps.methods.get(&call) {
            Some(method) => Ok(Some(method.def)),
            None => Ok(None),
        }
    }

    fn types(&self, alloc: Global, expr: NodeId) -> Result<Option<Vec<TypeId>>, AllocError> {
        match self.maps.types.get(&expr) {
            Some(types) => Ok(Some(Vec::from_slice(alloc, types)?)),
            None => Ok(None),
        }
    }

    fn self_kind(&self, call: NodeId) -> SelfKind {
        match self.maps.methods.get(&call) {
            Some(method) => method.self_kind,
            None => SelfKind::Owned,
        }
    }

    fn path_from(
        &self,
        alloc: Global,
        s: ScopeId,
        def: DefId,
    ) -> Result<Option<String>, AllocError> {
        match self.maps.printed.get(&PrintedKey { scope: s, def }) {
            Some(text) => Ok(Some(String::from_str(alloc, text.as_str())?)),
            None => Ok(None),
        }
    }

    fn usages(&self, alloc: Global, res: Res) -> Result<Vec<NodeId>, AllocError> {
        match self.maps.usages.get(&res) {
            Some(nodes) => Vec::from_slice(alloc, nodes),
            None => Ok(Vec::new(alloc)),
        }
    }
}
