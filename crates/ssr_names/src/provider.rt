//! The provider by names: what is known of the paths that rules ask for.

ghost use Rattle.std.specs.Prelude.{◌≡◌, IfOk, map, string_bytes};
ghost use Rattle.std.specs.Option.{option_map};
ghost use Rattle.ssr_names.specs.Provider.{believed_info, info_at, is_lookup, looked_up, nodes_for, path_text};

use crate::scopes::Scopes;
use ssr_base_trees::{DefId, DefInfo, DefKind, NodeId, Res, ScopeId, SelfKind, Semantics, TypeId};
use std::alloc::{AllocError, Global};
use std::collections::BTreeMap;

/// What a path of a rule stands for in a scope.
#[derive(Debug, Drop)]
pub(crate) struct Lookup {
    pub(crate) scope: ScopeId,
    pub(crate) path: Vec<String>,
    pub(crate) res: Res,
}

/// A definition that is written in a scope.
#[derive(Clone, Copy, Debug, PartialEq, Eq, PartialOrd, Ord)]
pub(crate) struct PrintedKey {
    pub(crate) scope: ScopeId,
    pub(crate) def: DefId,
}

/// A provider that answers by rows: what the paths of rules stand for, which paths of the code stand for the same, and how a
/// scope reaches what is written.
#[derive(Drop)]
pub struct Names {
    pub(crate) scopes: Scopes,
    pub(crate) lookups: Vec<Lookup>,
    pub(crate) definitions: Vec<DefInfo>,
    /// What paths stand for, where that is known.
    pub(crate) known: BTreeMap<NodeId, Res>,
    /// The same, and what undecided paths and method calls are taken to stand for.
    pub(crate) believed: BTreeMap<NodeId, Res>,
    /// The types that each expression is taken to be of where that isn't known.
    pub(crate) types: Vec<TypeId>,
    pub(crate) printed: BTreeMap<PrintedKey, String>,
    pub(crate) undecided: Vec<Undecided>,
}

/// A path or a method call of the code that may stand for what a rule asks for.
#[derive(Debug, Drop)]
pub struct Undecided {
    /// The path, or the method call.
    pub path: NodeId,
    /// The first name of it that isn't known.
    pub name: String,
}

/// A provider that tells what `Names` does, but that each undecided path stands for what is asked for under its last name, and
/// that each method call of such a name calls that, whatever it is called on, and that each scope reaches each definition.
#[derive(Clone, Copy)]
pub struct Believing<'a> {
    pub names: &'a Names,
}

impl Names {
    /// The paths that may stand for what a rule asks for, in the order of their nodes, and then the method calls.
    pub fn undecided(&self) -> &[Undecided] {
        &self.undecided
    }

    /// What is known of a definition; where there is none of this number it is a module.
    fn definition(&self, def: DefId) -> DefInfo
        ensures { result ≡ info_at self.now.definitions.items def }
    {
        self.definitions
            .get(def.0 as usize)
            .copied()
            .unwrap_or(DefInfo {
                kind: DefKind::Module,
                assoc: false,
                takes_self: false,
            })
    }

    /// What the path of a rule stands for.
    fn looked_up(&self, s: ScopeId, key: &[String]) -> Option<Res>
        ensures { result ≡ looked_up self.now s (map string_bytes key.now) }
    {
        match self.lookups.iter().find(|row| is_lookup(row, s, key)) {
            Some(row) => Some(row.res),
            None => None,
        }
    }

    /// The path by which a scope reaches a definition.
    fn path_text(&self, alloc: Global, s: ScopeId, def: DefId) -> Result<Option<String>, AllocError>
        ensures { IfOk result (λ text. option_map string_bytes text ≡ path_text self.now s def) }
    {
        match self.printed.get(&PrintedKey { scope: s, def }) {
            Some(text) => Ok(Some(String::from_str(alloc, text.as_str())?)),
            None => Ok(None),
        }
    }
}

/// What is taken to be known of a definition: each function behind a type is taken to be a method.
fn believed_info(info: DefInfo) -> DefInfo
    ensures { result ≡ believed_info info }
{
    DefInfo {
        takes_self: info.assoc && info.kind == DefKind::Function,
        ..info
    }
}

/// The nodes of the rows that stand for a thing.
fn nodes_for(
    alloc: Global,
    rows: &BTreeMap<NodeId, Res>,
    res: Res,
) -> Result<Vec<NodeId>, AllocError>
    ensures { IfOk result (λ nodes. nodes.items ≡ nodes_for res rows.now.entries) }
{
    rows.iter()
        .filter(|row| *row.1 == res)
        .map(|row| *row.0)
        .collect(alloc)
}

/// Whether a row is that of a path in a scope.
fn is_lookup(row: &Lookup, s: ScopeId, key: &[String]) -> bool
    ensures { result ≡ is_lookup s (map string_bytes key.now) row.now }
{
    row.scope == s && row.path.as_slice() == key
}

impl Semantics for Names {
    ghost use Rattle.ssr_names.specs.Provider.{told};
    ghost use Rattle.ssr_names.specs.Private.Complete.{is_complete};

    ghost meanings = { told };

    ghost complete = { is_complete };

    fn scope(&self, _: Global, node: NodeId) -> Result<Option<ScopeId>, AllocError> {
        Ok(self.scopes.scope(node))
    }

    fn lookup(&self, _: Global, s: ScopeId, key: &[String]) -> Result<Option<Res>, AllocError> {
        Ok(self.looked_up(s, key))
    }

    fn member(
        &self,
        _: Global,
        _: ScopeId,
        _: DefId,
        _: &str,
    ) -> Result<Option<DefId>, AllocError> {
        Ok(None)
    }

    fn info(&self, def: DefId) -> DefInfo {
        self.definition(def)
    }

    fn adt_type(&self, def: DefId) -> TypeId {
        TypeId(def.0)
    }

    fn resolve_path(&self, _: Global, path: NodeId) -> Result<Option<Res>, AllocError> {
        Ok(self.known.get(&path).copied())
    }

    fn resolve_method(&self, _: Global, _: NodeId) -> Result<Option<DefId>, AllocError> {
        Ok(None)
    }

    fn types(&self, _: Global, _: NodeId) -> Result<Option<Vec<TypeId>>, AllocError> {
        Ok(None)
    }

    fn self_kind(&self, _: NodeId) -> SelfKind {
        SelfKind::Owned
    }

    fn path_from(
        &self,
        alloc: Global,
        s: ScopeId,
        def: DefId,
    ) -> Result<Option<String>, AllocError> {
        self.path_text(alloc, s, def)
    }

    fn usages(&self, alloc: Global, res: Res) -> Result<Vec<NodeId>, AllocError> {
        nodes_for(alloc, &self.known, res)
    }
}

impl Semantics for Believing<'_> {
    ghost use Rattle.ssr_names.specs.Provider.{believed};
    ghost use Rattle.ssr_names.specs.Private.Complete.{is_believed_complete};

    ghost meanings = { λ s. believed s.names.now };

    ghost complete = { λ s. is_believed_complete s.names.now };

    fn scope(&self, _: Global, node: NodeId) -> Result<Option<ScopeId>, AllocError> {
        Ok(self.names.scopes.scope(node))
    }

    fn lookup(&self, _: Global, s: ScopeId, key: &[String]) -> Result<Option<Res>, AllocError> {
        Ok(self.names.looked_up(s, key))
    }

    fn member(
        &self,
        _: Global,
        _: ScopeId,
        _: DefId,
        _: &str,
    ) -> Result<Option<DefId>, AllocError> {
        Ok(None)
    }

    fn info(&self, def: DefId) -> DefInfo {
        believed_info(self.names.definition(def))
    }

    fn adt_type(&self, def: DefId) -> TypeId {
        TypeId(def.0)
    }

    fn resolve_path(&self, _: Global, path: NodeId) -> Result<Option<Res>, AllocError> {
        Ok(self.names.believed.get(&path).copied())
    }

    fn resolve_method(&self, _: Global, call: NodeId) -> Result<Option<DefId>, AllocError> {
        match self.names.believed.get(&call) {
            Some(Res::Def(def)) => Ok(Some(*def)),
            _ => Ok(None),
        }
    }

    fn types(&self, alloc: Global, _: NodeId) -> Result<Option<Vec<TypeId>>, AllocError> {
        Ok(Some(Vec::from_slice(alloc, &self.names.types)?))
    }

    fn self_kind(&self, _: NodeId) -> SelfKind {
        SelfKind::Owned
    }

    fn path_from(
        &self,
        alloc: Global,
        s: ScopeId,
        def: DefId,
    ) -> Result<Option<String>, AllocError> {
        match self.names.path_text(alloc, s, def)? {
            Some(text) => Ok(Some(text)),
            None => Ok(Some(String::from_str(alloc, "?")?)),
        }
    }

    fn usages(&self, alloc: Global, res: Res) -> Result<Vec<NodeId>, AllocError> {
        nodes_for(alloc, &self.names.believed, res)
    }
}
