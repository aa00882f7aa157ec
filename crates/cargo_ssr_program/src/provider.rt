//! What a run knows of names.

use ssr_base::{DefId, DefInfo, NodeId, Res, ScopeId, SelfKind, Semantics, TypeId};
use ssr_facts::TableSemantics;
use ssr_names::Names;
use ssr_searching::Unresolved;
use std::alloc::{AllocError, Global};

/// What a run knows of names: one provider for all runs, whatever they know it from.
#[derive(Drop)]
pub(crate) enum Provider {
    /// Nothing.
    Nothing,
    /// What a facts file tells.
    Facts(TableSemantics),
    /// What the sources tell.
    Sources(Names),
}

impl Semantics for Provider {
    ghost use Rattle.cargo_ssr_program.specs.Providers.{meanings_of};
    ghost use Rattle.cargo_ssr_program.specs.Private.Complete.{is_complete};

    ghost meanings = { meanings_of };

    ghost complete = { is_complete };

    fn scope(&self, alloc: Global, node: NodeId) -> Result<Option<ScopeId>, AllocError> {
        match self {
            Provider::Nothing => Unresolved.scope(alloc, node),
            Provider::Facts(facts) => facts.scope(alloc, node),
            Provider::Sources(names) => names.scope(alloc, node),
        }
    }

    fn lookup(&self, alloc: Global, s: ScopeId, key: &[String]) -> Result<Option<Res>, AllocError> {
        match self {
            Provider::Nothing => Unresolved.lookup(alloc, s, key),
            Provider::Facts(facts) => facts.lookup(alloc, s, key),
            Provider::Sources(names) => names.lookup(alloc, s, key),
        }
    }

    fn member(
        &self,
        alloc: Global,
        s: ScopeId,
        adt: DefId,
        name: &str,
    ) -> Result<Option<DefId>, AllocError> {
        match self {
            Provider::Nothing => Unresolved.member(alloc, s, adt, name),
            Provider::Facts(facts) => facts.member(alloc, s, adt, name),
            Provider::Sources(names) => names.member(alloc, s, adt, name),
        }
    }

    fn info(&self, def: DefId) -> DefInfo {
        match self {
            Provider::Nothing => Unresolved.info(def),
            Provider::Facts(facts) => facts.info(def),
            Provider::Sources(names) => names.info(def),
        }
    }

    fn adt_type(&self, def: DefId) -> TypeId {
        match self {
            Provider::Nothing => Unresolved.adt_type(def),
            Provider::Facts(facts) => facts.adt_type(def),
            Provider::Sources(names) => names.adt_type(def),
        }
    }

    fn resolve_path(&self, alloc: Global, path: NodeId) -> Result<Option<Res>, AllocError> {
        match self {
            Provider::Nothing => Unresolved.resolve_path(alloc, path),
            Provider::Facts(facts) => facts.resolve_path(alloc, path),
            Provider::Sources(names) => names.resolve_path(alloc, path),
        }
    }

    fn resolve_method(&self, alloc: Global, call: NodeId) -> Result<Option<DefId>, AllocError> {
        match self {
            Provider::Nothing => Unresolved.resolve_method(alloc, call),
            Provider::Facts(facts) => facts.resolve_method(alloc, call),
            Provider::Sources(names) => names.resolve_method(alloc, call),
        }
    }

    fn types(&self, alloc: Global, expr: NodeId) -> Result<Option<Vec<TypeId>>, AllocError> {
        match self {
            Provider::Nothing => Unresolved.types(alloc, expr),
            Provider::Facts(facts) => facts.types(alloc, expr),
            Provider::Sources(names) => names.types(alloc, expr),
        }
    }

    fn self_kind(&self, call: NodeId) -> SelfKind {
        match self {
            Provider::Nothing => Unresolved.self_kind(call),
            Provider::Facts(facts) => facts.self_kind(call),
            Provider::Sources(names) => names.self_kind(call),
        }
    }

    fn path_from(
        &self,
        alloc: Global,
        s: ScopeId,
        def: DefId,
    ) -> Result<Option<String>, AllocError> {
        match self {
            Provider::Nothing => Unresolved.path_from(alloc, s, def),
            Provider::Facts(facts) => facts.path_from(alloc, s, def),
            Provider::Sources(names) => names.path_from(alloc, s, def),
        }
    }

    fn usages(&self, alloc: Global, res: Res) -> Result<Vec<NodeId>, AllocError> {
        match self {
            Provider::Nothing => Unresolved.usages(alloc, res),
            Provider::Facts(facts) => facts.usages(alloc, res),
            Provider::Sources(names) => names.usages(alloc, res),
        }
    }
}
