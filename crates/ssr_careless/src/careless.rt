//! A provider that is careless of usages.

use ssr_base_trees::{DefId, DefInfo, NodeId, Res, ScopeId, SelfKind, Semantics, TypeId};
use std::alloc::{AllocError, Global};

/// Tells what another provider does, but of usages twice as many, and strays in front.
#[derive(Drop)]
pub struct Careless<'a, S: Semantics> {
    pub told: &'a S,
    /// What is told to use each thing: nodes that don't, of any kind, and such as there aren't.
    pub strays: Vec<NodeId>,
}

impl<S: Semantics> Semantics for Careless<'_, S> {
    ghost use Rattle.ssr_careless.specs.Careless.{careless};
    ghost use Rattle.ssr_careless.specs.Private.Careless.{is_complete};

    ghost meanings = { λ s. careless (S.meanings s.told.now) s.strays.items };

    ghost complete = { λ s. is_complete (S.meanings s.told.now) s.strays.items (S.complete s.told.now) };

    fn scope(&self, alloc: Global, node: NodeId) -> Result<Option<ScopeId>, AllocError> {
        self.told.scope(alloc, node)
    }

    fn lookup(&self, alloc: Global, s: ScopeId, key: &[String]) -> Result<Option<Res>, AllocError> {
        self.told.lookup(alloc, s, key)
    }

    fn member(
        &self,
        alloc: Global,
        s: ScopeId,
        adt: DefId,
        name: &str,
    ) -> Result<Option<DefId>, AllocError> {
        self.told.member(alloc, s, adt, name)
    }

    fn info(&self, def: DefId) -> DefInfo {
        self.told.info(def)
    }

    fn adt_type(&self, def: DefId) -> TypeId {
        self.told.adt_type(def)
    }

    fn resolve_path(&self, alloc: Global, path: NodeId) -> Result<Option<Res>, AllocError> {
        self.told.resolve_path(alloc, path)
    }

    fn resolve_method(&self, alloc: Global, call: NodeId) -> Result<Option<DefId>, AllocError> {
        self.told.resolve_method(alloc, call)
    }

    fn types(&self, alloc: Global, expr: NodeId) -> Result<Option<Vec<TypeId>>, AllocError> {
        self.told.types(alloc, expr)
    }

    fn self_kind(&self, call: NodeId) -> SelfKind {
        self.told.self_kind(call)
    }

    fn path_from(
        &self,
        alloc: Global,
        s: ScopeId,
        def: DefId,
    ) -> Result<Option<String>, AllocError> {
        self.told.path_from(alloc, s, def)
    }

    fn usages(&self, alloc: Global, res: Res) -> Result<Vec<NodeId>, AllocError> {
        let told = self.told.usages(alloc, res)?;
        let mut usages = Vec::from_slice(alloc, &self.strays)?;
        usages.extend_from_slice(&told)?;
        usages.extend_from_slice(&told)?;
        Ok(usages)
    }
}
