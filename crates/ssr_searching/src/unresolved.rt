//! The provider of texts alone: nothing resolves.

use ssr_base::{DefId, DefInfo, DefKind, NodeId, Res, ScopeId, SelfKind, Semantics, TypeId};
use std::alloc::{AllocError, Global};

/// Tells that all code stands in one scope, in which nothing is known.
#[derive(Clone, Copy, Debug)]
pub struct Unresolved;

impl Semantics for Unresolved {
    ghost use Rattle.ssr_searching.specs.Unresolved.{nothing_resolves};
    ghost use Rattle.ssr_searching.specs.Private.Unresolved.{is_complete};

    ghost meanings = { λ _. nothing_resolves };

    ghost complete = { λ _. is_complete };

    fn scope(&self, _: Global, _: NodeId) -> Result<Option<ScopeId>, AllocError> {
        Ok(Some(ScopeId(0)))
    }

    fn lookup(&self, _: Global, _: ScopeId, _: &[String]) -> Result<Option<Res>, AllocError> {
        Ok(None)
    }

    fn member(
        &self,
        _: Global,
        _: ScopeId,
        _: DefId,
        _: &str,
    ) -> Result<Option<DefId>, AllocError> {
        Ok(None)
    }

    fn info(&self, _: DefId) -> DefInfo {
        DefInfo {
            kind: DefKind::Module,
            assoc: false,
            takes_self: false,
        }
    }

    fn adt_type(&self, _: DefId) -> TypeId {
        TypeId(0)
    }

    fn resolve_path(&self, _: Global, _: NodeId) -> Result<Option<Res>, AllocError> {
        Ok(None)
    }

    fn resolve_method(&self, _: Global, _: NodeId) -> Result<Option<DefId>, AllocError> {
        Ok(None)
    }

    fn types(&self, _: Global, _: NodeId) -> Result<Option<Vec<TypeId>>, AllocError> {
        Ok(None)
    }

    fn self_kind(&self, _: NodeId) -> SelfKind {
        SelfKind::Owned
    }

    fn path_from(&self, _: Global, _: ScopeId, _: DefId) -> Result<Option<String>, AllocError> {
        Ok(None)
    }

    fn usages(&self, alloc: Global, _: Res) -> Result<Vec<NodeId>, AllocError> {
        Ok(Vec::new(alloc))
    }
}
