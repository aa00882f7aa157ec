//! A provider that knows one function.

ghost use Rattle.std.specs.Prelude.{◌≡◌, ◌↔◌, Contains, IfOk, IsTrue, map, string_bytes};
ghost use Rattle.std.specs.List.{list_any};
ghost use Rattle.ssr_syntax_tree.specs.Places.{HasNode};
ghost use Rattle.ssr_base_trees.specs.declared.ids.NodeId.{NodeId as Id};
ghost use Rattle.ssr_base_trees.specs.Workspace.{same_id};
ghost use Rattle.ssr_uses.specs.OneFunction.{IsPath, IsPathOf, is_name};

use ssr_base::{DefId, DefInfo, DefKind, NodeId, Res, ScopeId, SelfKind, Semantics, TypeId};
use ssr_syntax::SyntaxKind;
use ssr_syntax_tree::{NodeNo, Tree};
use std::alloc::{AllocError, Global};

/// Knows one function, by its name and by the paths that stand for it. All code stands in one scope.
#[derive(Drop)]
pub struct OneFunction {
    pub name: String,
    pub uses: Vec<NodeId>,
}

/// The function's number.
const FUNCTION: DefId = DefId(0);

impl OneFunction {
    /// Whether a path's key is the function's name.
    fn is_named(&self, key: &[String]) -> bool
        ensures { result ≡ is_name (string_bytes self.now.name) (map string_bytes key.now) }
    {
        match key.split_first() {
            Some((first, rest)) => rest.is_empty() && first.as_str() == self.name.as_str(),
            None => false,
        }
    }

    /// Whether a node is one of the paths that stand for the function.
    fn is_used_at(&self, node: NodeId) -> bool
        ensures { result ≡ list_any (same_id node) self.now.uses.items }
    {
        self.uses.iter().any(|used| node.tree == used.tree && node.node.0 == used.node.0)
    }
}

impl Semantics for OneFunction {
    ghost use Rattle.std.specs.Prelude.{string_bytes};
    ghost use Rattle.ssr_uses.specs.OneFunction.{known};
    ghost use Rattle.ssr_uses.specs.Private.OneFunction.{is_complete};

    ghost meanings = { λ s. known (string_bytes s.name) s.uses.items };

    ghost complete = { λ s. is_complete (string_bytes s.name) s.uses.items };

    fn scope(&self, _: Global, _: NodeId) -> Result<Option<ScopeId>, AllocError> {
        Ok(Some(ScopeId(0)))
    }

    fn lookup(&self, _: Global, _: ScopeId, key: &[String]) -> Result<Option<Res>, AllocError> {
        if self.is_named(key) {
            Ok(Some(Res::Def(FUNCTION)))
        } else {
            Ok(None)
        }
    }

    fn member(
        &self,
        _: Global,
        _: ScopeId,
        _: DefId,
        _: &str,
    ) -> Result<Option<DefId>, AllocError> {
        Ok(None)
    }

    fn info(&self, _: DefId) -> DefInfo {
        DefInfo {
            kind: DefKind::Function,
            assoc: false,
            takes_self: false,
        }
    }

    fn adt_type(&self, _: DefId) -> TypeId {
        TypeId(0)
    }

    fn resolve_path(&self, _: Global, path: NodeId) -> Result<Option<Res>, AllocError> {
        if self.is_used_at(path) {
            Ok(Some(Res::Def(FUNCTION)))
        } else {
            Ok(None)
        }
    }

    fn resolve_method(&self, _: Global, _: NodeId) -> Result<Option<DefId>, AllocError> {
        Ok(None)
    }

    fn types(&self, _: Global, _: NodeId) -> Result<Option<Vec<TypeId>>, AllocError> {
        Ok(None)
    }

    fn self_kind(&self, _: NodeId) -> SelfKind {
        SelfKind::Owned
    }

    fn path_from(&self, alloc: Global, _: ScopeId, _: DefId) -> Result<Option<String>, AllocError> {
        Ok(Some(String::from_str(alloc, self.name.as_str())?))
    }

    fn usages(&self, alloc: Global, _: Res) -> Result<Vec<NodeId>, AllocError> {
        Vec::from_slice(alloc, &self.uses)
    }
}

/// Whether a node is a path that is spelled so.
fn is_path(tree: &Tree, node: NodeNo, spelled: &str) -> bool
    requires { HasNode tree.now node.0 }
    ensures { IsTrue result ↔ IsPath tree.now spelled.now node.0 }
{
    tree.kind(node).is(SyntaxKind::PATH) && tree.text(node) == spelled
}

/// The paths of a tree that are spelled so, as nodes of the tree with this number.
pub fn paths_spelled(
    alloc: Global,
    tree: &Tree,
    number: u32,
    spelled: &str,
) -> Result<Vec<NodeId>, AllocError>
    ensures { IfOk result (λ paths. (path : Id) → Contains paths.items path ↔ IsPathOf tree.now number spelled.now path) }
{
    let mut paths = Vec::new(alloc);
    for node in 0..tree.node_count() {
        let node = NodeNo(node);
        if is_path(tree, node, spelled) {
            paths.push(NodeId { tree: number, node })?;
        }
    }
    Ok(paths)
}
