//! What names, types and scopes of a workspace mean, as a provider tells it.

use crate::ids::{DefId, NodeId, ScopeId, TypeId};
use std::alloc::{AllocError, Global};

/// What a path stands for: a definition, or a thing of another sort, which has a number among its sort.
#[derive(Clone, Copy, Debug, PartialEq, Eq, PartialOrd, Ord)]
pub enum Res {
    Def(DefId),
    Local(u32),
    TypeParam(u32),
    ConstParam(u32),
    SelfType(u32),
    Other(u32),
}

/// The sort of a definition; `Adt` is a struct, an enum or a union.
#[derive(Clone, Copy, Debug, PartialEq, Eq)]
pub enum DefKind {
    Module,
    Function,
    Adt,
    Variant,
    Const,
    Static,
    Trait,
    TypeAlias,
    BuiltinType,
    Macro,
}

/// What is known of a definition: its sort, whether it is an associated item, and whether it is a function that takes `self`.
#[derive(Clone, Copy, Debug, PartialEq, Eq)]
pub struct DefInfo {
    pub kind: DefKind,
    pub assoc: bool,
    pub takes_self: bool,
}

/// How a method takes the value that it is called on.
#[derive(Clone, Copy, Debug, PartialEq, Eq)]
pub enum SelfKind {
    Owned,
    Ref,
    Mut,
}

/// Tells what names, types and scopes of a workspace mean. Each call answers its meaning, a function of its arguments, or
/// want of memory.
pub trait Semantics {
    ghost use Rattle.std.specs.Prelude.{◌≡◌, map, string_bytes, IfOk};
    ghost use Rattle.std.specs.Option.{option_map};
    ghost use Rattle.ssr_base_trees.specs.Meanings.{Meanings, IsComplete};

    ghost meanings: { Self → Meanings };

    /// The scope that a node stands in, if it stands in one.
    fn scope(&self, alloc: Global, node: NodeId) -> Result<Option<ScopeId>, AllocError>
        ensures { IfOk result (λ scope. scope ≡ (meanings self.now).scope node) };

    /// What a path stands for that is written in a scope, if it stands for anything there. The path is told by the texts of
    /// its segments, of which the first one is empty where it begins with `::`.
    fn lookup(&self, alloc: Global, s: ScopeId, key: &[String]) -> Result<Option<Res>, AllocError>
        ensures { IfOk result (λ res. res ≡ (meanings self.now).lookup s (map string_bytes key.now)) };

    /// The member with this name of a type, as a scope sees it: an associated item or a variant.
    fn member(
        &self,
        alloc: Global,
        s: ScopeId,
        adt: DefId,
        name: &str,
    ) -> Result<Option<DefId>, AllocError>
        ensures { IfOk result (λ def. def ≡ (meanings self.now).member s adt name.now) };

    /// What is known of a definition.
    fn info(&self, def: DefId) -> DefInfo
        ensures { result ≡ (meanings self.now).info def };

    /// The type that a definition declares.
    fn adt_type(&self, def: DefId) -> TypeId
        ensures { result ≡ (meanings self.now).adt_type def };

    /// What a path of the workspace stands for.
    fn resolve_path(&self, alloc: Global, path: NodeId) -> Result<Option<Res>, AllocError>
        ensures { IfOk result (λ res. res ≡ (meanings self.now).path path) };

    /// The function that a method call of the workspace calls.
    fn resolve_method(&self, alloc: Global, call: NodeId) -> Result<Option<DefId>, AllocError>
        ensures { IfOk result (λ def. def ≡ (meanings self.now).method call) };

    /// The types of an expression: its own, and then that after each dereference.
    fn types(&self, alloc: Global, expr: NodeId) -> Result<Option<Vec<TypeId>>, AllocError>
        ensures { IfOk result (λ types. option_map (λ v. v.items) types ≡ (meanings self.now).types expr) };

    /// How the function of a method call takes the value that it is called on.
    fn self_kind(&self, call: NodeId) -> SelfKind
        ensures { result ≡ (meanings self.now).self_kind call };

    /// The path by which a scope reaches a definition, as text.
    fn path_from(&self, alloc: Global, s: ScopeId, def: DefId) -> Result<Option<String>, AllocError>
        ensures { IfOk result (λ text. option_map string_bytes text ≡ (meanings self.now).path_from s def) };

    /// Nodes that may be paths that stand for this, or calls of this method. But for a builtin type none is left out; others
    /// may be among them, some more than once, and such as aren't nodes of the workspace.
    fn usages(&self, alloc: Global, res: Res) -> Result<Vec<NodeId>, AllocError>
        ensures { IfOk result (λ nodes. nodes.items ≡ (meanings self.now).usages res) };

    ghost complete: { (s : Self) → IsComplete (meanings s) };
}
