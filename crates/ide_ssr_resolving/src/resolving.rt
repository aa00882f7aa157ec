//! What a path resolves to.
ghost use Rattle.std.specs.Prelude.{◌≡◌, IfOk, None};
ghost use Rattle.std.specs.Option.{option_and_then};
ghost use Rattle.ssr_syntax_tree.specs.Places.{HasNode, node_of};
ghost use Rattle.ide_ssr_resolved_rule.specs.Paths.{qualifier};
ghost use Rattle.ide_ssr_resolving.specs.Resolving.{adt_of, told, told_member, resolution};

use crate::keys::key_of;
use crate::paths::{last_name, qualifier};
use ssr_base_trees::{DefId, DefKind, Res, ScopeId, Semantics};
use ssr_syntax_tree::{NodeNo, Tree};
use std::alloc::{AllocError, Global};

/// The type that a thing is, if it is one.
pub(crate) fn adt_of<S: Semantics>(semantics: &S, res: Res) -> Option<DefId>
    ensures { result ≡ adt_of (S.meanings semantics.now) res }
{
    let Res::Def(def) = res else {
        return None;
    };
    match semantics.info(def).kind {
        DefKind::Adt => Some(def),
        _ => None,
    }
}

/// What the provider tells of a path by its key.
fn told<S: Semantics>(
    alloc: Global,
    semantics: &S,
    scope: ScopeId,
    tree: &Tree,
    path: NodeNo,
) -> Result<Option<Res>, AllocError>
    requires { HasNode tree.now path.0 }
    ensures { IfOk result (λ res. res ≡ told (S.meanings semantics.now) scope (node_of tree.now path.0).children) }
{
    let key = key_of(alloc, tree, path)?;
    let res = semantics.lookup(alloc, scope, &key)?;
    Ok(res)
}

/// The type that is told of a path's qualifier.
fn told_type<S: Semantics>(
    alloc: Global,
    semantics: &S,
    scope: ScopeId,
    tree: &Tree,
    path: NodeNo,
) -> Result<Option<DefId>, AllocError>
    requires { HasNode tree.now path.0 }
    ensures { IfOk result (λ adt. adt ≡ option_and_then (adt_of (S.meanings semantics.now)) (option_and_then (told (S.meanings semantics.now) scope) (qualifier (node_of tree.now path.0).children))) }
{
    let Some(front) = qualifier(tree, path) else {
        return Ok(None);
    };
    let Some(res) = told(alloc, semantics, scope, tree, front)? else {
        return Ok(None);
    };
    Ok(adt_of(semantics, res))
}

/// The member that a path names of the type that is told of its qualifier.
fn told_member<S: Semantics>(
    alloc: Global,
    semantics: &S,
    scope: ScopeId,
    tree: &Tree,
    path: NodeNo,
) -> Result<Option<Res>, AllocError>
    requires { HasNode tree.now path.0 }
    ensures { IfOk result (λ res. res ≡ told_member (S.meanings semantics.now) scope (node_of tree.now path.0).children) }
{
    let Some(adt) = told_type(alloc, semantics, scope, tree, path)? else {
        return Ok(None);
    };
    let Some(name) = last_name(tree, path) else {
        return Ok(None);
    };
    let Some(member) = semantics.member(alloc, scope, adt, name)? else {
        return Ok(None);
    };
    Ok(Some(Res::Def(member)))
}

/// What a path resolves to: what the provider tells of it by its key, else the member of its name of the type that its
/// qualifier stands for.
pub fn resolution<S: Semantics>(
    alloc: Global,
    semantics: &S,
    scope: ScopeId,
    tree: &Tree,
    path: NodeNo,
) -> Result<Option<Res>, AllocError>
    requires { HasNode tree.now path.0 }
    ensures { IfOk result (λ res. res ≡ resolution (S.meanings semantics.now) scope (node_of tree.now path.0).children) }
{
    if let Some(res) = told(alloc, semantics, scope, tree, path)? {
        return Ok(Some(res));
    }
    let member = told_member(alloc, semantics, scope, tree, path)?;
    Ok(member)
}
