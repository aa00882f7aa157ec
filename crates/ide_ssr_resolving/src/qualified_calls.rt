//! Qualified calls: a call whose callee names an associated function that takes `self` says what a method call can say too.
ghost use Rattle.std.specs.Prelude.{◌≡◌, IfOk, IfSome};
ghost use Rattle.std.specs.Option.{option_map};
ghost use Rattle.ssr_syntax_tree.specs.Places.{HasNode, node_of};
ghost use Rattle.ide_ssr_resolving.specs.QualifiedCalls.{first_in, called_by, is_method, method_of, qualifier_type, qualified_call, qualified_calls_of};
ghost use Rattle.ide_ssr_resolved_rule.specs.QualifiedCalls.{HasCalls};
ghost use Rattle.ide_ssr_resolved_rule.specs.UsedPaths.{HasPaths};

use crate::paths::qualifier;
use crate::resolving::{adt_of, resolution};
use ide_ssr_resolved_rule::{QualifiedCall, UsedPath};
use ssr_base_trees::{DefId, DefInfo, DefKind, Res, ScopeId, Semantics, TypeId};
use ssr_syntax_kinds::SyntaxKind;
use ssr_syntax_tree::{NodeNo, Tree};
use std::alloc::{AllocError, Global};

/// The node of this kind in which a node is the first one.
pub(crate) fn first_in(tree: &Tree, kind: SyntaxKind, node: NodeNo) -> Option<NodeNo>
    requires { HasNode tree.now node.0 }
    ensures first { option_map (λ parent. parent.0) result ≡ first_in tree.now kind node.0 }
    ensures has { IfSome result (λ parent. HasNode tree.now parent.0) }
{
    let parent = tree.parent(node)?;
    if node.0 - 1 == parent.0 && tree.kind(parent).is(kind) {
        Some(parent)
    } else {
        None
    }
}

/// The call whose callee a path is.
fn called_by(tree: &Tree, path: NodeNo) -> Option<NodeNo>
    requires { HasNode tree.now path.0 }
    ensures call { option_map (λ call. call.0) result ≡ called_by tree.now path.0 }
    ensures has { IfSome result (λ call. HasNode tree.now call.0) }
{
    let callee = first_in(tree, SyntaxKind::PATH_EXPR, path)?;
    first_in(tree, SyntaxKind::CALL_EXPR, callee)
}

/// Whether a definition is an associated function that takes `self`.
fn is_method(info: DefInfo) -> bool
    ensures { result ≡ is_method info }
{
    matches!(info.kind, DefKind::Function) && info.assoc && info.takes_self
}

/// The associated function with `self` that a thing is, if it is one.
fn method_of<S: Semantics>(semantics: &S, res: Res) -> Option<DefId>
    ensures { result ≡ method_of (S.meanings semantics.now) res }
{
    match res {
        Res::Def(def) if is_method(semantics.info(def)) => Some(def),
        _ => None,
    }
}

/// The type that a path's qualifier resolves to.
fn qualifier_type<S: Semantics>(
    alloc: Global,
    semantics: &S,
    scope: ScopeId,
    tree: &Tree,
    path: NodeNo,
) -> Result<Option<TypeId>, AllocError>
    requires { HasNode tree.now path.0 }
    ensures { IfOk result (λ ty. ty ≡ qualifier_type (S.meanings semantics.now) scope (node_of tree.now path.0).children) }
{
    let Some(front) = qualifier(tree, path) else {
        return Ok(None);
    };
    let Some(res) = resolution(alloc, semantics, scope, tree, front)? else {
        return Ok(None);
    };
    match adt_of(semantics, res) {
        Some(adt) => Ok(Some(semantics.adt_type(adt))),
        None => Ok(None),
    }
}

/// The qualified call that a used path is the callee of, if it is that of one.
fn qualified_call<S: Semantics>(
    alloc: Global,
    semantics: &S,
    scope: ScopeId,
    tree: &Tree,
    path: UsedPath,
) -> Result<Option<QualifiedCall>, AllocError>
    requires { HasNode tree.now path.node.0 }
    ensures call { IfOk result (λ call. call ≡ qualified_call (S.meanings semantics.now) scope tree.now path) }
    ensures has { IfOk result (λ call. IfSome call (λ call. HasNode tree.now call.node.0)) }
{
    let Some(function) = method_of(semantics, path.res) else {
        return Ok(None);
    };
    let Some(node) = called_by(tree, path.node) else {
        return Ok(None);
    };
    let qualifier_type = qualifier_type(alloc, semantics, scope, tree, path.node)?;
    Ok(Some(QualifiedCall {
        node,
        function,
        qualifier_type,
    }))
}

/// The qualified calls of a tree with these used paths, in order.
pub fn qualified_calls_of<S: Semantics>(
    alloc: Global,
    semantics: &S,
    scope: ScopeId,
    tree: &Tree,
    paths: &[UsedPath],
) -> Result<Vec<QualifiedCall>, AllocError>
    requires { HasPaths tree.now paths.now }
    ensures calls { IfOk result (λ v. v.items ≡ qualified_calls_of (S.meanings semantics.now) scope tree.now paths.now) }
    ensures has { IfOk result (λ v. HasCalls tree.now v.items) }
{
    let mut calls = Vec::new(alloc);
    for path in paths {
        if let Some(call) = qualified_call(alloc, semantics, scope, tree, *path)? {
            calls.push(call)?;
        }
    }
    Ok(calls)
}
