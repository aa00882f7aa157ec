//! Whether a rule's template can be written for a match.
ghost use Rattle.std.specs.Prelude.{◌↔◌, All, IfOk, IsTrue};
ghost use Rattle.std.specs.Option.{IsSomeAnd};
ghost use Rattle.ide_ssr_search.specs.Printing.{CanBeWritten, IsReached};

use ide_ssr_resolved_rule::{ResolvedRule, UsedPath};
use ssr_base_trees::{NodeId, Res, ScopeId, Semantics};
use std::alloc::{AllocError, Global};

/// Whether a scope reaches what a path stands for, if that is a definition.
fn is_reached<S: Semantics>(
    alloc: Global,
    semantics: &S,
    scope: ScopeId,
    res: Res,
) -> Result<bool, AllocError>
    ensures { IfOk result (λ reached. IsTrue reached ↔ IsReached (S.meanings semantics.now) scope res) }
{
    match res {
        Res::Def(def) => Ok(semantics.path_from(alloc, scope, def)?.is_some()),
        _ => Ok(true),
    }
}

/// Whether a scope reaches what each of these paths stands for.
fn are_reached<S: Semantics>(
    alloc: Global,
    semantics: &S,
    scope: ScopeId,
    paths: &[UsedPath],
) -> Result<bool, AllocError>
    ensures { IfOk result (λ reached. IsTrue reached ↔ All (λ path. IsReached (S.meanings semantics.now) scope path.res) paths.now) }
{
    for path in paths {
        if !is_reached(alloc, semantics, scope, path.res)? {
            return Ok(false);
        }
    }
    Ok(true)
}

/// Whether a node stands in a scope that reaches what each of these paths stands for.
fn are_reached_at<S: Semantics>(
    alloc: Global,
    semantics: &S,
    node: NodeId,
    paths: &[UsedPath],
) -> Result<bool, AllocError>
    ensures { IfOk result (λ reached. IsTrue reached ↔ IsSomeAnd ((S.meanings semantics.now).scope node) (λ scope. All (λ path. IsReached (S.meanings semantics.now) scope path.res) paths.now)) }
{
    match semantics.scope(alloc, node)? {
        Some(scope) => are_reached(alloc, semantics, scope, paths),
        None => Ok(false),
    }
}

/// Whether the template of a rule, if it has one, can be written at a node: the node has to stand in a scope that reaches what
/// the used paths of the template stand for.
pub(crate) fn can_be_written<S: Semantics>(
    alloc: Global,
    semantics: &S,
    rule: &ResolvedRule,
    node: NodeId,
) -> Result<bool, AllocError>
    ensures { IfOk result (λ can. IsTrue can ↔ CanBeWritten (S.meanings semantics.now) rule.now node) }
{
    match rule.template() {
        Some(_) => are_reached_at(alloc, semantics, node, rule.template_paths()),
        None => Ok(true),
    }
}
