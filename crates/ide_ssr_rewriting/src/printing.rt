//! What used paths of a template are written as for a match.

ghost use Rattle.std.specs.Prelude.{◌≡◌, [], IfOk, map, string_bytes, unwrap_or};
ghost use Rattle.std.specs.Option.{option_and_then};
ghost use Rattle.ide_ssr_rewriting.specs.Printing.{printed_as, printed_paths};

use ide_ssr_resolved_rule::{ResolvedRule, UsedPath};
use ssr_base_trees::{DefId, NodeId, Res, ScopeId, Semantics};
use std::alloc::{AllocError, Global};

/// The path by which a scope reaches a definition, if there is a scope and a path.
fn path_text<S: Semantics>(
    alloc: Global,
    semantics: &S,
    scope: Option<ScopeId>,
    def: DefId,
) -> Result<String, AllocError>
    ensures { IfOk result (λ text. string_bytes text ≡ unwrap_or (option_and_then (λ scope. (S.meanings semantics.now).path_from scope def) scope) []) }
{
    let Some(scope) = scope else {
        return Ok(String::new(alloc));
    };
    match semantics.path_from(alloc, scope, def)? {
        Some(text) => Ok(text),
        None => Ok(String::new(alloc)),
    }
}

/// The path by which a scope reaches what a used path stands for, if that is a definition.
fn printed_as<S: Semantics>(
    alloc: Global,
    semantics: &S,
    scope: Option<ScopeId>,
    res: Res,
) -> Result<String, AllocError>
    ensures { IfOk result (λ text. string_bytes text ≡ printed_as (S.meanings semantics.now) scope res) }
{
    match res {
        Res::Def(def) => path_text(alloc, semantics, scope, def),
        _ => Ok(String::new(alloc)),
    }
}

/// What each of these used paths is written as in a scope.
fn printed_in<S: Semantics>(
    alloc: Global,
    semantics: &S,
    scope: Option<ScopeId>,
    paths: &[UsedPath],
) -> Result<Vec<String>, AllocError>
    ensures { IfOk result (λ texts. map string_bytes texts.items ≡ map (λ path. printed_as (S.meanings semantics.now) scope path.res) paths.now) }
{
    let mut texts = Vec::with_capacity(alloc, paths.len())?;
    for path in paths {
        texts.push(printed_as(alloc, semantics, scope, path.res)?)?;
    }
    Ok(texts)
}

/// What the used paths of a rule's template are written as for a match at this node. Without such paths the provider isn't
/// asked.
pub(crate) fn printed_paths<S: Semantics>(
    alloc: Global,
    semantics: &S,
    rule: &ResolvedRule,
    node: NodeId,
) -> Result<Vec<String>, AllocError>
    ensures { IfOk result (λ texts. map string_bytes texts.items ≡ printed_paths (S.meanings semantics.now) rule.now node) }
{
    let paths = rule.template_paths();
    if paths.is_empty() {
        return Ok(Vec::new(alloc));
    }
    let scope = semantics.scope(alloc, node)?;
    printed_in(alloc, semantics, scope, paths)
}
