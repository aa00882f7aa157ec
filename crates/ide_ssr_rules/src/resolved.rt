//! Rules and search patterns that resolve, kind by kind.
ghost use Rattle.std.specs.Prelude.{◌≡◌, ◌<◌, ◌^◌, length, map, string_bytes, All, IfOk};
ghost use Rattle.std.specs.Option.{IfSome, option_copied};
ghost use Rattle.ide_ssr_rules.specs.Patterns.{HasEachAtMostOnce};
ghost use Rattle.ide_ssr_refusals.specs.Refusals.{Answers, AnswersBy};
ghost use Rattle.ide_ssr_resolved_rule.specs.Patterns.{HasEachOnce, AreInArguments};
ghost use Rattle.ide_ssr_resolving.specs.Eligible.{eligible_paths_of};
ghost use Rattle.ide_ssr_resolved_rule.specs.QualifiedCalls.{HasCalls};
ghost use Rattle.ide_ssr_resolving.specs.QualifiedCalls.{qualified_calls_of};
ghost use Rattle.ide_ssr_resolving.specs.Resolved.{IsResolvedBy};
ghost use Rattle.ide_ssr_rules.specs.Resolved.{paths_in, paths_in_template, resolved_kind, resolved_kinds, resolved_with};
ghost use Rattle.ide_ssr_resolved_rule.specs.UsedPaths.{HasPaths};

use crate::kinds::ParsedRule;
use crate::rules::{ParsedKinds, SsrPattern, SsrRule, pattern_kinds, rule_kinds};
use ide_ssr_refusals::{Refusal, SsrError, Text};
use ide_ssr_resolved_rule::{
    ConstraintSet, Names, QualifiedCall, ResolvedRule, RuleParts, UsedPath,
};
use ide_ssr_resolving::{Unresolved, eligible_paths, qualified_calls_of, used_paths};
use ssr_base_trees::{ScopeId, Semantics};
use ssr_syntax_tree::Tree;
use std::alloc::{AllocError, Global};

/// The placeholders of a rule: their names, and what each of these asks.
#[derive(Drop)]
struct Placeholders<'p, 'n> {
    names: &'p Names<'n>,
    constraints: &'p [ConstraintSet],
}

impl<'p, 'n> Placeholders<'p, 'n> {
    /// The names and what each of these asks, once more.
    fn copied(&self, alloc: Global) -> Result<(Vec<String>, Vec<ConstraintSet>), AllocError>
        ensures names { IfOk result (λ copies. map string_bytes copies.0.items ≡ self.now.names.now) }
        ensures constraints { IfOk result (λ copies. copies.1.items ≡ self.now.constraints.now) }
    {
        let names = self.names.owned(alloc)?;
        let constraints = copied_constraints(alloc, self.constraints)?;
        Ok((names, constraints))
    }
}

/// The kinds of a rule in their order, with what their paths stand for that are written in the scope; or why it doesn't
/// resolve: which of its paths doesn't. The pattern of each kind has each placeholder once, in a used path only among its
/// arguments, and the template at most once. What each kind has of its paths is what its pattern tells.
pub fn resolve_rule<S: Semantics>(
    alloc: Global,
    semantics: &S,
    scope: ScopeId,
    rule: SsrRule,
) -> Result<Vec<ResolvedRule>, SsrError>
    ensures kinds { AnswersBy (λ v. v.items) result (resolved_kinds (S.meanings semantics.now) scope rule.names rule.constraints rule.kinds) }
    ensures each { IfOk result (λ v. All (λ kind. HasEachOnce kind.names kind.pattern) v.items) }
    ensures in_arguments { IfOk result (λ v. All (λ kind. AreInArguments kind.names kind.pattern kind.pattern_paths) v.items) }
    ensures at_most_once { IfOk result (λ v. All (λ kind. HasEachAtMostOnce kind.names kind.template) v.items) }
    ensures known { IfOk result (λ v. All (IsResolvedBy (S.meanings semantics.now)) v.items) }
{
    resolve(alloc, semantics, scope, rule_kinds(rule))
}

/// The kinds of a search pattern in their order, with what their paths stand for that are written in the scope; or why it
/// doesn't resolve: which of its paths doesn't. The pattern of each kind has each placeholder once, in a used path only among
/// its arguments. What each kind has of its paths is what its pattern tells.
pub fn resolve_pattern<S: Semantics>(
    alloc: Global,
    semantics: &S,
    scope: ScopeId,
    pattern: SsrPattern,
) -> Result<Vec<ResolvedRule>, SsrError>
    ensures kinds { AnswersBy (λ v. v.items) result (resolved_kinds (S.meanings semantics.now) scope pattern.names pattern.constraints pattern.kinds) }
    ensures each { IfOk result (λ v. All (λ kind. HasEachOnce kind.names kind.pattern) v.items) }
    ensures in_arguments { IfOk result (λ v. All (λ kind. AreInArguments kind.names kind.pattern kind.pattern_paths) v.items) }
    ensures known { IfOk result (λ v. All (IsResolvedBy (S.meanings semantics.now)) v.items) }
{
    resolve(alloc, semantics, scope, pattern_kinds(pattern))
}

/// The kinds that resolve, in their order.
fn resolve<S: Semantics>(
    alloc: Global,
    semantics: &S,
    scope: ScopeId,
    parsed: ParsedKinds,
) -> Result<Vec<ResolvedRule>, SsrError>
    ensures kinds { AnswersBy (λ v. v.items) result (resolved_kinds (S.meanings semantics.now) scope parsed.names parsed.constraints parsed.kinds) }
    ensures each { IfOk result (λ v. All (λ kind. HasEachOnce kind.names kind.pattern) v.items) }
    ensures in_arguments { IfOk result (λ v. All (λ kind. AreInArguments kind.names kind.pattern kind.pattern_paths) v.items) }
    ensures at_most_once { IfOk result (λ v. All (λ kind. HasEachAtMostOnce kind.names kind.template) v.items) }
    ensures known { IfOk result (λ v. All (IsResolvedBy (S.meanings semantics.now)) v.items) }
{
    let (names, constraints, kinds) = parsed.into_parts();
    let known = Names::of(alloc, names.as_slice())?;
    let placeholders = Placeholders {
        names: &known,
        constraints: constraints.as_slice(),
    };
    let mut resolved = Vec::new(alloc);
    for kind in kinds {
        resolved.push(resolved_kind(alloc, semantics, scope, &placeholders, kind)?)?;
    }
    Ok(resolved)
}

/// A kind of a rule that resolves.
fn resolved_kind<S: Semantics>(
    alloc: Global,
    semantics: &S,
    scope: ScopeId,
    placeholders: &Placeholders<'_, '_>,
    kind: ParsedRule,
) -> Result<ResolvedRule, SsrError>
    requires { length placeholders.now.names.now < 2 ^ 32 }
    ensures { Answers result (resolved_kind (S.meanings semantics.now) scope placeholders.now.names.now placeholders.now.constraints.now kind) }
{
    let names = placeholders.names;
    let template = kind.template.as_ref();
    let template_paths = paths_in_template(alloc, semantics, scope, names, template)?;
    let pattern_paths = paths_in(alloc, semantics, scope, names, &kind.pattern)?;
    let paths = (template_paths, pattern_paths);
    Ok(resolved_with(alloc, semantics, scope, placeholders, kind, paths)?)
}

/// What a kind resolves to, with the used paths of its template and of its pattern.
fn resolved_with<S: Semantics>(
    alloc: Global,
    semantics: &S,
    scope: ScopeId,
    placeholders: &Placeholders<'_, '_>,
    kind: ParsedRule,
    paths: (Vec<UsedPath>, Vec<UsedPath>),
) -> Result<ResolvedRule, AllocError>
    requires few { length placeholders.now.names.now < 2 ^ 32 }
    requires has_pattern { HasPaths kind.pattern paths.1.items }
    requires has_template { IfSome kind.template (λ template. HasPaths template paths.0.items) }
    ensures { IfOk result (λ rule. rule ≡ resolved_with (S.meanings semantics.now) scope placeholders.now.names.now placeholders.now.constraints.now kind paths.0.items paths.1.items) }
{
    let (template_paths, pattern_paths) = paths;
    let used = pattern_paths.as_slice();
    let (qualified_calls, eligible_paths) = lead_candidates(
        alloc,
        semantics,
        scope,
        &kind.pattern,
        used,
    )?;
    let (names, constraints) = placeholders.copied(alloc)?;
    let parts = RuleParts {
        names,
        constraints,
        reach: kind.reach,
        category: kind.category,
        pattern: kind.pattern,
        template: kind.template,
        pattern_paths,
        template_paths,
        qualified_calls,
        eligible_paths,
    };
    let rule = ResolvedRule::new(alloc, placeholders.names, parts)?;
    Ok(rule)
}

/// The qualified calls of a pattern with these used paths, and which of the paths are eligible.
fn lead_candidates<S: Semantics>(
    alloc: Global,
    semantics: &S,
    scope: ScopeId,
    pattern: &Tree,
    paths: &[UsedPath],
) -> Result<(Vec<QualifiedCall>, Vec<UsedPath>), AllocError>
    requires { HasPaths pattern.now paths.now }
    ensures calls { IfOk result (λ found. found.0.items ≡ qualified_calls_of (S.meanings semantics.now) scope pattern.now paths.now) }
    ensures eligible { IfOk result (λ found. found.1.items ≡ eligible_paths_of (S.meanings semantics.now) pattern.now found.0.items paths.now) }
    ensures has_calls { IfOk result (λ found. HasCalls pattern.now found.0.items) }
    ensures has_eligible { IfOk result (λ found. HasPaths pattern.now found.1.items) }
{
    let calls = qualified_calls_of(alloc, semantics, scope, pattern, paths)?;
    let eligible = eligible_paths(alloc, semantics, pattern, &calls, paths)?;
    Ok((calls, eligible))
}

/// The constraints of a rule's placeholders, once more.
fn copied_constraints(
    alloc: Global,
    constraints: &[ConstraintSet],
) -> Result<Vec<ConstraintSet>, AllocError>
    ensures { IfOk result (λ v. v.items ≡ constraints.now) }
{
    let mut copies = Vec::new(alloc);
    for set in constraints {
        copies.push(set.copied(alloc)?)?;
    }
    Ok(copies)
}

/// The used paths of a tree. Refuses the first one that has to resolve and doesn't.
#[tactic(auto, unfolding(crate::specs::Resolved::paths_in))]
fn paths_in<S: Semantics>(
    alloc: Global,
    semantics: &S,
    scope: ScopeId,
    names: &Names<'_>,
    tree: &Tree,
) -> Result<Vec<UsedPath>, SsrError>
    ensures paths { AnswersBy (λ v. v.items) result (paths_in (S.meanings semantics.now) scope names.now tree.now) }
    ensures has { IfOk result (λ v. HasPaths tree.now v.items) }
{
    match used_paths(alloc, semantics, scope, names, tree) {
        Ok(paths) => Ok(paths),
        Err(Unresolved::Path(path)) => {
            Err(Refusal::UnresolvedPath(Text(tree.text(path))).told(alloc))
        }
        Err(Unresolved::Memory) => Err(SsrError::Memory),
    }
}

/// The used paths of a template; without one there are none. Refuses the first one that has to resolve and doesn't.
fn paths_in_template<S: Semantics>(
    alloc: Global,
    semantics: &S,
    scope: ScopeId,
    names: &Names<'_>,
    template: Option<&Tree>,
) -> Result<Vec<UsedPath>, SsrError>
    ensures paths { AnswersBy (λ v. v.items) result (paths_in_template (S.meanings semantics.now) scope names.now (option_copied template.entry)) }
    ensures has { IfOk result (λ v. IfSome (option_copied template.entry) (λ tree. HasPaths tree v.items)) }
{
    match template {
        Some(tree) => paths_in(alloc, semantics, scope, names, tree),
        None => Ok(Vec::new(alloc)),
    }
}
