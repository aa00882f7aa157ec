//! The paths of a tree that are used: what they resolve to counts, and not how they are spelled.
ghost use Rattle.std.specs.Prelude.{◌≡◌, IfErr, IfOk};
ghost use Rattle.std.specs.List.{list_any};
ghost use Rattle.ssr_syntax_tree.specs.Places.{HasNode, node_of};
ghost use Rattle.ide_ssr_resolved_rule.specs.Paths.{qualifying};
ghost use Rattle.ide_ssr_resolving.specs.Used.{ends_in_self, has_generics, is_whole, has_to_resolve, is_usable_def, is_usable, used_paths, Answers, HasRefused};
ghost use Rattle.ide_ssr_resolved_rule.specs.UsedPaths.{HasPaths};
ghost use Rattle.ide_ssr_resolving.specs.Private.Steps.{path_step, step_of};

use crate::paths::{last_name, qualifying};
use crate::resolving::resolution;
use crate::stand_ins::holds_stand_in;
use ide_ssr_resolved_rule::{Names, UsedPath, first_child};
use ssr_base_trees::{DefInfo, DefKind, Res, ScopeId, Semantics};
use ssr_syntax_kinds::SyntaxKind;
use ssr_syntax_tree::{NodeNo, Tree};
use std::alloc::{AllocError, AllocFailed, Global};

/// Why paths of a tree aren't resolved.
#[derive(Clone, Copy, Debug, PartialEq, Eq)]
pub enum Unresolved {
    /// This path doesn't resolve.
    Path(NodeNo),
    Memory,
}

impl From<AllocError> for Unresolved {
    ghost use Rattle.std.specs.Prelude.{◌≡◌};
    ghost use Rattle.ide_ssr_resolving.specs.declared.used.Unresolved.TheVariants as errors;

    ghost from_gives = { λ _ error. error ≡ errors.Memory };

    fn from(_: AllocError) -> Unresolved {
        Unresolved::Memory
    }
}

impl<T: Drop> From<AllocFailed<T>> for Unresolved {
    ghost use Rattle.std.specs.Prelude.{◌≡◌};
    ghost use Rattle.ide_ssr_resolving.specs.declared.used.Unresolved.TheVariants as errors;

    ghost from_gives = { λ _ error. error ≡ errors.Memory };

    fn from(_: AllocFailed<T>) -> Unresolved {
        Unresolved::Memory
    }
}

/// What the walk over a tree does at a node.
#[derive(Clone, Copy)]
enum Step {
    /// Goes on with the node's children.
    Enter,
    /// Goes on behind the node and what is below it.
    Pass,
    /// Takes the path, which resolves to this, and goes on behind it and what is below it.
    Use(Res),
    /// Ends with the path that doesn't resolve.
    Refuse,
}

/// Whether the last segment of a path is `self`.
fn ends_in_self(tree: &Tree, path: NodeNo) -> bool
    requires { HasNode tree.now path.0 }
    ensures { result ≡ ends_in_self (node_of tree.now path.0).children }
{
    match last_name(tree, path) {
        Some(name) => name == "self",
        None => false,
    }
}

/// Whether a segment has generic arguments.
fn has_generics(tree: &Tree, segment: NodeNo) -> bool
    requires { HasNode tree.now segment.0 }
    ensures { result ≡ has_generics (node_of tree.now segment.0).children }
{
    first_child(tree, segment, SyntaxKind::GENERIC_ARG_LIST).is_some()
}

/// Whether a segment of a path in front of the last one has generic arguments.
fn has_generic_qualifier(alloc: Global, tree: &Tree, path: NodeNo) -> Result<bool, AllocError>
    requires { HasNode tree.now path.0 }
    ensures { IfOk result (λ has. has ≡ list_any has_generics (qualifying (node_of tree.now path.0).children)) }
{
    let segments = qualifying(alloc, tree, path)?;
    for segment in &segments {
        if has_generics(tree, *segment) {
            return Ok(true);
        }
    }
    Ok(false)
}

/// Whether a path resolves as a whole.
fn is_whole(alloc: Global, names: &Names<'_>, tree: &Tree, path: NodeNo) -> Result<bool, AllocError>
    requires { HasNode tree.now path.0 }
    ensures { IfOk result (λ whole. whole ≡ is_whole names.now (node_of tree.now path.0).children) }
{
    if has_generic_qualifier(alloc, tree, path)? {
        return Ok(false);
    }
    Ok(!holds_stand_in(names, tree, path))
}

/// Whether a path has to resolve: it doesn't end in `self`, and resolves as a whole.
pub fn has_to_resolve(
    alloc: Global,
    names: &Names<'_>,
    tree: &Tree,
    path: NodeNo,
) -> Result<bool, AllocError>
    requires { HasNode tree.now path.0 }
    ensures { IfOk result (λ has. has ≡ has_to_resolve names.now (node_of tree.now path.0).children) }
{
    if ends_in_self(tree, path) {
        return Ok(false);
    }
    is_whole(alloc, names, tree, path)
}

/// Whether a definition is none of an associated constant, an associated type, and an associated function that doesn't
/// take `self`.
fn is_usable_def(info: DefInfo) -> bool
    ensures { result ≡ is_usable_def info }
{
    if !info.assoc {
        return true;
    }
    match info.kind {
        DefKind::Const | DefKind::TypeAlias => false,
        DefKind::Function => info.takes_self,
        _ => true,
    }
}

/// Whether a path that resolves to this is used.
fn is_usable<S: Semantics>(semantics: &S, res: Res) -> bool
    ensures { result ≡ is_usable (S.meanings semantics.now) res }
{
    match res {
        Res::Def(def) => is_usable_def(semantics.info(def)),
        _ => true,
    }
}

/// What the walk does at a path that doesn't end in `self`.
fn path_step<S: Semantics>(
    alloc: Global,
    semantics: &S,
    scope: ScopeId,
    names: &Names<'_>,
    tree: &Tree,
    path: NodeNo,
) -> Result<Step, AllocError>
    requires { HasNode tree.now path.0 }
    ensures { IfOk result (λ step. step ≡ path_step (S.meanings semantics.now) scope names.now (node_of tree.now path.0).children) }
{
    if !is_whole(alloc, names, tree, path)? {
        return Ok(Step::Enter);
    }
    let Some(res) = resolution(alloc, semantics, scope, tree, path)? else {
        return Ok(Step::Refuse);
    };
    if is_usable(semantics, res) {
        Ok(Step::Use(res))
    } else {
        Ok(Step::Enter)
    }
}

/// What the walk does at a node.
fn node_step<S: Semantics>(
    alloc: Global,
    semantics: &S,
    scope: ScopeId,
    names: &Names<'_>,
    tree: &Tree,
    node: NodeNo,
) -> Result<Step, AllocError>
    requires { HasNode tree.now node.0 }
    ensures { IfOk result (λ step. step ≡ step_of (S.meanings semantics.now) scope names.now (node_of tree.now node.0)) }
{
    if !tree.kind(node).is(SyntaxKind::PATH) {
        return Ok(Step::Enter);
    }
    if ends_in_self(tree, node) {
        return Ok(Step::Pass);
    }
    let step = path_step(alloc, semantics, scope, names, tree, node)?;
    Ok(step)
}

/// The paths of a tree that are used, in order, or the first one that has to resolve and doesn't. Nothing below a used path
/// or one that ends in `self` is looked at. `names` are those of the placeholders whose stand-ins stand in the tree; a path
/// resolves as if it were written in the scope.
pub fn used_paths<S: Semantics>(
    alloc: Global,
    semantics: &S,
    scope: ScopeId,
    names: &Names<'_>,
    tree: &Tree,
) -> Result<Vec<UsedPath>, Unresolved>
    ensures has { IfOk result (λ v. HasPaths tree.now v.items) }
    ensures has_refused { IfErr result (HasRefused tree.now) }
    ensures answers { Answers (λ v. v.items) result (used_paths (S.meanings semantics.now) scope names.now tree.now) }
{
    let mut used = Vec::new(alloc);
    let mut next = 0;
    while next < tree.node_count() {
        let node = NodeNo(next);
        match node_step(alloc, semantics, scope, names, tree, node)? {
            Step::Enter => next += 1,
            Step::Pass => next = tree.nodes_below(node).end,
            Step::Use(res) => {
                used.push(UsedPath { node, res })?;
                next = tree.nodes_below(node).end;
            }
            Step::Refuse => return Err(Unresolved::Path(node)),
        }
    }
    Ok(used)
}
