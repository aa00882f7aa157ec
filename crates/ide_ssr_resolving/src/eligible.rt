//! Eligible paths of a pattern: used paths whose usages can lead to its matches.
ghost use Rattle.std.specs.Prelude.{◌≡◌, ◌+◌, ◌&&◌, not, false, slice_index_or, IfOk};
ghost use Rattle.std.specs.Option.{option_map, option_map_or};
ghost use Rattle.ssr_syntax_tree.specs.Places.{HasNode};
ghost use Rattle.ssr_syntax_tree.specs.Syntax.{node_count};
ghost use Rattle.ide_ssr_resolving.specs.Eligible.{is_builtin_type, first_argument_of, eligible_paths_of};
ghost use Rattle.ide_ssr_resolving.specs.Private.Marks.{MarksCalls, MarksFirstArguments};
ghost use Rattle.ide_ssr_resolved_rule.specs.QualifiedCalls.{HasCalls};
ghost use Rattle.ide_ssr_resolved_rule.specs.UsedPaths.{HasPaths};

use crate::qualified_calls::first_in;
use ide_ssr_resolved_rule::{QualifiedCall, UsedPath};
use ssr_base_trees::{DefKind, Res, Semantics};
use ssr_syntax_kinds::SyntaxKind;
use ssr_syntax_tree::{NodeNo, Tree};
use std::alloc::{AllocError, Global};

/// Whether a thing is a builtin type.
fn is_builtin_type<S: Semantics>(semantics: &S, res: Res) -> bool
    ensures { result ≡ is_builtin_type (S.meanings semantics.now) res }
{
    match res {
        Res::Def(def) => matches!(semantics.info(def).kind, DefKind::BuiltinType),
        _ => false,
    }
}

/// The call that a node is the first argument of.
fn first_argument_of(tree: &Tree, node: NodeNo) -> Option<NodeNo>
    requires { HasNode tree.now node.0 }
    ensures { option_map (λ call. call.0) result ≡ first_argument_of tree.now node.0 }
{
    match first_in(tree, SyntaxKind::ARG_LIST, node) {
        // A list of arguments that is the root is that of no call.
        Some(arguments) => Some(tree.parent(arguments).unwrap_or(arguments)),
        None => None,
    }
}

/// Whether there is a node, and it is marked.
fn is_marked(marks: &[bool], node: Option<NodeNo>) -> bool
    ensures { result ≡ option_map_or (λ node. slice_index_or marks.now node.0 false) node false }
{
    match node {
        Some(node) => marks.get(node.0 as usize).copied().unwrap_or(false),
        None => false,
    }
}

/// Marks the nodes of the calls.
fn call_marks(alloc: Global, tree: &Tree, calls: &[QualifiedCall]) -> Result<Vec<bool>, AllocError>
    requires { HasCalls tree.now calls.now }
    ensures { IfOk result (λ marks. MarksCalls calls.now marks.items) }
{
    let mut marks = vec![in alloc; false; tree.node_count() as usize]?;
    for call in calls {
        marks[call.node.0 as usize] = true;
    }
    Ok(marks)
}

/// Marks the first arguments of the calls, and the nodes below them.
fn first_argument_marks(
    alloc: Global,
    tree: &Tree,
    calls: &[QualifiedCall],
) -> Result<Vec<bool>, AllocError>
    requires { HasCalls tree.now calls.now }
    ensures { IfOk result (λ marks. MarksFirstArguments tree.now calls.now (1 + node_count tree.now.children) marks.items) }
{
    let called = call_marks(alloc, tree, calls)?;
    let mut marks = Vec::new(alloc);
    for number in 0..tree.node_count() {
        let node = NodeNo(number);
        let is_first = is_marked(&called, first_argument_of(tree, node));
        let is_below = is_marked(&marks, tree.parent(node));
        marks.push(is_first | is_below)?;
    }
    Ok(marks)
}

/// Whether a used path is eligible, where the nodes in first arguments are marked.
fn is_eligible<S: Semantics>(semantics: &S, marks: &[bool], path: UsedPath) -> bool
    ensures { result ≡ (not (is_builtin_type (S.meanings semantics.now) path.res) && not (slice_index_or marks.now path.node.0 false)) }
{
    !is_builtin_type(semantics, path.res) && !is_marked(marks, Some(path.node))
}

/// Which of the used paths of a tree with these qualified calls are eligible, in order.
pub fn eligible_paths<S: Semantics>(
    alloc: Global,
    semantics: &S,
    tree: &Tree,
    calls: &[QualifiedCall],
    paths: &[UsedPath],
) -> Result<Vec<UsedPath>, AllocError>
    requires calls { HasCalls tree.now calls.now }
    requires paths { HasPaths tree.now paths.now }
    ensures paths { IfOk result (λ v. v.items ≡ eligible_paths_of (S.meanings semantics.now) tree.now calls.now paths.now) }
    ensures has { IfOk result (λ v. HasPaths tree.now v.items) }
{
    let marks = first_argument_marks(alloc, tree, calls)?;
    let mut eligible = Vec::new(alloc);
    for path in paths {
        if is_eligible(semantics, &marks, *path) {
            eligible.push(*path)?;
        }
    }
    Ok(eligible)
}
