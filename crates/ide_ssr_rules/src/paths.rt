//! The paths of a rule that have to resolve: under which keys a provider is asked for them, and at which places they stand.
ghost use Rattle.std.specs.Prelude.{◌≡◌, ◌++◌, IfOk, OnOk, map};
ghost use Rattle.std.specs.Option.{option_copied};
ghost use Rattle.ssr_syntax_tree.specs.Places.{HasNode, node_of};
ghost use Rattle.ide_ssr_rules.specs.Paths.{place_in, told_path, paths_at, paths_below, paths_of_kind, paths_of_kinds};

use crate::kinds::ParsedRule;
use ide_ssr_resolved_rule::Names;
use ide_ssr_resolving::{has_to_resolve, key_of};
use ssr_syntax_kinds::SyntaxKind;
use ssr_syntax_tree::{NodeNo, Tree};
use std::alloc::{AllocError, Global};

/// What a path can stand for at its place.
#[derive(Clone, Copy, Debug, PartialEq, Eq)]
pub enum PathPlace {
    Value,
    Type,
    Macro,
}

/// A path of a rule that has to resolve: its key, as a provider is asked for it, its place, and whether it is one of a template.
#[derive(Debug, Drop)]
pub struct RulePath {
    pub key: Vec<String>,
    pub place: PathPlace,
    pub is_template: bool,
}

/// The place of a path in a node of this kind.
fn place_in(kind: SyntaxKind) -> PathPlace
    ensures { result ≡ place_in kind }
{
    match kind {
        SyntaxKind::PATH_EXPR | SyntaxKind::PATH_PAT | SyntaxKind::TUPLE_STRUCT_PAT => {
            PathPlace::Value
        }
        SyntaxKind::MACRO_CALL => PathPlace::Macro,
        _ => PathPlace::Type,
    }
}

/// The node that a node stands in; the root stands in itself.
fn around(tree: &Tree, node: NodeNo) -> NodeNo
    requires { HasNode tree.now node.0 }
    ensures parent { result.0 ≡ (node_of tree.now node.0).parent }
    ensures has { HasNode tree.now result.0 }
{
    match tree.parent(node) {
        Some(parent) => parent,
        None => node,
    }
}

/// The place of a path of a tree.
fn place_of(tree: &Tree, path: NodeNo) -> PathPlace
    requires { HasNode tree.now path.0 }
    ensures { result ≡ place_in (node_of tree.now (node_of tree.now path.0).parent).kind }
{
    let holder = around(tree, path);
    place_in(tree.kind(holder))
}

/// A side of a rule of one kind: its tree, the names of the placeholders, and whether it is the template.
#[derive(Drop)]
struct Side<'a, 'n> {
    tree: &'a Tree,
    names: &'a Names<'n>,
    is_template: bool,
}

/// Adds the path that a node is, if it has to resolve.
fn push_path(
    alloc: Global,
    side: &Side<'_, '_>,
    node: NodeNo,
    paths: &mut Vec<RulePath>,
) -> Result<(), AllocError>
    requires { HasNode side.now.tree.now node.0 }
    ensures { OnOk result (map told_path paths.new.items ≡ map told_path paths.old.items ++ paths_at side.now.names.now side.now.is_template side.now.tree.now (node_of side.now.tree.now node.0)) }
{
    let tree = side.tree;
    if !tree.kind(node).is(SyntaxKind::PATH) {
        return Ok(());
    }
    if !has_to_resolve(alloc, side.names, tree, node)? {
        return Ok(());
    }
    let key = key_of(alloc, tree, node)?;
    let place = place_of(tree, node);
    paths.push(RulePath {
        key,
        place,
        is_template: side.is_template,
    })?;
    Ok(())
}

/// Adds the paths of a side that have to resolve.
fn push_paths(
    alloc: Global,
    side: &Side<'_, '_>,
    paths: &mut Vec<RulePath>,
) -> Result<(), AllocError>
    ensures { OnOk result (map told_path paths.new.items ≡ map told_path paths.old.items ++ paths_below side.now.names.now side.now.is_template side.now.tree.now) }
{
    for number in 0..side.tree.node_count() {
        push_path(alloc, side, NodeNo(number), paths)?;
    }
    Ok(())
}

/// Adds the paths of a kind that have to resolve.
fn push_of_kind(
    alloc: Global,
    names: &Names<'_>,
    kind: &ParsedRule,
    paths: &mut Vec<RulePath>,
) -> Result<(), AllocError>
    ensures { OnOk result (map told_path paths.new.items ≡ map told_path paths.old.items ++ paths_of_kind names.now kind.now) }
{
    let pattern = Side {
        tree: &kind.pattern,
        names,
        is_template: false,
    };
    push_paths(alloc, &pattern, paths)?;
    if let Some(tree) = &kind.template {
        let template = Side {
            tree,
            names,
            is_template: true,
        };
        push_paths(alloc, &template, paths)?;
    }
    Ok(())
}

/// The paths of kinds that have to resolve, where their placeholders have these names.
pub(crate) fn paths_of_kinds(
    alloc: Global,
    names: &Names<'_>,
    kinds: &[ParsedRule],
) -> Result<Vec<RulePath>, AllocError>
    ensures { IfOk result (λ paths. map told_path paths.items ≡ paths_of_kinds names.now kinds.now) }
{
    let mut paths = Vec::new(alloc);
    for kind in kinds {
        push_of_kind(alloc, names, kind, &mut paths)?;
    }
    Ok(paths)
}
