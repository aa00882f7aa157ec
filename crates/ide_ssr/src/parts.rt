//! What a nested match shows of itself, and its placeholders of themselves.

ghost use Rattle.std.specs.Prelude.{◌≡◌, [], IfOk, IsSome, Some, map, option_map, slice_get, slice_index_or, string_bytes};
ghost use Rattle.std.specs.Option.{IsSomeAnd};
ghost use Rattle.ssr_syntax_tree.specs.Places.{node_of, text_of};
ghost use Rattle.ssr_base_trees.specs.Built.{IsBuilt, IsNodeOf};
ghost use Rattle.ssr_base_trees.specs.Workspace.{file_span_of, original_range, tree_of, trees};
ghost use Rattle.ide_ssr_bindings.specs.Found.{held_range};
ghost use Rattle.ide_ssr.specs.Matches.{deref_count_of, inner_of, name_of, self_kind_of, span_of};
ghost use Rattle.ide_ssr.specs.Parts.{ComesFrom, placeholder_name};

use crate::matches::{Match, PlaceholderMatch};
use ide_ssr_bindings::Binding;
use ide_ssr_resolved_rule::ResolvedRule;
use ide_ssr_rules::Var;
use ssr_base_trees::{FileId, FileRange, NodeId, Trees};
use ssr_syntax_kinds::TextRange;
use std::alloc::{AllocError, Global};

/// The name of the place.
fn name_at(names: &[String], place: u32) -> &str
    ensures { result.now ≡ slice_index_or (map string_bytes names.now) place [] }
{
    match names.get(place as usize) {
        Some(name) => name.as_str(),
        None => "",
    }
}

/// The name of the placeholder of a rule of which the place is given.
pub(crate) fn placeholder_name(rules: &[ResolvedRule], rule: usize, placeholder: u32) -> &str
    ensures { result.now ≡ placeholder_name (slice_get rules.now rule) placeholder }
{
    let Some(rule) = rules.get(rule) else {
        return "";
    };
    name_at(rule.names(), placeholder)
}

/// The text of a node in its tree.
pub(crate) fn text_at(workspace: &Trees, node: NodeId) -> &str
    requires { IsNodeOf (trees workspace.now) node }
    ensures { IsSomeAnd (tree_of workspace.now node.tree) (λ syntax. result.now ≡ text_of (node_of syntax node.node.0)) }
{
    match workspace.tree(node.tree) {
        Some(tree) => tree.text(node.node),
        None => "",
    }
}

/// The range that there is.
fn there(range: Option<FileRange>) -> FileRange
    requires { IsSome (option_map file_span_of range) }
    ensures { option_map file_span_of range ≡ Some (file_span_of result) }
{
    match range {
        Some(range) => range,
        None => FileRange {
            file_id: FileId(0),
            range: TextRange::new(0, 0),
        },
    }
}

/// Where a node comes from.
pub(crate) fn range_at(workspace: &Trees, node: NodeId) -> FileRange
    requires built { IsBuilt workspace.now }
    requires range { IsSome (original_range (trees workspace.now) node) }
    ensures { ComesFrom workspace.now (original_range (trees workspace.now) node) (file_span_of result) }
{
    there(workspace.original_range(node))
}

/// Where what a binding of a match in the tree holds comes from.
fn held_range_at(workspace: &Trees, tree: u32, binding: Binding) -> FileRange
    requires built { IsBuilt workspace.now }
    requires range { IsSome (held_range (trees workspace.now) tree binding) }
    ensures { ComesFrom workspace.now (held_range (trees workspace.now) tree binding) (file_span_of result) }
{
    there(binding.original_range(workspace, tree))
}

/// What a placeholder of a match in the tree holds, with the matches in it.
pub(crate) fn nested_placeholder<'a>(
    alloc: Global,
    workspace: &Trees,
    name: &str,
    tree: u32,
    binding: Binding,
    inner: Vec<Match<'a>>,
) -> Result<PlaceholderMatch<'a>, AllocError>
    requires built { IsBuilt workspace.now }
    requires range { IsSome (held_range (trees workspace.now) tree binding) }
    ensures name { IfOk result (λ p. name_of p ≡ name.now) }
    ensures range { IfOk result (λ p. ComesFrom workspace.now (held_range (trees workspace.now) tree binding) (span_of p)) }
    ensures deref_count { IfOk result (λ p. deref_count_of p ≡ binding.deref_count) }
    ensures self_kind { IfOk result (λ p. self_kind_of p ≡ binding.self_kind) }
    ensures inner { IfOk result (λ p. inner_of p ≡ inner.entry.items) }
{
    Ok(PlaceholderMatch {
        var: Var(String::from_str(alloc, name)?),
        range: held_range_at(workspace, tree, binding),
        deref_count: binding.deref_count,
        self_kind: binding.self_kind,
        inner,
    })
}
