//! Whether a rule matches as a whole at a node.
ghost use Rattle.std.specs.Prelude.{◌≡◌, ◌+◌, ◌↔◌, IsTrue, IfOk, IfSome, IfNone, MatchOption, Some, All, AllPairs, option_map};
ghost use Rattle.std.specs.Option.{IsSomeAnd};
ghost use Rattle.ssr_syntax_tree.specs.Places.{HasNode};
ghost use Rattle.ssr_base_trees.specs.Workspace.{trees, tree_of, file_span_of};
ghost use Rattle.ide_ssr_bindings.specs.Found.{AreDisjoint, held_range};
ghost use Rattle.ssr_base_trees.specs.Built.{IsNodeOf};
ghost use Rattle.ide_ssr_search.specs.WholeMatches.{IsPlaced, TellsWhole};
ghost use Rattle.ide_ssr_search.specs.Private.Bounds.{AreBounds, LiesInBounds};
ghost use Rattle.ide_ssr_search.specs.Private.Whole.{AreRanges, IsMatched, IsPlacedMatch};

use crate::bounds::Bounds;
use crate::printing::can_be_written;
use ide_ssr_bindings::Binding;
use ide_ssr_matching::{Tries, match_node};
use ide_ssr_resolved_rule::ResolvedRule;
use ssr_base_trees::{FileRange, NodeId, Semantics, Trees};
use ssr_syntax_tree::Tree;
use std::alloc::{AllocError, Global};

/// A range, if there is one that lies within the bounds.
fn placed(bounds: Bounds, range: Option<FileRange>) -> Option<FileRange>
    ensures range { IfSome result (λ placed. range ≡ Some placed) }
    ensures placed { IfSome result (λ placed. LiesInBounds bounds (file_span_of placed)) }
    ensures none { IfNone result (¬ IsSomeAnd (option_map file_span_of range) (LiesInBounds bounds)) }
{
    let range = range?;
    if bounds.hold(range) {
        Some(range)
    } else {
        None
    }
}

/// Where what the placeholders hold comes from, if all of that lies within the bounds of the tree.
fn held_ranges(
    alloc: Global,
    workspace: &Trees,
    bounds: Bounds,
    tree: u32,
    bindings: &[Binding],
) -> Result<Option<Vec<FileRange>>, AllocError>
    requires { AreBounds (trees workspace.now) tree bounds }
    ensures { IfOk result (λ found. MatchOption found (¬ All (λ b. IsPlaced (trees workspace.now) tree (held_range (trees workspace.now) tree b)) bindings.now) (λ ranges. AreRanges (trees workspace.now) tree bindings.now ranges.items)) }
{
    let mut ranges = Vec::new(alloc);
    for binding in bindings {
        let Some(range) = placed(bounds, binding.original_range(workspace, tree)) else {
            return Ok(None);
        };
        ranges.push(range)?;
    }
    Ok(Some(ranges))
}

/// Whether a range has no byte in common with others of its file.
fn is_apart(range: FileRange, others: &[FileRange]) -> bool
    ensures { IsTrue result ↔ All (λ other. AreDisjoint (file_span_of other) (file_span_of range)) others.now }
{
    for other in others {
        if other.range.overlaps(range.range) {
            return false;
        }
    }
    true
}

/// Whether no two ranges of one file have a byte in common.
fn are_apart(ranges: &[FileRange]) -> bool
    ensures { IsTrue result ↔ AllPairs (λ a b. AreDisjoint (file_span_of a) (file_span_of b)) ranges.now }
{
    for (place, range) in ranges.iter().enumerate() {
        if !is_apart(*range, &ranges[..place]) {
            return false;
        }
    }
    true
}

/// Whether a match in an expansion, with what its placeholders hold, lies within the bounds of its tree, and no two
/// placeholders share a byte.
fn is_placed_in_call(
    alloc: Global,
    workspace: &Trees,
    bounds: Bounds,
    node: NodeId,
    bindings: &[Binding],
) -> Result<bool, AllocError>
    requires { AreBounds (trees workspace.now) node.tree bounds }
    ensures { IfOk result (λ is. IsTrue is ↔ IsPlacedMatch (trees workspace.now) node bindings.now) }
{
    if placed(bounds, workspace.original_range(node)).is_none() {
        return Ok(false);
    }
    match held_ranges(alloc, workspace, bounds, node.tree, bindings)? {
        Some(ranges) => Ok(are_apart(&ranges)),
        None => Ok(false),
    }
}

/// Whether a match, with what its placeholders hold, lies within the bounds of its tree, and no two placeholders share a byte.
/// In a file each does: what its placeholders hold stands in the match, one behind another.
fn is_placed_match(
    alloc: Global,
    workspace: &Trees,
    bounds: Bounds,
    node: NodeId,
    bindings: &[Binding],
) -> Result<bool, AllocError>
    requires bounds { AreBounds (trees workspace.now) node.tree bounds }
    requires matched { IsMatched (trees workspace.now) node bindings.now }
    ensures { IfOk result (λ is. IsTrue is ↔ IsPlacedMatch (trees workspace.now) node bindings.now) }
{
    if let Bounds::Everywhere = bounds {
        return Ok(true);
    }
    is_placed_in_call(alloc, workspace, bounds, node, bindings)
}

/// A tree at whose nodes rules are tried.
#[derive(Clone, Copy)]
pub(crate) struct Ground<'a> {
    pub(crate) workspace: &'a Trees,
    pub(crate) tree: &'a Tree,
    pub(crate) bounds: Bounds,
}

/// What the placeholders of a rule hold where it matches as a whole at a node of a tree. It counts as one try.
pub(crate) fn match_in<S: Semantics>(
    alloc: Global,
    semantics: &S,
    ground: Ground<'_>,
    rule: &ResolvedRule,
    node: NodeId,
    tries: &mut Tries,
) -> Result<Option<Vec<Binding>>, AllocError>
    requires tree { tree_of ground.workspace.now node.tree ≡ Some ground.tree.now }
    requires has { HasNode ground.tree.now node.node.0 }
    requires bounds { AreBounds (trees ground.workspace.now) node.tree ground.bounds }
    ensures count { tries.new ≡ tries.old + 1 }
    ensures found { IfOk result (λ found. TellsWhole (trees ground.entry.workspace.now) (S.meanings semantics.now) rule.now node (option_map (λ v. v.items) found)) }
{
    let Some(bindings) = match_node(alloc, semantics, rule, ground.tree, node, tries)? else {
        return Ok(None);
    };
    if !is_placed_match(alloc, ground.workspace, ground.bounds, node, &bindings)? {
        return Ok(None);
    }
    if can_be_written(alloc, semantics, rule, node)? {
        Ok(Some(bindings))
    } else {
        Ok(None)
    }
}

/// What the placeholders of a rule hold where it matches as a whole at a node of the workspace. It counts as one try.
pub fn match_whole<S: Semantics>(
    alloc: Global,
    semantics: &S,
    workspace: &Trees,
    rule: &ResolvedRule,
    node: NodeId,
    tries: &mut Tries,
) -> Result<Option<Vec<Binding>>, AllocError>
    requires node { IsNodeOf (trees workspace.now) node }
    ensures count { tries.new ≡ tries.old + 1 }
    ensures found { IfOk result (λ found. TellsWhole (trees workspace.now) (S.meanings semantics.now) rule.now node (option_map (λ v. v.items) found)) }
{
    let Some(tree) = workspace.tree(node.tree) else {
        return Ok(None);
    };
    let ground = Ground {
        workspace,
        tree,
        bounds: Bounds::of(workspace, node.tree),
    };
    match_in(alloc, semantics, ground, rule, node, tries)
}
