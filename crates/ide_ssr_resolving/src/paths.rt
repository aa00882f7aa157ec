//! How a path is put together: its qualifier, its segments, the name of the last one.
ghost use Rattle.std.specs.Prelude.{◌≡◌, ◌+◌, ◌++◌, All, IfOk, IfSome, OnOk, map};
ghost use Rattle.std.specs.Option.{option_map};
ghost use Rattle.ssr_syntax_tree.specs.Places.{HasElement, HasNode, node_of, part_of};
ghost use Rattle.ssr_syntax_tree.specs.Syntax.{token_count};
ghost use Rattle.ide_ssr_resolved_rule.specs.Paths.{below_first, last_segment, segments, qualifying, last_name, is_arguments, before_arguments};
ghost use Rattle.ide_ssr_resolving.specs.Private.Parts.{below, segments_at, start_at};

use ide_ssr_resolved_rule::{first_child, is_arguments, last_segment};
use ssr_syntax_kinds::SyntaxKind;
use ssr_syntax_tree::{Element, NodeNo, Tree};
use std::alloc::{AllocError, Global};

/// The path in front of the last segment.
pub(crate) fn qualifier(tree: &Tree, path: NodeNo) -> Option<NodeNo>
    requires { HasNode tree.now path.0 }
    ensures below { option_map (below tree.now) result ≡ below_first SyntaxKind.PATH (node_of tree.now path.0).children }
    ensures has { IfSome result (λ qualifier. HasNode tree.now qualifier.0) }
{
    first_child(tree, path, SyntaxKind::PATH)
}

/// Adds the segments of a path, from the left.
#[cycle(segments)]
fn push_segments(tree: &Tree, path: NodeNo, found: &mut Vec<NodeNo>) -> Result<(), AllocError>
    requires path { HasNode tree.now path.0 }
    requires had { All (λ segment. HasNode tree.now segment.0) found.old.items }
    ensures below { OnOk result (map (below tree.now) found.new.items ≡ map (below tree.now) found.old.items ++ segments (node_of tree.now path.0).children) }
    ensures has { OnOk result (All (λ segment. HasNode tree.now segment.0) found.new.items) }
{
    for child in tree.children(path) {
        push_segments_at(tree, child, found)?;
    }
    Ok(())
}

/// Adds the segments at a child of a path: those of the path in front, or the last one.
#[cycle(segments)]
fn push_segments_at(tree: &Tree, child: Element, found: &mut Vec<NodeNo>) -> Result<(), AllocError>
    requires child { HasElement tree.now child }
    requires had { All (λ segment. HasNode tree.now segment.0) found.old.items }
    ensures below { OnOk result (map (below tree.now) found.new.items ≡ map (below tree.now) found.old.items ++ segments_at (part_of tree.now child)) }
    ensures has { OnOk result (All (λ segment. HasNode tree.now segment.0) found.new.items) }
{
    let Element::Node(node) = child else {
        return Ok(());
    };
    if tree.kind(node).is(SyntaxKind::PATH) {
        return push_segments(tree, node, found);
    }
    if tree.kind(node).is(SyntaxKind::PATH_SEGMENT) {
        found.push(node)?;
    }
    Ok(())
}

/// The segments of a path in front of the last one, from the left.
pub(crate) fn qualifying(
    alloc: Global,
    tree: &Tree,
    path: NodeNo,
) -> Result<Vec<NodeNo>, AllocError>
    requires { HasNode tree.now path.0 }
    ensures below { IfOk result (λ v. map (below tree.now) v.items ≡ qualifying (node_of tree.now path.0).children) }
    ensures has { IfOk result (λ v. All (λ segment. HasNode tree.now segment.0) v.items) }
{
    let mut found = Vec::new(alloc);
    let Some(front) = qualifier(tree, path) else {
        return Ok(found);
    };
    push_segments(tree, front, &mut found)?;
    Ok(found)
}

/// The name of the last segment; a type in angle brackets is none.
pub(crate) fn last_name(tree: &Tree, path: NodeNo) -> Option<&str>
    requires { HasNode tree.now path.0 }
    ensures { option_map (λ name. name.now) result ≡ last_name (node_of tree.now path.0).children }
{
    let segment = last_segment(tree, path)?;
    let name = first_child(tree, segment, SyntaxKind::NAME_REF)?;
    Some(tree.text(name))
}

/// Where the arguments begin that a child of a segment is: the number of their first token.
fn arguments_start(tree: &Tree, child: Element) -> Option<u32>
    requires { HasElement tree.now child }
    ensures { result ≡ start_at (part_of tree.now child) }
{
    let Element::Node(node) = child else {
        return None;
    };
    if is_arguments(tree.kind(node)) {
        Some(tree.tokens_below(node).start)
    } else {
        None
    }
}

/// The number of the token past those of a segment in front of its arguments.
pub(crate) fn name_end(tree: &Tree, segment: NodeNo) -> u32
    requires { HasNode tree.now segment.0 }
    ensures { result ≡ (node_of tree.now segment.0).first + token_count (before_arguments (node_of tree.now segment.0).children) }
{
    for child in tree.children(segment) {
        if let Some(start) = arguments_start(tree, child) {
            return start;
        }
    }
    tree.tokens_below(segment).end
}
