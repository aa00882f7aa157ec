//! In which order a match shows its placeholders.

ghost use Rattle.std.specs.Prelude.{◌≡◌, All, IfOk, Some, length};
ghost use Rattle.std.specs.Cmp.Lexicographic.{slice_cmp};
ghost use Rattle.std.specs.Option.{option_map};
ghost use Rattle.std.specs.Ordering.{nat_cmp};
ghost use Rattle.ssr_base_trees.specs.Workspace.{trees};
ghost use Rattle.ide_ssr_bindings.specs.Found.{IsInRange, held_range};
ghost use Rattle.ide_ssr.specs.Starts.{AreByStart};
ghost use Rattle.ide_ssr.specs.Private.Starts.{AreStarts, start_key};

use ide_ssr_bindings::{Binding, FoundMatch};
use ssr_base_trees::{NodeId, Trees};
use std::alloc::{AllocError, Global};
use std::cmp::Ordering;

/// Where what a binding holds begins, and the binding's place.
#[derive(Clone, Copy)]
pub(crate) struct Start {
    at: u32,
    place: usize,
}

/// How two bindings stand in order: by where they begin, and then as in the pattern.
fn compare(one: &Start, other: &Start) -> Ordering
    ensures { result ≡ slice_cmp nat_cmp (start_key one.now) (start_key other.now) }
{
    one.at.cmp(&other.at).then(one.place.cmp(&other.place))
}

/// The places of a match's bindings, by where these begin.
pub(crate) fn by_start(
    alloc: Global,
    workspace: &Trees,
    m: &FoundMatch,
) -> Result<Vec<usize>, AllocError>
    requires { All (IsInRange (trees workspace.now) m.now.node) m.now.bindings }
    ensures { IfOk result (λ order. AreByStart workspace.now m.now order.items) }
{
    let mut starts = starts(alloc, workspace, m)?;
    starts.sort_unstable_by(|one, other| compare(one, other));
    let mut order = Vec::new(alloc);
    for start in &starts {
        order.push(start.place)?;
    }
    Ok(order)
}

/// Where what the bindings of a match hold begins, in the order of the pattern.
fn starts(alloc: Global, workspace: &Trees, m: &FoundMatch) -> Result<Vec<Start>, AllocError>
    requires { All (IsInRange (trees workspace.now) m.now.node) m.now.bindings }
    ensures { IfOk result (λ starts. AreStarts workspace.now m.now (length m.now.bindings) starts.items) }
{
    let mut starts = Vec::new(alloc);
    for (place, binding) in m.bindings().iter().enumerate() {
        let at = start_of(workspace, m.node(), *binding);
        starts.push(Start { at, place })?;
    }
    Ok(starts)
}

/// Where what a binding of a match at the node holds begins in its file.
fn start_of(workspace: &Trees, node: NodeId, binding: Binding) -> u32
    requires { IsInRange (trees workspace.now) node binding }
    ensures { option_map (λ range. range.span.start) (held_range (trees workspace.now) node.tree binding) ≡ Some result }
{
    match binding.original_range(workspace, node.tree) {
        Some(range) => range.range.start,
        None => 0,
    }
}
