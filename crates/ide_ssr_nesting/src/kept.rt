//! Which of the matches that are found are kept.

ghost use Rattle.std.specs.Prelude.{◌≡◌, ◌<◌, ◌↔◌, ℕ, All, AllPairs, IsTrue, IfOk, MatchOption, option_map, Some};
ghost use Rattle.std.specs.Option.{IsSomeAnd};
ghost use Rattle.ssr_base_trees.specs.Workspace.{trees, file_span_of};
ghost use Rattle.ssr_base_trees.specs.Built.{IsNodeOf, IsBuilt};
ghost use Rattle.ssr_base_trees.specs.Laws.{LiesIn};
ghost use Rattle.ide_ssr_bindings.specs.Found.{IsMatch};
ghost use Rattle.ide_ssr_nesting.specs.Kept.{IsOver, LiesUnder, LiesInPlaceholder, Fits, ComesBefore, AreKept};
ghost use Rattle.ide_ssr_nesting.specs.Holding.{IsOutermost, IsHeld, AreHeld};
ghost use Rattle.ide_ssr_nesting.specs.Private.Nearest.{IsNearestAt, IsKeptIfFits};

use crate::holders::Holder;
use crate::order::is_above;
use ide_ssr_bindings::FoundMatch;
use ssr_base_trees::{FileRange, Trees};
use std::alloc::{AllocError, Global};

/// Kept matches in order, and beside each of them what holds it: nothing, if it is outermost.
#[derive(Drop)]
pub(crate) struct Nest {
    pub(crate) matches: Vec<FoundMatch>,
    pub(crate) holders: Vec<Option<Holder>>,
}

/// Whether `k` stands above the node of `m`, or at it with an earlier rule.
fn is_over(workspace: &Trees, k: &FoundMatch, m: &FoundMatch) -> bool
    requires built { IsBuilt workspace.now }
    requires k_in { IsNodeOf (trees workspace.now) k.now.node }
    requires m_in { IsNodeOf (trees workspace.now) m.now.node }
    ensures { IsTrue result ↔ IsOver (trees workspace.now) k.now m.now }
{
    if k.node() == m.node() {
        k.rule() < m.rule()
    } else {
        is_above(workspace, k.node(), m.node())
    }
}

/// Whether a range of a file lies in another one, if there is that.
fn lies_in(range: FileRange, outer: Option<FileRange>) -> bool
    ensures { IsTrue result ↔ IsSomeAnd (option_map file_span_of outer) (λ outer. LiesIn (file_span_of range) outer) }
{
    match outer {
        Some(outer) => {
            outer.file_id.0 == range.file_id.0
                && outer.range.start <= range.range.start
                && range.range.end <= outer.range.end
        }
        None => false,
    }
}

/// The place of the binding of `k` in which `m` lies.
fn binding_over(workspace: &Trees, k: &FoundMatch, m: &FoundMatch) -> Option<usize>
    ensures { MatchOption result ((i : ℕ) → LiesUnder (trees workspace.now) k.now m.now i → ⊥) (λ i. LiesUnder (trees workspace.now) k.now m.now i) }
{
    let range = workspace.original_range(m.node())?;
    let tree = k.node().tree;
    for (i, binding) in k.bindings().iter().enumerate() {
        if lies_in(range, binding.original_range(workspace, tree)) {
            return Some(i);
        }
    }
    None
}

/// Whether a placeholder of the match holds all of its node. Only then is what a later rule matches at this node ever kept.
pub fn holds_own_node(workspace: &Trees, m: &FoundMatch) -> bool
    ensures { IsTrue result ↔ LiesInPlaceholder (trees workspace.now) m.now m.now }
{
    binding_over(workspace, m, m).is_some()
}

/// The place of the match that a holder names.
fn place_of(holder: Option<Holder>) -> Option<usize>
    ensures { result ≡ option_map (λ holder. holder.place) holder }
{
    holder.map(|holder| holder.place)
}

impl Nest {
    /// The place of the nearest kept match over `m`, which comes behind all kept ones.
    fn nearest(&self, workspace: &Trees, m: &FoundMatch) -> Option<usize>
        requires built { IsBuilt workspace.now }
        requires held { AreHeld (trees workspace.now) self.now.matches.items self.now.holders.items }
        requires behind { All (λ k. ComesBefore (trees workspace.now) k m.now) self.now.matches.items }
        requires match_in { IsMatch (trees workspace.now) m.now }
        ensures { MatchOption result (IsOutermost (trees workspace.now) self.now.matches.items m.now) (λ p. IsNearestAt (trees workspace.now) self.now.matches.items m.now p) }
    {
        let mut candidate = self.matches.len().checked_sub(1);
        while let Some(place) = candidate {
            if is_over(workspace, &self.matches[place], m) {
                return Some(place);
            }
            candidate = place_of(self.holders[place]);
        }
        None
    }

    /// What holds a match that comes behind all kept ones, if it lies in a placeholder of each of these over it.
    fn listed(&self, workspace: &Trees, m: &FoundMatch) -> Option<Option<Holder>>
        requires built { IsBuilt workspace.now }
        requires held { AreHeld (trees workspace.now) self.now.matches.items self.now.holders.items }
        requires behind { All (λ k. ComesBefore (trees workspace.now) k m.now) self.now.matches.items }
        requires match_in { IsMatch (trees workspace.now) m.now }
        ensures { MatchOption result (Fits (trees workspace.now) self.now.matches.items m.now → ⊥)
            (λ holder. Fits (trees workspace.now) self.now.matches.items m.now × IsHeld (trees workspace.now) self.now.matches.items m.now holder) }
    {
        match self.nearest(workspace, m) {
            None => Some(None),
            Some(place) => match binding_over(workspace, &self.matches[place], m) {
                Some(binding) => Some(Some(Holder { place, binding })),
                None => None,
            },
        }
    }

    /// Keeps a match that comes behind all kept ones, if it lies in a placeholder of each of these over it.
    fn consider(&mut self, workspace: &Trees, m: FoundMatch) -> Result<(), AllocError>
        requires built { IsBuilt workspace.now }
        requires held { AreHeld (trees workspace.now) self.old.matches.items self.old.holders.items }
        requires behind { All (λ k. ComesBefore (trees workspace.now) k m) self.old.matches.items }
        requires match_in { IsMatch (trees workspace.now) m }
        ensures kept { IfOk result (λ _. IsKeptIfFits (trees workspace.now) self.old.matches.items m self.new.matches.items) }
        ensures held { IfOk result (λ _. AreHeld (trees workspace.now) self.new.matches.items self.new.holders.items) }
    {
        if let Some(holder) = self.listed(workspace, &m) {
            self.matches.push(m)?;
            self.holders.push(holder)?;
        }
        Ok(())
    }
}

/// The kept ones among the matches that are found, which come in order, with what holds them.
pub(crate) fn keep_in_order(
    alloc: Global,
    workspace: &Trees,
    found: Vec<FoundMatch>,
) -> Result<Nest, AllocError>
    requires built { IsBuilt workspace.now }
    requires matches { All (IsMatch (trees workspace.now)) found.items }
    requires in_order { AllPairs (ComesBefore (trees workspace.now)) found.items }
    ensures kept { IfOk result (λ nest. AreKept (trees workspace.now) found.items nest.matches.items) }
    ensures held { IfOk result (λ nest. AreHeld (trees workspace.now) nest.matches.items nest.holders.items) }
{
    let matches = Vec::with_capacity(alloc, found.len())?;
    let holders = Vec::with_capacity(alloc, found.len())?;
    let mut nest = Nest { matches, holders };
    for m in found {
        nest.consider(workspace, m)?;
    }
    Ok(nest)
}
