//! Matches in order, each once.

ghost use Rattle.std.specs.Prelude.{◌≡◌, ◌↔◌, All, AllPairs, Contains, IsTrue};
ghost use Rattle.std.specs.Ordering.{is_lt};
ghost use Rattle.ssr_base_trees.specs.Workspace.{trees};
ghost use Rattle.ssr_base_trees.specs.Built.{IsNodeOf, IsBuilt};
ghost use Rattle.ide_ssr_bindings.specs.Found.{FoundMatch as MatchValue, IsMatch, AreMatches};
ghost use Rattle.ide_ssr_nesting.specs.Kept.{ComesBefore};
ghost use Rattle.ide_ssr_nesting.specs.Private.Sorting.{is_node, is_ahead, is_same};

use crate::order::precedes;
use ide_ssr_bindings::FoundMatch;
use ssr_base_trees::{NodeId, Trees};
use ssr_syntax_tree::Element;
use std::cmp::Ordering;

/// Whether the workspace has a node.
pub(crate) fn is_node(workspace: &Trees, node: NodeId) -> bool
    ensures { result ≡ is_node (trees workspace.now) node }
{
    match workspace.tree(node.tree) {
        Some(tree) => tree.has(Element::Node(node.node)),
        None => false,
    }
}

/// Whether `k` comes before `m`: in the order of nodes, at a node in that of rules.
fn comes_before(workspace: &Trees, k: &FoundMatch, m: &FoundMatch) -> bool
    requires built { IsBuilt workspace.now }
    requires k_in { IsNodeOf (trees workspace.now) k.now.node }
    requires m_in { IsNodeOf (trees workspace.now) m.now.node }
    ensures { IsTrue result ↔ ComesBefore (trees workspace.now) k.now m.now }
{
    if k.node() == m.node() {
        k.rule() < m.rule()
    } else {
        precedes(workspace, k.node(), m.node())
    }
}

/// Whether `k` is sorted in front of `m`, where a match at a node that the workspace lacks, which no search finds, comes
/// behind all others.
fn is_ahead(workspace: &Trees, k: &FoundMatch, m: &FoundMatch) -> bool
    requires { IsBuilt workspace.now }
    ensures { result ≡ is_ahead (trees workspace.now) k.now m.now }
{
    if !is_node(workspace, k.node()) {
        return false;
    }
    if !is_node(workspace, m.node()) {
        return true;
    }
    comes_before(workspace, k, m)
}

fn compare(workspace: &Trees, k: &FoundMatch, m: &FoundMatch) -> Ordering
    requires { IsBuilt workspace.now }
    ensures { is_lt result ≡ is_ahead (trees workspace.now) k.now m.now }
{
    if is_ahead(workspace, k, m) {
        Ordering::Less
    } else if is_ahead(workspace, m, k) {
        Ordering::Greater
    } else {
        Ordering::Equal
    }
}

/// Whether two matches are of one rule at one node.
fn is_same(k: &FoundMatch, m: &FoundMatch) -> bool
    ensures { result ≡ is_same k.now m.now }
{
    k.node().tree == m.node().tree && k.node().node.0 == m.node().node.0 && k.rule() == m.rule()
}

/// Whether each match comes before the next one.
fn are_in_order(workspace: &Trees, found: &[FoundMatch]) -> bool
    requires built { IsBuilt workspace.now }
    requires each { All (IsMatch (trees workspace.now)) found.now }
    ensures { IsTrue result → AllPairs (ComesBefore (trees workspace.now)) found.now }
{
    for i in 1..found.len() {
        if !comes_before(workspace, &found[i - 1], &found[i]) {
            return false;
        }
    }
    true
}

/// Puts matches in order and drops repeated ones. Where they are in order, as a search finds them in files alone, nothing is
/// sorted.
pub(crate) fn put_in_order(workspace: &Trees, found: &mut Vec<FoundMatch>)
    requires built { IsBuilt workspace.now }
    requires matches { AreMatches (trees workspace.now) found.old.items }
    ensures in_order { AllPairs (ComesBefore (trees workspace.now)) found.new.items }
    ensures same { (m : MatchValue) → Contains found.new.items m ↔ Contains found.old.items m }
{
    if are_in_order(workspace, found) {
        return;
    }
    found.sort_unstable_by(|k, m| compare(workspace, k, m));
    found.dedup_by(|m, k| is_same(k, m));
}
