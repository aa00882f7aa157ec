//! The path of a pattern that leads the search for its matches, and the nodes that usages of it lead to.
ghost use Rattle.std.specs.Prelude.{◌≡◌, IfSome, Some, None};
ghost use Rattle.std.specs.Option.{option_map};
ghost use Rattle.ssr_syntax_tree.specs.Places.{HasNode};
ghost use Rattle.ssr_base_trees.specs.Workspace.{trees};
ghost use Rattle.ssr_base_trees.specs.Laws.{climbed};
ghost use Rattle.ide_ssr_leading.specs.Leading.{longer, longest_of, picked_path, steps_from, kind_at, led_to};
ghost use Rattle.ide_ssr_leading.specs.Private.Leads.{lead_of};

use ide_ssr_resolved_rule::{ResolvedRule, UsedPath};
use ide_ssr_search::names_self;
use ssr_base_trees::{NodeId, Res, Trees};
use ssr_syntax_kinds::SyntaxKind;
use ssr_syntax_tree::{Element, Tree};

/// What leads the search for a rule: what the picked path stands for, and how many nodes of the pattern are above it.
#[derive(Clone, Copy)]
pub(crate) struct Lead {
    pub(crate) res: Res,
    pub(crate) depth: u32,
}

/// The one of two paths with the longer text; the first one, where both are as long.
fn longer(pattern: &Tree, best: Option<UsedPath>, path: UsedPath) -> UsedPath
    requires best { IfSome best (λ best. HasNode pattern.now best.node.0) }
    requires path { HasNode pattern.now path.node.0 }
    ensures path { result ≡ longer pattern.now best path }
    ensures has { HasNode pattern.now result.node.0 }
{
    let Some(best) = best else {
        return path;
    };
    if pattern.text(best.node).len() < pattern.text(path.node).len() {
        path
    } else {
        best
    }
}

/// Of the eligible paths that with the longest text, the first one on ties.
fn longest(rule: &ResolvedRule) -> Option<UsedPath>
    ensures path { result ≡ longest_of rule.now.pattern None rule.now.eligible_paths }
    ensures has { IfSome result (λ path. HasNode rule.now.pattern path.node.0) }
{
    let mut best = None;
    for path in rule.eligible_paths() {
        best = Some(longer(rule.pattern(), best, *path));
    }
    best
}

/// The path that leads the search for a rule, if one does: of the eligible ones that with the longest text in bytes, the first
/// one on ties. A rule whose pattern has `self` as a value is led by none.
#[tactic(auto, unfolding(crate::specs::Leading::picked_path))]
pub fn picked_path(rule: &ResolvedRule) -> Option<UsedPath>
    ensures path { result ≡ picked_path rule.now }
    ensures has { IfSome result (λ path. HasNode rule.now.pattern path.node.0) }
{
    if names_self(rule.pattern()) {
        return None;
    }
    longest(rule)
}

impl Lead {
    /// What leads the search for a rule, if a path does.
    pub(crate) fn of(rule: &ResolvedRule) -> Option<Lead>
        ensures { result ≡ option_map (lead_of rule.now) (picked_path rule.now) }
    {
        let path = picked_path(rule)?;
        Some(Lead {
            res: path.res,
            depth: rule.pattern().depth(path.node),
        })
    }
}

/// How many steps a match stands above a usage of this kind of a path that is so deep in the pattern.
fn steps_from(kind: SyntaxKind, depth: u32) -> Option<u32>
    ensures { result ≡ steps_from kind depth }
{
    if kind.is(SyntaxKind::PATH) {
        return Some(depth);
    }
    // A method call stands for the call of the pattern, two levels above the path that is called.
    if kind.is(SyntaxKind::METHOD_CALL_EXPR) && depth >= 2 {
        return Some(depth - 2);
    }
    None
}

/// The kind of a node, if there is one of this number.
fn kind_at(workspace: &Trees, node: NodeId) -> Option<SyntaxKind>
    ensures { result ≡ kind_at (trees workspace.now) node }
{
    let tree = workspace.tree(node.tree)?;
    if !tree.has(Element::Node(node.node)) {
        return None;
    }
    Some(tree.kind(node.node))
}

/// What stands so many steps above a node.
fn climbed(workspace: &Trees, steps: u32, node: NodeId) -> Option<NodeId>
    ensures { result ≡ climbed (trees workspace.now) steps node }
{
    let mut at = node;
    let mut left = steps;
    while left > 0 {
        let Some(above) = workspace.above(at) else {
            return None;
        };
        at = above;
        left -= 1;
    }
    Some(at)
}

/// The node that a usage leads to, of a path that is so deep in the pattern.
#[tactic(auto, unfolding(crate::specs::Leading::led_to))]
pub fn led_to(workspace: &Trees, depth: u32, usage: NodeId) -> Option<NodeId>
    ensures { result ≡ led_to (trees workspace.now) depth usage }
{
    let kind = kind_at(workspace, usage)?;
    let steps = steps_from(kind, depth)?;
    climbed(workspace, steps, usage)
}
