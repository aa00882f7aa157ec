//! The debug list: what is told of rules at the nodes that a snippet shows.

ghost use Rattle.std.specs.Prelude.{◌≡◌, ◌↔◌, IsTrue, IfOk, List, Some, All, AllPairs, is_none, is_some, not, length};
ghost use Rattle.ssr_syntax_tree.specs.Places.{HasNode};
ghost use Rattle.ssr_base_trees.specs.Workspace.{trees, tree_of};
ghost use Rattle.ssr_base_trees.specs.Built.{IsNodeOf};
ghost use Rattle.ide_ssr_bindings.specs.declared.bindings.Binding.{Binding};
ghost use Rattle.ide_ssr_search.specs.WholeMatches.{IsWholeMatch};
ghost use Rattle.ide_ssr_debugging.specs.Debugging.{NodeBefore, AreEntries};
ghost use Rattle.ide_ssr_debugging.specs.Private.Entries.{AreToldAt, AreToldOf};

use crate::expressions::asks;
use crate::reasons::Comparison;
use crate::shown::shown_nodes;
use ide_ssr_matching::Tries;
use ide_ssr_resolved_rule::ResolvedRule;
use ide_ssr_search::match_whole;
use ssr_base_trees::{FileId, NodeId, Semantics, Trees};
use ssr_syntax_tree::{NodeNo, Tree};
use std::alloc::{AllocError, Global};
use std::fmt;
use std::marker::Model;

/// What is told of a rule at a node that a snippet shows.
#[derive(Drop)]
pub struct MatchDebugInfo {
    node: NodeId,
    rule: usize,
    /// Why the rule doesn't match; none where it does.
    reason: Option<String>,
}

impl Model for MatchDebugInfo {
    ghost use Rattle.std.specs.Prelude.{is_none};
    ghost use Rattle.ide_ssr_debugging.specs.Debugging.{Entry};

    ghost Value = { Entry };

    ghost view = { λ info. record { node = info.node; rule = info.rule; matched = is_none info.reason } };
}

/// Tells whether the rule matches, or why it doesn't.
impl fmt::Debug for MatchDebugInfo {
    fn fmt<W: fmt::Write>(&self, f: &mut fmt::Formatter<W>) -> fmt::Result {
        match self.match_failure_reason() {
            None => write!(f, "Node matched"),
            Some(reason) => write!(f, "Node failed to match because: {reason}"),
        }
    }
}

impl MatchDebugInfo {
    /// The node of the code.
    pub fn node(&self) -> NodeId
        ensures { result ≡ self.now.node }
    {
        self.node
    }

    /// The place of the rule among the rules.
    pub fn rule_index(&self) -> usize
        ensures { result ≡ self.now.rule }
    {
        self.rule
    }

    /// Why the rule doesn't match at the node; none where it does. The words are without a promise.
    pub fn match_failure_reason(&self) -> Option<&str>
        ensures { is_some result ≡ not self.now.matched }
    {
        match &self.reason {
            Some(reason) => Some(reason.as_str()),
            None => None,
        }
    }
}

/// Whether a rule matches as a whole at a node.
fn matches<S: Semantics>(
    alloc: Global,
    semantics: &S,
    workspace: &Trees,
    rule: &ResolvedRule,
    node: NodeId,
) -> Result<bool, AllocError>
    requires { IsNodeOf (trees workspace.now) node }
    ensures { IfOk result (λ is. IsTrue is ↔ ((bindings : List Binding) × IsWholeMatch (trees workspace.now) (S.meanings semantics.now) rule.now node bindings)) }
{
    let found = match_whole(alloc, semantics, workspace, rule, node, &mut Tries::none())?;
    Ok(found.is_some())
}

/// Why a rule doesn't match as a whole at a node of a tree; none where it does.
fn reason_at<S: Semantics>(
    alloc: Global,
    semantics: &S,
    workspace: &Trees,
    rule: &ResolvedRule,
    tree: &Tree,
    node: NodeId,
) -> Result<Option<String>, AllocError>
    requires tree { tree_of workspace.now node.tree ≡ Some tree.now }
    requires has { HasNode tree.now node.node.0 }
    requires node { IsNodeOf (trees workspace.now) node }
    ensures { IfOk result (λ reason. IsTrue (is_none reason) ↔ ((bindings : List Binding) × IsWholeMatch (trees workspace.now) (S.meanings semantics.now) rule.now node bindings)) }
{
    if matches(alloc, semantics, workspace, rule, node)? {
        return Ok(None);
    }
    let comparison = Comparison {
        alloc,
        semantics,
        rule,
        code: tree,
        node,
    };
    Ok(Some(comparison.reason()?))
}

/// What is told of the rules that ask for a node of a tree.
fn told_at<S: Semantics>(
    alloc: Global,
    workspace: &Trees,
    semantics: &S,
    rules: &[ResolvedRule],
    tree: &Tree,
    node: NodeId,
) -> Result<Vec<MatchDebugInfo>, AllocError>
    requires tree { tree_of workspace.now node.tree ≡ Some tree.now }
    requires has { HasNode tree.now node.node.0 }
    requires node { IsNodeOf (trees workspace.now) node }
    ensures { IfOk result (λ told. AreToldAt (trees workspace.now) (S.meanings semantics.now) rules.now tree.now node (length rules.now) told.items) }
{
    let mut told = Vec::new(alloc);
    for (place, rule) in rules.iter().enumerate() {
        if !asks(rule.pattern().kind(NodeNo(0)), tree.kind(node.node)) {
            continue;
        }
        let reason = reason_at(alloc, semantics, workspace, rule, tree, node)?;
        told.push(MatchDebugInfo {
            node,
            rule: place,
            reason,
        })?;
    }
    Ok(told)
}

/// What is told of the rules at nodes, which are in order.
fn told_of<S: Semantics>(
    alloc: Global,
    workspace: &Trees,
    semantics: &S,
    rules: &[ResolvedRule],
    nodes: &[NodeId],
) -> Result<Vec<MatchDebugInfo>, AllocError>
    requires nodes { All (IsNodeOf (trees workspace.now)) nodes.now }
    requires in_order { AllPairs (NodeBefore (trees workspace.now)) nodes.now }
    ensures { IfOk result (λ told. AreToldOf workspace.now (S.meanings semantics.now) rules.now nodes.now told.items) }
{
    let mut told = Vec::new(alloc);
    for node in nodes {
        let Some(tree) = workspace.tree(node.tree) else {
            continue;
        };
        told.append(&mut told_at(alloc, workspace, semantics, rules, tree, *node)?)?;
    }
    Ok(told)
}

/// For each occurrence of a snippet in a file, also of those that overlap, each node other than a root whose original range is
/// that occurrence, in preorder with what a call stands for before the call's children; for each such node each rule whose
/// pattern's root has the node's kind or, like the node, is an expression, with whether it matches there as a whole. There is nothing to tell
/// for an empty snippet, or where there is no such file.
pub fn debug_where_text_equal<S: Semantics>(
    alloc: Global,
    workspace: &Trees,
    semantics: &S,
    rules: &[ResolvedRule],
    file: FileId,
    snippet: &str,
) -> Result<Vec<MatchDebugInfo>, AllocError>
    ensures { IfOk result (λ told. AreEntries workspace.now (S.meanings semantics.now) rules.now file snippet.now told.items) }
{
    let nodes = shown_nodes(alloc, workspace, file, snippet)?;
    told_of(alloc, workspace, semantics, rules, &nodes)
}
