//! The search for the matches of one rule that a path leads.
ghost use Rattle.std.specs.Prelude.{◌≡◌, ◌+◌, ◌≤◌, false, [], ◌∷◌, IfOk, IfSome, length, option_map};
ghost use Rattle.ssr_syntax_tree.specs.Syntax.{tokens_of};
ghost use Rattle.ssr_base_trees.specs.Workspace.{trees};
ghost use Rattle.ssr_base_trees.specs.Built.{IsBuilt};
ghost use Rattle.ide_ssr_search.specs.Permitted.{names_self};
ghost use Rattle.ide_ssr_search.specs.Tries.{AreTried};
ghost use Rattle.ide_ssr_leading.specs.Private.LedRules.{AreLedTo, TellsMatch, AreFoundAt, AreFoundBy};

use crate::led::led_to;
use crate::reached::is_open;
use ide_ssr_bindings::{Binding, FoundMatch};
use ide_ssr_matching::Tries;
use ide_ssr_resolved_rule::ResolvedRule;
use ide_ssr_search::{Context, match_whole};
use ssr_base_trees::{NodeId, Semantics, Trees};
use std::alloc::{AllocError, Global};
use std::collections::BTreeSet;

/// The nodes that usages lead to, each once, of a path that is so deep in the pattern.
fn nodes_led_to(
    alloc: Global,
    workspace: &Trees,
    depth: u32,
    usages: &[NodeId],
) -> Result<Vec<NodeId>, AllocError>
    ensures nodes { IfOk result (λ nodes. AreLedTo (trees workspace.now) depth usages.now nodes.items) }
    ensures few { IfOk result (λ nodes. length nodes.items ≤ length usages.now) }
{
    let mut known = BTreeSet::new(alloc);
    let mut nodes = Vec::new(alloc);
    for usage in usages {
        let Some(node) = led_to(workspace, depth, *usage) else {
            continue;
        };
        if !known.insert(node)? {
            continue;
        }
        nodes.push(node)?;
    }
    Ok(nodes)
}

/// A rule whose search a path leads: its place among the rules, and how many nodes of its pattern are above that path.
#[derive(Clone, Copy)]
pub(crate) struct LedRule<'a> {
    pub(crate) workspace: &'a Trees,
    pub(crate) context: &'a Context,
    pub(crate) rule: &'a ResolvedRule,
    pub(crate) place: usize,
    pub(crate) depth: u32,
}

impl<'a> LedRule<'a> {
    /// What the placeholders hold at a node, if the rule is permitted there, which is asked first, and matches as a whole.
    fn match_at<S: Semantics>(
        &self,
        alloc: Global,
        semantics: &S,
        node: NodeId,
        tries: &mut Tries,
    ) -> Result<Option<Vec<Binding>>, AllocError>
        requires built { IsBuilt self.now.workspace.now }
        requires led { names_self (tokens_of self.now.rule.now.pattern) ≡ false }
        ensures count { tries.new ≤ tries.old + 1 }
        ensures counted { IfOk result (λ found. IfSome found (λ _. tries.new ≡ tries.old + 1)) }
        ensures grows { tries.old ≤ tries.new }
        ensures found { IfOk result (λ found. TellsMatch self.now.workspace.now (S.meanings semantics.now) self.now.context.now self.now.rule.now node (option_map (λ v. v.items) found)) }
    {
        if !is_open(self.workspace, self.context.restrictions(), node) {
            return Ok(None);
        }
        match_whole(alloc, semantics, self.workspace, self.rule, node, tries)
    }

    /// Adds the match at a node.
    fn add_at<S: Semantics>(
        &self,
        alloc: Global,
        semantics: &S,
        node: NodeId,
        tries: &mut Tries,
        found: &mut Vec<FoundMatch>,
    ) -> Result<(), AllocError>
        requires built { IsBuilt self.now.workspace.now }
        requires led { names_self (tokens_of self.now.rule.now.pattern) ≡ false }
        ensures count { tries.new ≤ tries.old + 1 }
        ensures tried { IfOk result (λ _. AreTried found.old.items found.new.items tries.old tries.new) }
        ensures found { IfOk result (λ _. AreFoundAt self.now.workspace.now (S.meanings semantics.now) self.now.context.now self.now.rule.now self.now.place (node ∷ []) found.old.items found.new.items) }
    {
        let Some(bindings) = self.match_at(alloc, semantics, node, tries)? else {
            return Ok(());
        };
        found.push(FoundMatch::new(self.place, node, bindings))?;
        Ok(())
    }

    /// Adds the matches at the nodes that usages lead to.
    pub(crate) fn add_led<S: Semantics>(
        &self,
        alloc: Global,
        semantics: &S,
        usages: &[NodeId],
        tries: &mut Tries,
        found: &mut Vec<FoundMatch>,
    ) -> Result<(), AllocError>
        requires built { IsBuilt self.now.workspace.now }
        requires led { names_self (tokens_of self.now.rule.now.pattern) ≡ false }
        ensures count { tries.new ≤ tries.old + length usages.now }
        ensures tried { IfOk result (λ _. AreTried found.old.items found.new.items tries.old tries.new) }
        ensures found { IfOk result (λ _. AreFoundBy self.now.workspace.now (S.meanings semantics.now) self.now.context.now self.now.rule.now self.now.place self.now.depth usages.now found.old.items found.new.items) }
    {
        for node in &nodes_led_to(alloc, self.workspace, self.depth, usages)? {
            self.add_at(alloc, semantics, *node, tries, found)?;
        }
        Ok(())
    }
}
