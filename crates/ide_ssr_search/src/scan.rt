//! All matches of rules, found by trying every node.
ghost use Rattle.std.specs.Prelude.{ℕ, ◌≡◌, ◌+◌, ◌≤◌, ◌↔◌, IsTrue, true, IfOk, IfSome, AllPairs, length, option_map, replicate};
ghost use Rattle.ssr_syntax_tree.specs.Places.{HasNode};
ghost use Rattle.ssr_base_trees.specs.Workspace.{trees, node_id};
ghost use Rattle.ide_ssr_bindings.specs.Found.{AreMatches};
ghost use Rattle.ide_ssr_nesting.specs.Kept.{AreEnough};
ghost use Rattle.ide_ssr_search.specs.Found.{IsFound, IsFoundOf, Precedes};
ghost use Rattle.ide_ssr_search.specs.Tries.{IsMostOf, AreTried};
ghost use Rattle.ide_ssr_search.specs.Private.KnownTrees.{IsKnownTree, KnowsShut};
ghost use Rattle.ide_ssr_search.specs.Private.Roots.{IsAskedBy, AreRules};
ghost use Rattle.ide_ssr_search.specs.Private.Shut.{IsShutIn};
ghost use Rattle.ide_ssr_search.specs.Private.Scan.{AreScanned, ShadowLater, CountsTry, KeepsTo, TellsMatch, Adds, scanned};

use crate::context::Context;
use crate::known_tree::KnownTree;
use crate::roots::{Asked, Rules};
use crate::whole::{Ground, match_in};
use crate::words::word_of;
use ide_ssr_bindings::{Binding, FoundMatch};
use ide_ssr_matching::Tries;
use ide_ssr_nesting::holds_own_node;
use ide_ssr_resolved_rule::ResolvedRule;
use ssr_base_trees::{NodeId, Semantics, Trees};
use ssr_syntax_tree::NodeNo;
use std::alloc::{AllocError, Global};
use std::collections::BTreeSet;

/// Rules, and beside each of them a flag that says whether it is searched.
#[derive(Clone, Copy)]
pub struct Wanted<'r, 'f> {
    pub rules: &'r [ResolvedRule],
    pub flags: &'f [bool],
}

/// A rule, its place among the rules, and what it asks.
#[derive(Clone, Copy)]
struct OneRule<'a> {
    place: usize,
    rule: &'a ResolvedRule,
    asked: Asked<'a>,
}

/// The scan of a tree: the rules that are tried at its nodes, and what is known of it.
#[derive(Clone, Copy)]
struct TreeScan<'a, 'r, 'f, S: Semantics> {
    alloc: Global,
    semantics: &'a S,
    rules: &'r Rules<'a, 'f>,
    known: KnownTree<'a>,
}

impl<'a, 'r, 'f, S: Semantics> TreeScan<'a, 'r, 'f, S> {
    /// What the placeholders of a rule hold at a node that nothing above it shuts in, if the rule is permitted there, which is
    /// asked first, and matches as a whole.
    fn match_of(
        &self,
        one: OneRule<'_>,
        node: NodeNo,
        tries: &mut Tries,
    ) -> Result<Option<Vec<Binding>>, AllocError>
        requires known { IsKnownTree self.now.known }
        requires asked { IsAskedBy one.rule.now one.asked }
        requires has { HasNode self.now.known.tree.now node.0 }
        requires free { ¬ IsShutIn (trees self.now.known.workspace.now) (node_id self.now.known.number node.0) }
        ensures count { CountsTry self.now.known.workspace.now self.now.known.context.now one.entry.rule.now (node_id self.now.known.number node.0) tries.old tries.new }
        ensures counted { IfOk result (λ found. IfSome found (λ _. tries.new ≡ tries.old + 1)) }
        ensures found { IfOk result (λ found. TellsMatch self.now.known.workspace.now (S.meanings self.now.semantics.now) self.now.known.context.now one.entry.rule.now (node_id self.now.known.number node.0) (option_map (λ v. v.items) found)) }
    {
        if !one.asked.root.is_met(self.known.tree, node) {
            return Ok(None);
        }
        if !self.known.is_permitted(one.asked, node) {
            return Ok(None);
        }
        let ground = Ground {
            workspace: self.known.workspace,
            tree: self.known.tree,
            bounds: self.known.bounds,
        };
        let at = self.known.id(node);
        match_in(self.alloc, self.semantics, ground, one.rule, at, tries)
    }

    /// Adds the match of a rule at a node that nothing above it shuts in. Tells whether it shadows all matches of later rules
    /// there: the search then keeps none of these.
    fn add_match(
        &self,
        one: OneRule<'_>,
        node: NodeNo,
        tries: &mut Tries,
        found: &mut Vec<FoundMatch>,
    ) -> Result<bool, AllocError>
        requires known { IsKnownTree self.now.known }
        requires asked { IsAskedBy one.rule.now one.asked }
        requires has { HasNode self.now.known.tree.now node.0 }
        requires free { ¬ IsShutIn (trees self.now.known.workspace.now) (node_id self.now.known.number node.0) }
        ensures count { CountsTry self.now.known.workspace.now self.now.known.context.now one.entry.rule.now (node_id self.now.known.number node.0) tries.old tries.new }
        ensures added { IfOk result (λ _. Adds self.now.known.workspace.now (S.meanings self.now.semantics.now) self.now.known.context.now one.entry.rule.now one.entry.place (node_id self.now.known.number node.0) found.old.items found.new.items) }
        ensures shadows { IfOk result (λ shadows. IsTrue shadows → ShadowLater self.now.known.workspace.now (node_id self.now.known.number node.0) one.entry.place found.new.items) }
        ensures tried { IfOk result (λ _. AreTried found.old.items found.new.items tries.old tries.new) }
    {
        let Some(bindings) = self.match_of(one, node, tries)? else {
            return Ok(false);
        };
        let m = FoundMatch::new(one.place, self.known.id(node), bindings);
        let shadows = !holds_own_node(self.known.workspace, &m);
        found.push(m)?;
        Ok(shadows)
    }

    /// Adds the matches of the wanted rules at a node that nothing above it shuts in. Where one of them shadows those of all
    /// later rules, these are not tried: many rules that match at the same nodes would fill the memory for nothing. Nor is a rule
    /// that asks for another word than the node's.
    fn add_matches(
        &self,
        node: NodeNo,
        tries: &mut Tries,
        found: &mut Vec<FoundMatch>,
    ) -> Result<(), AllocError>
        requires known { IsKnownTree self.now.known }
        requires rules { AreRules self.now.rules.now }
        requires has { HasNode self.now.known.tree.now node.0 }
        requires free { ¬ IsShutIn (trees self.now.known.workspace.now) (node_id self.now.known.number node.0) }
        requires found { AreScanned (scanned S.meanings self.now) self.now.known.number node.0 0 found.old.items }
        ensures found { IfOk result (λ _. AreScanned (scanned S.meanings self.now) self.now.known.number (node.0 + 1) 0 found.new.items) }
        ensures count { IfOk result (λ _. KeepsTo (scanned S.meanings self.now) self.now.known.number node.0 self.now.known.number (node.0 + 1) 0 tries.old tries.new) }
        ensures tried { IfOk result (λ _. AreTried found.old.items found.new.items tries.old tries.new) }
    {
        let word = word_of(self.known.tree, node);
        for (place, rule) in self.rules.rules.iter().enumerate() {
            if !self.rules.wants(place) {
                continue;
            }
            let asked = self.rules.asked[place];
            if !asked.allows(word) {
                continue;
            }
            let one = OneRule { place, rule, asked };
            let shadows = self.add_match(one, node, tries, found)?;
            if shadows {
                return Ok(());
            }
        }
        Ok(())
    }

    /// Adds the matches at a node, where it is known whether something above shuts it in.
    fn add_at(
        &self,
        node: NodeNo,
        shut: bool,
        tries: &mut Tries,
        found: &mut Vec<FoundMatch>,
    ) -> Result<(), AllocError>
        requires known { IsKnownTree self.now.known }
        requires rules { AreRules self.now.rules.now }
        requires has { HasNode self.now.known.tree.now node.0 }
        requires shut { IsTrue shut ↔ IsShutIn (trees self.now.known.workspace.now) (node_id self.now.known.number node.0) }
        requires found { AreScanned (scanned S.meanings self.now) self.now.known.number node.0 0 found.old.items }
        ensures found { IfOk result (λ _. AreScanned (scanned S.meanings self.now) self.now.known.number (node.0 + 1) 0 found.new.items) }
        ensures count { IfOk result (λ _. KeepsTo (scanned S.meanings self.now) self.now.known.number node.0 self.now.known.number (node.0 + 1) 0 tries.old tries.new) }
        ensures tried { IfOk result (λ _. AreTried found.old.items found.new.items tries.old tries.new) }
    {
        if shut {
            return Ok(());
        }
        self.add_matches(node, tries, found)
    }

    /// Adds the matches in the tree, and its macro calls that shut in what they stand for.
    fn add_found(
        &self,
        shut: &mut BTreeSet<NodeId>,
        tries: &mut Tries,
        found: &mut Vec<FoundMatch>,
    ) -> Result<(), AllocError>
        requires known { IsKnownTree self.now.known }
        requires rules { AreRules self.now.rules.now }
        requires shut { KnowsShut self.now.known.workspace.now self.now.known.number 0 shut.old }
        requires found { AreScanned (scanned S.meanings self.now) self.now.known.number 0 0 found.old.items }
        ensures shut { IfOk result (λ _. KnowsShut self.now.known.workspace.now (self.now.known.number + 1) 0 shut.new) }
        ensures found { IfOk result (λ _. AreScanned (scanned S.meanings self.now) (self.now.known.number + 1) 0 0 found.new.items) }
        ensures count { IfOk result (λ _. KeepsTo (scanned S.meanings self.now) self.now.known.number 0 (self.now.known.number + 1) 0 0 tries.old tries.new) }
        ensures tried { IfOk result (λ _. AreTried found.old.items found.new.items tries.old tries.new) }
    {
        let count = self.known.tree.node_count();
        let kinds = self.rules.kinds_in(self.known.tree);
        // The first number behind all nodes so far that shut in what is below them: a node before it is shut in.
        let mut past = if self.known.shut { count } else { 0 };
        for number in 0..count {
            let node = NodeNo(number);
            if !kinds.has(self.known.tree.kind(node)) {
                continue;
            }
            self.add_at(node, number < past, tries, found)?;
            past = self.known.past(node).max(past);
            self.known.add_shut(node, number < past, shut)?;
        }
        Ok(())
    }
}

/// All matches of the rules in a workspace, whose paths stand for what the provider tells, but for some that are shadowed, and so
/// never kept: each node of each tree is looked at, and a rule is tried there if it is permitted and no earlier one shadows it.
/// They come by the numbers of their trees, in a tree by those of their nodes, and at a node by the places of their rules. Each
/// of them was tried, as the counter tells.
pub fn find_matches<S: Semantics>(
    alloc: Global,
    workspace: &Trees,
    semantics: &S,
    context: &Context,
    rules: &[ResolvedRule],
    tries: &mut Tries,
) -> Result<Vec<FoundMatch>, AllocError>
    ensures found { IfOk result (λ found. AreEnough (trees workspace.now) (IsFound workspace.now (S.meanings semantics.now) context.now rules.now) found.items) }
    ensures in_order { IfOk result (λ found. AllPairs Precedes found.items) }
    ensures matches { IfOk result (λ found. AreMatches (trees workspace.now) found.items) }
    ensures count { IfOk result (λ _. (most : ℕ) → IsMostOf workspace.now context.now rules.now (replicate (length rules.now) true) most → tries.new ≤ tries.old + most) }
    ensures tried { IfOk result (λ found. tries.old + length found.items ≤ tries.new) }
{
    let flags = vec![in alloc; true; rules.len()]?;
    let wanted = Wanted {
        rules,
        flags: &flags,
    };
    find_wanted(alloc, workspace, semantics, context, wanted, tries)
}

/// The matches of the wanted rules alone, in the order of `find_matches`. The others are passed over. Each wanted rule is tried
/// once at most at a node, and only where it is permitted; each match was tried.
pub fn find_wanted<'a, 'f, S: Semantics>(
    alloc: Global,
    workspace: &'a Trees,
    semantics: &'a S,
    context: &'a Context,
    wanted: Wanted<'a, 'f>,
    tries: &mut Tries,
) -> Result<Vec<FoundMatch>, AllocError>
    ensures found { IfOk result (λ found. AreEnough (trees workspace.now) (IsFoundOf workspace.now (S.meanings semantics.now) context.now wanted.entry.rules.now wanted.entry.flags.now) found.items) }
    ensures in_order { IfOk result (λ found. AllPairs Precedes found.items) }
    ensures count { IfOk result (λ _. (most : ℕ) → IsMostOf workspace.now context.now wanted.entry.rules.now wanted.entry.flags.now most → tries.new ≤ tries.old + most) }
    ensures tried { IfOk result (λ found. tries.old + length found.items ≤ tries.new) }
{
    let tried = Rules::new(alloc, wanted.rules, wanted.flags)?;
    let mut found = Vec::new(alloc);
    let mut shut = BTreeSet::new(alloc);
    let mut inside = Vec::with_capacity(alloc, workspace.file_count() as usize)?;
    let mut number = 0;
    while let Some(tree) = workspace.tree(number) {
        let known = KnownTree::new(workspace, context, tree, number, &shut, &inside);
        let scan = TreeScan {
            alloc,
            semantics,
            rules: &tried,
            known,
        };
        scan.add_found(&mut shut, tries, &mut found)?;
        inside.push(known.inside)?;
        number += 1;
    }
    Ok(found)
}
