//! All matches of rules, found at the nodes that usages lead to, and where no path leads the search by the scan.
ghost use Rattle.std.specs.Prelude.{ℕ, ◌≡◌, ◌+◌, ◌≤◌, false, IsTrue, All, IfOk, OnOk, length};
ghost use Rattle.ssr_base_trees.specs.Workspace.{trees};
ghost use Rattle.ssr_base_trees.specs.Built.{IsBuilt};
ghost use Rattle.ide_ssr_bindings.specs.Found.{AreMatches};
ghost use Rattle.ide_ssr_nesting.specs.Kept.{AreEnough};
ghost use Rattle.ide_ssr_resolving.specs.Resolved.{IsResolvedBy};
ghost use Rattle.ide_ssr_search.specs.Found.{IsFound, IsFoundOf};
ghost use Rattle.ide_ssr_search.specs.Tries.{IsMostOf};
ghost use Rattle.ide_ssr_leading.specs.Found.{IsLedFound};
ghost use Rattle.ide_ssr_leading.specs.Tries.{IsMost};
ghost use Rattle.ide_ssr_leading.specs.Private.Finding.{AreLedFoundTo, are_others, usages_in};

use crate::led::Lead;
use crate::led_rules::LedRule;
use crate::named::are_named;
use crate::usages::know_usages;
use ide_ssr_bindings::FoundMatch;
use ide_ssr_matching::Tries;
use ide_ssr_resolved_rule::ResolvedRule;
use ide_ssr_search::{Context, Wanted, find_wanted};
use ssr_base_trees::{Semantics, Trees};
use std::alloc::{AllocError, Global};
use std::collections::BTreeMap;

/// What a search goes over, and for which rules.
#[derive(Clone, Copy)]
struct Searched<'a> {
    workspace: &'a Trees,
    context: &'a Context,
    rules: &'a [ResolvedRule],
}

/// The matches of the rules that a path leads, and for each rule whether it is one of the others.
#[derive(Drop)]
struct LedMatches {
    found: Vec<FoundMatch>,
    others: Vec<bool>,
}

/// Whether no flag is set.
fn are_unset(flags: &[bool]) -> bool
    ensures { IsTrue result → All (λ flag. flag ≡ false) flags.now }
{
    for flag in flags {
        if *flag {
            return false;
        }
    }
    true
}

impl<'a> Searched<'a> {
    /// Finds the matches of the rules that a path leads. A provider is asked once for the usages of a thing.
    fn find_by_usages<S: Semantics>(
        &self,
        alloc: Global,
        semantics: &S,
        tries: &mut Tries,
    ) -> Result<LedMatches, AllocError>
        requires { IsBuilt self.now.workspace.now }
        ensures count { OnOk result (tries.new ≤ tries.old + usages_in (S.meanings semantics.now) self.now.rules.now) }
        ensures found { IfOk result (λ led. AreLedFoundTo self.now.workspace.now (S.meanings semantics.now) self.now.context.now self.now.rules.now (length self.now.rules.now) led.found.items) }
        ensures others { IfOk result (λ led. led.others.items ≡ are_others self.now.rules.now) }
        ensures tried { IfOk result (λ led. tries.old + length led.found.items ≤ tries.new) }
    {
        let mut known = BTreeMap::new(alloc);
        let mut found = Vec::new(alloc);
        let mut others = Vec::new(alloc);
        for (place, rule) in self.rules.iter().enumerate() {
            let Some(lead) = Lead::of(rule) else {
                others.push(true)?;
                continue;
            };
            others.push(false)?;
            know_usages(alloc, semantics, lead.res, &mut known)?;
            let led = LedRule {
                workspace: self.workspace,
                context: self.context,
                rule,
                place,
                depth: lead.depth,
            };
            led.add_led(
                alloc,
                semantics,
                known.get(&lead.res).unwrap(),
                tries,
                &mut found,
            )?;
        }
        Ok(LedMatches { found, others })
    }

    /// The matches of the rules that no path leads, which are the wanted ones, but for shadowed ones. Where each is led no node is
    /// gone through.
    fn find_others<S: Semantics>(
        &self,
        alloc: Global,
        semantics: &S,
        others: Wanted<'_, '_>,
        tries: &mut Tries,
    ) -> Result<Vec<FoundMatch>, AllocError>
        ensures found { IfOk result (λ found. AreEnough (trees self.now.workspace.now) (IsFoundOf self.now.workspace.now (S.meanings semantics.now) self.now.context.now others.entry.rules.now others.entry.flags.now) found.items) }
        ensures count { IfOk result (λ _. (most : ℕ) → IsMostOf self.now.workspace.now self.now.context.now others.entry.rules.now others.entry.flags.now most → tries.new ≤ tries.old + most) }
        ensures tried { IfOk result (λ found. tries.old + length found.items ≤ tries.new) }
    {
        if are_unset(others.flags) {
            return Ok(Vec::new(alloc));
        }
        find_wanted(
            alloc,
            self.workspace,
            semantics,
            self.context,
            others,
            tries,
        )
    }

    /// All that the search finds, but for some shadowed matches: those of the rules that a path leads, and behind them those of
    /// the others.
    fn find_all<S: Semantics>(
        &self,
        alloc: Global,
        semantics: &S,
        tries: &mut Tries,
    ) -> Result<Vec<FoundMatch>, AllocError>
        requires { IsBuilt self.now.workspace.now }
        ensures count { IfOk result (λ _. (most : ℕ) → IsMost self.now.workspace.now (S.meanings semantics.now) self.now.context.now self.now.rules.now most → tries.new ≤ tries.old + most) }
        ensures led { IfOk result (λ all. AreEnough (trees self.now.workspace.now) (IsLedFound self.now.workspace.now (S.meanings semantics.now) self.now.context.now self.now.rules.now) all.items) }
        ensures tried { IfOk result (λ all. tries.old + length all.items ≤ tries.new) }
    {
        let led = self.find_by_usages(alloc, semantics, tries)?;
        let LedMatches { mut found, others } = led;
        let wanted = Wanted {
            rules: self.rules,
            flags: &others,
        };
        let mut rest = self.find_others(alloc, semantics, wanted, tries)?;
        found.append(&mut rest)?;
        Ok(found)
    }
}

/// All matches of the rules in a workspace, whose paths stand for what the provider tells, but for some that are shadowed and so
/// never kept. A rule is tried where usages of its picked path lead; without one, at each node where it is permitted. Each
/// match was tried, as the counter tells. The matches come in no order of use.
pub fn find_led<S: Semantics>(
    alloc: Global,
    workspace: &Trees,
    semantics: &S,
    context: &Context,
    rules: &[ResolvedRule],
    tries: &mut Tries,
) -> Result<Vec<FoundMatch>, AllocError>
    requires known { All (IsResolvedBy (S.meanings semantics.now)) rules.now }
    ensures found { IfOk result (λ all. AreEnough (trees workspace.now) (IsFound workspace.now (S.meanings semantics.now) context.now rules.now) all.items) }
    ensures matches { IfOk result (λ all. AreMatches (trees workspace.now) all.items) }
    ensures count { IfOk result (λ _. (most : ℕ) → IsMost workspace.now (S.meanings semantics.now) context.now rules.now most → tries.new ≤ tries.old + most) }
    ensures tried { IfOk result (λ all. tries.old + length all.items ≤ tries.new) }
{
    are_named(workspace);
    let searched = Searched {
        workspace,
        context,
        rules,
    };
    searched.find_all(alloc, semantics, tries)
}
