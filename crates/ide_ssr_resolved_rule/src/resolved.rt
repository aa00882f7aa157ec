//! A rule that resolves, as one value: its names, trees and used paths, and where its placeholders stand.
ghost use Rattle.std.specs.Prelude.{◌≡◌, ◌<◌, ◌^◌, length, map, string_bytes, IfOk};
ghost use Rattle.std.specs.Option.{IfSome, IsSomeAnd, option_copied};
ghost use Rattle.ssr_syntax_tree.specs.Places.{HasNode, HasToken, node_of};
ghost use Rattle.ide_ssr_resolved_rule.specs.Templates.{template_token};
ghost use Rattle.ide_ssr_resolved_rule.specs.Receivers.{is_receiver};
ghost use Rattle.ide_ssr_resolved_rule.specs.Placeholders.{placeholder_at, token_placeholders};
ghost use Rattle.ide_ssr_resolved_rule.specs.Private.Marks.{TellsRes};
ghost use Rattle.ide_ssr_resolved_rule.specs.Private.Placeholders.{placeholders};
ghost use Rattle.ide_ssr_resolved_rule.specs.Private.ReceiverTables.{TellsReceiversOf};
ghost use Rattle.ide_ssr_resolved_rule.specs.Private.TemplateTables.{TellsTokens};
ghost use Rattle.ide_ssr_resolved_rule.specs.QualifiedCalls.{HasCalls, call_at};
ghost use Rattle.ide_ssr_resolved_rule.specs.Resolved.{meets};
ghost use Rattle.ide_ssr_resolved_rule.specs.UsedPaths.{HasPaths, res_at};
ghost use Rattle.ide_ssr_resolved_rule.specs.Parts.{rule_of};

use crate::names::Names;
use crate::parts::RuleParts;
use crate::placeholders::{placeholders, token_placeholders};
use crate::qualified_calls::{QualifiedCall, call_at};
use crate::receivers::receivers;
use crate::templates::{TemplateToken, template_tokens};
use crate::used_paths::{UsedPath, res_by_node};
use ssr_base_trees::Res;
use ssr_syntax_kinds::{Fragment, Reach, SyntaxKind};
use ssr_syntax_tree::{NodeNo, TokenNo, Tree};
use std::alloc::{AllocError, Global};
use std::marker::Model;

/// What is looked up by the numbers of nodes and of tokens.
#[derive(Drop)]
struct Tables {
    /// Which placeholder each node of the pattern is.
    in_pattern: Vec<Option<u32>>,
    /// Which placeholder each token of the pattern is.
    in_pattern_tokens: Vec<Option<u32>>,
    /// What each token of the template is.
    in_template: Vec<TemplateToken>,
    /// Which placeholders are receivers of method calls of the template.
    receivers: Vec<bool>,
    /// What each node of the pattern stands for, if it is a used path.
    res_by_node: Vec<Option<Res>>,
}

impl Tables {
    /// The tables of a rule with these names and parts.
    fn of(alloc: Global, names: &Names<'_>, parts: &RuleParts) -> Result<Tables, AllocError>
        requires few { length names.now < 2 ^ 32 }
        requires has { HasPaths parts.now.pattern parts.now.pattern_paths.items }
        requires has_template { IfSome parts.now.template (λ template. HasPaths template parts.now.template_paths.items) }
        ensures in_pattern { IfOk result (λ tables. tables.in_pattern.items ≡ placeholders names.now parts.now.pattern) }
        ensures in_pattern_tokens { IfOk result (λ tables. tables.in_pattern_tokens.items ≡ token_placeholders names.now parts.now.pattern) }
        ensures in_template { IfOk result (λ tables. IfSome parts.now.template (λ tree. TellsTokens names.now parts.now.template_paths.items tree tables.in_template.items)) }
        ensures receivers { IfOk result (λ tables. TellsReceiversOf names.now parts.now.template tables.receivers.items) }
        ensures res_by_node { IfOk result (λ tables. TellsRes parts.now.pattern_paths.items tables.res_by_node.items) }
    {
        let paths = parts.pattern_paths.as_slice();
        let template = parts.template.as_ref();
        Ok(Tables {
            in_pattern: placeholders(alloc, names, &parts.pattern)?,
            in_pattern_tokens: token_placeholders(alloc, names, &parts.pattern)?,
            in_template: tokens_of_template(alloc, names, template, &parts.template_paths)?,
            receivers: receivers_of_template(alloc, names, template)?,
            res_by_node: res_by_node(alloc, &parts.pattern, paths)?,
        })
    }
}

/// One kind of a rule, ready for a search.
#[derive(Drop)]
pub struct ResolvedRule {
    parts: RuleParts,
    tables: Tables,
}

impl Model for ResolvedRule {
    ghost use Rattle.std.specs.Prelude.{◌≡◌, ◌<◌, ◌^◌, length, map, string_bytes};
    ghost use Rattle.std.specs.Option.{IfSome};
    ghost use Rattle.ide_ssr_resolved_rule.specs.Parts.{rule_of};
    ghost use Rattle.ide_ssr_resolved_rule.specs.Resolved.{ResolvedRule as RuleValue};
    ghost use Rattle.ide_ssr_resolved_rule.specs.ResolvedCode.{resolved_code};
    ghost use Rattle.ide_ssr_resolved_rule.specs.Private.Marks.{TellsRes};
    ghost use Rattle.ide_ssr_resolved_rule.specs.Private.Placeholders.{placeholders};
    ghost use Rattle.ide_ssr_resolved_rule.specs.Private.ReceiverTables.{TellsReceiversOf};
    ghost use Rattle.ide_ssr_resolved_rule.specs.Private.TemplateTables.{TellsTokens};
    ghost use Rattle.ide_ssr_resolved_rule.specs.Placeholders.{token_placeholders};
    ghost use Rattle.ide_ssr_resolved_rule.specs.QualifiedCalls.{HasCalls};
    ghost use Rattle.ide_ssr_resolved_rule.specs.UsedPaths.{HasPaths};

    ghost Value = { RuleValue };

    ghost coded = { resolved_code };

    ghost view = { λ rule. rule_of rule.parts };

    ghost invariant = { λ rule. record {
      in_pattern : rule.tables.in_pattern.items ≡ placeholders (map string_bytes rule.parts.names.items) rule.parts.pattern;
      in_pattern_tokens : rule.tables.in_pattern_tokens.items ≡ token_placeholders (map string_bytes rule.parts.names.items) rule.parts.pattern;
      in_template : IfSome rule.parts.template (λ template. TellsTokens (map string_bytes rule.parts.names.items) rule.parts.template_paths.items template rule.tables.in_template.items);
      receivers : TellsReceiversOf (map string_bytes rule.parts.names.items) rule.parts.template rule.tables.receivers.items;
      has_pattern : HasPaths rule.parts.pattern rule.parts.pattern_paths.items;
      res_by_node : TellsRes rule.parts.pattern_paths.items rule.tables.res_by_node.items;
      has_template : IfSome rule.parts.template (λ template. HasPaths template rule.parts.template_paths.items);
      has_calls : HasCalls rule.parts.pattern rule.parts.qualified_calls.items;
      has_eligible : HasPaths rule.parts.pattern rule.parts.eligible_paths.items;
    } };
}

impl ResolvedRule {
    /// The rule that has these parts. The names of its placeholders are handed in once more, as they are looked up.
    pub fn new(
        alloc: Global,
        names: &Names<'_>,
        parts: RuleParts,
    ) -> Result<ResolvedRule, AllocError>
        requires few { length names.now < 2 ^ 32 }
        requires same { map string_bytes parts.names.items ≡ names.now }
        requires pattern { HasPaths parts.pattern parts.pattern_paths.items }
        requires template { IfSome parts.template (λ template. HasPaths template parts.template_paths.items) }
        requires calls { HasCalls parts.pattern parts.qualified_calls.items }
        requires eligible { HasPaths parts.pattern parts.eligible_paths.items }
        ensures { IfOk result (λ rule. rule ≡ rule_of parts) }
    {
        let tables = Tables::of(alloc, names, &parts)?;
        Ok(ResolvedRule { parts, tables })
    }

    /// The names of the rule's placeholders, without `$`, in the order of the pattern.
    pub fn names(&self) -> &[String]
        ensures { map string_bytes result.now ≡ self.now.names }
    {
        self.parts.names.as_slice()
    }

    /// How much of Rust the trees were read in.
    pub fn reach(&self) -> Reach
        ensures { result ≡ self.now.reach }
    {
        self.parts.reach
    }

    /// What the template was read as, or the pattern, where there is no template.
    pub fn category(&self) -> Fragment
        ensures { result ≡ self.now.category }
    {
        self.parts.category
    }

    /// What matches have to look like, with stand-ins for placeholders.
    pub fn pattern(&self) -> &Tree
        ensures { result.now ≡ self.now.pattern }
    {
        &self.parts.pattern
    }

    /// What takes a match's place, with stand-ins for placeholders; a search pattern has none.
    pub fn template(&self) -> Option<&Tree>
        ensures { option_copied result ≡ self.now.template }
    {
        self.parts.template.as_ref()
    }

    /// Which placeholder a node of the pattern is: the place of its name among the names.
    pub fn placeholder(&self, node: NodeNo) -> Option<u32>
        requires { HasNode self.now.pattern node.0 }
        ensures { result ≡ placeholder_at self.now.names (node_of self.now.pattern node.0) }
    {
        self.tables.in_pattern[node.0 as usize]
    }

    /// Which placeholder each token of the pattern is: the place of its name among the names.
    pub fn token_placeholders(&self) -> &[Option<u32>]
        ensures { result.now ≡ token_placeholders self.now.names self.now.pattern }
    {
        self.tables.in_pattern_tokens.as_slice()
    }

    /// Whether a node of a kind meets all constraints of a placeholder: the one with this place among the names.
    #[tactic(auto, unfolding(crate::specs::Resolved::meets))]
    pub fn meets(&self, placeholder: u32, kind: SyntaxKind) -> bool
        ensures { result ≡ meets self.now placeholder kind }
    {
        match self.parts.constraints.get(placeholder as usize) {
            Some(constraints) => constraints.are_met(kind),
            None => true,
        }
    }

    /// What a token of the template is: what is written for it.
    #[tactic(auto, unfolding(crate::specs::Templates::template_token))]
    pub fn template_token(&self, token: TokenNo) -> TemplateToken
        requires { IsSomeAnd self.now.template (λ template. HasToken template token.0) }
        ensures { IfSome self.now.template (λ template. result ≡ template_token self.now template token.0) }
    {
        self.tables.in_template[token.0 as usize]
    }

    /// Whether the placeholder whose name has this place is alone the receiver of the nearest method call above it in the
    /// template.
    #[tactic(auto, unfolding(crate::specs::Receivers::is_receiver))]
    pub fn is_receiver(&self, placeholder: u32) -> bool
        ensures { result ≡ is_receiver self.now placeholder }
    {
        match self.tables.receivers.get(placeholder as usize) {
            Some(is_receiver) => *is_receiver,
            None => false,
        }
    }

    /// The paths of the pattern that are used, in order, each with what it resolves to.
    pub fn pattern_paths(&self) -> &[UsedPath]
        ensures paths { result.now ≡ self.now.pattern_paths }
        ensures has { HasPaths self.now.pattern self.now.pattern_paths }
    {
        self.parts.pattern_paths.as_slice()
    }

    /// What a node of the pattern stands for, if it is a path that is used.
    pub fn pattern_res(&self, node: NodeNo) -> Option<Res>
        ensures { result ≡ res_at self.now.pattern_paths node }
    {
        match self.tables.res_by_node.get(node.0 as usize) {
            Some(res) => *res,
            None => None,
        }
    }

    /// The paths of the template that are used, in order, each with what it resolves to.
    pub fn template_paths(&self) -> &[UsedPath]
        ensures paths { result.now ≡ self.now.template_paths }
        ensures has { IfSome self.now.template (λ template. HasPaths template self.now.template_paths) }
    {
        self.parts.template_paths.as_slice()
    }

    /// The calls of the pattern whose callee names an associated function that takes `self`, in order.
    pub fn qualified_calls(&self) -> &[QualifiedCall]
        ensures calls { result.now ≡ self.now.qualified_calls }
        ensures has { HasCalls self.now.pattern self.now.qualified_calls }
    {
        self.parts.qualified_calls.as_slice()
    }

    /// The qualified call that a node of the pattern is, if it is one.
    pub fn qualified_call(&self, node: NodeNo) -> Option<QualifiedCall>
        ensures { result ≡ call_at self.now.qualified_calls node }
    {
        call_at(&self.parts.qualified_calls, node).copied()
    }

    /// Those of the pattern's used paths whose usages can lead to its matches, in order: they are no builtin types, and stand
    /// in no first argument of a qualified call.
    pub fn eligible_paths(&self) -> &[UsedPath]
        ensures paths { result.now ≡ self.now.eligible_paths }
        ensures has { HasPaths self.now.pattern self.now.eligible_paths }
    {
        self.parts.eligible_paths.as_slice()
    }
}

/// What each token of a template is; without one there are none.
fn tokens_of_template(
    alloc: Global,
    names: &Names<'_>,
    template: Option<&Tree>,
    paths: &[UsedPath],
) -> Result<Vec<TemplateToken>, AllocError>
    requires few { length names.now < 2 ^ 32 }
    requires has { IfSome (option_copied template) (λ tree. HasPaths tree paths.now) }
    ensures { IfOk result (λ v. IfSome (option_copied template.entry) (λ tree. TellsTokens names.now paths.now tree v.items)) }
{
    match template {
        Some(tree) => template_tokens(alloc, names, tree, paths),
        None => Ok(Vec::new(alloc)),
    }
}

/// Which placeholders are receivers of method calls of a template; without one none is.
fn receivers_of_template(
    alloc: Global,
    names: &Names<'_>,
    template: Option<&Tree>,
) -> Result<Vec<bool>, AllocError>
    requires { length names.now < 2 ^ 32 }
    ensures { IfOk result (λ v. TellsReceiversOf names.now (option_copied template.entry) v.items) }
{
    match template {
        Some(tree) => receivers(alloc, names, tree),
        None => Ok(Vec::new(alloc)),
    }
}
