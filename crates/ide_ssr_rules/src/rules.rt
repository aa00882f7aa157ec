//! Rules and search patterns, read from their texts.
ghost use Rattle.std.specs.Prelude.{◌≡◌, ◌<◌, ◌^◌, ◌++◌, ℕ, List, [], length, map, string_bytes, All, Ok, IfOk, IfSome};
ghost use Rattle.std.specs.List.{list_any};
ghost use Rattle.std.specs.Option.{option_copied};
ghost use Rattle.std.specs.Str.{trim};
ghost use Rattle.ssr_syntax.specs.Reading.{IsLexFault};
ghost use Rattle.ide_ssr_rules.specs.Elements.{names_of, constraints_of, is_constrained};
ghost use Rattle.ide_ssr_refusals.specs.declared.refusals.Refusal.TheVariants as r;
ghost use Rattle.ide_ssr_rules.specs.MacroCalls.{untested};
ghost use Rattle.ide_ssr_refusals.specs.Refusals.{Answers, AnswersBy, TellsOf, unless};
ghost use Rattle.ide_ssr_rules.specs.Rules.{is_placeholder, once, lacking, check_sides, check_uses, check_defined, unconstrained, rule_of, rule_reading, rule_reading_of, pattern_reading, pattern_reading_of};
ghost use Rattle.ide_ssr_resolved_rule.specs.Names.{AreNew};
ghost use Rattle.ide_ssr_rules.specs.Uses.{UsesPlaceholdersOnce};
ghost use Rattle.ide_ssr_rules.specs.Paths.{told_path, paths_of_kinds};
ghost use Rattle.ide_ssr_rules.specs.StandIns.{code_of, glued_placeholder, spelled_stand_in};
ghost use Rattle.ide_ssr_rules.specs.Private.Texts.{IsTextOf};

use crate::elements::Element;
use crate::kinds::{ParsedRule, some_kind};
use crate::listed::listed;
use crate::macro_calls::untested;
use crate::paths::{RulePath, paths_of_kinds};
use crate::sides::{side, sides, with_names};
use crate::stand_ins::{code_of, first_glued, first_name, spelled_stand_in};
use ide_ssr_refusals::{Refusal, SsrError, Text};
use ide_ssr_resolved_rule::{ConstraintSet, Name, Names};
use ssr_syntax::{FragmentText, Reach, SyntaxError};
use std::alloc::{AllocError, Global};
use std::fmt;
use std::marker::Model;

/// What a text is read as: the names of its placeholders, what each of these asks, and its kinds.
#[derive(Drop)]
pub struct ParsedKinds {
    names: Vec<String>,
    /// What each of the placeholders asks, in the order of their names.
    constraints: Vec<ConstraintSet>,
    kinds: Vec<ParsedRule>,
}

impl Model for ParsedKinds {
    ghost use Rattle.std.specs.Prelude.{◌<◌, ◌^◌, All, length, map, string_bytes};
    ghost use Rattle.ide_ssr_rules.specs.Rules.{Rule};
    ghost use Rattle.ide_ssr_rules.specs.RuleCode.{rule_code};

    ghost Value = { Rule };

    ghost coded = { rule_code };

    ghost view = { λ parsed. record { names = map string_bytes parsed.names.items; constraints = parsed.constraints.items; kinds = parsed.kinds.items } };

    ghost use Rattle.ide_ssr_rules.specs.Patterns.{AreReadOnce};

    ghost invariant = { λ parsed. record {
      few : length parsed.names.items < 2 ^ 32;
      once : All (AreReadOnce (map string_bytes parsed.names.items)) parsed.kinds.items;
    } };
}

impl ParsedKinds {
    ghost use Rattle.ide_ssr_rules.specs.Patterns.{AreReadOnce};

    /// The names, what each placeholder asks, and the kinds. The pattern of each kind has each name once among its tokens, and the template at most once.
    pub fn into_parts(self) -> (Vec<String>, Vec<ConstraintSet>, Vec<ParsedRule>)
        ensures names { map string_bytes result.0.items ≡ self.names }
        ensures constraints { result.1.items ≡ self.constraints }
        ensures kinds { result.2.items ≡ self.kinds }
        ensures few { length result.0.items < 2 ^ 32 }
        ensures once { All (AreReadOnce self.names) self.kinds }
    {
        (self.names, self.constraints, self.kinds)
    }

    /// The paths that have to resolve, kind by kind: under which keys a provider is asked for them, and at which places they
    /// stand. The path in front of another one is among them, since a provider may be asked for it.
    pub fn paths(&self, alloc: Global) -> Result<Vec<RulePath>, AllocError>
        ensures { IfOk result (λ paths. map told_path paths.items ≡ paths_of_kinds self.now.names self.now.kinds) }
    {
        let names = Names::of(alloc, &self.names)?;
        paths_of_kinds(alloc, &names, &self.kinds)
    }
}

/// Tells the names and how many kinds there are, a text without a promise.
impl fmt::Debug for ParsedKinds {
    fn fmt<W: fmt::Write>(&self, f: &mut fmt::Formatter<W>) -> fmt::Result {
        f.debug_struct("ParsedKinds")
            .field("names", &self.names)
            .field("kinds", &self.kinds.len())
            .finish()
    }
}

/// A rule: a pattern and a template for each kind that both can be read as.
#[derive(Debug, Drop)]
pub struct SsrRule {
    parsed: ParsedKinds,
}

impl Model for SsrRule {
    ghost use Rattle.ide_ssr_rules.specs.Rules.{Rule};
    ghost use Rattle.ide_ssr_rules.specs.RuleCode.{rule_code};

    ghost Value = { Rule };

    ghost coded = { rule_code };

    ghost view = { λ rule. rule.parsed };
}

impl SsrRule {
    /// The rule that a text says, as `pattern ==>> template`.
    pub fn parse(alloc: Global, text: &str) -> Result<SsrRule, SsrError>
        ensures reads { Answers result (rule_reading text.now) }
        ensures uses { IfOk result (UsesPlaceholdersOnce text.now) }
    {
        SsrRule::parse_of(alloc, Reach::Stated, text)
    }

    /// The same, where so much of Rust is read. The rule keeps its reach.
    pub fn parse_of(alloc: Global, reach: Reach, text: &str) -> Result<SsrRule, SsrError>
        ensures reads { Answers result (rule_reading_of reach text.now) }
        ensures uses { IfOk result (UsesPlaceholdersOnce text.now) }
    {
        let parsed = rule_of_text(alloc, reach, text)?;
        Ok(SsrRule { parsed })
    }

    /// The rule with its first kind alone, if its pattern is a placeholder alone: by each of its kinds such a pattern matches
    /// the same nodes. Any other rule is left as it is.
    pub fn once(self) -> SsrRule
        ensures { result ≡ once self }
    {
        let (names, constraints, mut kinds) = self.parsed.into_parts();
        if is_placeholder(&names, &kinds) {
            kinds.truncate(1);
        }
        SsrRule {
            parsed: ParsedKinds {
                names,
                constraints,
                kinds,
            },
        }
    }
}

/// Whether the pattern of kinds with these names is a placeholder alone.
fn is_placeholder(names: &[String], kinds: &[ParsedRule]) -> bool
    ensures { result ≡ is_placeholder (map string_bytes names.now) kinds.now }
{
    let Some(kind) = kinds.first() else {
        return false;
    };
    names.len() == 1 && kind.pattern.token_count() == 1
}

/// A search pattern, which is searched for and never replaced: one side of a rule, for each kind that it can be read as.
#[derive(Debug, Drop)]
pub struct SsrPattern {
    parsed: ParsedKinds,
}

impl Model for SsrPattern {
    ghost use Rattle.ide_ssr_rules.specs.Rules.{Rule};
    ghost use Rattle.ide_ssr_rules.specs.RuleCode.{rule_code};

    ghost Value = { Rule };

    ghost coded = { rule_code };

    ghost view = { λ pattern. pattern.parsed };
}

impl SsrPattern {
    /// The search pattern that a text says.
    pub fn parse(alloc: Global, text: &str) -> Result<SsrPattern, SsrError>
        ensures { Answers result (pattern_reading text.now) }
    {
        SsrPattern::parse_of(alloc, Reach::Stated, text)
    }

    /// The same, where so much of Rust is read.
    pub fn parse_of(alloc: Global, reach: Reach, text: &str) -> Result<SsrPattern, SsrError>
        ensures { Answers result (pattern_reading_of reach text.now) }
    {
        let parsed = pattern_of_text(alloc, reach, text)?;
        Ok(SsrPattern { parsed })
    }
}

/// What a rule was read as.
pub fn rule_kinds(rule: SsrRule) -> ParsedKinds
    ensures { result ≡ rule }
{
    rule.parsed
}

/// What a search pattern was read as.
pub fn pattern_kinds(pattern: SsrPattern) -> ParsedKinds
    ensures { result ≡ pattern }
{
    pattern.parsed
}

/// The rule that a text says.
fn rule_of_text(alloc: Global, reach: Reach, text: &str) -> Result<ParsedKinds, SsrError>
    ensures { Answers result (rule_reading_of reach text.now) }
{
    let (pattern, template) = sides(alloc, text)?;
    let pattern = side(alloc, pattern)?;
    let template = side(alloc, template)?;
    rule_of(alloc, reach, pattern.as_slice(), Some(template.as_slice()))
}

/// The search pattern that a text says.
fn pattern_of_text(alloc: Global, reach: Reach, text: &str) -> Result<ParsedKinds, SsrError>
    ensures { Answers result (pattern_reading_of reach text.now) }
{
    let pattern = side(alloc, text.trim())?;
    rule_of(alloc, reach, pattern.as_slice(), None)
}

/// The rule of a pattern and its template, if it has one.
fn rule_of<'a>(
    alloc: Global,
    reach: Reach,
    pattern: &[Element<'a>],
    template: Option<&[Element<'a>]>,
) -> Result<ParsedKinds, SsrError>
    requires few { length pattern.now < 2 ^ 32 }
    requires pattern_new { AreNew [] (names_of pattern.now) }
    requires template_new { IfSome (option_copied template) (λ side. AreNew [] (names_of side)) }
    ensures { Answers result (rule_of reach pattern.now (option_copied template.entry)) }
{
    let written = template.unwrap_or(&[]);
    let kinds = {
        let texts = side_texts(alloc, pattern, written)?;
        some_kind(
            alloc,
            reach,
            &texts.pattern,
            template.and(Some(&texts.template)),
        )?
    };
    check_uses(alloc, pattern, written, kinds.as_slice())?;
    let (names, constraints) = asked(alloc, pattern)?;
    Ok(ParsedKinds {
        names,
        constraints,
        kinds,
    })
}

/// The names of a side's placeholders, and what each of these asks.
fn asked(
    alloc: Global,
    elements: &[Element<'_>],
) -> Result<(Vec<String>, Vec<ConstraintSet>), AllocError>
    ensures names { IfOk result (λ asked. map string_bytes asked.0.items ≡ names_of elements.now) }
    ensures constraints { IfOk result (λ asked. asked.1.items ≡ constraints_of elements.now) }
{
    let names = names_of(alloc, elements)?;
    let names = names.owned(alloc)?;
    let constraints = constraints_of(alloc, elements)?;
    Ok((names, constraints))
}

/// Both sides' texts with stand-ins.
#[derive(Drop)]
struct SideTexts {
    pattern: FragmentText,
    template: FragmentText,
}

/// The texts of both sides with stand-ins, in which placeholders and the identifiers beside them are told apart.
fn side_texts<'a>(
    alloc: Global,
    pattern: &[Element<'a>],
    template: &[Element<'a>],
) -> Result<SideTexts, SsrError>
    ensures refused { AnswersBy (λ _. tt) result (check_sides pattern.now template.now) }
    ensures pattern { IfOk result (λ texts. IsTextOf pattern.now texts.pattern) }
    ensures template { IfOk result (λ texts. IsTextOf template.now texts.template) }
{
    let pattern_text = side_text(alloc, pattern)?;
    let template_text = side_text(alloc, template)?;
    check_names(alloc, pattern, template)?;
    Ok(SideTexts {
        pattern: pattern_text,
        template: template_text,
    })
}

/// Refuses an identifier of either side that is spelled as a stand-in of one of the sides' names, in sides whose placeholders
/// are tokens of their own.
fn check_names(
    alloc: Global,
    pattern: &[Element<'_>],
    template: &[Element<'_>],
) -> Result<(), SsrError>
    ensures { unless r.Glued (glued_placeholder pattern.now) ≡ Ok tt → unless r.Glued (glued_placeholder template.now) ≡ Ok tt → Answers result (check_sides pattern.now template.now) }
{
    let names = all_names(alloc, pattern, template)?;
    check_reserved(alloc, &names, pattern)?;
    check_reserved(alloc, &names, template)
}

/// Whether what both sides' placeholders ask for can be given.
fn check_uses(
    alloc: Global,
    pattern: &[Element<'_>],
    template: &[Element<'_>],
    kinds: &[ParsedRule],
) -> Result<(), SsrError>
    ensures { Answers result (check_uses pattern.now template.now kinds.now) }
{
    check_tested(alloc, kinds, pattern)?;
    check_unconstrained(alloc, template)?;
    let names = names_of(alloc, pattern)?;
    let used = names_of(alloc, template)?;
    check_defined(alloc, &names, used.as_slice())
}

/// Refuses a placeholder whose constraints nothing tests.
fn check_tested(
    alloc: Global,
    kinds: &[ParsedRule],
    pattern: &[Element<'_>],
) -> Result<(), SsrError>
    ensures { Answers result (unless r.ConstraintInMacroCall (untested kinds.now pattern.now)) }
{
    match untested(alloc, kinds, pattern)? {
        Some(name) => Err(Refusal::ConstraintInMacroCall(Text(name)).told(alloc)),
        None => Ok(()),
    }
}

/// Whether one of the elements is a placeholder with constraints.
fn is_any_constrained(elements: &[Element<'_>]) -> bool
    ensures { result ≡ list_any is_constrained elements.now }
{
    elements.iter().any(|element| element.is_constrained())
}

/// Refuses placeholders of a template that have constraints.
fn check_unconstrained(alloc: Global, template: &[Element<'_>]) -> Result<(), SsrError>
    ensures { Answers result (unconstrained template.now) }
{
    if is_any_constrained(template) {
        return Err(Refusal::ConstraintInTemplate.told(alloc));
    }
    Ok(())
}

/// The names of both sides' placeholders.
fn all_names<'a>(
    alloc: Global,
    pattern: &[Element<'a>],
    template: &[Element<'a>],
) -> Result<Names<'a>, AllocError>
    ensures { IfOk result (λ names. names ≡ names_of pattern.now ++ names_of template.now) }
{
    with_names(names_of(alloc, pattern)?, template)
}

/// The names of a side's placeholders.
fn names_of<'a>(alloc: Global, elements: &[Element<'a>]) -> Result<Names<'a>, AllocError>
    ensures { IfOk result (λ names. names ≡ names_of elements.now) }
{
    with_names(Names::new(alloc), elements)
}

/// What each of a side's placeholders asks.
fn constraints_of(alloc: Global, elements: &[Element<'_>]) -> Result<Vec<ConstraintSet>, AllocError>
    ensures { IfOk result (λ v. v.items ≡ constraints_of elements.now) }
{
    let mut sets = Vec::new(alloc);
    for element in elements {
        if let Element::Placeholder(placeholder) = element {
            sets.push(placeholder.constraints(alloc)?)?;
        }
    }
    Ok(sets)
}

/// Why a side's text with stand-ins isn't lexed: its first placeholder is no token of its own, or memory ran out.
fn unlexed(alloc: Global, elements: &[Element<'_>], error: SyntaxError) -> SsrError
    ensures { (code : List ℕ) → code ≡ code_of elements.now → IsLexFault (trim code) error → TellsOf result (unless r.Glued (glued_placeholder elements.now)) }
{
    match error {
        SyntaxError::Memory => SsrError::Memory,
        _ => Refusal::Glued(Text(first_name(elements))).told(alloc),
    }
}

/// A side's text with stand-ins, which is lexed. A placeholder that isn't a token of its own is refused.
fn side_text(alloc: Global, elements: &[Element<'_>]) -> Result<FragmentText, SsrError>
    ensures refused { AnswersBy (λ _. tt) result (unless r.Glued (glued_placeholder elements.now)) }
    ensures text { IfOk result (λ text. IsTextOf elements.now text) }
{
    let text = match FragmentText::new(alloc, code_of(alloc, elements)?) {
        Ok(text) => text,
        Err(error) => return Err(unlexed(alloc, elements, error)),
    };
    match first_glued(elements, &text) {
        Some(name) => Err(Refusal::Glued(Text(name)).told(alloc)),
        None => Ok(text),
    }
}

/// Refuses an identifier that is spelled as a stand-in of one of the names.
fn check_reserved(
    alloc: Global,
    names: &Names<'_>,
    elements: &[Element<'_>],
) -> Result<(), SsrError>
    ensures { Answers result (unless r.Reserved (spelled_stand_in names.now elements.now)) }
{
    match spelled_stand_in(names, elements) {
        Some(text) => Err(Refusal::Reserved(Text(text)).told(alloc)),
        None => Ok(()),
    }
}

/// The used names that are not among the names.
fn lacking<'a>(
    alloc: Global,
    names: &Names<'_>,
    used: &[Name<'a>],
) -> Result<Vec<Name<'a>>, AllocError>
    ensures { IfOk result (λ v. v.items ≡ lacking names.now used.now) }
{
    let mut lacking = Vec::new(alloc);
    for name in used {
        let text = name.text;
        if !names.has(text) {
            lacking.push(Name { text })?;
        }
    }
    Ok(lacking)
}

/// Refuses used names that are not among the names.
fn check_defined(alloc: Global, names: &Names<'_>, used: &[Name<'_>]) -> Result<(), SsrError>
    ensures { Answers result (check_defined names.now used.now) }
{
    let lacking = lacking(alloc, names, used)?;
    if lacking.is_empty() {
        return Ok(());
    }
    let names = listed(alloc, lacking.as_slice())?;
    Err(Refusal::Undefined(Text(names.as_str())).told(alloc))
}
