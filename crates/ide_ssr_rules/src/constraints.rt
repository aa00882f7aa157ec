//! Placeholders as they are written: `$name`, or `${name:constraint}` with any number of constraints.
ghost use Rattle.std.specs.Prelude.{◌≡◌, IfOk, bytes_eq};
ghost use Rattle.ide_ssr_rules.specs.Constraints.{bracket, kind_name, on_kind, constraint, constraints, braced, named_placeholder};
ghost use Rattle.ide_ssr_refusals.specs.Refusals.{AnswersBy};

use crate::tokens::Tokens;
use ide_ssr_refusals::{Refusal, SsrError, Text};
use ide_ssr_resolved_rule::{Constraint, ConstraintSet, Name};
use std::alloc::{AllocError, Global};
use std::marker::Model;

/// How many `not`s may stand inside one another.
const MOST_NOTS: u32 = 128;

/// A placeholder of a side.
#[derive(Drop)]
pub(crate) struct Placeholder<'a> {
    pub(crate) name: Name<'a>,
    pub(crate) constraints: Vec<Constraint>,
}

impl<'a> Model for Placeholder<'a> {
    ghost use Rattle.ide_ssr_rules.specs.Constraints.{Placeholder};

    ghost Value = { Placeholder };

    ghost view = { λ placeholder. record { name = placeholder.name; constraints = placeholder.constraints.items } };
}

impl<'a> Placeholder<'a> {
    ghost use Rattle.ide_ssr_rules.specs.Elements.{asks};

    pub(crate) fn name(&self) -> &'a str
        ensures { result.now ≡ self.now.name }
    {
        self.name.text
    }

    /// What the placeholder asks.
    pub(crate) fn constraints(&self, alloc: Global) -> Result<ConstraintSet, AllocError>
        ensures { IfOk result (λ set. set ≡ self.now.constraints) }
    {
        ConstraintSet::of(alloc, self.constraints.as_slice())
    }

    pub(crate) fn is_constrained(&self) -> bool
        ensures { result ≡ asks self.now.constraints }
    {
        !self.constraints.is_empty()
    }
}

/// Whether a text is this word.
fn is_word(text: &str, word: &str) -> bool
    ensures { result ≡ bytes_eq text.now word.now }
{
    text == word
}

/// Takes a bracket of a constraint.
#[tactic(auto, unfolding(crate::specs::Constraints::bracket))]
fn bracket(alloc: Global, wanted: &str, tokens: &mut Tokens<'_>) -> Result<(), SsrError>
    ensures { AnswersBy (λ _. tokens.new) result (bracket wanted.now tokens.old) }
{
    let Some(token) = tokens.next() else {
        return Err(Refusal::NoBracket(Text(wanted)).told(alloc));
    };
    if token.text() != wanted {
        return Err(Refusal::OtherBracket(Text(wanted), Text(token.text())).told(alloc));
    }
    Ok(())
}

/// The kind's name in a constraint.
#[tactic(auto, unfolding(crate::specs::Constraints::kind_name))]
fn kind_name<'a>(alloc: Global, tokens: &mut Tokens<'a>) -> Result<&'a str, SsrError>
    ensures { AnswersBy (λ name. (name.now, tokens.new)) result (kind_name tokens.old) }
{
    let Some(token) = tokens.next() else {
        return Err(Refusal::EndOfKind.told(alloc));
    };
    if !token.is_ident() {
        return Err(Refusal::NoKindName(token.kind).told(alloc));
    }
    Ok(token.text())
}

/// The constraint behind the word `kind`.
fn on_kind(alloc: Global, tokens: &mut Tokens<'_>) -> Result<Constraint, SsrError>
    ensures { AnswersBy (λ constraint. (constraint, tokens.new)) result (on_kind tokens.old) }
{
    bracket(alloc, "(", tokens)?;
    let name = kind_name(alloc, tokens)?;
    bracket(alloc, ")", tokens)?;
    if !is_word(name, "literal") {
        return Err(Refusal::UnknownKind(Text(name)).told(alloc));
    }
    Ok(Constraint::Literal)
}

/// A constraint, in which at most `left` times `not` may stand inside one another.
fn read_constraint(
    alloc: Global,
    left: u32,
    tokens: &mut Tokens<'_>,
) -> Result<Constraint, SsrError>
    ensures { AnswersBy (λ constraint. (constraint, tokens.new)) result (constraint left tokens.old) }
{
    let Some(word) = tokens.next() else {
        return Err(Refusal::NoConstraint.told(alloc));
    };
    let word = word.text();
    if is_word(word, "kind") {
        return on_kind(alloc, tokens);
    }
    if !is_word(word, "not") {
        return Err(Refusal::UnknownConstraint(Text(word)).told(alloc));
    }
    if left == 0 {
        return Err(Refusal::DeepConstraint.told(alloc));
    }
    bracket(alloc, "(", tokens)?;
    let negated = read_constraint(alloc, left - 1, tokens)?;
    bracket(alloc, ")", tokens)?;
    Ok(negated.contrary())
}

/// The constraints up to `}`, each behind a `:`.
fn constraints(alloc: Global, tokens: &mut Tokens<'_>) -> Result<Vec<Constraint>, SsrError>
    ensures { AnswersBy (λ v. (v.items, tokens.new)) result (constraints tokens.old) }
{
    let mut constraints = Vec::new(alloc);
    while let Some(token) = tokens.next() {
        if token.closes() {
            return Ok(constraints);
        }
        if !token.is_colon() {
            return Err(Refusal::UnexpectedToken(Text(token.text())).told(alloc));
        }
        constraints.push(read_constraint(alloc, MOST_NOTS, tokens)?)?;
    }
    Err(Refusal::NoClosingBrace.told(alloc))
}

/// The placeholder behind `${`: the first token stands in the name's place, whatever it is.
fn braced<'a>(alloc: Global, tokens: &mut Tokens<'a>) -> Result<Placeholder<'a>, SsrError>
    ensures { AnswersBy (λ placeholder. (placeholder, tokens.new)) result (braced tokens.old) }
{
    let Some(token) = tokens.next() else {
        return Err(Refusal::EndOfPlaceholder.told(alloc));
    };
    let constraints = constraints(alloc, tokens)?;
    if !token.is_ident() {
        return Err(Refusal::NoName.told(alloc));
    }
    let name = Name { text: token.text() };
    Ok(Placeholder { name, constraints })
}

/// The placeholder behind `$`.
pub(crate) fn read_placeholder<'a>(
    alloc: Global,
    tokens: &mut Tokens<'a>,
) -> Result<Placeholder<'a>, SsrError>
    ensures { AnswersBy (λ placeholder. (placeholder, tokens.new)) result (named_placeholder tokens.old) }
{
    let Some(token) = tokens.next() else {
        return Err(Refusal::NoName.told(alloc));
    };
    if token.opens() {
        return braced(alloc, tokens);
    }
    if !token.is_ident() {
        return Err(Refusal::NoPlaceholder.told(alloc));
    }
    let name = Name { text: token.text() };
    let constraints = Vec::new(alloc);
    Ok(Placeholder { name, constraints })
}
