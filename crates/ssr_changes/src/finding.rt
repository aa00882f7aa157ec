//! Finders of rules and of search patterns, and which of these each kind in them comes from.
ghost use Rattle.std.specs.Prelude.{◌≡◌, ◌++◌, IfOk, OnOk, map, replicate, string_bytes};
ghost use Rattle.ide_ssr.specs.Adding.{Adds};
ghost use Rattle.ssr_changes.specs.Finding.{count_of, kinds_of, reading_of};
ghost use Rattle.ssr_changes.specs.Private.Finding.{AddsTexts};

use crate::read_in::READ_IN;
use ide_ssr::{MatchFinder, SsrError, SsrPattern, SsrRule};
use ide_ssr_rules::{pattern_kinds, rule_kinds};
use ssr_base::Semantics;
use std::alloc::Global;

/// What is searched for.
#[derive(Clone, Copy, Debug, PartialEq, Eq)]
pub enum Form {
    /// What rules replace, each searched once.
    Rules,
    /// What search patterns match.
    Patterns,
}

/// How many kinds a text is read as.
fn kind_count(alloc: Global, form: Form, text: &str) -> Result<usize, SsrError>
    ensures { IfOk result (λ count. count ≡ count_of (reading_of form text.now)) }
{
    let parsed = match form {
        Form::Rules => rule_kinds(SsrRule::parse_of(alloc, READ_IN, text)?.once()),
        Form::Patterns => pattern_kinds(SsrPattern::parse_of(alloc, READ_IN, text)?),
    };
    let (_, _, kinds) = parsed.into_parts();
    Ok(kinds.len())
}

/// Adds what a text says.
pub(crate) fn add<S: Semantics>(
    alloc: Global,
    finder: &mut MatchFinder<'_, S>,
    form: Form,
    text: &str,
) -> Result<(), SsrError>
    ensures { Adds finder.old finder.new (kinds_of (reading_of form) (S.meanings finder.old.semantics) finder.old.context.scope text.now) result }
{
    match form {
        Form::Rules => {
            let rule = SsrRule::parse_of(alloc, READ_IN, text)?;
            finder.add_rule_once(rule)
        }
        Form::Patterns => {
            let pattern = SsrPattern::parse_of(alloc, READ_IN, text)?;
            finder.add_search_pattern(pattern)
        }
    }
}

/// Adds a number so many times.
fn push_times(numbers: &mut Vec<usize>, number: usize, times: usize) -> Result<(), SsrError>
    ensures { OnOk result (numbers.new.items ≡ numbers.old.items ++ replicate times number) }
{
    for _ in 0..times {
        numbers.push(number)?;
    }
    Ok(())
}

/// Adds what texts say, in their order, up to the first refusal, and gives for each kind the number of the text that it comes
/// from.
pub(crate) fn add_all<S: Semantics>(
    alloc: Global,
    finder: &mut MatchFinder<'_, S>,
    form: Form,
    texts: &[String],
) -> Result<Vec<usize>, SsrError>
    ensures { IfOk result (λ owners. AddsTexts S.meanings form (map string_bytes texts.now) finder.old finder.new owners.items) }
{
    let mut owners = Vec::new(alloc);
    for (number, text) in texts.iter().enumerate() {
        let text = text.as_str();
        let times = kind_count(alloc, form, text)?;
        push_times(&mut owners, number, times)?;
        add(alloc, finder, form, text)?;
    }
    Ok(owners)
}
