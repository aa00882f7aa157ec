//! The rules of a run.
ghost use Rattle.std.specs.Prelude.{◌≡◌, IfOk, map, string_bytes};
ghost use Rattle.cargo_ssr_program.specs.Private.Telling.{TellsOnly};
ghost use Rattle.cargo_ssr_program.specs.Running.{AreRulesOf};

use crate::console::Console;
use crate::failure::Failure;
use crate::input::read_text;
use crate::telling::searched_for;
use cargo_ssr_options::{Chosen, Options, rule_lines, rules_of};
use ssr_changes::{Form, first_with_self};
use ssr_package::Reads;
use ssr_streams::Sink;
use std::alloc::{AllocError, Global};
use std::io::Write;

/// Where the rules of a run stand: so many among its words, and those behind them in a file, where they begin on these lines.
#[derive(Drop)]
pub(crate) struct RulePlaces {
    among_words: usize,
    file: String,
    lines: Vec<usize>,
}

impl RulePlaces {
    /// What a rule is called: `rule 0` by its number, or `some.rules:5` by the line of its file on which it begins.
    pub(crate) fn words(&self, alloc: Global, rule: usize) -> Result<String, AllocError> {
        let line = match rule.checked_sub(self.among_words) {
            Some(behind) => self.lines.get(behind),
            None => None,
        };
        match line {
            Some(line) => format!(in alloc; "{}:{line}", self.file),
            None => format!(in alloc; "rule {rule}"),
        }
    }
}

/// Tells of the first rule or pattern that names `self`, where no method is given in which it can match.
pub(crate) fn tell_self<W: Sink, E: Write>(
    alloc: Global,
    options: &Options,
    places: &RulePlaces,
    console: &mut Console<W, E>,
) -> Result<(), AllocError>
    ensures { TellsOnly console.old console.new }
{
    // a facts file may say a position
    if options.place.is_some() || matches!(options.files, Chosen::Facts(_)) {
        return Ok(());
    }
    let (form, texts) = searched_for(options);
    let Some(number) = first_with_self(alloc, form, texts) else {
        return Ok(());
    };
    let which = match form {
        Form::Rules => places.words(alloc, number)?,
        Form::Patterns => format!(in alloc; "pattern {number}")?,
    };
    let why = "self matches only with --in FILE:LINE, inside of a method";
    console.tell(format!(in alloc; "{which}: {why}")?.as_str());
    Ok(())
}

/// The options with the rules of the file of rules behind those among the words, and where the rules stand.
pub(crate) fn with_all_rules<F: Reads>(
    reader: &mut F,
    here: &str,
    mut options: Options,
) -> Result<(Options, RulePlaces), Failure>
    ensures same { IfOk result (λ all. (all.0.mode ≡ options.mode) × (all.0.json ≡ options.json) × (all.0.color ≡ options.color)) }
    ensures rules { IfOk result (λ all. AreRulesOf options (map string_bytes all.0.rules.items)) }
{
    let alloc = reader.alloc();
    let mut places = RulePlaces {
        among_words: options.rules.len(),
        file: String::new(alloc),
        lines: Vec::new(alloc),
    };
    let Some(name) = &options.rules_file else {
        return Ok((options, places));
    };
    let text = read_text(reader, here, name.as_str())?;
    let mut rules = rules_of(alloc, text.as_str())?;
    if options.rules.is_empty() && rules.is_empty() {
        return Err(Failure::Told(format!(in alloc; "{name}: no rules")?));
    }
    places.file = name.clone()?;
    places.lines = rule_lines(alloc, text.as_str())?;
    options.rules.append(&mut rules)?;
    Ok((options, places))
}
