//! The command, whatever it runs on.
ghost use Rattle.std.specs.Prelude.{◌≡◌, ◌≤◌, ◌⊎◌, IfOk, map, string_bytes};
ghost use Rattle.cargo_ssr_program.specs.Planned.{Task, is_colored};
ghost use Rattle.cargo_ssr_program.specs.Private.Tasks.{IsTaskWith, task_of};
ghost use Rattle.cargo_ssr_program.specs.Running.{EndsWell, IsAskedToWrite, IsTaskOf, Ran};
ghost use Rattle.cargo_ssr_program.specs.Status.{status_of};

use crate::console::Console;
use crate::debugging::show_debug;
use crate::failure::Failure;
use crate::finding::search;
use crate::input::{Input, chosen_files, nothing_searched, of_facts, of_files};
use crate::names_input::of_names;
use crate::rewriting::{show_changes, write_changes};
use crate::rules::{tell_self, with_all_rules};
use crate::telling::searched_for;
use cargo_ssr_options::{Chosen, Mode, Options, read_options};
use clap::Error;
use ssr_changes::{Sought, asked_paths};
use ssr_package::Reads;
use ssr_streams::Sink;
use ssr_writing::Disk;
use std::alloc::{AllocError, Global};
use std::io::Write;

/// How a run ends that does what it is asked for.
#[derive(Clone, Copy, Debug, PartialEq, Eq)]
pub(crate) enum Outcome {
    Done,
    /// Something would change, and that is asked.
    WouldChange,
}

/// Runs the command with these words, the first of which is the program's name, in the folder `here`, and answers its status: 0,
/// or 1 if something would change and that is asked, 2 for wrong words, 3 where the run ends without what it is asked for.
pub fn run<F: Reads, D: Disk, W: Sink, E: Write>(
    reader: &mut F,
    disk: &mut D,
    here: &str,
    words: &[String],
    console: &mut Console<W, E>,
) -> u8
    ensures bound { result ≤ 3 }
    ensures ran { Ran (map string_bytes words.now) console.old.terminal (record { calls = D.calls disk.old; taken = W.taken console.old.out }) (record { calls = D.calls disk.new; taken = W.taken console.new.out }) result }
{
    let alloc = reader.alloc();
    match read_options(alloc, words) {
        Ok(options) => {
            let outcome = perform(reader, disk, here, options, console);
            if let Err(failure) = &outcome {
                console.tell_failure(failure);
            }
            status(&outcome)
        }
        Err(told) => tell_words(alloc, &told, console),
    }
}

/// The status of a run whose words are read.
fn status(outcome: &Result<Outcome, Failure>) -> u8
    ensures status { result ≡ status_of outcome.now }
    ensures bound { result ≤ 3 }
{
    match outcome {
        Ok(Outcome::Done) => 0,
        Ok(Outcome::WouldChange) => 1,
        Err(_) => 3,
    }
}

/// Tells what is wrong with the words, or shows the help or version that is asked for.
fn tell_words<W: Sink, E: Write>(alloc: Global, told: &Error, console: &mut Console<W, E>) -> u8
    ensures { (result ≡ 0) ⊎ ((result ≡ 2) ⊎ (result ≡ 3)) }
{
    let Ok(words) = told.to_string(alloc) else {
        console.tell_failure(&Failure::Memory);
        return 3;
    };
    if told.use_stderr() {
        console.tell(words.as_str().trim_end());
        return 2;
    }
    match console.show(words.as_str()) {
        Ok(()) => 0,
        Err(_) => 3,
    }
}

/// Does what the options ask for. A rule that is refused is told by where it stands.
fn perform<F: Reads, D: Disk, W: Sink, E: Write>(
    reader: &mut F,
    disk: &mut D,
    here: &str,
    options: Options,
    console: &mut Console<W, E>,
) -> Result<Outcome, Failure>
    ensures disk { IsAskedToWrite options.mode (D.calls disk.old) (D.calls disk.new) }
    ensures ends { IfOk result (λ outcome. (task : Task) × IsTaskOf options task × EndsWell options.mode task options.json (is_colored options.color console.old.terminal) (record { calls = D.calls disk.old; taken = W.taken console.old.out }) (record { calls = D.calls disk.new; taken = W.taken console.new.out }) outcome) }
{
    let alloc = reader.alloc();
    let (options, places) = with_all_rules(reader, here, options)?;
    tell_self(alloc, &options, &places, console)?;
    match perform_with(reader, disk, here, &options, console) {
        Err(Failure::Rule(rule, why)) => {
            let rule = places.words(alloc, rule)?;
            Err(Failure::Told(format!(in alloc; "{rule}: {why}")?))
        }
        outcome => outcome,
    }
}

/// Does it with all rules.
fn perform_with<F: Reads, D: Disk, W: Sink, E: Write>(
    reader: &mut F,
    disk: &mut D,
    here: &str,
    options: &Options,
    console: &mut Console<W, E>,
) -> Result<Outcome, Failure>
    ensures disk { IsAskedToWrite options.now.mode (D.calls disk.old) (D.calls disk.new) }
    ensures ends { IfOk result (λ outcome. (task : Task) × IsTaskWith (map string_bytes options.now.rules.items) task × EndsWell options.now.mode task options.now.json (is_colored options.now.color console.old.terminal) (record { calls = D.calls disk.old; taken = W.taken console.old.out }) (record { calls = D.calls disk.new; taken = W.taken console.new.out }) outcome) }
{
    match &options.files {
        Chosen::Facts(path) => {
            let input = of_facts(reader, here, path.as_str(), options.place.as_ref())?;
            act(reader, disk, &input, options, console)
        }
        _ => perform_by_sources(reader, disk, here, options, console),
    }
}

/// Does it with the files of a package or of paths. What their sources tell of names is looked at where a rule has names.
fn perform_by_sources<F: Reads, D: Disk, W: Sink, E: Write>(
    reader: &mut F,
    disk: &mut D,
    here: &str,
    options: &Options,
    console: &mut Console<W, E>,
) -> Result<Outcome, Failure>
    ensures disk { IsAskedToWrite options.now.mode (D.calls disk.old) (D.calls disk.new) }
    ensures ends { IfOk result (λ outcome. (task : Task) × IsTaskWith (map string_bytes options.now.rules.items) task × EndsWell options.now.mode task options.now.json (is_colored options.now.color console.old.terminal) (record { calls = D.calls disk.old; taken = W.taken console.old.out }) (record { calls = D.calls disk.new; taken = W.taken console.new.out }) outcome) }
{
    let alloc = reader.alloc();
    let (form, texts) = searched_for(options);
    let asked = asked_paths(alloc, Sought { form, texts })?;
    if asked.is_empty() {
        let found = chosen_files(reader, here, &options.files)?;
        let input = of_files(alloc, found, None, options, console)?;
        act(reader, disk, &input, options, console)
    } else {
        let input = of_names(reader, here, options, asked, console)?;
        act(reader, disk, &input, options, console)
    }
}

/// Does it with these files.
#[tactic(auto, using(crate::proofs::Endings::asked_nothing, crate::proofs::Endings::asked_to_write))]
fn act<F: Reads, D: Disk, W: Sink, E: Write>(
    reader: &F,
    disk: &mut D,
    input: &Input,
    options: &Options,
    console: &mut Console<W, E>,
) -> Result<Outcome, Failure>
    ensures disk { IsAskedToWrite options.now.mode (D.calls disk.old) (D.calls disk.new) }
    ensures ends { IfOk result (EndsWell options.now.mode (task_of input.now options.now) options.now.json (is_colored options.now.color console.old.terminal) (record { calls = D.calls disk.old; taken = W.taken console.old.out }) (record { calls = D.calls disk.new; taken = W.taken console.new.out })) }
{
    let alloc = reader.alloc();
    if input.files.file_count() == 0 {
        return Err(nothing_searched(alloc)?);
    }
    match &options.mode {
        Mode::Diff => {
            show_changes(alloc, input, options, console)?;
            Ok(Outcome::Done)
        }
        Mode::Check => {
            if show_changes(alloc, input, options, console)? {
                Ok(Outcome::WouldChange)
            } else {
                Ok(Outcome::Done)
            }
        }
        Mode::Write => {
            write_changes(reader, disk, input, options, console)?;
            Ok(Outcome::Done)
        }
        Mode::Search(patterns) => {
            search(alloc, input, patterns, options, console)?;
            Ok(Outcome::Done)
        }
        Mode::Debug(snippet) => {
            show_debug(alloc, input, snippet.as_str(), options, console)?;
            Ok(Outcome::Done)
        }
    }
}
