//! The program, whatever it reads from and writes to.
ghost use Rattle.std.specs.Prelude.{◌≡◌, ◌⊎◌, IfOk, map, codes, string_bytes, option_map};
ghost use Rattle.std.specs.List.{flat_map};
ghost use Rattle.ssr_program.specs.Output.{input_refused};
ghost use Rattle.ssr_program.specs.OfFile.{words_of};
ghost use Rattle.ssr_program.specs.OfFacts.{facts_words as words_of_facts, numbered};
ghost use Rattle.ssr_program.specs.Running.{Ran, Goes};
ghost use Rattle.ssr_program.specs.Private.Rewriting.{Rewrites};
ghost use Rattle.ssr_program.specs.declared.commands.Form.TheVariants as forms;

use crate::commands::{Form, command};
use crate::rewrite_error::RewriteError;
use crate::transfer::{ReadError, read_all};
use crate::{of_facts, of_file};
use ssr_base::WorkspaceError;
use ssr_facts::FactsError;
use ssr_streams::{Sink, Source, write_pieces};
use ssr_syntax::SyntaxError;
use std::alloc::{AllocError, Global};

/// Runs the command with these words, `None` being words that cannot be read, and answers its status.
///
/// The source gives a file, or, behind a first word `--facts` with a path and a rule, the facts file that the path names
/// (`facts_path`). The whole output is made before the first write. A refusal ends with a line break.
pub fn run<R: Source, W: Sink>(
    alloc: Global,
    words: Option<&[String]>,
    source: &mut R,
    sink: &mut W,
) -> u8
    ensures { Ran (option_map (λ words. map string_bytes words.now) words.entry) (R.given source.old) (R.given source.new) (W.taken sink.old) (W.taken sink.new) result }
{
    let Some((form, rules)) = command(words) else {
        return send(sink, &["usage: ssr [--facts FILE] RULE..\n"], 2);
    };
    let input = match read_all(alloc, source) {
        Ok(input) => input,
        Err(ReadError::Failed) => return refuse_input(sink, form, "cannot be read"),
        Err(ReadError::Memory) => return refuse_input(sink, form, "out of memory"),
    };
    match rewrite(alloc, form, rules, input) {
        Ok(new) => send(sink, &[new.as_str()], 0),
        Err(RewriteError::NoText) => refuse_input(sink, Form::File, "not UTF-8"),
        Err(RewriteError::File(error)) => refuse_input(sink, Form::File, words_for(error)),
        Err(RewriteError::Facts(error)) => refuse_facts(alloc, sink, error),
        Err(RewriteError::Search(message)) => {
            send(sink, &["error: Parse error: ", message.as_str(), "\n"], 1)
        }
        Err(RewriteError::Clash(words)) => send(sink, &["error: ", words.as_str(), "\n"], 1),
        Err(RewriteError::Memory) => send(sink, &["error: out of memory\n"], 1),
    }
}

/// What is written for rules and what was read.
fn rewrite(
    alloc: Global,
    form: Form,
    rules: &[String],
    input: Vec<u8>,
) -> Result<String, RewriteError>
    ensures { Rewrites form (map string_bytes rules.now) input.items result }
{
    match form {
        Form::File => of_file::rewrite(alloc, rules, input),
        Form::Facts => of_facts::rewrite(alloc, rules, &input),
    }
}

/// Why a text is no file.
fn words_for(error: SyntaxError) -> &'static str
    ensures { result.now ≡ words_of error }
{
    match error {
        SyntaxError::Lex => "not tokens of this grammar",
        SyntaxError::NoTree => "not a file of this grammar",
        SyntaxError::TooDeep => "nested too deeply",
        SyntaxError::TooLong => "text too long",
        SyntaxError::Memory => "out of memory",
    }
}

/// Tells that a file or an expansion is refused.
fn numbered(alloc: Global, what: &str, number: u32) -> Result<String, AllocError>
    ensures { IfOk result (λ words. string_bytes words ≡ numbered what.now number) }
{
    format!(in alloc; "{what} {number} refused")
}

/// Why bytes are no facts.
fn facts_words(alloc: Global, error: FactsError) -> Result<String, AllocError>
    ensures { IfOk result (λ words. string_bytes words ≡ words_of_facts error) }
{
    match error {
        FactsError::NotJson => String::from_str(alloc, "not JSON"),
        FactsError::Shape => String::from_str(alloc, "wrong shape"),
        FactsError::Workspace(WorkspaceError::TooManyTrees) => {
            String::from_str(alloc, "too many trees")
        }
        FactsError::Workspace(WorkspaceError::File(number, _)) => numbered(alloc, "file", number),
        FactsError::Workspace(WorkspaceError::Call(number)) => numbered(alloc, "expansion", number),
        FactsError::Workspace(WorkspaceError::Nested(number)) => {
            numbered(alloc, "expansion", number)
        }
        FactsError::Workspace(WorkspaceError::Origin(number)) => {
            numbered(alloc, "expansion", number)
        }
        FactsError::Workspace(WorkspaceError::Expansion(number, _)) => {
            numbered(alloc, "expansion", number)
        }
        FactsError::Workspace(WorkspaceError::Memory) | FactsError::Memory => {
            String::from_str(alloc, "out of memory")
        }
    }
}

/// Says why what was read are no facts, or that there is no memory to say it.
fn refuse_facts<W: Sink>(alloc: Global, sink: &mut W, error: FactsError) -> u8
    ensures { Goes (W.taken sink.old) (W.taken sink.new) (input_refused forms.Facts (words_of_facts error)) result ⊎ Goes (W.taken sink.old) (W.taken sink.new) (input_refused forms.Facts (codes "out of memory")) result }
{
    match facts_words(alloc, error) {
        Ok(words) => refuse_input(sink, Form::Facts, words.as_str()),
        Err(AllocError) => refuse_input(sink, Form::Facts, "out of memory"),
    }
}

/// Says what is wrong with what was read.
fn refuse_input<W: Sink>(sink: &mut W, form: Form, words: &str) -> u8
    ensures { Goes (W.taken sink.old) (W.taken sink.new) (input_refused form words.now) result }
{
    match form {
        Form::File => send(sink, &["error: standard input: ", words, "\n"], 1),
        Form::Facts => send(sink, &["error: facts: ", words, "\n"], 1),
    }
}

/// Writes an output in pieces, and answers its status, or 1 where not all went out.
fn send<W: Sink>(sink: &mut W, pieces: &[&str], status: u8) -> u8
    ensures { Goes (W.taken sink.old) (W.taken sink.new) (record { text = flat_map (λ piece. piece.now) pieces.now; status = status }) result }
{
    if write_pieces(sink, pieces) {
        status
    } else {
        1
    }
}
