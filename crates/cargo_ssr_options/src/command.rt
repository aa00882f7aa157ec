//! The command's words, by the parser of command lines.
ghost use Rattle.std.specs.Prelude.{◌≡◌, Some, IfOk, codes, map, option_map, string_bytes};
ghost use Rattle.clap.specs.Words.{first_value, found_of};
ghost use Rattle.cargo_ssr_options.specs.Command.{AreOptionsOf, IsGiven, IsPlaceIn, color_or_auto, is_set, own_words, texts_in, values_of};

use crate::given::{Given, Mismatch};
use crate::options::{Color, Options};
use crate::place::{Place, read_place};
use clap::error::ErrorKind;
use clap::{Arg, ArgAction, ArgMatches, Command, Error};
use std::alloc::{AllocError, Global};

/// What stands below the options in the help.
const NOTES: &str =
    "A rule is 'PATTERN ==>> TEMPLATE'. Without paths all files of the package are searched. A rule that begins with - goes into a file of rules, where a paragraph is a rule and a line that begins with # a comment.

Status: 0 done; 1 something would change, with --check; 2 wrong words; 3 a refused rule, a clash of replacements, or what can't be read or written.";

/// What the words of the command say, the first of which is the program's name. The error is what is told in its place: of
/// wrong words, or the help or version that is asked for.
pub fn read_options(alloc: Global, words: &[String]) -> Result<Options, Error>
    ensures { IfOk result (AreOptionsOf (map string_bytes words.now)) }
{
    let matches = command(alloc)?.try_get_matches_from(own_words(words))?;
    let place = match place_in(alloc, &matches)? {
        Ok(place) => place,
        Err(told) => return Err(refused(alloc, told)?),
    };
    let Some(color) = color_in(&matches) else {
        return Err(refused(alloc, "--color takes auto, always or never")?);
    };
    match given(alloc, &matches, place, color)?.into_options() {
        Ok(options) => Ok(options),
        Err(mismatch) => Err(refused(alloc, mismatch.words())?),
    }
}

/// The words without the name of the command that cargo puts in front.
fn own_words(words: &[String]) -> &[String]
    ensures { map string_bytes result.now ≡ own_words (map string_bytes words.now) }
{
    match words.split_first() {
        Some((_, others)) => match others.first() {
            Some(first) if first.as_str() == "ssr" => others,
            _ => words,
        },
        None => words,
    }
}

/// The refusal of words, with the usage.
fn refused(alloc: Global, told: &str) -> Result<Error, AllocError> {
    command(alloc)?.error(ErrorKind::ArgumentConflict, told)
}

/// The command.
fn command<'a>(alloc: Global) -> Result<Command<'a>, AllocError> {
    let command = Command::new(alloc, "cargo ssr")
        .version("0.1.0")
        .about("Structural search and replace in a package's Rust files")
        .override_usage("cargo ssr [OPTIONS] RULE.. [-- PATH..]")
        .after_help(NOTES);
    let command = with_modes(alloc, with_rules(alloc, command)?)?;
    with_shown(alloc, with_searched(alloc, command)?)
}

/// An option that takes a value.
fn option<'a>(alloc: Global, name: &'a str, value: &'a str, help: &'a str) -> Arg<'a> {
    Arg::new(alloc, name)
        .long(name)
        .value_name(value)
        .action(ArgAction::Set)
        .help(help)
}

/// An option without a value.
fn flag<'a>(alloc: Global, name: &'a str, help: &'a str) -> Arg<'a> {
    Arg::new(alloc, name)
        .long(name)
        .action(ArgAction::SetTrue)
        .help(help)
}

/// The command with the arguments that tell rules and patterns.
fn with_rules<'a>(alloc: Global, command: Command<'a>) -> Result<Command<'a>, AllocError> {
    let rules = Arg::new(alloc, "rule")
        .value_name("RULE")
        .num_args(0..)
        .help("What is searched, and what stands for it");
    let patterns = option(
        alloc,
        "search",
        "PATTERN",
        "List what matches a pattern, and change nothing",
    )
    .action(ArgAction::Append)
    .allow_hyphen_values(true);
    command.arg(rules)?.arg(patterns)?.arg(option(
        alloc,
        "rules",
        "FILE",
        "Take more rules from a file",
    ))
}

/// The command with the options that tell what is done.
fn with_modes<'a>(alloc: Global, command: Command<'a>) -> Result<Command<'a>, AllocError> {
    let snippet = option(
        alloc,
        "debug",
        "SNIPPET",
        "Tell why rules match or don't where a text stands",
    )
    .allow_hyphen_values(true);
    command
        .arg(flag(alloc, "write", "Write the new texts"))?
        .arg(flag(
            alloc,
            "check",
            "Tell by status 1 that something would change",
        ))?
        .arg(snippet)
}

/// The command with the arguments that tell what is searched.
fn with_searched<'a>(alloc: Global, command: Command<'a>) -> Result<Command<'a>, AllocError> {
    let paths = Arg::new(alloc, "path")
        .value_name("PATH")
        .num_args(0..)
        .last(true)
        .help("Files, and folders of Rust files, that are searched");
    command
        .arg(paths)?
        .arg(option(
            alloc,
            "package",
            "NAME",
            "Search the package with this name",
        )
        .short('p'))?
        .arg(option(
            alloc,
            "manifest-path",
            "FILE",
            "Search the package with this manifest",
        ))?
        .arg(option(
            alloc,
            "facts",
            "FILE",
            "Search the files of a facts file, with what it tells of names and types",
        ))?
        .arg(option(
            alloc,
            "in",
            "FILE:LINE[:COL]",
            "Look up the names of rules there",
        ))?
        .arg(flag(alloc, "no-macros", "Pass over the arguments of macros"))
}

/// The command with the options that tell what is shown.
fn with_shown<'a>(alloc: Global, command: Command<'a>) -> Result<Command<'a>, AllocError> {
    let color = option(
        alloc,
        "color",
        "WHEN",
        "Show diffs in colours: auto, always or never",
    );
    command
        .arg(flag(alloc, "json", "Tell each match as a line of JSON"))?
        .arg(flag(
            alloc,
            "undecided",
            "List what would match if names meant what the rule means",
        ))?
        .arg(color)?
        .arg(flag(alloc, "quiet", "Tell no summary").short('q'))
}

/// What stands among the words.
fn given(
    alloc: Global,
    matches: &ArgMatches<'_>,
    place: Option<Place>,
    color: Color,
) -> Result<Given, AllocError>
    ensures { IfOk result (λ given. IsPlaceIn (first_value (found_of matches.now) (codes "in")) place
        → Some color ≡ color_or_auto (first_value (found_of matches.now) (codes "color")) → IsGiven (found_of matches.now) given) }
{
    Ok(Given {
        rules: texts(alloc, matches, "rule")?,
        rules_file: text(alloc, matches, "rules")?,
        patterns: texts(alloc, matches, "search")?,
        snippet: text(alloc, matches, "debug")?,
        write: is_set(matches, "write"),
        check: is_set(matches, "check"),
        json: is_set(matches, "json"),
        undecided: is_set(matches, "undecided"),
        no_macros: is_set(matches, "no-macros"),
        quiet: is_set(matches, "quiet"),
        color,
        place,
        paths: texts(alloc, matches, "path")?,
        package: text(alloc, matches, "package")?,
        manifest: text(alloc, matches, "manifest-path")?,
        facts: text(alloc, matches, "facts")?,
    })
}

/// When diffs are shown in colours, if that is told in one of its words or not at all.
fn color_in(matches: &ArgMatches<'_>) -> Option<Color>
    ensures { result ≡ color_or_auto (first_value (found_of matches.now) (codes "color")) }
{
    match matches.get_str("color") {
        None | Some("auto") => Some(Color::Auto),
        Some("always") => Some(Color::Always),
        Some("never") => Some(Color::Never),
        Some(_) => None,
    }
}

/// The place where names are looked up, if one is given; what is told where it can't be read.
fn place_in(
    alloc: Global,
    matches: &ArgMatches<'_>,
) -> Result<Result<Option<Place>, &'static str>, AllocError>
    ensures { IfOk result (λ told. IfOk told (IsPlaceIn (first_value (found_of matches.now) (codes "in")))) }
{
    let Some(text) = matches.get_str("in") else {
        return Ok(Ok(None));
    };
    match read_place(alloc, text)? {
        Some(place) => Ok(Ok(Some(place))),
        None => Ok(Err("--in takes FILE:LINE or FILE:LINE:COL")),
    }
}

/// Whether a flag is given.
fn is_set(matches: &ArgMatches<'_>, name: &str) -> bool
    ensures { result ≡ is_set (found_of matches.now) name.now }
{
    match matches.get_str(name) {
        Some(text) => text == "true",
        None => false,
    }
}

/// The value of an option, if it is given.
fn text(alloc: Global, matches: &ArgMatches<'_>, name: &str) -> Result<Option<String>, AllocError>
    ensures { IfOk result (λ text. option_map string_bytes text ≡ first_value (found_of matches.now) name.now) }
{
    match matches.get_str(name) {
        Some(text) => Ok(Some(String::from_str(alloc, text)?)),
        None => Ok(None),
    }
}

/// The values of an argument.
fn texts(alloc: Global, matches: &ArgMatches<'_>, name: &str) -> Result<Vec<String>, AllocError>
    ensures { IfOk result (λ texts. texts_in texts ≡ values_of (found_of matches.now) name.now) }
{
    let mut texts = Vec::new(alloc);
    let Some(given) = matches.get_strs(name) else {
        return Ok(texts);
    };
    for text in given {
        texts.push(String::from_str(alloc, text)?)?;
    }
    Ok(texts)
}
