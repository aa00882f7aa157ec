//! What stands among the words, and whether it goes together.
ghost use Rattle.std.specs.Prelude.{◌≡◌, IsTrue, ◌↔◌, ◌<◌, count_by};
ghost use Rattle.cargo_ssr_options.specs.Given.{chosen_of, has_two_chosen, has_two_modes, mismatch_of, mode_of, options_or_mismatch};

use crate::options::{Chosen, Color, Mode, Options};
use crate::place::Place;

/// What stands among the words.
#[derive(Debug, Drop)]
pub struct Given {
    pub rules: Vec<String>,
    pub rules_file: Option<String>,
    pub patterns: Vec<String>,
    pub snippet: Option<String>,
    pub write: bool,
    pub check: bool,
    pub json: bool,
    pub undecided: bool,
    pub no_macros: bool,
    pub quiet: bool,
    pub color: Color,
    pub place: Option<Place>,
    pub paths: Vec<String>,
    pub package: Option<String>,
    pub manifest: Option<String>,
    pub facts: Option<String>,
}

/// Why what stands among the words is nothing to do.
#[derive(Clone, Copy, Debug, PartialEq, Eq)]
pub enum Mismatch {
    /// More than one of `--write`, `--check`, `--search` and `--debug`.
    TwoModes,
    /// Rules and patterns.
    RulesAndPatterns,
    /// Neither rules nor patterns.
    NoRules,
    /// More than one of paths, a package and facts.
    TwoChosen,
    /// The debug list has no JSON.
    DebugAsJson,
}

impl Mismatch {
    /// What is told of it.
    pub fn words(self) -> &'static str {
        match self {
            Mismatch::TwoModes => {
                "only one of --write, --check, --search and --debug can be given"
            }
            Mismatch::RulesAndPatterns => "--search takes no rules",
            Mismatch::NoRules => "no rule was given, and no --rules or --search",
            Mismatch::TwoChosen => {
                "only one can be given of paths, --facts, and --package with --manifest-path"
            }
            Mismatch::DebugAsJson => "--debug can't be told as --json",
        }
    }
}

impl Given {
    /// Whether more than one of `--write`, `--check`, `--search` and `--debug` is given.
    fn has_two_modes(&self) -> bool
        ensures { result ≡ has_two_modes self.now }
    {
        let listed = !self.patterns.is_empty();
        let modes = [self.write, self.check, listed, self.snippet.is_some()];
        has_two(&modes)
    }

    /// Whether files are chosen in more than one way.
    fn has_two_chosen(&self) -> bool
        ensures { result ≡ has_two_chosen self.now }
    {
        let package = self.package.is_some() || self.manifest.is_some();
        let ways = [!self.paths.is_empty(), package, self.facts.is_some()];
        has_two(&ways)
    }

    /// What doesn't go together, the first that holds.
    fn mismatch(&self) -> Option<Mismatch>
        ensures { result ≡ mismatch_of self.now }
    {
        let has_rules = !self.rules.is_empty() || self.rules_file.is_some();
        if self.has_two_modes() {
            Some(Mismatch::TwoModes)
        } else if !self.patterns.is_empty() && has_rules {
            Some(Mismatch::RulesAndPatterns)
        } else if self.patterns.is_empty() && !has_rules {
            Some(Mismatch::NoRules)
        } else if self.has_two_chosen() {
            Some(Mismatch::TwoChosen)
        } else if self.json && self.snippet.is_some() {
            Some(Mismatch::DebugAsJson)
        } else {
            None
        }
    }

    /// What a run is to do.
    pub fn into_options(self) -> Result<Options, Mismatch>
        ensures { result ≡ options_or_mismatch self }
    {
        if let Some(mismatch) = self.mismatch() {
            return Err(mismatch);
        }
        let Given {
            rules,
            rules_file,
            patterns,
            snippet,
            write,
            check,
            json,
            undecided,
            no_macros,
            quiet,
            color,
            place,
            paths,
            package,
            manifest,
            facts,
        } = self;
        Ok(Options {
            mode: mode(write, check, patterns, snippet),
            rules,
            rules_file,
            files: chosen(paths, facts, package, manifest),
            place,
            macros: !no_macros,
            json,
            undecided,
            color,
            quiet,
        })
    }
}

/// Whether two of these hold.
fn has_two(tests: &[bool]) -> bool
    ensures { IsTrue result ↔ (1 < count_by (λ test. test) tests.now) }
{
    tests.iter().filter(|test| **test).count() > 1
}

/// What is done with what rules match.
fn mode(write: bool, check: bool, patterns: Vec<String>, snippet: Option<String>) -> Mode
    ensures { result ≡ mode_of write check patterns snippet }
{
    if let Some(snippet) = snippet {
        return Mode::Debug(snippet);
    }
    if !patterns.is_empty() {
        Mode::Search(patterns)
    } else if write {
        Mode::Write
    } else if check {
        Mode::Check
    } else {
        Mode::Diff
    }
}

/// The files that are searched.
fn chosen(
    paths: Vec<String>,
    facts: Option<String>,
    name: Option<String>,
    manifest: Option<String>,
) -> Chosen
    ensures { result ≡ chosen_of paths facts name manifest }
{
    if let Some(facts) = facts {
        return Chosen::Facts(facts);
    }
    if paths.is_empty() {
        Chosen::Package { name, manifest }
    } else {
        Chosen::Paths(paths)
    }
}
