//! A search for rules, from its finder to the edits.
ghost use Rattle.std.specs.Prelude.{◌≡◌, IfOk, map, string_bytes};
ghost use Rattle.ide_ssr.specs.Adding.{Adds};
ghost use Rattle.ide_ssr_rewriting.specs.Edits.{EditsFit};
ghost use Rattle.ssr_searching.specs.Searching.{Reaches, ReachesBy, ReachesOnce, rule_kinds, rules_reading};
ghost use Rattle.ssr_searching.specs.Private.Searching.{reach_of, reading_of};

use ide_ssr::{EditError, MatchFinder, SsrError, SsrRule};
use ssr_base::{FileId, FilePosition, FileRange, Semantics, TextEdit, Workspace};
use ssr_syntax_kinds::Reach;
use std::alloc::{AllocError, Global};
use std::collections::BTreeMap;

/// Why a search comes to no edits.
#[derive(Debug, Drop)]
pub enum SearchError {
    /// There is no finder, or a rule is refused, with this message.
    Refused(String),
    /// What stands for two matches clashes, which come from these ranges.
    Clash(FileRange, FileRange),
    /// Memory ran out.
    Memory,
}

impl From<SsrError> for SearchError {
    ghost use Rattle.std.specs.Prelude.{◌≡◌};
    ghost use Rattle.ssr_searching.specs.Private.Searching.{search_error};

    ghost from_gives = { λ error result. result ≡ search_error error };

    fn from(error: SsrError) -> SearchError {
        match error {
            SsrError::Message(message) => SearchError::Refused(message),
            SsrError::Memory => SearchError::Memory,
        }
    }
}

impl From<AllocError> for SearchError {
    ghost use Rattle.std.specs.Prelude.{◌≡◌};
    ghost use Rattle.ssr_searching.specs.declared.searching.SearchError.TheVariants as errors;

    ghost from_gives = { λ _ result. result ≡ errors.Memory };

    fn from(_: AllocError) -> SearchError {
        SearchError::Memory
    }
}

/// Which kinds of a rule are searched.
#[derive(Clone, Copy)]
enum Kinds {
    /// Each of them.
    Each,
    /// The first one alone, where the pattern is a placeholder alone; else each of them. The rules are read in this reach.
    Once(Reach),
}

impl Kinds {
    /// The reach that rules are read in.
    fn reach(self) -> Reach
        ensures { result ≡ reach_of self }
    {
        match self {
            Kinds::Each => Reach::Stated,
            Kinds::Once(reach) => reach,
        }
    }
}

/// Where names of rules are looked up, and the ranges to search in, without any of which all is searched.
#[derive(Drop)]
pub struct Place {
    pub position: FilePosition,
    pub ranges: Vec<FileRange>,
}

/// Adds the rule that a text says.
fn add_rule<S: Semantics>(
    alloc: Global,
    finder: &mut MatchFinder<'_, S>,
    kinds: Kinds,
    text: &str,
) -> Result<(), SsrError>
    ensures { Adds finder.old finder.new (rule_kinds (reading_of kinds) (S.meanings finder.old.semantics) finder.old.context.scope text.now) result }
{
    let rule = SsrRule::parse_of(alloc, kinds.reach(), text)?;
    match kinds {
        Kinds::Each => finder.add_rule(rule),
        Kinds::Once(_) => finder.add_rule_once(rule),
    }
}

/// Adds the rules, in their order, up to the first refusal.
fn add_rules<S: Semantics>(
    alloc: Global,
    finder: &mut MatchFinder<'_, S>,
    kinds: Kinds,
    rules: &[String],
) -> Result<(), SsrError>
    ensures { Adds finder.old finder.new (rules_reading (reading_of kinds) (S.meanings finder.old.semantics) finder.old.context.scope (map string_bytes rules.now)) result }
{
    for rule in rules {
        add_rule(alloc, finder, kinds, rule.as_str())?;
    }
    Ok(())
}

/// The edits that a search for these kinds of rules comes to.
fn edits_by<S: Semantics>(
    alloc: Global,
    workspace: &Workspace,
    semantics: &S,
    place: Place,
    kinds: Kinds,
    rules: &[String],
) -> Result<BTreeMap<FileId, TextEdit>, SearchError>
    ensures answer { ReachesBy (reading_of kinds) (record { workspace = workspace.now; meanings = S.meanings semantics.now; position = place.position; ranges = place.ranges.items }) (map string_bytes rules.now) result }
    ensures fits { IfOk result (λ edits. EditsFit workspace.now edits) }
{
    let Place { position, ranges } = place;
    let mut finder = MatchFinder::in_context(alloc, workspace, semantics, position, ranges)?;
    add_rules(alloc, &mut finder, kinds, rules)?;
    match finder.edits() {
        Ok(edits) => Ok(edits),
        Err(EditError::Clash(earlier, later)) => Err(SearchError::Clash(earlier, later)),
        Err(EditError::Memory) => Err(SearchError::Memory),
        // each rule has a template
        Err(EditError::NoTemplate) => unreachable!(),
    }
}

/// The edits that a search for rules comes to: in a workspace, with a provider, at a position and in ranges, without any of which
/// all is searched. A refused position or range is told before a refused rule, and that before a clash.
pub fn edits<S: Semantics>(
    alloc: Global,
    workspace: &Workspace,
    semantics: &S,
    position: FilePosition,
    ranges: Vec<FileRange>,
    rules: &[String],
) -> Result<BTreeMap<FileId, TextEdit>, SearchError>
    ensures answer { Reaches (record { workspace = workspace.now; meanings = S.meanings semantics.now; position = position; ranges = ranges.items }) (map string_bytes rules.now) result }
    ensures fits { IfOk result (λ edits. EditsFit workspace.now edits) }
{
    let place = Place { position, ranges };
    edits_by(alloc, workspace, semantics, place, Kinds::Each, rules)
}

/// The edits as `edits` gives them, but that the rules are read in a reach, and one whose pattern is a placeholder alone is searched by
/// its first kind alone: by each of its kinds it matches the same nodes, and one replacement would stand in another.
pub fn edits_once<S: Semantics>(
    alloc: Global,
    reach: Reach,
    workspace: &Workspace,
    semantics: &S,
    place: Place,
    rules: &[String],
) -> Result<BTreeMap<FileId, TextEdit>, SearchError>
    ensures answer { ReachesOnce reach (record { workspace = workspace.now; meanings = S.meanings semantics.now; position = place.position; ranges = place.ranges.items }) (map string_bytes rules.now) result }
    ensures fits { IfOk result (λ edits. EditsFit workspace.now edits) }
{
    edits_by(
        alloc,
        workspace,
        semantics,
        place,
        Kinds::Once(reach),
        rules,
    )
}
