//! The finder: a workspace, rules, and what the search for them is made for.

ghost use Rattle.std.specs.Prelude.{ℕ, ◌≡◌, ◌↔◌, ◌≤◌, ◌+◌, ◌++◌, [], All, IfOk, IsTrue, OnErr, length};
ghost use Rattle.ide_ssr_resolved_rule.specs.Patterns.{HasEachOnce, AreInArguments};
ghost use Rattle.ide_ssr_resolving.specs.Resolved.{IsResolvedBy};
ghost use Rattle.ide_ssr_rules.specs.Resolved.{resolved_kinds};
ghost use Rattle.ide_ssr_rules.specs.Rules.{once};
ghost use Rattle.ide_ssr_rewriting.specs.Edits.{EditsFit, EditsInOrder};
ghost use Rattle.ide_ssr_search.specs.Making.{Makes, MakesFirst};
ghost use Rattle.ide_ssr.specs.Adding.{Adds};
ghost use Rattle.ide_ssr.specs.BindsOnce.{BindOnce};
ghost use Rattle.ide_ssr.specs.Edits.{Edits, HaveTemplates};
ghost use Rattle.ide_ssr.specs.EditedTree.{EditsTree};
ghost use Rattle.ide_ssr.specs.Finder.{finder_of};
ghost use Rattle.ide_ssr.specs.Making.{MakesFinder, TellsRefusal};
ghost use Rattle.ide_ssr.specs.Nesting.{ShowKept};
ghost use Rattle.ide_ssr.specs.Private.Found.{IsEnoughFound};
ghost use Rattle.ide_ssr.specs.Private.Rewriting.{Rewrites};
ghost use Rattle.ide_ssr.specs.Searching.{IsOutcome};
ghost use Rattle.ide_ssr_leading.specs.Tries.{IsMost};

use crate::matches::{Match, SsrMatches};
use crate::nesting::nested_matches;
use ide_ssr_bindings::FoundMatch;
use ide_ssr_edited::{EditedError, edited_tree};
use ide_ssr_leading::find_led;
use ide_ssr_matching::Tries;
use ide_ssr_nesting::{KeptMatches, Lists, keep};
use ide_ssr_refusals::SsrError;
use ide_ssr_resolved_rule::ResolvedRule;
use ide_ssr_rewriting::{EditError, edits};
use ide_ssr_rules::{SsrPattern, SsrRule, resolve_pattern, resolve_rule};
use ide_ssr_search::{Context, ContextError, find_matches};
use ssr_base::Workspace;
use ssr_base_trees::{FileId, FilePosition, FileRange, Semantics, TextEdit, Trees};
use ssr_syntax_tree::Tree;
use std::alloc::{AllocError, Global};
use std::collections::BTreeMap;
use std::fmt;
use std::marker::Model;

/// Finds what matches rules in a workspace, and rewrites it.
#[derive(Drop)]
pub struct MatchFinder<'a, S: Semantics> {
    pub(crate) alloc: Global,
    pub(crate) workspace: &'a Trees,
    pub(crate) semantics: &'a S,
    context: Context,
    pub(crate) rules: Vec<ResolvedRule>,
}

impl<'a, S: Semantics> Model for MatchFinder<'a, S> {
    ghost use Rattle.std.specs.Prelude.{All};
    ghost use Rattle.ide_ssr_resolved_rule.specs.Patterns.{HasEachOnce, AreInArguments};
    ghost use Rattle.ide_ssr_resolving.specs.Resolved.{IsResolvedBy};
    ghost use Rattle.ide_ssr.specs.Finder.{FinderWith};
    ghost use Rattle.ide_ssr.specs.FinderCode.{finder_code};

    ghost Value = { FinderWith S };

    ghost coded = { finder_code S.code };

    ghost view = { λ finder. record { workspace = finder.workspace.now; semantics = finder.semantics.now; context = finder.context; rules = finder.rules.items } };

    ghost invariant = { λ finder. All (λ rule. HasEachOnce rule.names rule.pattern) finder.rules.items × All (λ rule. AreInArguments rule.names rule.pattern rule.pattern_paths) finder.rules.items × All (IsResolvedBy (S.meanings finder.semantics.now)) finder.rules.items };
}

/// Tells how many rules there are, a text without a promise.
impl<S: Semantics> fmt::Debug for MatchFinder<'_, S> {
    fn fmt<W: fmt::Write>(&self, f: &mut fmt::Formatter<W>) -> fmt::Result {
        f.debug_struct("MatchFinder")
            .field("rules", &self.rules.len())
            .finish_non_exhaustive()
    }
}

/// Kept matches, their lists, and the edits by which they are rewritten.
#[derive(Drop)]
struct Rewritten<'a> {
    kept: KeptMatches<'a>,
    lists: Lists,
    edits: BTreeMap<FileId, TextEdit>,
}

/// The error that tells why there is nothing to make a search for.
fn to_error(alloc: Global, refusal: ContextError) -> SsrError
    ensures { TellsRefusal result refusal }
{
    if let ContextError::Memory = refusal {
        return SsrError::Memory;
    }
    match refusal.to_string(alloc) {
        Ok(message) => SsrError::Message(message),
        Err(AllocError) => SsrError::Memory,
    }
}

/// Whether each rule has a template.
fn have_templates(rules: &[ResolvedRule]) -> bool
    ensures { IsTrue result ↔ HaveTemplates rules.now }
{
    for rule in rules {
        if rule.template().is_none() {
            return false;
        }
    }
    true
}

impl<'a, S: Semantics> MatchFinder<'a, S> {
    /// A finder without rules. The names of its rules are looked up where the node of a position stands; without
    /// restrictions that have a byte it searches all files, else what lies in one of them. Refused, by the first of these
    /// that holds: `No such file` of the position, `No such position`, which is past the end of the file, `No such file` of a
    /// restriction that has a byte, and `no resolution scope for file`, where the position's node stands in no scope.
    pub fn in_context(
        alloc: Global,
        workspace: &'a Workspace,
        semantics: &'a S,
        position: FilePosition,
        restrictions: Vec<FileRange>,
    ) -> Result<MatchFinder<'a, S>, SsrError>
        ensures { MakesFinder workspace.now semantics.now (Makes workspace.now (S.meanings semantics.now) position restrictions.items) result }
    {
        let trees = workspace.trees();
        match Context::at(alloc, trees, semantics, position, restrictions) {
            Ok(context) => Ok(MatchFinder::with(alloc, trees, semantics, context)),
            Err(refusal) => Err(to_error(alloc, refusal)),
        }
    }

    /// A finder without rules, which searches all files. The names of its rules are looked up where the node at the beginning
    /// of the first file stands. Refused: `No files to search`, where there is no file, and `no resolution scope for file`,
    /// where that node stands in no scope.
    pub fn at_first_file(
        alloc: Global,
        workspace: &'a Workspace,
        semantics: &'a S,
    ) -> Result<MatchFinder<'a, S>, SsrError>
        ensures { MakesFinder workspace.now semantics.now (MakesFirst workspace.now (S.meanings semantics.now)) result }
    {
        let trees = workspace.trees();
        match Context::at_first_file(alloc, trees, semantics) {
            Ok(context) => Ok(MatchFinder::with(alloc, trees, semantics, context)),
            Err(refusal) => Err(to_error(alloc, refusal)),
        }
    }

    /// A finder without rules.
    fn with(
        alloc: Global,
        workspace: &'a Trees,
        semantics: &'a S,
        context: Context,
    ) -> MatchFinder<'a, S>
        ensures { result ≡ record { workspace = workspace.now; semantics = semantics.now; context = context; rules = [] } }
    {
        MatchFinder {
            alloc,
            workspace,
            semantics,
            context,
            rules: Vec::new(alloc),
        }
    }

    /// Adds all kinds of a rule, in their order, with what their paths stand for where the finder's position stands. It is
    /// refused for the first path that has to resolve and doesn't. A refused rule, or one that there is no memory for, leaves
    /// the finder as it was.
    pub fn add_rule(&mut self, rule: SsrRule) -> Result<(), SsrError>
        ensures answer { Adds self.old self.new (resolved_kinds (S.meanings self.old.semantics) self.old.context.scope rule.names rule.constraints rule.kinds) result }
        ensures unchanged { OnErr result (self.new ≡ self.old) }
    {
        let kinds = resolve_rule(self.alloc, self.semantics, self.context.scope(), rule)?;
        Ok(self.add_kinds(kinds)?)
    }

    /// Adds a rule as `add_rule` does, but of one whose pattern is a placeholder alone the first kind only: by each of its kinds it
    /// matches the same nodes, and one replacement would stand in another.
    pub fn add_rule_once(&mut self, rule: SsrRule) -> Result<(), SsrError>
        ensures answer { Adds self.old self.new (resolved_kinds (S.meanings self.old.semantics) self.old.context.scope (once rule).names (once rule).constraints (once rule).kinds) result }
        ensures unchanged { OnErr result (self.new ≡ self.old) }
    {
        self.add_rule(rule.once())
    }

    /// Adds all kinds of a search pattern, in their order, with what their paths stand for where the finder's position stands.
    /// They have no template: a finder that has such a kind has no edits. It is refused for the first path that has to resolve
    /// and doesn't. A refused pattern, or one that there is no memory for, leaves the finder as it was.
    pub fn add_search_pattern(&mut self, pattern: SsrPattern) -> Result<(), SsrError>
        ensures answer { Adds self.old self.new (resolved_kinds (S.meanings self.old.semantics) self.old.context.scope pattern.names pattern.constraints pattern.kinds) result }
        ensures unchanged { OnErr result (self.new ≡ self.old) }
    {
        let kinds = resolve_pattern(self.alloc, self.semantics, self.context.scope(), pattern)?;
        Ok(self.add_kinds(kinds)?)
    }

    /// Adds what a rule or a pattern resolves to, behind the others.
    fn add_kinds(&mut self, mut kinds: Vec<ResolvedRule>) -> Result<(), AllocError>
        requires each { All (λ kind. HasEachOnce kind.names kind.pattern) kinds.items }
        requires in_arguments { All (λ kind. AreInArguments kind.names kind.pattern kind.pattern_paths) kinds.items }
        requires known { All (IsResolvedBy (S.meanings self.old.semantics)) kinds.items }
        ensures added { IfOk result (λ _. self.new ≡ record self.old { rules = self.old.rules ++ kinds.items }) }
        ensures unchanged { OnErr result (self.new ≡ self.old) }
    {
        self.rules.append(&mut kinds)
    }

    /// The edits of the files by their numbers, of those in which something matches: each outermost kept match becomes its
    /// rule's template with what its placeholders hold, in which the matches are rewritten likewise. `NoTemplate` where a
    /// rule has none, whether it matches or not; else `Clash` where two matches of one list share a byte, and their ranges
    /// or what stands for them differ: the first two. The changes of a file stand in order, and no two share a byte.
    pub fn edits(&self) -> Result<BTreeMap<FileId, TextEdit>, EditError>
        ensures answer { Edits (finder_of S.meanings self.now) result }
        ensures fits { IfOk result (λ edits. EditsFit self.now.workspace edits) }
        ensures order { IfOk result (λ edits. EditsInOrder edits) }
    {
        let rewritten = self.rewritten()?;
        Ok(rewritten.edits)
    }

    /// The edits, and the kept matches that they are for, with their lists.
    fn rewritten(&self) -> Result<Rewritten<'a>, EditError>
        ensures answer { Rewrites (finder_of S.meanings self.now) result }
        ensures fits { IfOk result (λ rewritten. EditsFit self.now.workspace rewritten.edits) }
        ensures order { IfOk result (λ rewritten. EditsInOrder rewritten.edits) }
    {
        if !have_templates(&self.rules) {
            return Err(EditError::NoTemplate);
        }
        let found = self.found_where_led(&mut Tries::none())?;
        let (kept, lists) = self.outcome(found)?;
        let edits = edits(self.alloc, self.semantics, &kept, &lists, &self.rules)?;
        Ok(Rewritten { kept, lists, edits })
    }

    /// The tree of a file with its edit made, if there is such a file: the old tree, in which each outermost match has given way to what
    /// is written for it, in parentheses where it is. White space and comments don't count. `Edit` where `edits` refuses, else
    /// `Syntax` where the new text isn't read, else `Differs` where it is read as another tree. `Differs` also where none is expected:
    /// a match, its rule's template or what is written for it is no expression, or the match lies in what a call of a macro stands
    /// for.
    pub fn edited_tree(&self, file: FileId) -> Result<Option<Tree>, EditedError>
        ensures { EditsTree (finder_of S.meanings self.now) file result }
    {
        let Rewritten { kept, lists, edits } = self.rewritten()?;
        match edits.get(&file) {
            Some(edit) => edited_tree(self.alloc, &kept, &lists, &self.rules, file, edit),
            None => {
                let none = TextEdit::new(Vec::new(self.alloc));
                edited_tree(self.alloc, &kept, &lists, &self.rules, file, &none)
            }
        }
    }

    /// The kept matches as `edits` replaces them: the outermost ones, each with what its placeholders hold. A match has each
    /// placeholder of its rule once, and their ranges share no byte. A rule that a path leads is tried only where
    /// usages of what this path stands for lead, at no more nodes than there are usages; any other rule at each node where it
    /// is permitted.
    pub fn matches(&self) -> Result<SsrMatches<'a>, AllocError>
        ensures shows { IfOk result (λ found. ShowKept (finder_of S.meanings self.now) found.matches.items) }
        ensures binds { IfOk result (λ found. BindOnce self.now.rules found.matches.items) }
        ensures count { IfOk result (λ found. (most : ℕ) → IsMost self.now.workspace (S.meanings self.now.semantics) self.now.context self.now.rules most → found.tries ≤ most) }

        // The counter is that of the search: each match was tried.
        ensures tried { IfOk result (λ found. length found.matches.items ≤ found.tries) }
    {
        let mut tries = Tries::none();
        let found = self.found_where_led(&mut tries)?;
        let matches = self.nested(found)?;
        Ok(SsrMatches { matches, tries })
    }

    /// The kept matches, as `matches` lists them, always found by trying every node at which a rule is permitted.
    pub fn scan_matches(&self) -> Result<SsrMatches<'a>, AllocError>
        ensures shows { IfOk result (λ found. ShowKept (finder_of S.meanings self.now) found.matches.items) }
        ensures binds { IfOk result (λ found. BindOnce self.now.rules found.matches.items) }
        ensures tried { IfOk result (λ found. length found.matches.items ≤ found.tries) }
    {
        let mut tries = Tries::none();
        let found = find_matches(
            self.alloc,
            self.workspace,
            self.semantics,
            &self.context,
            &self.rules,
            &mut tries,
        )?;
        Ok(SsrMatches {
            matches: self.nested(found)?,
            tries,
        })
    }

    /// All matches of the rules that may be kept, found where usages lead.
    fn found_where_led(&self, tries: &mut Tries) -> Result<Vec<FoundMatch>, AllocError>
        ensures found { IfOk result (λ found. IsEnoughFound (finder_of S.meanings self.now) found.items) }
        ensures count { IfOk result (λ _. (most : ℕ) → IsMost self.now.workspace (S.meanings self.now.semantics) self.now.context self.now.rules most → tries.new ≤ tries.old + most) }
        ensures tried { IfOk result (λ found. tries.old + length found.items ≤ tries.new) }
    {
        find_led(
            self.alloc,
            self.workspace,
            self.semantics,
            &self.context,
            &self.rules,
            tries,
        )
    }

    /// What is found, with the kept ones nested.
    fn nested(&self, found: Vec<FoundMatch>) -> Result<Vec<Match<'a>>, AllocError>
        requires { IsEnoughFound (finder_of S.meanings self.now) found.items }
        ensures shows { IfOk result (λ matches. ShowKept (finder_of S.meanings self.now) matches.items) }
        ensures binds { IfOk result (λ matches. BindOnce self.now.rules matches.items) }
        ensures few { IfOk result (λ matches. length matches.items ≤ length found.items) }
    {
        let (kept, lists) = self.outcome(found)?;
        nested_matches(self.alloc, &kept, &lists, &self.rules)
    }

    /// The kept ones of all matches of the rules, and their lists.
    fn outcome(&self, found: Vec<FoundMatch>) -> Result<(KeptMatches<'a>, Lists), AllocError>
        requires { IsEnoughFound (finder_of S.meanings self.now) found.items }
        ensures comes { IfOk result (λ outcome. IsOutcome (finder_of S.meanings self.now) outcome.0 outcome.1) }
        ensures few { IfOk result (λ outcome. length outcome.0.matches ≤ length found.items) }
    {
        let kept = keep(self.alloc, self.workspace, found)?;
        let lists = Lists::new(self.alloc, &kept)?;
        Ok((kept, lists))
    }
}
