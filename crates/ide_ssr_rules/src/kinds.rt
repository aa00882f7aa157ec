//! The kinds of a rule: as what its sides can be read.
ghost use Rattle.std.specs.Prelude.{◌≡◌, ◌++◌, IfOk, OnOk, option_to_list};
ghost use Rattle.std.specs.List.{list_any};
ghost use Rattle.std.specs.Option.{option_copied};
ghost use Rattle.ide_ssr_rules.specs.Kinds.{read_in, template_in, kind_with, kind_in, read_kinds, has_path, prefer_paths, kinds_of, some_kind};
ghost use Rattle.ide_ssr_refusals.specs.Refusals.{AnswersBy};

use ide_ssr_refusals::{Refusal, SsrError};
use ssr_syntax::{Fragment, FragmentText, Reach, SyntaxError};
use ssr_syntax_kinds::SyntaxKind;
use ssr_syntax_tree::{NodeNo, Tree};
use std::alloc::{AllocError, Global};

/// In which order the categories are tried.
const CATEGORIES: [Fragment; 5] = [
    Fragment::Expr,
    Fragment::Ty,
    Fragment::Item,
    Fragment::Pat,
    Fragment::Stmt,
];

/// A pattern of one kind and its template, which that of a search pattern lacks.
#[derive(Drop)]
pub struct ParsedRule {
    /// How much of Rust the trees were read in.
    pub reach: Reach,
    /// What the template was read as, or the pattern, where there is none.
    pub category: Fragment,
    pub pattern: Tree,
    pub template: Option<Tree>,
}

/// A side, read in a category.
#[derive(Drop)]
struct ReadSide {
    category: Fragment,
    tree: Tree,
}

/// A side's text read in a reach in a category, where it can be.
fn read_in(
    alloc: Global,
    reach: Reach,
    category: Fragment,
    text: &FragmentText,
) -> Result<Option<ReadSide>, AllocError>
    ensures { IfOk result (λ side. side ≡ read_in reach category text.now) }
{
    match text.read_of(alloc, reach, category) {
        Ok(tree) => Ok(Some(ReadSide { category, tree })),
        Err(SyntaxError::Memory) => Err(AllocError),
        Err(_) => Ok(None),
    }
}

/// The template beside a pattern of a category.
fn template_in(
    alloc: Global,
    reach: Reach,
    category: Fragment,
    text: &FragmentText,
) -> Result<Option<ReadSide>, AllocError>
    ensures { IfOk result (λ side. side ≡ template_in reach category text.now) }
{
    let read = read_in(alloc, reach, category, text)?;
    if read.is_none() && matches!(category, Fragment::Expr) {
        return read_in(alloc, reach, Fragment::Stmt, text);
    }
    Ok(read)
}

/// The kind that a pattern gives, if the template, where there is one, can be read beside it.
fn kind_with(
    alloc: Global,
    reach: Reach,
    template: Option<&FragmentText>,
    pattern: ReadSide,
) -> Result<Option<ParsedRule>, AllocError>
    ensures { IfOk result (λ kind. kind ≡ kind_with reach (option_copied template.entry) pattern) }
{
    let ReadSide { category, tree } = pattern;
    let Some(template) = template else {
        return Ok(Some(ParsedRule {
            reach,
            category,
            pattern: tree,
            template: None,
        }));
    };
    let Some(side) = template_in(alloc, reach, category, template)? else {
        return Ok(None);
    };
    Ok(Some(ParsedRule {
        reach,
        category: side.category,
        pattern: tree,
        template: Some(side.tree),
    }))
}

/// The kind in which the pattern is of a category.
fn kind_in(
    alloc: Global,
    reach: Reach,
    pattern: &FragmentText,
    template: Option<&FragmentText>,
    category: Fragment,
) -> Result<Option<ParsedRule>, AllocError>
    ensures { IfOk result (λ kind. kind ≡ kind_in reach pattern.now (option_copied template.entry) category) }
{
    match read_in(alloc, reach, category, pattern)? {
        Some(side) => kind_with(alloc, reach, template, side),
        None => Ok(None),
    }
}

/// Adds a kind, if there is one.
fn push_some(kinds: &mut Vec<ParsedRule>, kind: Option<ParsedRule>) -> Result<(), AllocError>
    ensures { OnOk result (kinds.new.items ≡ kinds.old.items ++ option_to_list kind) }
{
    if let Some(kind) = kind {
        kinds.push(kind)?;
    }
    Ok(())
}

/// The kinds in which both sides are read.
fn read_kinds(
    alloc: Global,
    reach: Reach,
    pattern: &FragmentText,
    template: Option<&FragmentText>,
) -> Result<Vec<ParsedRule>, AllocError>
    ensures { IfOk result (λ v. v.items ≡ read_kinds reach pattern.now (option_copied template.entry)) }
{
    let mut kinds = Vec::new(alloc);
    for category in CATEGORIES {
        let kind = kind_in(alloc, reach, pattern, template, category)?;
        push_some(&mut kinds, kind)?;
    }
    Ok(kinds)
}

/// Whether a tree has a path.
fn has_path(tree: &Tree) -> bool
    ensures { result ≡ has_path tree.now }
{
    for number in 0..tree.node_count() {
        if tree.kind(NodeNo(number)).is(SyntaxKind::PATH) {
            return true;
        }
    }
    false
}

/// Whether one of the kinds has a pattern with a path.
fn some_path(kinds: &[ParsedRule]) -> bool
    ensures { result ≡ list_any (λ kind. has_path kind.pattern) kinds.now }
{
    kinds.iter().any(|kind| has_path(&kind.pattern))
}

/// Drops the kinds without a path beside one that has it.
fn prefer_paths(kinds: &mut Vec<ParsedRule>)
    ensures { kinds.new.items ≡ prefer_paths kinds.old.items }
{
    if !some_path(kinds.as_slice()) {
        return;
    }
    kinds.retain(|kind| has_path(&kind.pattern));
}

/// The kinds of a rule, from its sides' texts with stand-ins.
#[tactic(auto, unfolding(crate::specs::Kinds::kinds_of))]
fn kinds_of(
    alloc: Global,
    reach: Reach,
    pattern: &FragmentText,
    template: Option<&FragmentText>,
) -> Result<Vec<ParsedRule>, AllocError>
    ensures { IfOk result (λ v. v.items ≡ kinds_of reach pattern.now (option_copied template.entry)) }
{
    let mut kinds = read_kinds(alloc, reach, pattern, template)?;
    prefer_paths(&mut kinds);
    Ok(kinds)
}

/// The kinds of a rule, of which there is at least one.
pub(crate) fn some_kind(
    alloc: Global,
    reach: Reach,
    pattern: &FragmentText,
    template: Option<&FragmentText>,
) -> Result<Vec<ParsedRule>, SsrError>
    ensures { AnswersBy (λ v. v.items) result (some_kind (kinds_of reach pattern.now (option_copied template.entry))) }
{
    let kinds = kinds_of(alloc, reach, pattern, template)?;
    if kinds.is_empty() {
        return Err(Refusal::NoKind.told(alloc));
    }
    Ok(kinds)
}
