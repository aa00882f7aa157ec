//! Whether the changes of a file leave what calls of macros in it stand for as it was.
ghost use Rattle.std.specs.Prelude.{◌≡◌, ◌<◌, ◌≤◌, ◌^◌, false, All, IfOk, IfSome, Some, length, map, slice_get};
ghost use Rattle.std.specs.Option.{option_map, option_map_or};
ghost use Rattle.std.specs.Result.{result_ok};
ghost use Rattle.ssr_syntax_kinds.specs.declared.fragment.Fragment.TheVariants as fragments;
ghost use Rattle.ssr_syntax_tree.specs.Syntax.{source_of};
ghost use Rattle.ssr_syntax.specs.Reading.{fragment_reading_of};
ghost use Rattle.ssr_base_trees.specs.Changes.{FitsText};
ghost use Rattle.ssr_base_trees.specs.Origins.{plain_origin, span_of};
ghost use Rattle.ssr_standing.specs.Expansions.{as_they_are, both_agree, call_of, closing, first_stand, is_changed, is_in_braces, opening, origin_of, read_with, spelled_with, stands_for, stands_in};
ghost use Rattle.ssr_standing.specs.Private.Expansions.{read_of};
ghost use Rattle.ssr_standing.specs.Ranges.{old_place};
ghost use Rattle.ssr_standing.specs.Private.Spelling.{place_of, shown};

use crate::agreeing::agree;
use crate::argument_names::names_arguments;
use crate::passing::Passing;
use crate::ranges::old_ranges;
use crate::spelling::{Place, Speller};
use crate::standing::stands_of;
use ssr_base_trees::{NodeId, TextEdit, TokenRun, Trees};
use ssr_syntax::{SyntaxError, fragment_of};
use ssr_syntax_kinds::{Fragment, Reach, SyntaxKind, TextRange};
use ssr_syntax_tree::{NodeNo, TokenNo, Tree};
use std::alloc::{AllocError, Global};

/// A file of a workspace.
#[derive(Drop)]
pub struct SearchedFile<'a> {
    pub trees: &'a Trees,
    pub number: u32,
    pub tree: &'a Tree,
    ghost there: { slice_get trees.now.files number ≡ Some tree.now },
}

/// Changes of a file, the ranges that they replace, and the changes that put there what stands there.
#[derive(Drop)]
struct Edited<'a> {
    file: &'a SearchedFile<'a>,
    edit: &'a TextEdit,
    ranges: &'a [TextRange],
    old: &'a TextEdit,
    ghost placed: { map span_of ranges.now ≡ map old_place edit.now },
    ghost unchanged: { old.now ≡ as_they_are file.now.tree.now edit.now },
}

/// The bytes of the file at the top that a token of a tree comes from.
fn origin_of(trees: &Trees, tree: u32, token: u32) -> Option<TextRange>
    ensures { plain_origin result ≡ origin_of trees.now tree token }
{
    let run = TokenRun {
        first: token,
        count: 1,
    };
    match trees.original_range_of_tokens(tree, run) {
        Some(range) => Some(range.range),
        None => None,
    }
}

/// Whether what stands for a call are statements or items.
fn is_in_braces(kind: SyntaxKind) -> bool
    ensures { result ≡ is_in_braces kind }
{
    kind.is(SyntaxKind::MACRO_STMTS) || kind.is(SyntaxKind::MACRO_ITEMS)
}

/// What opens them.
fn opening(kind: SyntaxKind) -> &'static str
    ensures { result.now ≡ opening kind }
{
    if is_in_braces(kind) { "{" } else { "(" }
}

/// What closes them.
fn closing(kind: SyntaxKind) -> &'static str
    ensures { result.now ≡ closing kind }
{
    if is_in_braces(kind) { "}" } else { ")" }
}

/// What the tokens of a tree with this number spell with the changes made, which replace these places, without the closing bracket.
fn spelled(
    alloc: Global,
    trees: &Trees,
    number: u32,
    tree: &Tree,
    edit: &TextEdit,
    mut passing: Passing<'_>,
) -> Result<Speller, AllocError>
    requires { map span_of passing.places.now ≡ map old_place edit.now }
    ensures { IfOk result (λ speller. shown speller ≡ spelled_with trees.now edit.now number tree.now) }
{
    let mut speller = Speller::new(alloc, opening(tree.kind(NodeNo(0))))?;
    for token in 0..tree.token_count() {
        let origin = origin_of(trees, number, token);
        let change = passing.change_of(origin);
        speller.add(edit, change, origin, tree.token_text(TokenNo(token)))?;
    }
    Ok(speller)
}

/// Where the texts of changes stand in a text that is short enough to be read.
fn ranges(alloc: Global, places: &[Place]) -> Result<Vec<TextRange>, AllocError>
    requires { All (λ place. (place.start ≤ place.end) × (place.end < 2 ^ 32)) places.now }
    ensures { IfOk result (λ ranges. map span_of ranges.items ≡ map place_of places.now) }
{
    let mut ranges = Vec::with_capacity(alloc, places.len())?;
    for place in places {
        ranges.push(TextRange::new(place.start as u32, place.end as u32))?;
    }
    Ok(ranges)
}

/// What is read of an expression in a reach, if it is read.
pub fn expression(alloc: Global, reach: Reach, text: &str) -> Result<Option<Tree>, AllocError>
    ensures tree { IfOk result (λ tree. tree ≡ result_ok (fragment_reading_of reach fragments.Expr text.now)) }
    ensures short { IfOk result (λ tree. IfSome tree (λ _. length text.now < 2 ^ 32)) }
{
    match fragment_of(alloc, reach, Fragment::Expr, text) {
        Ok((tree, _)) => Ok(Some(tree)),
        Err(SyntaxError::Memory) => Err(AllocError),
        Err(_) => Ok(None),
    }
}

/// What is read with changes made, and the places of these.
#[derive(Drop)]
struct ReadWith {
    tree: Tree,
    places: Vec<TextRange>,
}

/// What is read of the tokens of a tree with this number with the changes made, which replace these places.
fn read_with(
    alloc: Global,
    trees: &Trees,
    number: u32,
    tree: &Tree,
    edit: &TextEdit,
    passing: Passing<'_>,
) -> Result<Option<ReadWith>, AllocError>
    requires { map span_of passing.places.now ≡ map old_place edit.now }
    ensures { IfOk result (λ read. option_map read_of read ≡ read_with trees.now edit.now number tree.now) }
{
    let mut speller = spelled(alloc, trees, number, tree, edit, passing)?;
    speller.text.push_str(closing(tree.kind(NodeNo(0))))?;
    let read = expression(alloc, trees.reach(), speller.text.as_str())?;
    let Some(new) = read else {
        return Ok(None);
    };
    let places = ranges(alloc, &speller.places)?;
    Ok(Some(ReadWith { tree: new, places }))
}

/// Whether both are read and agree around their places, and nothing in the second one is taken for an argument with a name.
fn both_agree(
    alloc: Global,
    old: Option<ReadWith>,
    new: Option<ReadWith>,
) -> Result<bool, AllocError>
    ensures { IfOk result (λ answer. answer ≡ both_agree (option_map read_of old) (option_map read_of new)) }
{
    match (old, new) {
        (Some(old), Some(new)) => {
            let same = agree(alloc, &old.tree, &old.places, &new.tree, &new.places)?;
            let named = names_arguments(alloc, &new.tree, &new.places)?;
            Ok(same && !named)
        }
        _ => Ok(false),
    }
}

/// The changes that put there what stands there.
fn as_they_are(alloc: Global, file: &Tree, edit: &TextEdit) -> Result<TextEdit, AllocError>
    requires { All (FitsText (source_of file.now)) edit.now }
    ensures { IfOk result (λ old. old ≡ as_they_are file.now edit.now) }
{
    let mut changes = Vec::new(alloc);
    for (range, _) in edit.iter().as_slice() {
        let text = &file.source()[range.start as usize..range.end as usize];
        changes.push((*range, String::from_str(alloc, text)?))?;
    }
    Ok(TextEdit::new(changes))
}

impl<'a> Edited<'a> {
    /// Whether the call that a tree with this number stands for is in the file, and something in it is replaced.
    fn is_changed(&self, passing: &mut Passing<'_>, number: u32) -> bool
        requires { map span_of passing.old.places.now ≡ map old_place self.now.edit.now }
        ensures answer { result ≡ option_map_or (is_changed self.now.file.now.number self.now.edit.now) (call_of self.now.file.now.trees.now number) false }
        ensures places { passing.new.places.now ≡ passing.old.places.now }
    {
        let root = NodeId {
            tree: number,
            node: NodeNo(0),
        };
        let Some(call) = self.file.trees.above(root) else {
            return false;
        };
        match self.file.trees.original_range(call) {
            Some(range) => {
                range.file_id.0 == self.file.number && passing.has_change(range.range)
            }
            None => false,
        }
    }

    /// Whether what the call stands for that has a tree with this number groups as before.
    fn stands_for(
        &self,
        alloc: Global,
        passing: &mut Passing<'_>,
        number: u32,
    ) -> Result<bool, AllocError>
        requires { map span_of passing.old.places.now ≡ map old_place self.now.edit.now }
        ensures answer { IfOk result (λ answer. answer ≡ stands_for self.now.file.now.trees.now self.now.file.now.number self.now.file.now.tree.now self.now.edit.now number) }
        ensures places { passing.new.places.now ≡ passing.old.places.now }
    {
        if !self.is_changed(passing, number) {
            return Ok(true);
        }
        let trees = self.file.trees;
        let Some(tree) = trees.tree(number) else {
            return Ok(false);
        };
        let old = read_with(alloc, trees, number, tree, self.old, *passing)?;
        let new = read_with(alloc, trees, number, tree, self.edit, *passing)?;
        both_agree(alloc, old, new)
    }

    /// Whether what each call in the file stands for groups as before.
    fn all_stand(&self, alloc: Global) -> Result<bool, AllocError>
        ensures { IfOk result (λ answer. answer ≡ first_stand self.now.file.now.trees.now self.now.file.now.number self.now.file.now.tree.now self.now.edit.now (length self.now.file.now.trees.now.expansions)) }
    {
        let first = self.file.trees.file_count();
        let mut passing = Passing::new(self.ranges);
        for number in 0..self.file.trees.expansion_count() {
            let tree = first + number;
            let stands = self.stands_for(alloc, &mut passing, tree)?;
            if !stands {
                return Ok(false);
            }
        }
        Ok(true)
    }
}

impl<'a> SearchedFile<'a> {
    /// Whether what each call of a macro in the file stands for groups as before with an edit of its text made.
    pub(crate) fn calls_stand(&self, alloc: Global, edit: &TextEdit) -> Result<bool, AllocError>
        requires { All (FitsText (source_of self.now.tree.now)) edit.now }
        ensures { IfOk result (λ answer. answer ≡ first_stand self.now.trees.now self.now.number self.now.tree.now edit.now (length self.now.trees.now.expansions)) }
    {
        let ranges = old_ranges(alloc, edit)?;
        let old = as_they_are(alloc, self.tree, edit)?;
        let edited = Edited {
            file: self,
            edit,
            ranges: &ranges,
            old: &old,
        };
        edited.all_stand(alloc)
    }

    /// Whether an edit of the file's text stands: as `stands` says, and of each call of a macro in which something is replaced, what
    /// it stands for is read with the changes made, and groups as it did. So `assert!(2 * 7 == x)` doesn't stand as
    /// `assert!(2 * 3 + 4 == x)`, though the tokens of its arguments are no nodes of the file.
    pub fn stands(&self, alloc: Global, edit: &TextEdit) -> Result<bool, AllocError>
        requires { All (FitsText (source_of self.now.tree.now)) edit.now }
        ensures { IfOk result (λ answer. answer ≡ stands_in self.now.trees.now self.now.number edit.now) }
    {
        let text_stands = stands_of(alloc, self.trees.reach(), self.tree, edit)?;
        if !text_stands {
            return Ok(false);
        }
        self.calls_stand(alloc, edit)
    }
}
