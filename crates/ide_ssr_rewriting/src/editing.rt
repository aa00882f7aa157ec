//! The texts of the kept matches, the first clash of all their lists, and the edits of the files.

ghost use Rattle.std.specs.Prelude.{◌≡◌, ◌≢◌, ◌+◌, ◌-◌, ◌<◌, ◌↔◌, [], ℕ, All, AllPairs, IfNone, IfOk, IfSome, IsTrue, OnOk, Contains, List, None, Some, ◌++◌, is_some, length, map, option_map, option_to_list, slice_get, slice_index_or, if◌then◌else◌};
ghost use Rattle.std.specs.List.{list_all};
ghost use Rattle.std.specs.Ordering.{nat_cmp, ordering_then};
ghost use Rattle.std.specs.BTreeMap.{get};
ghost use Rattle.ssr_base_trees.specs.declared.ids.FileId.{FileId as FileIdValue};
ghost use Rattle.ssr_base_trees.specs.Laws.{LiesInFile};
ghost use Rattle.ssr_base_trees.specs.Workspace.{file_span_of};
ghost use Rattle.ide_ssr_rewriting.specs.Clashes.{Clash, IsFirst, Rewrite as RewriteValue, clash_le, clash_of, clashes, is_clean};
ghost use Rattle.ide_ssr_nesting.specs.Lists.{AreLists};
ghost use Rattle.ide_ssr_rewriting.specs.Edits.{Answers, EditsFit, EditsInOrder, clashes_under, edit_of, file_cmp, list_at, list_under, range_at};
ghost use Rattle.ide_ssr_rewriting.specs.Private.Nest.{IsNest, under};
ghost use Rattle.ide_ssr_rewriting.specs.Private.Clashes.{AreInOrder, lesser};
ghost use Rattle.ide_ssr_rewriting.specs.Private.Edits.{IsRun, text_in};
ghost use Rattle.ide_ssr_rewriting.specs.Private.Groups.{IsGroup, LastElsewhere};
ghost use Rattle.ide_ssr_rewriting.specs.Private.Pieces.{piece_bytes, pieces_by};
ghost use Rattle.ide_ssr_rewriting.specs.Private.Replacements.{IsOf};
ghost use Rattle.ide_ssr_rewriting.specs.Replacements.{held_text, writing};

use crate::clashes::{Rewrite, changes_made, first_clash};
use crate::files::fitted_in;
use crate::piece::Piece;
use crate::prefixes::with_prefix;
use crate::replacements::held_text;
use crate::writer::Writer;
use ide_ssr_bindings::FoundMatch;
use ide_ssr_nesting::{KeptMatches, Lists};
use ide_ssr_resolved_rule::ResolvedRule;
use ssr_base_trees::{FileId, FileRange, Semantics, TextEdit, Trees};
use ssr_syntax_kinds::TextRange;
use ssr_syntax_shorts::MadeText;
use std::alloc::{AllocError, Global};
use std::cmp::Ordering;
use std::collections::BTreeMap;
use std::mem;
use thiserror::Error;

/// Why there are no edits.
#[derive(Clone, Copy, Debug, PartialEq, Eq, Error)]
pub enum EditError {
    /// Two matches of one list share a byte, and their ranges or their replacements differ: the ranges of the first two.
    #[error("two matches share a byte")]
    Clash(FileRange, FileRange),
    /// A rule has no template.
    #[error("a rule has no template")]
    NoTemplate,
    /// Memory ran out.
    #[error("out of memory")]
    Memory,
}

impl From<AllocError> for EditError {
    ghost use Rattle.std.specs.Prelude.{◌≡◌};
    ghost use Rattle.ide_ssr_rewriting.specs.declared.editing.EditError.TheVariants as errors;

    ghost from_gives = { λ _ error. error ≡ errors.Memory };

    fn from(_: AllocError) -> EditError {
        EditError::Memory
    }
}

/// Compares ranges by file, start and end, and where they are one, as is said.
fn compared(a: FileRange, b: FileRange, behind: Ordering) -> Ordering
    ensures { result ≡ ordering_then (nat_cmp a.file_id.0 b.file_id.0) (ordering_then (nat_cmp a.range.start b.range.start) (ordering_then (nat_cmp a.range.end b.range.end) behind)) }
{
    let ends = a.range.end.cmp(&b.range.end).then(behind);
    let starts = a.range.start.cmp(&b.range.start).then(ends);
    a.file_id.0.cmp(&b.file_id.0).then(starts)
}

/// Whether a clash comes no later than another one.
#[tactic(auto, unfolding(crate::specs::Clashes::clash_le))]
fn is_first(a: (FileRange, FileRange), b: (FileRange, FileRange)) -> bool
    ensures { result ≡ clash_le (clash_of a) (clash_of b) }
{
    compared(a.0, b.0, compared(a.1, b.1, Ordering::Equal)).is_le()
}

/// The first one of two clashes, where there are some.
fn lesser(
    a: Option<(FileRange, FileRange)>,
    b: Option<(FileRange, FileRange)>,
) -> Option<(FileRange, FileRange)>
    ensures { option_map clash_of result ≡ lesser (option_map clash_of a) (option_map clash_of b) }
{
    match (a, b) {
        (Some(a), Some(b)) => Some(if is_first(a, b) { a } else { b }),
        (Some(a), None) => Some(a),
        (None, b) => b,
    }
}

/// Kept matches, and their lists.
#[derive(Drop)]
struct Nest<'n, 'a> {
    kept: &'n KeptMatches<'a>,
    lists: &'n Lists,
}

/// The texts that are known of the matches that were gone through, from the last one on, and the first clash of their
/// lists.
#[derive(Drop)]
struct Pending {
    texts: Vec<Option<MadeText>>,
    clash: Option<(FileRange, FileRange)>,
}

/// No text for each of so many matches.
fn none_known(alloc: Global, count: usize) -> Result<Vec<Option<MadeText>>, AllocError>
    ensures { IfOk result (λ texts. length texts.items ≡ count) }
{
    let mut texts = Vec::with_capacity(alloc, count)?;
    for _ in 0..count {
        texts.push(None)?;
    }
    Ok(texts)
}

/// Where the match of a place comes from.
fn range_at(kept: &KeptMatches<'_>, place: usize) -> FileRange
    requires { place < length kept.now.matches }
    ensures { file_span_of result ≡ range_at kept.now place }
{
    match kept.workspace().original_range(kept.get(place).node()) {
        Some(range) => range,
        None => FileRange {
            file_id: FileId(0),
            range: TextRange::new(0, 0),
        },
    }
}

/// What stands for the matches of these places, whose texts are taken.
fn take_list(
    alloc: Global,
    kept: &KeptMatches<'_>,
    places: &[usize],
    texts: &mut Vec<Option<MadeText>>,
) -> Result<Vec<Rewrite>, AllocError>
    requires counted { length texts.old.items ≡ length kept.now.matches }
    requires within { All (λ n. n < length kept.now.matches) places.now }
    requires once { AllPairs ◌≢◌ places.now }
    ensures list { IfOk result (λ list. list.items ≡ list_at kept.now (text_in texts.old.items) places.now) }
    ensures others { OnOk result ((n : ℕ) → (Contains places.now n → ⊥) → text_in texts.new.items n ≡ text_in texts.old.items n) }
    ensures counted { OnOk result (length texts.new.items ≡ length texts.old.items) }
{
    let mut list = Vec::with_capacity(alloc, places.len())?;
    for place in places {
        let text = texts[*place].take();
        list.push(Rewrite::new(range_at(kept, *place), text))?;
    }
    Ok(list)
}

/// Whether all texts of a list are known.
fn all_known(list: &[Rewrite]) -> bool
    ensures { result ≡ list_all (λ r. is_some r.text) list.now }
{
    for rewrite in list {
        if !rewrite.is_known() {
            return false;
        }
    }
    true
}

/// What a placeholder holds behind the text in front, which comes from this range, with the changes of a list made, if it can be made:
/// there is no clash in it, and all texts are known.
fn held_if_clean<'a>(
    alloc: Global,
    workspace: &'a Trees,
    front: &str,
    range: Option<FileRange>,
    list: Vec<Rewrite>,
    clash: Option<(FileRange, FileRange)>,
) -> Result<Option<Piece<'a>>, AllocError>
    requires clash { IsFirst (clashes list.items) (option_map clash_of clash) }
    requires list { IfSome (option_map file_span_of range) (λ range. IsOf workspace.now range list.items) }
    ensures { IfOk result (λ text. option_map piece_bytes text ≡ (if is_clean list.items then Some (held_text workspace.now front.now (option_map file_span_of range) list.items) else None)) }
{
    if clash.is_some() || !all_known(&list) {
        return Ok(None);
    }
    Ok(Some(held_text(alloc, workspace, front, range, list)?))
}

/// Pushes a piece, if there is one; answers whether there was.
fn push_piece<'a>(pieces: &mut Vec<Piece<'a>>, piece: Option<Piece<'a>>) -> Result<bool, AllocError>
    ensures there { IfOk result (λ there. there ≡ is_some (option_map piece_bytes piece.entry)) }
    ensures pieces { OnOk result (map piece_bytes pieces.new.items ≡ map piece_bytes pieces.old.items ++ option_to_list (option_map piece_bytes piece.entry)) }
{
    match piece {
        Some(piece) => {
            pieces.push(piece)?;
            Ok(true)
        }
        None => Ok(false),
    }
}

impl Pending {
    /// Takes what stands for the matches of these places, and notes the first clash of it.
    fn take_list(
        &mut self,
        alloc: Global,
        kept: &KeptMatches<'_>,
        places: &[usize],
    ) -> Result<(Vec<Rewrite>, Option<(FileRange, FileRange)>), AllocError>
        requires counted { length self.old.texts.items ≡ length kept.now.matches }
        requires within { All (λ n. n < length kept.now.matches) places.now }
        requires once { AllPairs ◌≢◌ places.now }
        requires order { AreInOrder (list_at kept.now (text_in self.old.texts.items) places.now) }
        ensures list { IfOk result (λ taken. taken.0.items ≡ list_at kept.now (text_in self.old.texts.items) places.now) }
        ensures first { IfOk result (λ taken. IsFirst (clashes taken.0.items) (option_map clash_of taken.1)) }
        ensures clash { IfOk result (λ taken. option_map clash_of self.new.clash ≡ lesser (option_map clash_of taken.1) (option_map clash_of self.old.clash)) }
        ensures others { OnOk result ((n : ℕ) → (Contains places.now n → ⊥) → text_in self.new.texts.items n ≡ text_in self.old.texts.items n) }
        ensures counted { OnOk result (length self.new.texts.items ≡ length self.old.texts.items) }
    {
        let list = take_list(alloc, kept, places, &mut self.texts)?;
        let first = first_clash(&list);
        self.clash = lesser(first, self.clash);
        Ok((list, first))
    }

    /// Takes the lists under the placeholders of the match of a place, and notes their first clash. The pieces become those
    /// of these placeholders, in the place of another match's; answers whether they are all: all lists can be made.
    fn take_pieces<'a, S: Semantics>(
        &mut self,
        writer: &Writer<'_, S>,
        nest: &Nest<'_, 'a>,
        m: &FoundMatch,
        place: usize,
        pieces: &mut Vec<Piece<'a>>,
    ) -> Result<bool, AllocError>
        requires nest { IsNest nest.now.kept.now nest.now.lists.now }
        requires m { slice_get nest.now.kept.now.matches place ≡ Some m.now }
        requires counted { length self.old.texts.items ≡ length nest.now.kept.now.matches }
        ensures pieces { IfOk result (λ are_all. (if are_all then Some (map piece_bytes pieces.new.items) else None) ≡ pieces_by nest.now.kept.now.workspace writer.now.rules.now m.now (list_under nest.now.kept.now nest.now.lists.now (text_in self.old.texts.items) place)) }
        ensures clash { OnOk result ((others : List Clash) → IsFirst others (option_map clash_of self.old.clash) → IsFirst (clashes_under m.now (list_under nest.now.kept.now nest.now.lists.now (text_in self.old.texts.items) place) ++ others) (option_map clash_of self.new.clash)) }
        ensures left { OnOk result ((j : ℕ) → ((i : ℕ) → Contains (under nest.now.lists.now place i) j → ⊥) → text_in self.new.texts.items j ≡ text_in self.old.texts.items j) }
        ensures counted { OnOk result (length self.new.texts.items ≡ length self.old.texts.items) }
    {
        pieces.clear();
        let mut are_all = true;
        for (index, binding) in m.bindings().iter().enumerate() {
            let range = binding.original_range(nest.kept.workspace(), m.node().tree);
            let (list, first) = self.take_list(
                writer.alloc,
                nest.kept,
                nest.lists.under(place, index),
            )?;
            let prefix = writer.prefix(m.rule(), *binding)?;
            let held = held_if_clean(
                writer.alloc,
                nest.kept.workspace(),
                prefix.as_str(),
                range,
                list,
                first,
            )?;
            let piece = with_prefix(nest.kept.workspace().reach(), prefix, held)?;
            are_all = push_piece(pieces, piece)? && are_all;
        }
        Ok(are_all)
    }

    /// Rewrites the match of a place, where those behind it are gone through; the pieces become its own.
    fn rewrite_at<'a, S: Semantics>(
        &mut self,
        writer: &Writer<'_, S>,
        nest: &Nest<'_, 'a>,
        place: usize,
        pieces: &mut Vec<Piece<'a>>,
    ) -> Result<(), AllocError>
        requires nest { IsNest nest.now.kept.now nest.now.lists.now }
        requires place { place < length nest.now.kept.now.matches }
        requires run { IsRun nest.now.kept.now nest.now.lists.now (writing (S.meanings writer.now.semantics.now) writer.now.rules.now) (place + 1) self.old.texts.items (option_map clash_of self.old.clash) }
        ensures { OnOk result (IsRun nest.now.kept.now nest.now.lists.now (writing (S.meanings writer.now.semantics.now) writer.now.rules.now) place self.new.texts.items (option_map clash_of self.new.clash)) }
    {
        let m = nest.kept.get(place);
        let are_all = self.take_pieces(writer, nest, m, place, pieces)?;
        let text = writer.text_of_pieces(nest.kept.workspace(), m, pieces.as_slice(), are_all)?;
        self.texts[place] = text;
        Ok(())
    }
}

/// Goes through all matches, from the last one to the first.
fn run<S: Semantics>(
    writer: &Writer<'_, S>,
    kept: &KeptMatches<'_>,
    lists: &Lists,
) -> Result<Pending, AllocError>
    requires { AreLists kept.now lists.now }
    ensures nest { IsNest kept.now lists.now }
    ensures run { IfOk result (λ pending. IsRun kept.now lists.now (writing (S.meanings writer.now.semantics.now) writer.now.rules.now) 0 pending.texts.items (option_map clash_of pending.clash)) }
{
    let count = kept.len();
    let texts = none_known(writer.alloc, count)?;
    let nest = Nest { kept, lists };
    let mut pending = Pending { texts, clash: None };
    // One list serves all matches, one after another.
    let mut pieces = Vec::new(writer.alloc);
    for place in (0..count).rev() {
        pending.rewrite_at(writer, &nest, place, &mut pieces)?;
    }
    Ok(pending)
}

/// The file in which the last one of a list lies.
fn last_file(list: &[Rewrite]) -> Option<FileId>
    ensures found { IfSome result (λ file. (0 < length list.now) × ((d : RewriteValue) → (slice_index_or list.now (length list.now - 1) d).range.file ≡ file.0)) }
    ensures none { IfNone result (list.now ≡ []) }
{
    let last = list.last()?;
    Some(last.range().file_id)
}

/// Takes the last one off a list, if it lies in the file.
fn pop_of_file(list: &mut Vec<Rewrite>, file: FileId) -> Option<Rewrite>
    ensures gives { list.old.items ≡ list.new.items ++ option_to_list result }
    ensures file { IfSome result (λ r. r.range.file ≡ file.0) }
    ensures elsewhere { IfNone result (LastElsewhere file.0 list.new.items) }
{
    let last = last_file(list)?;
    if last.0 != file.0 {
        return None;
    }
    list.pop()
}

/// Whether all of a list lie in the file.
fn lie_in(list: &[Rewrite], file: FileId) -> bool
    ensures { IsTrue result ↔ All (λ r. r.range.file ≡ file.0) list.now }
{
    list.iter()
        .all(|rewrite| rewrite.range().file_id.0 == file.0)
}

/// Takes those off the end of a list that lie in the file.
fn take_group(
    alloc: Global,
    list: &mut Vec<Rewrite>,
    file: FileId,
) -> Result<Vec<Rewrite>, AllocError>
    ensures { IfOk result (λ group. IsGroup file.0 list.old.items list.new.items group.items) }
{
    if lie_in(list, file) {
        return Ok(mem::replace(list, Vec::new(alloc)));
    }
    let mut group = Vec::new(alloc);
    while let Some(rewrite) = pop_of_file(list, file) {
        group.push(rewrite)?;
    }
    group.reverse();
    Ok(group)
}

/// The edits of the files that a list changes, some of whose changes are put in parentheses so that the file groups as before.
fn file_edits(
    alloc: Global,
    workspace: &Trees,
    mut list: Vec<Rewrite>,
) -> Result<BTreeMap<FileId, TextEdit>, AllocError>
    requires order { AreInOrder list.items }
    requires clean { clashes list.items ≡ [] }
    requires fits { All (λ r. LiesInFile workspace.now r.range) list.items }
    ensures { IfOk result (λ edits. (file : FileIdValue) → get file_cmp edits file ≡ edit_of workspace.now file.0 list.items) }
{
    let mut edits = BTreeMap::new(alloc);
    while let Some(file) = last_file(&list) {
        let group = take_group(alloc, &mut list, file)?;
        let changes = changes_made(alloc, group)?;
        let edit = fitted_in(alloc, workspace, file, TextEdit::new(changes))?;
        edits.insert(file, edit)?;
    }
    Ok(edits)
}

/// The edits of the files in which kept matches lie: each outermost one becomes its rule's template with what its
/// placeholders hold, in which the matches are rewritten likewise. It is put in parentheses where the file, or what a call of
/// a macro in it stands for, groups as before only so. `Clash` where two matches of one list share a byte, and their ranges
/// or what stands for them differ: the first two.
pub fn edits<S: Semantics>(
    alloc: Global,
    semantics: &S,
    kept: &KeptMatches<'_>,
    lists: &Lists,
    rules: &[ResolvedRule],
) -> Result<BTreeMap<FileId, TextEdit>, EditError>
    requires lists { AreLists kept.now lists.now }
    ensures answer { Answers kept.now lists.now (writing (S.meanings semantics.now) rules.now) result }
    ensures fits { IfOk result (λ edits. EditsFit kept.now.workspace edits) }
    ensures order { IfOk result (λ edits. EditsInOrder edits) }
{
    let writer = Writer {
        alloc,
        semantics,
        rules,
    };
    let mut pending = run(&writer, kept, lists)?;
    let (outermost, _) = pending.take_list(alloc, kept, lists.outermost())?;
    if let Some((earlier, later)) = pending.clash {
        return Err(EditError::Clash(earlier, later));
    }
    Ok(file_edits(alloc, kept.workspace(), outermost)?)
}
