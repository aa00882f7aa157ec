//! The tree of a file with its edit made.
ghost use Rattle.std.specs.Prelude.{◌≡◌, ◌≢◌, ◌↔◌, false, All, IfOk, IfSome, IsTrue, MatchResult, slice_get};
ghost use Rattle.ssr_syntax_tree.specs.Syntax.{source_of};
ghost use Rattle.ssr_syntax.specs.Reading.{file_reading_of};
ghost use Rattle.ssr_syntax.specs.declared.syntax_error.SyntaxError.TheVariants as syntax_errors;
ghost use Rattle.ssr_base_trees.specs.Changes.{FitsText};
ghost use Rattle.ssr_standing.specs.Standing.{changed_text};
ghost use Rattle.ide_ssr_nesting.specs.Holding.{IsKept};
ghost use Rattle.ide_ssr_nesting.specs.Lists.{AreLists};
ghost use Rattle.ide_ssr_edited.specs.Edited.{IsEditedTree, IsExpected};
ghost use Rattle.ide_ssr_edited.specs.Expected.{expected};
ghost use Rattle.ide_ssr_edited.specs.declared.edited.EditedError.TheVariants as errors;

use crate::expected::{RewrittenFile, places_in};
use ide_ssr_nesting::{KeptMatches, Lists};
use ide_ssr_resolved_rule::ResolvedRule;
use ide_ssr_rewriting::EditError;
use ssr_base_trees::{ApplyError, FileId, TextEdit};
use ssr_swaps::is_swapped;
use ssr_syntax::{Reach, SyntaxError, parse_file_owned_of};
use ssr_syntax_tree::Tree;
use std::alloc::{AllocError, Global};
use thiserror::Error;

/// Why there is no edited tree.
#[derive(Clone, Copy, Debug, PartialEq, Eq, Error)]
pub enum EditedError {
    /// The edits are refused.
    #[error("the edits are refused")]
    Edit(EditError),
    /// The text with the edit made isn't read. `Memory` also where the trees could not be compared for want of it.
    #[error("the text with the edit made is not read")]
    Syntax(SyntaxError),
    /// It is read as another tree than the one that was there with what was written in the places of the matches.
    #[error("the text with the edit made is read as another tree")]
    Differs,
}

impl From<EditError> for EditedError {
    ghost use Rattle.std.specs.Prelude.{◌≡◌};
    ghost use Rattle.ide_ssr_edited.specs.declared.edited.EditedError.TheVariants as errors;

    ghost from_gives = { λ inner error. error ≡ errors.Edit inner };

    fn from(error: EditError) -> EditedError {
        EditedError::Edit(error)
    }
}

impl From<SyntaxError> for EditedError {
    ghost use Rattle.std.specs.Prelude.{◌≡◌};
    ghost use Rattle.ide_ssr_edited.specs.declared.edited.EditedError.TheVariants as errors;

    ghost from_gives = { λ inner error. error ≡ errors.Syntax inner };

    fn from(error: SyntaxError) -> EditedError {
        EditedError::Syntax(error)
    }
}

impl From<AllocError> for EditedError {
    ghost use Rattle.std.specs.Prelude.{◌≡◌};
    ghost use Rattle.ssr_syntax.specs.declared.syntax_error.SyntaxError.TheVariants as syntax_errors;
    ghost use Rattle.ide_ssr_edited.specs.declared.edited.EditedError.TheVariants as errors;

    ghost from_gives = { λ _ error. error ≡ errors.Syntax syntax_errors.Memory };

    fn from(_: AllocError) -> EditedError {
        EditedError::Syntax(SyntaxError::Memory)
    }
}

/// The tree of a file's text with the edit made, read in a reach.
fn read_with(alloc: Global, reach: Reach, tree: &Tree, edit: &TextEdit) -> Result<Tree, SyntaxError>
    requires { All (FitsText (source_of tree.now)) edit.now }
    ensures { MatchResult result (λ new. file_reading_of reach (changed_text tree.now edit.now) ≡ Ok new) (λ error. error ≢ syntax_errors.Memory → file_reading_of reach (changed_text tree.now edit.now) ≡ Err error) }
{
    match edit.apply(alloc, tree.source()) {
        Ok(text) => parse_file_owned_of(alloc, reach, text),
        Err(ApplyError::Memory) => Err(SyntaxError::Memory),
        Err(ApplyError::Range) => unreachable!(),
    }
}

/// Whether a tree is the one that is expected of a file.
fn is_expected(
    file: &RewrittenFile<'_>,
    kept: &KeptMatches<'_>,
    lists: &Lists,
    tree: &Tree,
    edit: &TextEdit,
    new: &Tree,
) -> Result<bool, AllocError>
    requires workspace { kept.now.workspace ≡ file.now.workspace.now }
    requires kept { IsKept kept.now }
    requires lists { AreLists kept.now lists.now }
    ensures { IfOk result (λ answer. IsTrue answer ↔ IsExpected (expected kept.now lists.now file.now.rules.now file.now.file.0 tree.now edit.now) new.now) }
{
    let places = places_in(file.alloc, kept, lists, file.file)?;
    match file.swaps(kept, &places, edit.iter().as_slice())? {
        Some(swaps) => is_swapped(file.alloc, tree, &swaps, new),
        None => Ok(false),
    }
}

/// A tree, if it is the one that is expected.
fn answered(tree: Tree, is_expected: bool) -> Result<Option<Tree>, EditedError>
    ensures expected { IsTrue is_expected → result ≡ Ok (Some tree) }
    ensures other { is_expected ≡ false → result ≡ Err errors.Differs }
{
    if is_expected {
        Ok(Some(tree))
    } else {
        Err(EditedError::Differs)
    }
}

/// The tree of a file with these changes of it made, if there is such a file. It is the old tree, in which each outermost match has given
/// way to what was written for it, white space and comments aside. `Syntax` where the new text isn't read, and `Differs` where it is
/// read as another tree. `Differs` also where none is expected: a match, its rule's template or what was written for it is no
/// expression, or the match lies in what a call of a macro stands for.
pub fn edited_tree(
    alloc: Global,
    kept: &KeptMatches<'_>,
    lists: &Lists,
    rules: &[ResolvedRule],
    file: FileId,
    edit: &TextEdit,
) -> Result<Option<Tree>, EditedError>
    requires kept { IsKept kept.now }
    requires lists { AreLists kept.now lists.now }
    requires fits { IfSome (slice_get kept.now.workspace.files file.0) (λ tree. All (FitsText (source_of tree)) edit.now) }
    ensures { IsEditedTree kept.now lists.now rules.now file.0 edit.now result }
{
    let workspace = kept.workspace();
    if file.0 >= workspace.file_count() {
        return Ok(None);
    }
    let Some(tree) = workspace.tree(file.0) else {
        return Ok(None);
    };
    let new = read_with(alloc, workspace.reach(), tree, edit)?;
    let rewritten = RewrittenFile {
        alloc,
        workspace,
        rules,
        file,
    };
    let is_expected = is_expected(&rewritten, kept, lists, tree, edit, &new)?;
    answered(new, is_expected)
}
