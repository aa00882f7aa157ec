//! Which replacements in a file are put in parentheses, so that it groups as before.

ghost use Rattle.std.specs.Prelude.{◌≡◌, All, IfOk, map, string_bytes};
ghost use Rattle.std.specs.List.{filter_map};
ghost use Rattle.ssr_syntax_tree.specs.Syntax.{source_of};
ghost use Rattle.ssr_base_trees.specs.Changes.{FitsText};
ghost use Rattle.ssr_standing.specs.Expansions.{stands_in};
ghost use Rattle.ssr_standing.specs.Fitted.{change_with};
ghost use Rattle.ssr_standing.specs.Near.{settled, stands_by};
ghost use Rattle.ssr_standing.specs.declared.fitted.Judge.TheVariants as judges;
ghost use Rattle.ide_ssr_rewriting.specs.Fitting.{as_told, fitted_alone, fitted_in, fitted_near};
ghost use Rattle.ide_ssr_rewriting.specs.Private.Files.{FitsTree};

use ssr_base_trees::{FileId, TextEdit, Trees};
use ssr_standing::{Judge, SearchedFile};
use ssr_syntax_kinds::TextRange;
use std::alloc::{AllocError, Global};

/// The changes of a file, each as its nearest block tells, or else as it stands alone in the whole file.
#[derive(Drop)]
struct SettledEdits {
    /// All of them. What stands nowhere stays as it is.
    all: TextEdit,
    /// Those that stand.
    standing: TextEdit,
}

/// Each change of a file as it is settled, and those that are.
fn each_settled(
    alloc: Global,
    file: &SearchedFile<'_>,
    edit: &TextEdit,
) -> Result<SettledEdits, AllocError>
    requires { All (FitsText (source_of file.now.tree.now)) edit.now }
    ensures all { IfOk result (λ made. made.all ≡ map (as_told (settled (stands_by file.now.trees.now file.now.number))) edit.now) }
    ensures standing { IfOk result (λ made. made.standing ≡ filter_map (settled (stands_by file.now.trees.now file.now.number)) edit.now) }
{
    let mut all = Vec::new(alloc);
    let mut standing = Vec::new(alloc);
    for (range, text) in edit.iter().as_slice() {
        match file.settled(alloc, *range, text.as_str())? {
            Some(new) => {
                standing.push((*range, String::from_str(alloc, new.as_str())?))?;
                all.push((*range, new))?;
            }
            None => all.push((*range, String::from_str(alloc, text.as_str())?))?,
        }
    }
    Ok(SettledEdits {
        all: TextEdit::new(all),
        standing: TextEdit::new(standing),
    })
}

/// The text of a change as it stands alone in the whole file: as it is, or else in parentheses. What stands neither way stays as it is.
fn fitted(
    alloc: Global,
    file: &SearchedFile<'_>,
    range: TextRange,
    text: &str,
) -> Result<String, AllocError>
    requires { FitsText (source_of file.now.tree.now) (change_with range text.now) }
    ensures { IfOk result (λ new. change_with range (string_bytes new) ≡ fitted_alone (stands_by file.now.trees.now file.now.number judges.File) (change_with range text.now)) }
{
    match file.fitted(alloc, Judge::File, range, text)? {
        Some(new) => Ok(new),
        None => String::from_str(alloc, text),
    }
}

/// Each change of a file as it stands alone in the whole file.
fn each_fitted(
    alloc: Global,
    file: &SearchedFile<'_>,
    edit: &TextEdit,
) -> Result<TextEdit, AllocError>
    requires { All (FitsText (source_of file.now.tree.now)) edit.now }
    ensures { IfOk result (λ new. new ≡ map (fitted_alone (stands_by file.now.trees.now file.now.number judges.File)) edit.now) }
{
    let mut changes = Vec::new(alloc);
    for (range, text) in edit.iter().as_slice() {
        let fit = fitted(alloc, file, *range, text.as_str())?;
        changes.push((*range, fit))?;
    }
    Ok(TextEdit::new(changes))
}

/// The changes of a file as they are, if it groups as before with all of them. Else each as it is settled, if the file groups as before
/// with those that are; else each as it stands alone in the whole file.
fn all_fitted(
    alloc: Global,
    file: &SearchedFile<'_>,
    edit: TextEdit,
) -> Result<TextEdit, AllocError>
    requires { All (FitsText (source_of file.now.tree.now)) edit }
    ensures { IfOk result (λ new. new ≡ fitted_near (stands_in file.now.trees.now file.now.number) (stands_by file.now.trees.now file.now.number) edit) }
{
    if file.stands(alloc, &edit)? {
        return Ok(edit);
    }
    let near = each_settled(alloc, file, &edit)?;
    // With one change that stands nowhere the file would fail, and be read again for each of the others.
    if file.stands(alloc, &near.standing)? {
        return Ok(near.all);
    }
    let alone = each_fitted(alloc, file, &edit)?;
    Ok(alone)
}

/// The changes that are made in a file, some of them in parentheses so that it groups as before.
pub(crate) fn fitted_in(
    alloc: Global,
    workspace: &Trees,
    file: FileId,
    edit: TextEdit,
) -> Result<TextEdit, AllocError>
    requires { FitsTree workspace.now file.0 edit }
    ensures { IfOk result (λ new. new ≡ fitted_in workspace.now file.0 edit) }
{
    let Some(tree) = workspace.tree(file.0) else {
        unreachable!()
    };
    let searched = SearchedFile {
        trees: workspace,
        number: file.0,
        tree,
    };
    all_fitted(alloc, &searched, edit)
}
