//! Whether the changes of a text leave what stands around them as it was.
ghost use Rattle.std.specs.Prelude.{◌≡◌, ◌<◌, ◌^◌, All, IfOk, IfSome, length, string_bytes};
ghost use Rattle.std.specs.Result.{result_ok};
ghost use Rattle.ssr_syntax_tree.specs.Syntax.{source_of};
ghost use Rattle.ssr_syntax.specs.Reading.{file_reading_of};
ghost use Rattle.ssr_base_trees.specs.Changes.{FitsText};
ghost use Rattle.ssr_standing.specs.Standing.{changed_text, stands, stands_of};

use crate::agreeing::agree;
use crate::ranges::{new_ranges, old_ranges};
use ssr_base_trees::{ApplyError, TextEdit};
use ssr_syntax::{Reach, SyntaxError, parse_file_owned_of};
use ssr_syntax_tree::Tree;
use std::alloc::{AllocError, Global};

/// What is read of a text in a reach, if it is read.
fn read(alloc: Global, reach: Reach, text: String) -> Result<Option<Tree>, AllocError>
    ensures tree { IfOk result (λ tree. tree ≡ result_ok (file_reading_of reach (string_bytes text))) }
    ensures short { IfOk result (λ tree. IfSome tree (λ _. length (string_bytes text) < 2 ^ 32)) }
{
    match parse_file_owned_of(alloc, reach, text) {
        Ok(tree) => Ok(Some(tree)),
        Err(SyntaxError::Memory) => Err(AllocError),
        Err(_) => Ok(None),
    }
}

/// What is read in a reach of a tree's text with an edit of it made, if it is read.
fn read_with(
    alloc: Global,
    reach: Reach,
    tree: &Tree,
    edit: &TextEdit,
) -> Result<Option<Tree>, AllocError>
    requires { All (FitsText (source_of tree.now)) edit.now }
    ensures tree { IfOk result (λ new. new ≡ result_ok (file_reading_of reach (changed_text tree.now edit.now))) }
    ensures short { IfOk result (λ new. IfSome new (λ _. length (changed_text tree.now edit.now) < 2 ^ 32)) }
{
    match edit.apply(alloc, tree.source()) {
        Ok(new) => read(alloc, reach, new),
        Err(ApplyError::Memory) => Err(AllocError),
        Err(ApplyError::Range) => unreachable!(),
    }
}

/// Whether an edit of a tree's text stands: the text is read with it made, and groups as it did. The new tree is the old one around
/// the changes, as `agree` says. So `2 * 7` doesn't stand as `2 * 3 + 4`, and `f(7)` stands as `f(3 + 4)`.
///
/// What stands in a macro's brackets are tokens for it, as the trees have them: `SearchedFile::stands` looks at what they stand for.
pub fn stands(alloc: Global, tree: &Tree, edit: &TextEdit) -> Result<bool, AllocError>
    requires { All (FitsText (source_of tree.now)) edit.now }
    ensures { IfOk result (λ answer. answer ≡ stands tree.now edit.now) }
{
    stands_of(alloc, Reach::Stated, tree, edit)
}

/// The same, where so much of Rust is read.
pub fn stands_of(
    alloc: Global,
    reach: Reach,
    tree: &Tree,
    edit: &TextEdit,
) -> Result<bool, AllocError>
    requires { All (FitsText (source_of tree.now)) edit.now }
    ensures { IfOk result (λ answer. answer ≡ stands_of reach tree.now edit.now) }
{
    let found = read_with(alloc, reach, tree, edit)?;
    let Some(new) = found else {
        return Ok(false);
    };
    let olds = old_ranges(alloc, edit)?;
    let news = new_ranges(alloc, edit)?;
    agree(alloc, tree, &olds, &new, &news)
}
