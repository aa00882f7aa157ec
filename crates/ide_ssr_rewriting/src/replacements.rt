//! What files and their comments give to what is written for a match.

ghost use Rattle.std.specs.Prelude.{◌≡◌, ◌++◌, IfOk, IfSome, OnOk, option_map, string_bytes};
ghost use Rattle.ide_ssr_rewriting.specs.Private.Pieces.{piece_bytes};
ghost use Rattle.ssr_base_trees.specs.Workspace.{file_span_of, trees};
ghost use Rattle.ide_ssr_bindings.specs.Found.{IsMatch};
ghost use Rattle.ide_ssr_rewriting.specs.Replacements.{comments_kept, file_text, held_text, rewritten};
ghost use Rattle.ide_ssr_rewriting.specs.Private.Replacements.{IsOf};

use crate::clashes::{Rewrite, changes_made, try_whole};
use crate::comments::{kept_comments, push_comments};
use crate::fitting::fitted;
use crate::piece::Piece;
use ide_ssr_bindings::FoundMatch;
use ssr_base_trees::{FileId, FileRange, Trees};
use ssr_standing::{between, replaced};
use ssr_syntax_shorts::MadeText;
use std::alloc::{AllocError, Global};

/// The text of a file; none where there is no such file.
fn file_text(workspace: &Trees, file: FileId) -> &str
    ensures { result.now ≡ file_text workspace.now file.0 }
{
    if file.0 >= workspace.file_count() {
        return "";
    }
    match workspace.tree(file.0) {
        Some(tree) => tree.source(),
        None => "",
    }
}

/// The text of a range with the changes of a list made, some of them in parentheses so that it groups as before behind the text in
/// front.
fn rewritten(
    alloc: Global,
    workspace: &Trees,
    front: &str,
    range: FileRange,
    list: Vec<Rewrite>,
) -> Result<MadeText, AllocError>
    requires { IsOf workspace.now (file_span_of range) list.items }
    ensures { IfOk result (λ text. text ≡ rewritten workspace.now front.now (file_span_of range) list.items) }
{
    let text = file_text(workspace, range.file_id);
    let made = changes_made(alloc, list)?;
    let changes = fitted(alloc, workspace.reach(), front, text, range.range, made)?;
    let new = replaced(alloc, text, range.range, &changes)?;
    Ok(MadeText::new(workspace.reach(), new))
}

/// What a placeholder holds, which comes from this range, with the changes of a list made, some of them in parentheses so that it
/// groups as before behind the text in front. Without a list it is a part of its file's text. The text of a rewrite that stands
/// alone is handed on as it is, with its short one.
pub(crate) fn held_text<'a>(
    alloc: Global,
    workspace: &'a Trees,
    front: &str,
    range: Option<FileRange>,
    list: Vec<Rewrite>,
) -> Result<Piece<'a>, AllocError>
    requires { IfSome (option_map file_span_of range) (λ range. IsOf workspace.now range list.items) }
    ensures { IfOk result (λ text. piece_bytes text ≡ held_text workspace.now front.now (option_map file_span_of range) list.items) }
{
    let Some(range) = range else {
        return Ok(Piece::Code(""));
    };
    if list.is_empty() {
        let text = file_text(workspace, range.file_id);
        let held = between(text, range.range.start, range.range.end);
        return Ok(Piece::Code(held));
    }
    match try_whole(front, range, list) {
        Ok(whole) => Ok(Piece::Made(whole)),
        Err(list) => {
            let made = rewritten(alloc, workspace, front, range, list)?;
            Ok(Piece::Made(made))
        }
    }
}

/// Adds the comments that a match keeps.
pub fn push_kept(
    alloc: Global,
    workspace: &Trees,
    m: &FoundMatch,
    text: &mut String,
) -> Result<(), AllocError>
    requires { IsMatch (trees workspace.now) m.now }
    ensures { OnOk result (string_bytes text.new ≡ string_bytes text.old ++ comments_kept workspace.now m.now) }
{
    let Some(tree) = workspace.tree(m.node().tree) else {
        return Ok(());
    };
    let comments = kept_comments(alloc, tree, m.node().node, m.bindings())?;
    push_comments(text, tree, &comments)
}
