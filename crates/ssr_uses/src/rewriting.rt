//! A rule, the edits that it makes in a workspace, and the new text of a file.

ghost use Rattle.std.specs.Prelude.{◌≡◌, [], IfOk, string_bytes};
ghost use Rattle.std.specs.BTreeMap.{get};
ghost use Rattle.std.specs.Option.{option_map};
ghost use Rattle.ssr_base_trees.specs.Workspace.{tree_of};
ghost use Rattle.ide_ssr_rewriting.specs.Edits.{EditsFit, file_cmp};
ghost use Rattle.ide_ssr_search.specs.Making.{first_position};
ghost use Rattle.ssr_uses.specs.Rewriting.{AreEdits, edited};

use crate::error::UseError;
use ide_ssr::{MatchFinder, SsrRule};
use ssr_base::{ApplyError, FileId, Semantics, TextEdit, Workspace};
use std::alloc::Global;
use std::collections::BTreeMap;

/// The edits that a rule makes, file by file. A file in which nothing matches has none.
pub fn edits<S: Semantics>(
    alloc: Global,
    workspace: &Workspace,
    semantics: &S,
    rule: &str,
) -> Result<BTreeMap<FileId, TextEdit>, UseError>
    ensures edits { IfOk result (AreEdits workspace.now (S.meanings semantics.now) first_position [] rule.now) }
    ensures fit { IfOk result (EditsFit workspace.now) }
{
    let mut finder = MatchFinder::at_first_file(alloc, workspace, semantics)?;
    finder.add_rule(SsrRule::parse(alloc, rule)?)?;
    Ok(finder.edits()?)
}

/// The text of a file with its edit made, if there is such a file.
pub fn new_text(
    alloc: Global,
    workspace: &Workspace,
    edits: &BTreeMap<FileId, TextEdit>,
    file: FileId,
) -> Result<Option<String>, ApplyError>
    ensures { IfOk result (λ text. option_map string_bytes text ≡ option_map (λ tree. edited tree (get file_cmp edits.now file)) (tree_of workspace.now file.0)) }
{
    let Some(tree) = workspace.tree(file.0) else {
        return Ok(None);
    };
    let text = tree.source();
    match edits.get(&file) {
        Some(edit) => Ok(Some(edit.apply(alloc, text)?)),
        None => Ok(Some(String::from_str(alloc, text)?)),
    }
}
