//! From rules and the bytes of a file to its new text. Nothing resolves in the file.
ghost use Rattle.std.specs.Prelude.{◌≡◌, IfOk, map, string_bytes};
ghost use Rattle.ssr_syntax.specs.Reading.{file_reading};
ghost use Rattle.ide_ssr_rewriting.specs.Edits.{EditsFit};
ghost use Rattle.ssr_program.specs.OfFile.{one_file, text_with};
ghost use Rattle.ssr_searching.specs.Searching.{changes_in};
ghost use Rattle.ssr_program.specs.Private.Rewriting.{AnswersFile, IsNewText, IsOneFile, Rewrites};
ghost use Rattle.ssr_program.specs.declared.commands.Form.TheVariants as forms;

use crate::rewrite_error::RewriteError;
use ssr_base::{FileId, FilePosition, TextEdit, Workspace, WorkspaceError, edited};
use ssr_searching::{SearchError, Unresolved, edits};
use ssr_syntax::SyntaxError;
use std::alloc::{AllocError, Global};
use std::collections::BTreeMap;

/// The text of a file with the rules applied.
pub(crate) fn rewrite(
    alloc: Global,
    rules: &[String],
    bytes: Vec<u8>,
) -> Result<String, RewriteError>
    ensures { Rewrites forms.File (map string_bytes rules.now) bytes.items result }
{
    let Ok(text) = String::from_utf8(bytes) else {
        return Err(RewriteError::NoText);
    };
    let workspace = one_file(alloc, text)?;
    let start = FilePosition {
        file_id: FileId(0),
        offset: 0,
    };
    match edits(
        alloc,
        &workspace,
        &Unresolved,
        start,
        Vec::new(alloc),
        rules,
    ) {
        Ok(edits) => Ok(new_text(alloc, &workspace, &edits)?),
        Err(SearchError::Refused(message)) => Err(RewriteError::Search(message)),
        Err(SearchError::Memory) => Err(RewriteError::Memory),
        // without expansions nothing clashes
        Err(SearchError::Clash(_, _)) => unreachable!(),
    }
}

/// The workspace of one file.
fn one_file(alloc: Global, text: String) -> Result<Workspace, SyntaxError>
    ensures { AnswersFile (file_reading (string_bytes text)) result }
{
    let mut files = Vec::new(alloc);
    let Ok(()) = files.push(text) else {
        return Err(SyntaxError::Memory);
    };
    match Workspace::build(alloc, files, Vec::new(alloc)) {
        Ok(workspace) => Ok(workspace),
        Err(WorkspaceError::File(_, error)) => Err(error),
        Err(WorkspaceError::Memory) => Err(SyntaxError::Memory),
        // one text is not too many, and there are no expansions
        Err(WorkspaceError::TooManyTrees) => unreachable!(),
        Err(WorkspaceError::Call(_)) => unreachable!(),
        Err(WorkspaceError::Nested(_)) => unreachable!(),
        Err(WorkspaceError::Origin(_)) => unreachable!(),
        Err(WorkspaceError::Expansion(_, _)) => unreachable!(),
    }
}

/// The text of the one file of a workspace, with its edit made, if it has one.
fn new_text(
    alloc: Global,
    workspace: &Workspace,
    edits: &BTreeMap<FileId, TextEdit>,
) -> Result<String, AllocError>
    requires one { IsOneFile workspace.now }
    requires fits { EditsFit workspace.now edits.now }
    ensures { IfOk result (λ new. IsNewText workspace.now (changes_in edits.now) (string_bytes new)) }
{
    let Some(tree) = workspace.tree(0) else {
        unreachable!()
    };
    match edits.get(&FileId(0)) {
        Some(edit) => edited(alloc, tree, edit),
        None => String::from_str(alloc, tree.source()),
    }
}
