//! From rules and the bytes of a facts file to the new texts of its files.
ghost use Rattle.std.specs.Prelude.{◌≡◌, ◌++◌, All, IfOk, OnOk, map, string_bytes};
ghost use Rattle.ssr_syntax_tree.specs.Syntax.{source_of};
ghost use Rattle.ssr_base_trees.specs.Changes.{FitsText};
ghost use Rattle.ide_ssr_rewriting.specs.Clashes.{clash_of};
ghost use Rattle.ide_ssr_rewriting.specs.Edits.{EditsFit};
ghost use Rattle.ssr_program.specs.OfFacts.{clash_words as words_of_clash, closed, name_at, part, parts as parts_of};
ghost use Rattle.ssr_searching.specs.Searching.{changes_in};
ghost use Rattle.ssr_base.specs.Editing.{new_text};
ghost use Rattle.ssr_program.specs.Private.Rewriting.{Rewrites};
ghost use Rattle.ssr_program.specs.declared.commands.Form.TheVariants as forms;

use crate::rewrite_error::RewriteError;
use ssr_base::{FileId, FileRange, TextEdit, Workspace, edited};
use ssr_facts::{Facts, read};
use ssr_searching::{SearchError, edits};
use ssr_syntax::Tree;
use std::alloc::{AllocError, Global};
use std::collections::BTreeMap;

/// The new texts of the files that facts tell, with the rules applied: of those with an edit, in their order, each behind a
/// line with its name.
pub(crate) fn rewrite(alloc: Global, rules: &[String], bytes: &[u8]) -> Result<String, RewriteError>
    ensures { Rewrites forms.Facts (map string_bytes rules.now) bytes.now result }
{
    let Facts {
        workspace,
        semantics,
        names,
        position,
        ranges,
    } = read(alloc, bytes)?;
    match edits(alloc, &workspace, &semantics, position, ranges, rules) {
        Ok(edits) => Ok(parts(alloc, &workspace, &names, &edits)?),
        Err(SearchError::Refused(message)) => Err(RewriteError::Search(message)),
        Err(SearchError::Clash(earlier, later)) => Err(RewriteError::Clash(clash_words(
            alloc, &names, earlier, later,
        )?)),
        Err(SearchError::Memory) => Err(RewriteError::Memory),
    }
}

/// The name of a file.
fn name_of(names: &[String], file: u32) -> &str
    ensures { result.now ≡ name_at (map string_bytes names.now) file }
{
    match names.get(file as usize) {
        Some(name) => name.as_str(),
        None => "",
    }
}

/// Tells that what stands for two matches clashes.
fn clash_words(
    alloc: Global,
    names: &[String],
    earlier: FileRange,
    later: FileRange,
) -> Result<String, AllocError>
    ensures { IfOk result (λ words. string_bytes words ≡ words_of_clash (map string_bytes names.now) (clash_of (earlier, later))) }
{
    let name = name_of(names, earlier.file_id.0);
    let (earlier, later) = (earlier.range, later.range);
    format!(in alloc;
        "replacements clash in {name} at {}..{} and {}..{}",
        earlier.start, earlier.end, later.start, later.end
    )
}

/// Adds a text, and a line break unless it ends with one.
fn push_closed(text: &mut String, new: &str) -> Result<(), AllocError>
    ensures { OnOk result (string_bytes text.new ≡ string_bytes text.old ++ closed new.now) }
{
    text.push_str(new)?;
    if new.ends_with("\n") {
        return Ok(());
    }
    text.push_str("\n")?;
    Ok(())
}

/// Adds a line with the name of a file, and its text with an edit made that fits it.
fn push_part(
    alloc: Global,
    text: &mut String,
    name: &str,
    tree: &Tree,
    edit: &TextEdit,
) -> Result<(), AllocError>
    requires { All (FitsText (source_of tree.now)) edit.now }
    ensures { OnOk result (string_bytes text.new ≡ string_bytes text.old ++ part name.now (new_text tree.now edit.now)) }
{
    let new = edited(alloc, tree, edit)?;
    text.push_str("== ")?;
    text.push_str(name)?;
    text.push_str("\n")?;
    push_closed(text, new.as_str())
}

/// The new texts of the files that have an edit, in their order, each behind a line with its name.
fn parts(
    alloc: Global,
    workspace: &Workspace,
    names: &[String],
    edits: &BTreeMap<FileId, TextEdit>,
) -> Result<String, AllocError>
    requires { EditsFit workspace.now edits.now }
    ensures { IfOk result (λ text. string_bytes text ≡ parts_of (map string_bytes names.now) workspace.now.files (changes_in edits.now)) }
{
    let mut text = String::new(alloc);
    for file in 0..workspace.file_count() {
        let Some(tree) = workspace.tree(file) else {
            unreachable!()
        };
        if let Some(edit) = edits.get(&FileId(file)) {
            push_part(alloc, &mut text, name_of(names, file), tree, edit)?;
        }
    }
    Ok(text)
}
