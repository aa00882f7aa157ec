//! The debug list of a snippet in all files.
ghost use Rattle.std.specs.Prelude.{◌≡◌, ◌++◌, [], IfOk, OnOk, length, map, string_bytes};
ghost use Rattle.ide_ssr.specs.Finder.{finder_of};
ghost use Rattle.ssr_changes.specs.Debugging.{AreTold, AreToldUpTo, told_by, told_of};

use crate::finding::{Form, add_all};
use crate::searchable::Searchable;
use ide_ssr::{MatchDebugInfo, MatchFinder};
use ssr_base::{FileId, FilePosition, FileRange, Semantics, Workspace};
use ssr_searching::SearchError;
use std::alloc::{AllocError, Global};

/// What is told of a rule at a node that a snippet shows.
#[derive(Debug, Drop)]
pub struct DebugEntry {
    /// The bytes of the file that the node comes from.
    pub range: Option<FileRange>,
    /// The place of the rule among the rules.
    pub rule: usize,
    /// Why the rule doesn't match there; none where it does.
    pub reason: Option<String>,
}

/// What is told of rules at the nodes that a snippet shows, file by file: of each rule that asks for such a node whether it
/// matches there, and why not. The names of the rules are looked up at the position. The error is that of the search.
pub fn debug<S: Semantics>(
    alloc: Global,
    files: &Searchable,
    semantics: &S,
    position: FilePosition,
    rules: &[String],
    snippet: &str,
) -> Result<Vec<DebugEntry>, SearchError>
    ensures { IfOk result (λ entries. AreTold (record { workspace = files.now.workspace; meanings = S.meanings semantics.now; position = position; ranges = [] }) (map string_bytes rules.now) snippet.now (map told_by entries.items)) }
{
    let workspace = files.workspace();
    let mut finder = MatchFinder::in_context(
        alloc,
        workspace,
        semantics,
        position,
        Vec::new(alloc),
    )?;
    let owners = add_all(alloc, &mut finder, Form::Rules, rules)?;
    Ok(all_entries(alloc, workspace, &finder, &owners, snippet)?)
}

/// What is told by a finder of the files of its workspace, where its kinds come from rules of these numbers.
fn all_entries<S: Semantics>(
    alloc: Global,
    workspace: &Workspace,
    finder: &MatchFinder<'_, S>,
    owners: &[usize],
    snippet: &str,
) -> Result<Vec<DebugEntry>, AllocError>
    requires { finder.now.workspace ≡ workspace.now }
    ensures { IfOk result (λ entries. AreToldUpTo (finder_of S.meanings finder.now) owners.now snippet.now (length workspace.now.files) (map told_by entries.items)) }
{
    let mut entries = Vec::new(alloc);
    for file in 0..workspace.file_count() {
        let told = finder.debug_where_text_equal(FileId(file), snippet)?;
        push_entries(alloc, &mut entries, workspace, owners, &told)?;
    }
    Ok(entries)
}

/// Adds what is told of a file.
fn push_entries(
    alloc: Global,
    entries: &mut Vec<DebugEntry>,
    workspace: &Workspace,
    owners: &[usize],
    told: &[MatchDebugInfo],
) -> Result<(), AllocError>
    ensures { OnOk result (map told_by entries.new.items ≡ map told_by entries.old.items ++ map (told_of owners.now workspace.now) told.now) }
{
    for info in told {
        entries.push(entry(alloc, workspace, owners, info)?)?;
    }
    Ok(())
}

/// What is told of a rule at a node.
fn entry(
    alloc: Global,
    workspace: &Workspace,
    owners: &[usize],
    info: &MatchDebugInfo,
) -> Result<DebugEntry, AllocError>
    ensures { IfOk result (λ entry. told_by entry ≡ told_of owners.now workspace.now info.now) }
{
    let reason = match info.match_failure_reason() {
        Some(reason) => Some(String::from_str(alloc, reason)?),
        None => None,
    };
    Ok(DebugEntry {
        range: workspace.original_range(info.node()),
        rule: owners.get(info.rule_index()).copied().unwrap_or(0),
        reason,
    })
}
