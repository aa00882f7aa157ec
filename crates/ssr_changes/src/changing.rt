//! What rules change in the files on the disk.
ghost use Rattle.std.specs.Prelude.{◌≡◌, ◌<◌, All, IfErr, IfOk, length, map, string_bytes};
ghost use Rattle.ide_ssr_rewriting.specs.Edits.{EditsFit};
ghost use Rattle.ssr_searching.specs.Searching.{changes_in};
ghost use Rattle.ssr_changes.specs.Changing.{AreChanges, FitsIn, IsWhy, all_changed, shown};
ghost use Rattle.ssr_changes.specs.Private.Changing.{FitsTree, IsChangeOf};

use crate::read_in::READ_IN;
use crate::searchable::Searchable;
use crate::standing::{Tried, standing};
use ssr_base::{ApplyError, FileId, FilePosition, FileRange, Semantics, TextEdit};
use ssr_searching::{Place, SearchError, edits_once};
use ssr_set_aside::{Spared, spare};
use ssr_standing::SearchedFile;
use ssr_syntax::TextRange;
use std::alloc::{AllocError, Global};
use std::collections::BTreeMap;

/// What changes in a file.
#[derive(Debug, Drop)]
pub struct FileChange {
    /// The file's number.
    pub file: usize,
    /// The changes of its text on the disk; none where all are told.
    pub edit: TextEdit,
    /// The text with these made.
    pub new: String,
    /// The ranges of changes that are not made, since they touch the reach of a part set aside.
    pub told: Vec<TextRange>,
    /// The ranges of changes that are not made, since the file isn't read with them.
    pub unread: Vec<TextRange>,
}

/// What rules change, in the order of the files: of each file in which something is replaced, be it made or told. Where a file isn't
/// read with all of its changes made, those are told that don't stand by the nearest block around them. If it isn't read with the
/// others either, those are told that don't stand alone in the file, or else all. The names of the rules are looked up at the position;
/// without ranges all is searched. A rule whose pattern is a placeholder alone is searched by its first kind alone. The error is that of
/// the search.
pub fn changes<S: Semantics>(
    alloc: Global,
    files: &Searchable,
    semantics: &S,
    position: FilePosition,
    ranges: Vec<FileRange>,
    rules: &[String],
) -> Result<Vec<FileChange>, SearchError>
    ensures changes { IfOk result (λ made. AreChanges (record { workspace = files.now.workspace; meanings = S.meanings semantics.now; position = position; ranges = ranges.items }) (map string_bytes rules.now) files.now.files (map shown made.items)) }
    ensures fit { IfOk result (λ made. All (FitsIn files.now.files) made.items) }
    ensures refused { IfErr result (IsWhy (record { workspace = files.now.workspace; meanings = S.meanings semantics.now; position = position; ranges = ranges.items }) (map string_bytes rules.now)) }
{
    let place = Place { position, ranges };
    let edits = edits_once(alloc, READ_IN, files.workspace(), semantics, place, rules)?;
    Ok(all_changed(alloc, files, edits)?)
}

/// What the edits of the searched texts come to in the files, of those that have one, in their order.
fn all_changed(
    alloc: Global,
    files: &Searchable,
    edits: BTreeMap<FileId, TextEdit>,
) -> Result<Vec<FileChange>, AllocError>
    requires { EditsFit files.now.workspace edits }
    ensures changes { IfOk result (λ made. map shown made.items ≡ all_changed files.now.workspace (changes_in edits) files.now.files) }
    ensures fit { IfOk result (λ made. All (FitsIn files.now.files) made.items) }
{
    let mut left = edits;
    let mut made = Vec::new(alloc);
    for file in 0..files.workspace().file_count() {
        if let Some(edit) = left.remove(&FileId(file)) {
            made.push(changed(alloc, files, file, edit)?)?;
        }
    }
    Ok(made)
}

/// What an edit of a file's searched text comes to in the file.
fn changed(
    alloc: Global,
    files: &Searchable,
    file: u32,
    edit: TextEdit,
) -> Result<FileChange, AllocError>
    requires there { file < length files.now.files }
    requires fits { FitsTree files.now.workspace file edit }
    ensures change { IfOk result (IsChangeOf files.now file edit) }
    ensures fits { IfOk result (FitsIn files.now.files) }
{
    let there = files.file(file as usize);
    let workspace = files.workspace();
    let Some(tree) = workspace.tree(file) else {
        unreachable!()
    };
    let searched = SearchedFile {
        trees: workspace.trees(),
        number: file,
        tree,
    };
    let Spared { edit, told } = spare(alloc, edit, there.reaches())?;
    let Tried { edit, unread } = standing(alloc, &searched, edit)?;
    let new = match edit.apply(alloc, there.text()) {
        Ok(new) => new,
        Err(ApplyError::Memory) => return Err(AllocError),
        // what touches no reach fits the file as it does the searched text
        Err(ApplyError::Range) => unreachable!(),
    };
    Ok(FileChange {
        file: file as usize,
        edit,
        new,
        told,
        unread,
    })
}
