//! The files of a package as they are searched.
ghost use Rattle.std.specs.Prelude.{◌≡◌, ◌<◌, [], IfOk, Some, length, map, slice_get, slice_index_or, string_bytes};
ghost use Rattle.std.specs.Option.{option_copied, option_map};
ghost use Rattle.ssr_syntax_kinds.specs.declared.reach.Reach.TheVariants.{Whole};
ghost use Rattle.ssr_syntax_tree.specs.Syntax.{Syntax};
ghost use Rattle.ssr_base_trees.specs.Origins.{span_of};
ghost use Rattle.ssr_changes.specs.Files.{AreSearched, IsSearched, as_they_are};
ghost use Rattle.ssr_changes.specs.Sorting.{AreSorted};

use crate::building::{Built, build};
use crate::file_text::FileText;
use crate::sorting::{Sorted, Unread, sort_out};
use ssr_base::{TextEdit, Workspace};
use ssr_package::SourceFile;
use ssr_set_aside::Reaches;
use ssr_syntax_kinds::TextRange;
use std::alloc::{AllocError, Global};
use std::marker::Model;

/// Files as they are searched: a workspace of their texts with what isn't read set aside, and their texts on the
/// disk. File number i is file i of the workspace.
#[derive(Drop)]
pub struct Searchable {
    workspace: Workspace,
    files: Vec<FileText>,
    refused: usize,
}

impl Model for Searchable {
    ghost use Rattle.ssr_changes.specs.Files.{AreSearched, Searchable as SearchableValue};
    ghost use Rattle.ssr_changes.specs.FilesCode.{searchable_code};

    ghost Value = { SearchableValue };

    ghost coded = { searchable_code };

    ghost view = { λ s. record { workspace = s.workspace; files = s.files.items } };

    ghost invariant = { λ s. AreSearched s.workspace.files s.files.items };
}

impl Searchable {
    /// The files that are read in all of Rust, with what isn't read set aside, and those that can't be read, both in their order.
    /// With `macros`, the arguments of the standard library's macros are searched too.
    pub fn of_files(
        alloc: Global,
        files: Vec<SourceFile>,
        macros: bool,
    ) -> Result<(Searchable, Vec<Unread>), AllocError>
        ensures sorted { IfOk result (λ answer. AreSorted 0 files.items answer.0.files answer.1.items) }
        ensures reach { IfOk result (λ answer. answer.0.workspace.reach ≡ Whole) }
    {
        let Sorted {
            trees,
            files,
            unread,
        } = sort_out(alloc, files)?;
        let Built { workspace, refused } = build(alloc, trees, macros)?;
        let searchable = Searchable {
            workspace,
            files,
            refused,
        };
        Ok((searchable, unread))
    }

    /// The files of a workspace as they are: nothing is set aside. A file behind the last of the names has none.
    pub fn of_workspace(
        alloc: Global,
        workspace: Workspace,
        names: Vec<String>,
    ) -> Result<Searchable, AllocError>
        ensures { IfOk result (λ s. s ≡ record { workspace = workspace; files = as_they_are (map string_bytes names.items) workspace.files }) }
    {
        let files = as_they_are(alloc, &workspace, &names)?;
        Ok(Searchable {
            workspace,
            files,
            refused: 0,
        })
    }

    /// The workspace that is searched.
    pub fn workspace(&self) -> &Workspace
        ensures workspace { result.now ≡ self.now.workspace }
        ensures searched { AreSearched self.now.workspace.files self.now.files }
    {
        &self.workspace
    }

    /// How many calls of macros are not searched: those whose expansion the workspace refuses, and those in their arguments.
    pub fn refused_calls(&self) -> usize {
        self.refused
    }

    /// How many files there are.
    pub fn file_count(&self) -> usize
        ensures { result ≡ length self.now.files }
    {
        self.files.len()
    }

    /// A file, by its number.
    pub(crate) fn file(&self, file: usize) -> &FileText
        requires { file < length self.now.files }
        ensures there { slice_get self.now.files file ≡ Some result.now }
        ensures searched { (tree : Syntax) → slice_get self.now.workspace.files file ≡ Some tree → IsSearched tree result.now }
    {
        &self.files[file]
    }

    /// A file, by its number, if it is there.
    pub(crate) fn get(&self, file: usize) -> Option<&FileText>
        ensures { option_copied result ≡ slice_get self.now.files file }
    {
        self.files.get(file)
    }

    /// The name of a file.
    pub fn name(&self, file: usize) -> &str
        requires { file < length self.now.files }
        ensures { option_map (λ file. file.name) (slice_get self.now.files file) ≡ Some result.now }
    {
        self.file(file).name()
    }

    /// The text of a file on the disk.
    pub fn text(&self, file: usize) -> &str
        requires { file < length self.now.files }
        ensures { option_map (λ file. file.text) (slice_get self.now.files file) ≡ Some result.now }
    {
        self.file(file).text()
    }

    /// The changes of a file's text that make the text that is searched: none where the file is read as it stands.
    pub fn aside(&self, file: usize) -> &TextEdit
        requires { file < length self.now.files }
        ensures { option_map (λ file. file.aside) (slice_get self.now.files file) ≡ Some result.now }
    {
        self.file(file).aside()
    }

    /// Of each of these changes the bytes that no match may touch.
    pub fn reaches(&self, file: usize) -> &Reaches
        requires { file < length self.now.files }
        ensures { option_map (λ file. file.reaches) (slice_get self.now.files file) ≡ Some result.now }
    {
        self.file(file).reaches()
    }

    /// The bytes of a file of which nothing is searched, in order: what isn't read is set aside whole there.
    pub fn unsearched(&self, file: usize) -> &[TextRange]
        requires { file < length self.now.files }
        ensures { option_map (λ file. file.unsearched) (slice_get self.now.files file) ≡ Some (map span_of result.now) }
    {
        self.file(file).unsearched()
    }
}

/// The name of a file.
fn name_of(names: &[String], file: u32) -> &str
    ensures { result.now ≡ slice_index_or (map string_bytes names.now) file [] }
{
    match names.get(file as usize) {
        Some(name) => name.as_str(),
        None => "",
    }
}

/// The files of a workspace as they are.
fn as_they_are(
    alloc: Global,
    workspace: &Workspace,
    names: &[String],
) -> Result<Vec<FileText>, AllocError>
    ensures { IfOk result (λ files. files.items ≡ as_they_are (map string_bytes names.now) workspace.now.files) }
{
    let mut files = Vec::new(alloc);
    for file in 0..workspace.file_count() {
        let Some(tree) = workspace.tree(file) else {
            unreachable!()
        };
        let name = String::from_str(alloc, name_of(names, file))?;
        let text = String::from_str(alloc, tree.source())?;
        let aside = TextEdit::new(Vec::new(alloc));
        let reaches = Reaches::new(Vec::new(alloc));
        let unsearched = Vec::new(alloc);
        files.push(FileText::new(name, text, aside, reaches, unsearched))?;
    }
    Ok(files)
}
