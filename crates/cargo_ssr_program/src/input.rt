//! What a run searches.
ghost use Rattle.std.specs.Prelude.{◌≡◌, ◌<◌, IfOk, length};
ghost use Rattle.cargo_ssr_program.specs.Private.Telling.{TellsOnly};

use crate::console::Console;
use crate::failure::Failure;
use crate::includes::tell_includes;
use crate::known_names::KnownNames;
use crate::left_out::left_out_words;
use crate::malformed::malformed_words;
use crate::passed_over::{PassedOver, is_among, tell_unsearched, unsearched_files};
use crate::positions::position_at;
use crate::provider::Provider;
use cargo_ssr_options::{Chosen, Options, Place};
use ssr_base::{FileId, FilePosition, FileRange, Workspace};
use ssr_changes::{Searchable, Unread, normal_names};
use ssr_facts::{Facts, FactsError, read};
use ssr_package::{
    ModuleTree, Note, PackageError, PackageFiles, Reads, find_manifest, given_files, package_files,
    path_in,
};
use ssr_streams::Sink;
use ssr_syntax_kinds::TextRange;
use std::alloc::{AllocError, Global};
use std::collections::BTreeSet;
use std::io::Write;

/// Files, and what is known of their names.
#[derive(Drop)]
pub(crate) struct Input {
    /// The folder from which the files are named.
    pub(crate) folder: String,
    pub(crate) files: Searchable,
    pub(crate) semantics: Provider,
    /// Where the names of rules are looked up.
    pub(crate) position: FilePosition,
    /// What is searched: all, if there are none.
    pub(crate) ranges: Vec<FileRange>,
    /// Which files aren't searched, or not whole.
    pub(crate) passed_over: PassedOver,
    /// How many places match if names that aren't known stand for what rules mean.
    pub(crate) undecided: usize,
    /// What the sources tell of names, where rules have some.
    pub(crate) known: Option<KnownNames>,
}

impl Input {
    /// The ranges once more.
    pub(crate) fn ranges(&self, alloc: Global) -> Result<Vec<FileRange>, AllocError>
        ensures { IfOk result (λ ranges. ranges.items ≡ self.now.ranges.items) }
    {
        Vec::from_slice(alloc, &self.ranges)
    }
}

/// Where names are looked up, if no place is told: at the beginning of the first file.
const BEGINNING: FilePosition = FilePosition {
    file_id: FileId(0),
    offset: 0,
};

/// The files of a package, or of paths, of which those with some names are searched, or all. What is left out of these is told.
pub(crate) fn of_files<W: Sink, E: Write>(
    alloc: Global,
    found: PackageFiles,
    searched: Option<&BTreeSet<String>>,
    options: &Options,
    console: &mut Console<W, E>,
) -> Result<Input, Failure>
    ensures { TellsOnly console.old console.new }
{
    let PackageFiles {
        folder,
        files,
        modules: _,
        dependencies: _,
        notes,
    } = found;
    tell_notes(alloc, &notes, console)?;
    tell_includes(alloc, &files, searched, console)?;
    let (files, mut unread) = Searchable::of_files(alloc, files, options.macros)?;
    unread.retain(|file| is_among(searched, file.name.as_str()));
    tell_unread(alloc, &unread, console)?;
    let not_searched = unsearched_files(alloc, &files, searched)?;
    tell_unsearched(alloc, &files, &not_searched, console)?;
    if files.refused_calls() > 0 {
        console.tell(refused_words(alloc, files.refused_calls())?.as_str());
    }
    let position = position_at(alloc, &files, options.place.as_ref(), BEGINNING)?;
    let ranges = ranges_of(alloc, &files, searched)?;
    let passed_over = PassedOver {
        left_out: unread.len(),
        not_searched,
    };
    Ok(Input {
        folder,
        files,
        semantics: Provider::Nothing,
        position,
        ranges,
        passed_over,
        undecided: 0,
        known: None,
    })
}

/// The texts of the files with these names as ranges; without names there are none. Fails where no byte is searched.
fn ranges_of(
    alloc: Global,
    files: &Searchable,
    names: Option<&BTreeSet<String>>,
) -> Result<Vec<FileRange>, Failure> {
    let mut ranges = Vec::new(alloc);
    if names.is_none() {
        return Ok(ranges);
    }
    for file in 0..files.file_count() {
        if let Some(range) = text_range(files, file)
            && is_among(names, files.name(file))
        {
            ranges.push(range)?;
        }
    }
    if ranges.is_empty() {
        return Err(nothing_searched(alloc)?);
    }
    Ok(ranges)
}

/// The text of a file as a range, if it isn't empty.
fn text_range(files: &Searchable, file: usize) -> Option<FileRange>
    requires { file < length files.now.files }
{
    let end = u32::try_from(files.text(file).len()).ok()?;
    let file = u32::try_from(file).ok()?;
    if end == 0 {
        return None;
    }
    Some(FileRange {
        file_id: FileId(file),
        range: TextRange { start: 0, end },
    })
}

/// That no file was searched.
pub(crate) fn nothing_searched(alloc: Global) -> Result<Failure, AllocError> {
    Ok(Failure::Told(String::from_str(alloc, "no file was searched")?))
}

/// Tells what is to be said of a package.
fn tell_notes<W: Sink, E: Write>(
    alloc: Global,
    notes: &[Note],
    console: &mut Console<W, E>,
) -> Result<(), AllocError>
    ensures { TellsOnly console.old console.new }
{
    for note in notes {
        console.tell(note.to_string(alloc)?.as_str());
    }
    Ok(())
}

/// Tells the files that are left out.
fn tell_unread<W: Sink, E: Write>(
    alloc: Global,
    unread: &[Unread],
    console: &mut Console<W, E>,
) -> Result<(), AllocError>
    ensures { TellsOnly console.old console.new }
{
    for file in unread {
        console.tell(left_out_words(alloc, file)?.as_str());
    }
    Ok(())
}

/// The files that are chosen, as they stand on the disk.
pub(crate) fn chosen_files<F: Reads>(
    reader: &mut F,
    here: &str,
    chosen: &Chosen,
) -> Result<PackageFiles, Failure> {
    let alloc = reader.alloc();
    let found = match chosen {
        Chosen::Paths(paths) => {
            let paths = texts_of(alloc, paths)?;
            given_files(reader, here, &paths)
        }
        Chosen::Package { name, manifest } => {
            let name = name.as_ref().map(|name| name.as_str());
            let manifest = manifest.as_ref().map(|manifest| manifest.as_str());
            package(reader, here, name, manifest)
        }
        Chosen::Facts(_) => Ok(PackageFiles {
            folder: String::new(alloc),
            files: Vec::new(alloc),
            modules: ModuleTree::new(alloc),
            dependencies: Vec::new(alloc),
            notes: Vec::new(alloc),
        }),
    };
    match found {
        Ok(found) => Ok(found),
        Err(error) => Err(package_failure(alloc, &error)?),
    }
}

/// Texts as they are lent.
pub(crate) fn texts_of(alloc: Global, strings: &[String]) -> Result<Vec<&str>, AllocError> {
    let mut texts = Vec::with_capacity(alloc, strings.len())?;
    for text in strings {
        texts.push(text.as_str())?;
    }
    Ok(texts)
}

/// The files of a package.
fn package<F: Reads>(
    reader: &mut F,
    here: &str,
    name: Option<&str>,
    manifest: Option<&str>,
) -> Result<PackageFiles, PackageError> {
    match manifest {
        Some(manifest) => package_files(reader, manifest, name),
        None => {
            let manifest = find_manifest(reader, here)?;
            package_files(reader, manifest.as_str(), name)
        }
    }
}

/// Why no files are told.
pub(crate) fn package_failure(alloc: Global, error: &PackageError) -> Result<Failure, AllocError> {
    match error {
        PackageError::Memory => Ok(Failure::Memory),
        error => Ok(Failure::Told(error.to_string(alloc)?)),
    }
}

/// Tells how many calls of macros aren't searched.
fn refused_words(alloc: Global, calls: usize) -> Result<String, AllocError> {
    if calls == 1 {
        String::from_str(alloc, "the arguments of 1 macro call are not searched")
    } else {
        format!(in alloc; "the arguments of {calls} macro calls are not searched")
    }
}

/// The files of a facts file, with what it tells of their names.
pub(crate) fn of_facts<F: Reads>(
    reader: &mut F,
    here: &str,
    path: &str,
    place: Option<&Place>,
) -> Result<Input, Failure> {
    let alloc = reader.alloc();
    let bytes = read_text(reader, here, path)?;
    let Facts {
        workspace,
        semantics,
        names,
        position,
        ranges,
    } = match read(alloc, bytes.as_bytes()) {
        Ok(facts) => facts,
        Err(error) => return Err(facts_failure(alloc, path, bytes.as_bytes(), &error)?),
    };
    let names = normal_names(alloc, &names)?;
    let files = Searchable::of_workspace(alloc, workspace, names)?;
    let position = position_at(alloc, &files, place, position)?;
    Ok(Input {
        folder: String::from_str(alloc, here)?,
        files,
        semantics: Provider::Facts(semantics),
        position,
        ranges,
        passed_over: PassedOver::none(alloc),
        undecided: 0,
        known: None,
    })
}

/// Why there are no facts.
fn facts_failure(
    alloc: Global,
    path: &str,
    facts: &[u8],
    error: &FactsError,
) -> Result<Failure, AllocError> {
    let words = format!(in alloc; "{path}: {error}")?;
    match error {
        FactsError::Memory => Ok(Failure::Memory),
        FactsError::Shape => {
            let place = malformed_words(alloc, facts)?;
            Ok(Failure::Told(format!(in alloc; "{words}: {place}")?))
        }
        _ => Ok(Failure::Told(words)),
    }
}

/// The text of a file.
pub(crate) fn read_text<F: Reads>(
    reader: &mut F,
    here: &str,
    name: &str,
) -> Result<String, Failure> {
    let alloc = reader.alloc();
    let path = path_in(alloc, here, name)?;
    match reader.text(path.as_str())? {
        Ok(text) => Ok(text),
        Err(trouble) => Err(Failure::Told(format!(in alloc; "{name}: {trouble}")?)),
    }
}
