//! What a run searches where its rules have names, and what the sources tell of these.
ghost use Rattle.cargo_ssr_program.specs.Private.Telling.{TellsOnly};

use crate::console::Console;
use crate::failure::Failure;
use crate::input::{Input, chosen_files, of_files, package_failure, texts_of};
use crate::known_names::KnownNames;
use crate::positions::file_named;
use crate::provider::Provider;
use crate::refusals::two_meanings;
use crate::undecided::{tell_undecided, undecided_places};
use cargo_ssr_options::{Chosen, Options};
use ide_ssr_rules::RulePath;
use ssr_base::{FileId, FilePosition};
use ssr_changes::Searchable;
use ssr_package::{
    CrateKind, FilesAround, ModuleTree, Origin, PackageFiles, Reads, SourceFile, files_around,
};
use ssr_streams::Sink;
use std::alloc::Global;
use std::collections::BTreeSet;
use std::io::Write;
use std::mem;

/// The files whose names are known, and the names of those that are searched; without these all are.
#[derive(Drop)]
struct NamedFiles {
    all: PackageFiles,
    searched: Option<BTreeSet<String>>,
}

/// The files of a package, or of paths, with what their sources tell of the paths that rules ask for.
pub(crate) fn of_names<F: Reads, W: Sink, E: Write>(
    reader: &mut F,
    here: &str,
    options: &Options,
    asked: Vec<RulePath>,
    console: &mut Console<W, E>,
) -> Result<Input, Failure>
    ensures { TellsOnly console.old console.new }
{
    let alloc = reader.alloc();
    let NamedFiles { mut all, searched } = named_files(reader, here, options)?;
    let modules = mem::replace(&mut all.modules, ModuleTree::new(alloc));
    let dependencies = mem::replace(&mut all.dependencies, Vec::new(alloc));
    let mut input = of_files(alloc, all, searched.as_ref(), options, console)?;
    if options.place.is_none() {
        input.position = root_position(&input.files, &modules, input.position);
    }
    let known = KnownNames {
        modules,
        dependencies,
        asked,
    };
    let names = known.names(alloc, &input.files, input.position)?;
    if let Some(failure) = two_meanings(alloc, &names, options)? {
        return Err(failure);
    }
    let places = undecided_places(alloc, &input, &names, options)?;
    tell_undecided(alloc, &input.files, &names, &places, options, console)?;
    input.undecided = places.len();
    input.semantics = Provider::Sources(names);
    input.known = Some(known);
    Ok(input)
}

/// The files of a package, or those of paths with the package around them, of which only the first are searched.
fn named_files<F: Reads>(
    reader: &mut F,
    here: &str,
    options: &Options,
) -> Result<NamedFiles, Failure> {
    let Chosen::Paths(paths) = &options.files else {
        return Ok(NamedFiles {
            all: chosen_files(reader, here, &options.files)?,
            searched: None,
        });
    };
    let alloc = reader.alloc();
    let paths = texts_of(alloc, paths)?;
    match files_around(reader, here, &paths) {
        Ok(found) => Ok(with_text(found)),
        Err(error) => Err(package_failure(alloc, &error)?),
    }
}

/// Files of paths with those around them. Where no byte is searched these are left out, since a search in no range is one of all.
fn with_text(found: FilesAround) -> NamedFiles {
    let FilesAround { mut all, given } = found;
    if all.files.iter().any(|file| is_text_of(file, &given)) {
        return NamedFiles {
            all,
            searched: Some(given),
        };
    }
    all.files.retain(|file| given.contains(&file.name));
    NamedFiles {
        all,
        searched: None,
    }
}

/// Whether a file has one of these names, and a text that isn't empty.
fn is_text_of(file: &SourceFile, names: &BTreeSet<String>) -> bool {
    !file.text.is_empty() && names.contains(&file.name)
}

/// Where names are looked up, if no place is told: at the beginning of the first library, else of the first program, else there.
fn root_position(files: &Searchable, modules: &ModuleTree, other: FilePosition) -> FilePosition {
    let library = root_file(files, modules, CrateKind::Library);
    match library.or(root_file(files, modules, CrateKind::Program)) {
        Some(file) => FilePosition {
            file_id: FileId(file),
            offset: 0,
        },
        None => other,
    }
}

/// The number of the file that the first crate of a kind begins with.
fn root_file(files: &Searchable, modules: &ModuleTree, kind: CrateKind) -> Option<u32> {
    for module in modules.modules() {
        let Origin::Root(Some(of)) = &module.origin else {
            continue;
        };
        if of.kind == kind {
            return u32::try_from(file_named(files, module.file.as_str())?).ok();
        }
    }
    None
}
