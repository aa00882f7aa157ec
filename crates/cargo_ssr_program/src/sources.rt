//! The files of a run as sources of names.

use ssr_changes::Searchable;
use ssr_names_items::{CrateKind, Declaration, Edition, FileModule, Origin as Source, SourceText};
use ssr_package::{Module, ModuleTree, Origin};
use std::alloc::{AllocError, Global};
use std::collections::BTreeMap;

/// The texts of files on the disk, and what is set aside of them.
pub(crate) fn source_texts(
    alloc: Global,
    files: &Searchable,
) -> Result<Vec<SourceText<'_>>, AllocError> {
    let mut texts = Vec::with_capacity(alloc, files.file_count())?;
    for file in 0..files.file_count() {
        texts.push(SourceText {
            name: files.name(file),
            text: files.text(file),
            aside: files.aside(file).iter().as_slice(),
        })?;
    }
    Ok(texts)
}

/// The most modules of further places whose own modules are added.
const MOST_COPIES: usize = 65_536;

/// A further place of a file, and the module that the file is at first, by their numbers.
#[derive(Clone, Copy)]
struct Place {
    further: usize,
    first: usize,
}

/// The modules that have files, each place of a file for itself. An item that is there twice, as under two conditions, is one place.
pub(crate) fn file_modules(
    alloc: Global,
    tree: &ModuleTree,
) -> Result<Vec<FileModule<'_>>, AllocError> {
    let mut modules = Vec::new(alloc);
    let mut places = BTreeMap::new(alloc);
    for (number, module) in tree.modules().iter().enumerate() {
        places.insert(module.file.as_str(), number)?;
        modules.push(file_module(module))?;
    }
    let mut copies = Vec::new(alloc);
    for module in tree.further() {
        let number = places
            .get(&module.file.as_str())
            .copied()
            .unwrap_or(usize::MAX);
        let first = tree.modules().get(number);
        if first.is_some_and(|first| is_same_place(first, module)) {
            continue;
        }
        if first.is_some_and(|first| first.owns_folder == module.owns_folder) {
            copies.push(Place {
                further: modules.len(),
                first: number,
            })?;
        }
        modules.push(file_module(module))?;
    }
    add_below(&mut modules, copies)?;
    Ok(modules)
}

/// Adds the modules below further places of files: what the first module of a file declares, each further one does as well.
fn add_below(modules: &mut Vec<FileModule<'_>>, mut copies: Vec<Place>) -> Result<(), AllocError> {
    let count = modules.len();
    for next in 0..MOST_COPIES {
        let Some(copy) = copies.get(next).copied() else {
            break;
        };
        add_declared(modules, count, copy, &mut copies)?;
    }
    Ok(())
}

/// Adds what a further place declares as the first one does, of which the modules are among so many. These are further places too.
fn add_declared(
    modules: &mut Vec<FileModule<'_>>,
    count: usize,
    place: Place,
    copies: &mut Vec<Place>,
) -> Result<(), AllocError> {
    for number in 0..count {
        let Some(module) = modules.get(number).copied() else {
            break;
        };
        if let Source::Declared(item) = module.origin
            && item.declarer == place.first
        {
            copies.push(Place {
                further: modules.len(),
                first: number,
            })?;
            modules.push(FileModule {
                file: module.file,
                origin: Source::Declared(Declaration {
                    declarer: place.further,
                    ..item
                }),
            })?;
        }
    }
    Ok(())
}

/// Whether two modules have one place: one item declares both, or two of one name side by side.
fn is_same_place(one: &Module, other: &Module) -> bool {
    match (&one.origin, &other.origin) {
        (Origin::Declared(one), Origin::Declared(other)) => {
            one.declarer == other.declarer && one.name == other.name && one.around == other.around
        }
        _ => false,
    }
}

/// A module as a source of names.
fn file_module(module: &Module) -> FileModule<'_> {
    let origin = match &module.origin {
        Origin::Root(Some(of)) => Source::Root {
            name: of.name.as_str(),
            edition: of.edition.map(edition_of),
            kind: kind_of(of.kind),
        },
        Origin::Root(None) => Source::Stray,
        Origin::Declared(item) => Source::Declared(Declaration {
            declarer: item.declarer,
            around: &item.around,
            name: item.name.as_str(),
        }),
    };
    FileModule {
        file: module.file.as_str(),
        origin,
    }
}

fn edition_of(edition: ssr_package::Edition) -> Edition {
    match edition {
        ssr_package::Edition::Edition2015 => Edition::Edition2015,
        ssr_package::Edition::Edition2018 => Edition::Edition2018,
        ssr_package::Edition::Edition2021 => Edition::Edition2021,
        ssr_package::Edition::Edition2024 => Edition::Edition2024,
    }
}

fn kind_of(kind: ssr_package::CrateKind) -> CrateKind {
    match kind {
        ssr_package::CrateKind::Library => CrateKind::Library,
        ssr_package::CrateKind::Program => CrateKind::Program,
        ssr_package::CrateKind::Other => CrateKind::Other,
    }
}
