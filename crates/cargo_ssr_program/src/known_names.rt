//! What the sources of a run tell of names.

use crate::positions::node_of;
use crate::sources::{file_modules, source_texts};
use ide_ssr_rules::{PathPlace, RulePath as AskedPath};
use ssr_base::FilePosition;
use ssr_changes::Searchable;
use ssr_names::{Names, RulePath, read_names};
use ssr_names_items::{Namespace, Sources, Table, read_items};
use ssr_package::ModuleTree;
use std::alloc::{AllocError, Global};

/// From what names are known: which files are which modules, the crates that code can name beside its own, and the paths that rules
/// ask for.
#[derive(Drop)]
pub(crate) struct KnownNames {
    pub(crate) modules: ModuleTree,
    pub(crate) dependencies: Vec<String>,
    pub(crate) asked: Vec<AskedPath>,
}

impl KnownNames {
    /// What the files declare.
    pub(crate) fn table(&self, alloc: Global, files: &Searchable) -> Result<Table, AllocError> {
        let texts = source_texts(alloc, files)?;
        let modules = file_modules(alloc, &self.modules)?;
        let sources = Sources {
            trees: files.workspace().trees(),
            files: &texts,
            modules: &modules,
        };
        read_items(alloc, sources)
    }

    /// What is known of the names in the files, where the rules' own are looked up at a position.
    pub(crate) fn names(
        &self,
        alloc: Global,
        files: &Searchable,
        position: FilePosition,
    ) -> Result<Names, AllocError> {
        let mut paths = Vec::with_capacity(alloc, self.asked.len())?;
        for asked in &self.asked {
            paths.push(rule_path(alloc, asked)?)?;
        }
        read_names(
            alloc,
            self.table(alloc, files)?,
            files.workspace().trees(),
            &self.dependencies,
            &paths,
            node_of(files, position),
        )
    }
}

/// A path as names are looked up for it.
fn rule_path(alloc: Global, asked: &AskedPath) -> Result<RulePath, AllocError> {
    let mut key = Vec::with_capacity(alloc, asked.key.len())?;
    for text in &asked.key {
        key.push(text.clone()?)?;
    }
    Ok(RulePath {
        key,
        namespace: namespace_of(asked.place),
        is_template: asked.is_template,
    })
}

/// The namespace of a path by its place.
fn namespace_of(place: PathPlace) -> Namespace {
    match place {
        PathPlace::Value => Namespace::Value,
        PathPlace::Type => Namespace::Type,
        PathPlace::Macro => Namespace::Macro,
    }
}
