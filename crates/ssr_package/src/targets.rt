//! The files that a package's targets begin with.

use crate::crates::{Crate, CrateKind, Edition, crate_name};
use crate::manifest::{
    is_off, items_at, library_name, library_path, package_name, table_at, text_at,
};
use crate::notes::Trouble;
use crate::package_error::PackageError;
use crate::paths::{normal_path, within};
use crate::places::{default_target, stem, target_name};
use crate::reading::Reading;
use crate::reads::{Reads, Standing};
use std::alloc::{AllocError, Global};
use toml::{Table, Value};

/// A kind of targets of which a package may have many.
#[derive(Drop)]
struct TargetKind {
    /// The key of their tables in the manifest.
    key: &'static str,
    /// The folder that they lie in unless they have a path.
    folder: &'static str,
    /// The key by which those are left out that the manifest doesn't list.
    switch: &'static str,
    kind: CrateKind,
}

/// The name of a target, and what its crate is to the package.
#[derive(Clone, Copy)]
struct Target<'a> {
    name: &'a str,
    kind: CrateKind,
}

/// The target that a build script is.
const BUILD_SCRIPT: Target<'static> = Target {
    name: "build-script-build",
    kind: CrateKind::Other,
};

const BINARIES: TargetKind = TargetKind {
    key: "bin",
    folder: "src/bin",
    switch: "autobins",
    kind: CrateKind::Program,
};

const EXAMPLES: TargetKind = TargetKind {
    key: "example",
    folder: "examples",
    switch: "autoexamples",
    kind: CrateKind::Other,
};

const TESTS: TargetKind = TargetKind {
    key: "test",
    folder: "tests",
    switch: "autotests",
    kind: CrateKind::Other,
};

const BENCHES: TargetKind = TargetKind {
    key: "bench",
    folder: "benches",
    switch: "autobenches",
    kind: CrateKind::Other,
};

/// A package: its folder, a name of the run, its manifest, and its edition, where that is known.
#[derive(Drop)]
pub(crate) struct Package {
    pub folder: String,
    pub manifest: Table,
    pub edition: Option<Edition>,
}

impl Package {
    fn name(&self) -> &str {
        package_name(&self.manifest).unwrap_or("")
    }

    /// The crate of a target.
    fn crate_of(&self, alloc: Global, target: Target<'_>) -> Result<Crate, AllocError> {
        let name = crate_name(alloc, target.name)?;
        Ok(Crate {
            name,
            edition: self.edition,
            kind: target.kind,
        })
    }
}

impl Reading<'_> {
    /// Reaches the files that a package's targets begin with.
    pub(crate) fn reach_targets<F: Reads>(
        &mut self,
        reader: &F,
        package: &Package,
    ) -> Result<(), PackageError> {
        self.take_dependencies(&package.manifest)?;
        self.reach_library(reader, package)?;
        self.reach_build_script(reader, package)?;
        self.reach_kind(reader, package, &BINARIES)?;
        self.reach_kind(reader, package, &EXAMPLES)?;
        self.reach_kind(reader, package, &TESTS)?;
        self.reach_kind(reader, package, &BENCHES)?;
        if !is_off_in_package(&package.manifest, BINARIES.switch) {
            let target = Target {
                name: package.name(),
                kind: CrateKind::Program,
            };
            self.reach_default(reader, package, "src/main.rs", target)?;
        }
        Ok(())
    }

    fn reach_library<F: Reads>(
        &mut self,
        reader: &F,
        package: &Package,
    ) -> Result<(), PackageError> {
        let target = Target {
            name: library_name(&package.manifest).unwrap_or(package.name()),
            kind: CrateKind::Library,
        };
        match library_path(&package.manifest) {
            Some(path) => self.reach_path(reader, package, path, target),
            None => self.reach_default(reader, package, "src/lib.rs", target),
        }
    }

    fn reach_build_script<F: Reads>(
        &mut self,
        reader: &F,
        package: &Package,
    ) -> Result<(), PackageError> {
        let Some(table) = table_at(&package.manifest, "package") else {
            return Ok(());
        };
        match text_at(table, "build") {
            Some(path) => self.reach_path(reader, package, path, BUILD_SCRIPT),
            None if is_off(table, "build") => Ok(()),
            None => self.reach_default(reader, package, "build.rs", BUILD_SCRIPT),
        }
    }

    /// Reaches the targets of a kind: those that the manifest lists, and those that lie in the kind's folder.
    fn reach_kind<F: Reads>(
        &mut self,
        reader: &F,
        package: &Package,
        kind: &TargetKind,
    ) -> Result<(), PackageError> {
        for target in items_at(&package.manifest, kind.key) {
            self.reach_listed(reader, package, kind, target)?;
        }
        if is_off_in_package(&package.manifest, kind.switch) {
            return Ok(());
        }
        let folder = within(self.alloc(), package.folder.as_str(), kind.folder)?;
        self.reach_folder(reader, package, kind, folder.as_str())
    }

    /// Reaches a target that the manifest lists: at its path, or else at the default places of its name.
    fn reach_listed<F: Reads>(
        &mut self,
        reader: &F,
        package: &Package,
        kind: &TargetKind,
        listed: &Value,
    ) -> Result<(), PackageError> {
        let Some(table) = listed.as_table() else {
            return Ok(());
        };
        let name = text_at(table, "name");
        if let Some(path) = text_at(table, "path") {
            let target = Target {
                name: name.unwrap_or(stem(path)),
                kind: kind.kind,
            };
            return self.reach_path(reader, package, path, target);
        }
        match name {
            Some(name) => self.reach_named(reader, package, kind, name),
            None => Ok(()),
        }
    }

    /// Reaches a target of a kind at the default places of its name.
    fn reach_named<F: Reads>(
        &mut self,
        reader: &F,
        package: &Package,
        kind: &TargetKind,
        name: &str,
    ) -> Result<(), PackageError> {
        let alloc = self.alloc();
        let target = Target {
            name,
            kind: kind.kind,
        };
        let place = within(alloc, kind.folder, name)?;
        self.reach_default(
            reader,
            package,
            format!(in alloc; "{place}.rs")?.as_str(),
            target,
        )?;
        self.reach_default(
            reader,
            package,
            format!(in alloc; "{place}/main.rs")?.as_str(),
            target,
        )?;
        if kind.key == BINARIES.key && package.name() == name {
            self.reach_default(reader, package, "src/main.rs", target)?;
        }
        Ok(())
    }

    /// Reaches the targets of a kind that lie in a folder.
    fn reach_folder<F: Reads>(
        &mut self,
        reader: &F,
        package: &Package,
        kind: &TargetKind,
        folder: &str,
    ) -> Result<(), PackageError> {
        if self.root().standing(reader, folder)? != Standing::Folder {
            return Ok(());
        }
        let entries = match self.root().entries(reader, folder)? {
            Ok(entries) => entries,
            Err(trouble) => return self.note(folder, trouble),
        };
        for entry in &entries {
            if let Some(file) = default_target(self.alloc(), folder, entry)? {
                let target = Target {
                    name: target_name(entry),
                    kind: kind.kind,
                };
                let of = package.crate_of(self.alloc(), target)?;
                self.reach_root(reader, file, of)?;
            }
        }
        Ok(())
    }

    /// Reaches the file of a target at a path that the manifest gives, or notes that it is not there.
    fn reach_path<F: Reads>(
        &mut self,
        reader: &F,
        package: &Package,
        path: &str,
        target: Target<'_>,
    ) -> Result<(), PackageError> {
        let Some(file) = normal_path(self.alloc(), package.folder.as_str(), path)? else {
            return self.note(path, Trouble::Outside);
        };
        let copy = String::from_str(self.alloc(), file.as_str())?;
        let of = package.crate_of(self.alloc(), target)?;
        if self.reach_root(reader, file, of)? {
            Ok(())
        } else {
            self.note(copy.as_str(), Trouble::Missing)
        }
    }

    /// Reaches the file of a target at a place below the package's folder, if it is there.
    fn reach_default<F: Reads>(
        &mut self,
        reader: &F,
        package: &Package,
        place: &str,
        target: Target<'_>,
    ) -> Result<(), PackageError> {
        if let Some(file) = normal_path(self.alloc(), package.folder.as_str(), place)? {
            let of = package.crate_of(self.alloc(), target)?;
            self.reach_root(reader, file, of)?;
        }
        Ok(())
    }
}

/// Whether `[package]` says `key = false`.
fn is_off_in_package(manifest: &Table, key: &str) -> bool {
    match table_at(manifest, "package") {
        Some(package) => is_off(package, key),
        None => false,
    }
}
