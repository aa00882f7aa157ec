//! The packages in a workspace's folder on which others depend by paths: they are members, too.

use crate::crates::workspace_edition;
use crate::manifest::{items_at, table_at, text_at};
use crate::package_error::PackageError;
use crate::packages::MANIFEST;
use crate::paths::{normal_path, within};
use crate::places::is_ours;
use crate::reading::{LIMIT, Reading};
use crate::reads::Reads;
use crate::targets::Package;
use std::alloc::{AllocError, Global};
use toml::{Table, Value};

/// The tables of a manifest that list dependencies.
const TABLES: [&str; 3] = ["dependencies", "dev-dependencies", "build-dependencies"];

impl Reading<'_> {
    /// Adds the packages on which a workspace's packages depend by paths, and those on which these depend so.
    pub(crate) fn add_dependencies<F: Reads>(
        &mut self,
        reader: &mut F,
        packages: &mut Vec<Package>,
        workspace: &Table,
    ) -> Result<(), PackageError> {
        let own = folders_of(self.alloc(), "", workspace, workspace)?;
        self.add_folders(reader, packages, workspace, own)?;
        for next in 0..LIMIT as usize {
            let Some(package) = packages.get(next) else {
                return Ok(());
            };
            let folder = package.folder.as_str();
            let folders = folders_of(self.alloc(), folder, &package.manifest, workspace)?;
            self.add_folders(reader, packages, workspace, folders)?;
        }
        Err(PackageError::TooMany)
    }

    /// Adds the packages of folders, but for those that the workspace leaves out.
    fn add_folders<F: Reads>(
        &mut self,
        reader: &mut F,
        packages: &mut Vec<Package>,
        workspace: &Table,
        folders: Vec<String>,
    ) -> Result<(), PackageError> {
        let excluded = match table_at(workspace, "workspace") {
            Some(table) => items_at(table, "exclude"),
            None => &[],
        };
        let edition = workspace_edition(workspace);
        for folder in folders {
            let name = within(self.alloc(), folder.as_str(), MANIFEST)?;
            if is_ours(name.as_str()) && !self.is_excluded(folder.as_str(), excluded)? {
                self.add_member(reader, packages, folder.as_str(), false, edition)?;
            }
        }
        Ok(())
    }
}

/// The folders of the packages on which the package of a folder depends by paths, of those that lie inside.
fn folders_of(
    alloc: Global,
    folder: &str,
    manifest: &Table,
    workspace: &Table,
) -> Result<Vec<String>, AllocError> {
    let mut folders = Vec::new(alloc);
    for table in dependency_tables(alloc, manifest)? {
        add_table(alloc, folder, table, workspace, &mut folders)?;
    }
    Ok(folders)
}

/// The tables of a manifest that list dependencies, those for one platform among them.
pub(crate) fn dependency_tables(
    alloc: Global,
    manifest: &Table,
) -> Result<Vec<&Table>, AllocError> {
    let mut tables = Vec::new(alloc);
    push_tables(manifest, &mut tables)?;
    let Some(targets) = table_at(manifest, "target") else {
        return Ok(tables);
    };
    for (_, target) in targets {
        if let Some(table) = target.as_table() {
            push_tables(table, &mut tables)?;
        }
    }
    Ok(tables)
}

/// Adds the tables of dependencies of a manifest, or of its part for one platform.
fn push_tables<'a>(manifest: &'a Table, tables: &mut Vec<&'a Table>) -> Result<(), AllocError> {
    for key in TABLES {
        if let Some(table) = table_at(manifest, key) {
            tables.push(table)?;
        }
    }
    Ok(())
}

/// Adds the folders of the dependencies of a table.
fn add_table(
    alloc: Global,
    folder: &str,
    table: &Table,
    workspace: &Table,
    folders: &mut Vec<String>,
) -> Result<(), AllocError> {
    for (name, dependency) in table {
        if let Some(found) = folder_of(alloc, folder, name.as_str(), dependency, workspace)? {
            folders.push(found)?;
        }
    }
    Ok(())
}

/// The folder of a dependency that has a path: its own, from its package on, or that which the workspace gives for its name.
fn folder_of(
    alloc: Global,
    folder: &str,
    name: &str,
    dependency: &Value,
    workspace: &Table,
) -> Result<Option<String>, AllocError> {
    let Some(table) = dependency.as_table() else {
        return Ok(None);
    };
    if let Some(path) = text_at(table, "path") {
        return normal_path(alloc, folder, path);
    }
    if table.get("workspace").is_none() {
        return Ok(None);
    }
    match shared_path(workspace, name) {
        Some(path) => normal_path(alloc, "", path),
        None => Ok(None),
    }
}

/// The path that a workspace gives for a dependency of its packages.
fn shared_path<'a>(workspace: &'a Table, name: &str) -> Option<&'a str> {
    let table = table_at(workspace, "workspace")?;
    let dependencies = table_at(table, "dependencies")?;
    text_at(table_at(dependencies, name)?, "path")
}
