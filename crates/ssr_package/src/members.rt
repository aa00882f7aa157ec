//! The members of a workspace.

use crate::crates::{Edition, package_edition, workspace_edition};
use crate::globs::{is_pattern, unread_mark};
use crate::manifest::{items_at, package_name, table_at};
use crate::notes::Trouble;
use crate::package_error::PackageError;
use crate::packages::read_manifest;
use crate::paths::{normal_path, within};
use crate::reading::Reading;
use crate::reads::Reads;
use crate::targets::Package;
use toml::{Table, Value};

impl Reading<'_> {
    /// The packages that a workspace's manifest lists as its members, and those in its folder that they depend on by paths.
    pub(crate) fn members<F: Reads>(
        &mut self,
        reader: &mut F,
        manifest: &Table,
    ) -> Result<Vec<Package>, PackageError> {
        let mut packages = Vec::new(self.alloc());
        let Some(workspace) = table_at(manifest, "workspace") else {
            return Ok(packages);
        };
        let edition = workspace_edition(manifest);
        for member in items_at(workspace, "members") {
            if let Some(pattern) = member.as_str() {
                let excluded = items_at(workspace, "exclude");
                self.add_members(reader, &mut packages, pattern, excluded, edition)?;
            }
        }
        self.add_dependencies(reader, &mut packages, manifest)?;
        Ok(packages)
    }

    /// Adds the members of a path, of which parts may be patterns. The edition is that of the workspace.
    fn add_members<F: Reads>(
        &mut self,
        reader: &mut F,
        packages: &mut Vec<Package>,
        pattern: &str,
        excluded: &[Value],
        edition: Option<Edition>,
    ) -> Result<(), PackageError> {
        let Some(path) = normal_path(self.alloc(), "", pattern)? else {
            return self.note(pattern, Trouble::Outside);
        };
        if let Some(mark) = unread_mark(path.as_str()) {
            return self.note_pattern(pattern, Trouble::Unread(mark));
        }
        if !is_pattern(path.as_str()) {
            return self.add_member(reader, packages, path.as_str(), true, edition);
        }
        let folders = self.folders_at(reader, path.as_str())?;
        if folders.is_empty() {
            return self.note_pattern(pattern, Trouble::NoFolder);
        }
        for folder in folders {
            if !self.is_excluded(folder.as_str(), excluded)? {
                self.add_member(reader, packages, folder.as_str(), false, edition)?;
            }
        }
        Ok(())
    }

    /// Notes something of a pattern of members.
    fn note_pattern(&mut self, pattern: &str, trouble: Trouble) -> Result<(), PackageError> {
        let name = format!(in self.alloc(); "members \"{pattern}\"")?;
        self.note(name.as_str(), trouble)
    }

    /// Whether a folder is left out of the members: it is one of these paths, or lies below one.
    pub(crate) fn is_excluded(
        &self,
        folder: &str,
        excluded: &[Value],
    ) -> Result<bool, PackageError> {
        for path in excluded {
            if self.is_below(folder, path)? {
                return Ok(true);
            }
        }
        Ok(false)
    }

    /// Whether a name is that of a path, or lies below it.
    fn is_below(&self, name: &str, path: &Value) -> Result<bool, PackageError> {
        let Some(path) = path.as_str() else {
            return Ok(false);
        };
        let Some(folder) = normal_path(self.alloc(), "", path)? else {
            return Ok(false);
        };
        Ok(match name.strip_prefix(folder.as_str()) {
            Some(rest) => rest.is_empty() || rest.starts_with('/'),
            None => false,
        })
    }

    /// Adds the package of a folder, if it has a manifest. Where it must have one, it is noted that it has none.
    pub(crate) fn add_member<F: Reads>(
        &mut self,
        reader: &mut F,
        packages: &mut Vec<Package>,
        folder: &str,
        must: bool,
        edition: Option<Edition>,
    ) -> Result<(), PackageError> {
        let name = within(self.alloc(), folder, "Cargo.toml")?;
        if !self.is_new(name.as_str())? {
            return Ok(());
        }
        match self.root().standing(reader, name.as_str())?.trouble() {
            None => {}
            Some(Trouble::Missing) if !must => return Ok(()),
            Some(trouble) => return self.note(name.as_str(), trouble),
        }
        let manifest = read_manifest(reader, self.root().folder(), name.as_str())?;
        if package_name(&manifest).is_some() {
            let folder = String::from_str(self.alloc(), folder)?;
            let edition = package_edition(&manifest, edition);
            packages.push(Package {
                folder,
                manifest,
                edition,
            })?;
        }
        Ok(())
    }
}
