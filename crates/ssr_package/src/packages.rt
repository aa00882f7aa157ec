//! The files of a package, or of all packages of a workspace.
ghost use Rattle.std.specs.Prelude.{IfOk, string_bytes};
ghost use Rattle.ssr_package.specs.Private.Texts.{AreKept};
ghost use Rattle.ssr_package.specs.Reads.{AreInOrder, AreRead};

use crate::crates::{package_edition, workspace_edition};
use crate::finding::{absolute, manifest_above};
use crate::manifest::{package_name, table_at};
use crate::package_error::PackageError;
use crate::paths::path_in;
use crate::places::{file_folder, last_part, parent};
use crate::reading::{PackageFiles, Reading};
use crate::reads::Reads;
use crate::root::{Root, text_in};
use crate::targets::Package;
use crate::texts::Texts;
use std::slice;
use toml::Table;

/// The name of a manifest in its folder.
pub(crate) const MANIFEST: &str = "Cargo.toml";

/// The files of the package of a manifest, or of all members of a workspace that is no package itself: those that its targets
/// begin with, and those that their `mod` items reach. With a name, the files of the package of that name: the manifest's
/// own, or a member of the workspace of the manifest or of the nearest workspace above. A manifest is given by its path.
///
/// `#[cfg]` is not looked at. No file outside of the folder is read, none through a link, and none below `target` or `vendor`.
pub fn package_files<F: Reads>(
    reader: &mut F,
    manifest: &str,
    package: Option<&str>,
) -> Result<PackageFiles, PackageError>
    ensures read { IfOk result (λ found. AreRead (F.gave reader.new) (string_bytes found.folder) found.files.items) }
    ensures order { IfOk result (λ found. AreInOrder found.files.items) }
{
    let folder = file_folder(manifest);
    let table = read_manifest(reader, folder, last_part(manifest))?;
    match package {
        Some(name) if package_name(&table) != Some(name) => {
            named_files(reader, folder, table, name)
        }
        _ => own_files(reader, folder, table, manifest),
    }
}

/// The files of a manifest's own package, or of all members where it has none.
fn own_files<F: Reads>(
    reader: &mut F,
    folder: &str,
    table: Table,
    manifest: &str,
) -> Result<PackageFiles, PackageError>
    ensures read { IfOk result (λ found. AreRead (F.gave reader.new) (string_bytes found.folder) found.files.items) }
    ensures order { IfOk result (λ found. AreInOrder found.files.items) }
{
    let mut reading = Reading::new(reader.alloc(), Root::new(folder));
    let packages = reading.own_packages(reader, table, manifest)?;
    let mut texts = Texts::new(reader, folder)?;
    reading.read_packages(reader, &mut texts, &packages)?;
    reading.finish(reader, texts)
}

impl Reading<'_> {
    /// A manifest's own package, or all members where it has none.
    pub(crate) fn own_packages<F: Reads>(
        &mut self,
        reader: &mut F,
        table: Table,
        manifest: &str,
    ) -> Result<Vec<Package>, PackageError> {
        let alloc = self.alloc();
        if package_name(&table).is_none() {
            if table_at(&table, "workspace").is_some() {
                return self.members(reader, &table);
            }
            return Err(PackageError::NoPackage(String::from_str(alloc, manifest)?));
        }
        let edition = package_edition(&table, workspace_edition(&table));
        let mut packages = Vec::new(alloc);
        packages.push(Package {
            folder: String::new(alloc),
            manifest: table,
            edition,
        })?;
        Ok(packages)
    }

    /// Reads the files of packages.
    pub(crate) fn read_files<F: Reads>(
        &mut self,
        reader: &mut F,
        texts: &mut Texts,
        packages: &[Package],
    ) -> Result<(), PackageError>
        requires { AreKept (F.gave reader.old) texts.old }
        ensures { AreKept (F.gave reader.new) texts.new }
    {
        for package in packages {
            self.reach_targets(reader, package)?;
        }
        self.read_reached(reader, texts)
    }

    /// Reads the files of packages, and notes those that nothing reaches.
    fn read_packages<F: Reads>(
        &mut self,
        reader: &mut F,
        texts: &mut Texts,
        packages: &[Package],
    ) -> Result<(), PackageError>
        requires { AreKept (F.gave reader.old) texts.old }
        ensures { AreKept (F.gave reader.new) texts.new }
    {
        self.read_files(reader, texts, packages)?;
        for package in packages {
            self.note_unreached(reader, package)?;
        }
        Ok(())
    }
}

/// The files of the member of a name, of the workspace of a manifest or else of the nearest one above.
fn named_files<F: Reads>(
    reader: &mut F,
    folder: &str,
    table: Table,
    name: &str,
) -> Result<PackageFiles, PackageError>
    ensures read { IfOk result (λ found. AreRead (F.gave reader.new) (string_bytes found.folder) found.files.items) }
    ensures order { IfOk result (λ found. AreInOrder found.files.items) }
{
    if table_at(&table, "workspace").is_some() {
        return member_files(reader, folder, &table, name);
    }
    let start = absolute(reader, folder)?;
    let mut here = parent(start.as_str());
    for _ in 0..start.len() {
        let Some(folder) = here else { break };
        let Some(folder) = manifest_above(reader, folder)? else {
            break
        };
        let table = read_manifest(reader, folder, MANIFEST)?;
        if table_at(&table, "workspace").is_some() {
            if package_name(&table) == Some(name) {
                return own_files(reader, folder, table, folder);
            }
            return member_files(reader, folder, &table, name);
        }
        here = parent(folder);
    }
    Err(PackageError::NoSuchPackage(String::from_str(reader.alloc(), name)?))
}

/// The files of the member of a name.
fn member_files<F: Reads>(
    reader: &mut F,
    folder: &str,
    table: &Table,
    name: &str,
) -> Result<PackageFiles, PackageError>
    ensures read { IfOk result (λ found. AreRead (F.gave reader.new) (string_bytes found.folder) found.files.items) }
    ensures order { IfOk result (λ found. AreInOrder found.files.items) }
{
    let alloc = reader.alloc();
    let mut reading = Reading::new(alloc, Root::new(folder));
    for package in &reading.members(reader, table)? {
        if package_name(&package.manifest) == Some(name) {
            let mut texts = Texts::new(reader, folder)?;
            reading.read_packages(reader, &mut texts, slice::from_ref(package))?;
            return reading.finish(reader, texts);
        }
    }
    Err(PackageError::NoSuchPackage(String::from_str(alloc, name)?))
}

/// Reads a manifest of a folder.
pub(crate) fn read_manifest<F: Reads>(
    reader: &mut F,
    folder: &str,
    name: &str,
) -> Result<Table, PackageError> {
    let alloc = reader.alloc();
    let path = path_in(alloc, folder, name)?;
    let text = match text_in(reader, folder, name)? {
        Ok(text) => text,
        Err(trouble) => return Err(PackageError::Unreadable(path, trouble)),
    };
    match toml::table_from_str(alloc, text.as_str()) {
        Ok(table) => Ok(table),
        Err(error) => match error.span() {
            Some(_) => Err(PackageError::NotToml(path, error.to_string(alloc)?)),
            None => Err(PackageError::Memory),
        },
    }
}
