//! The files of given paths, with those of the package around them.
ghost use Rattle.std.specs.Prelude.{IfOk, string_bytes};
ghost use Rattle.ssr_package.specs.Private.Texts.{AreKept};
ghost use Rattle.ssr_package.specs.Reads.{AreInOrder, AreRead};

use crate::finding::{absolute, manifest_above};
use crate::package_error::PackageError;
use crate::packages::{MANIFEST, read_manifest};
use crate::paths::{is_absolute, path_in, within};
use crate::reading::{PackageFiles, Reading};
use crate::reads::Reads;
use crate::root::Root;
use crate::texts::Texts;
use std::collections::BTreeSet;
use std::mem;

/// The files of a package, or of a workspace, and of paths.
#[derive(Debug, Drop)]
pub struct FilesAround {
    pub all: PackageFiles,
    /// The names of those at the paths. What was passed over at one of them is among these.
    pub given: BTreeSet<String>,
}

/// The files of given paths, from a folder on, and those of the package or the workspace whose manifest is in that folder or the
/// nearest above. All are named from the manifest's folder, and what was passed over of the package isn't noted. Where there is no
/// manifest, there are those of the paths alone.
pub fn files_around<F: Reads>(
    reader: &mut F,
    here: &str,
    paths: &[&str],
) -> Result<FilesAround, PackageError>
    ensures read { IfOk result (λ found. AreRead (F.gave reader.new) (string_bytes found.all.folder) found.all.files.items) }
    ensures order { IfOk result (λ found. AreInOrder found.all.files.items) }
{
    let start = absolute(reader, here)?;
    match manifest_above(reader, start.as_str())? {
        Some(folder) => {
            let below = start.as_str().strip_prefix(folder).unwrap_or("");
            let below = below.strip_prefix('/').unwrap_or(below);
            with_package(reader, folder, below, paths)
        }
        None => paths_alone(reader, here, paths),
    }
}

/// The files of paths alone, which count from a folder.
fn paths_alone<F: Reads>(
    reader: &mut F,
    here: &str,
    paths: &[&str],
) -> Result<FilesAround, PackageError>
    ensures read { IfOk result (λ found. AreRead (F.gave reader.new) (string_bytes found.all.folder) found.all.files.items) }
    ensures order { IfOk result (λ found. AreInOrder found.all.files.items) }
{
    let mut reading = Reading::new(reader.alloc(), Root::new(here));
    let mut texts = Texts::new(reader, here)?;
    reading.give_all(reader, &mut texts, "", paths)?;
    reading.finish_given(reader, texts)
}

/// The files of the package of a folder, and those of paths, which count from a folder below it.
fn with_package<F: Reads>(
    reader: &mut F,
    folder: &str,
    below: &str,
    paths: &[&str],
) -> Result<FilesAround, PackageError>
    ensures read { IfOk result (λ found. AreRead (F.gave reader.new) (string_bytes found.all.folder) found.all.files.items) }
    ensures order { IfOk result (λ found. AreInOrder found.all.files.items) }
{
    let alloc = reader.alloc();
    let table = read_manifest(reader, folder, MANIFEST)?;
    let mut reading = Reading::new(alloc, Root::new(folder));
    let manifest = path_in(alloc, folder, MANIFEST)?;
    let packages = reading.own_packages(reader, table, manifest.as_str())?;
    let mut texts = Texts::new(reader, folder)?;
    reading.read_files(reader, &mut texts, &packages)?;
    reading.notes.clear();
    reading.give_all(reader, &mut texts, below, paths)?;
    reading.finish_given(reader, texts)
}

impl Reading<'_> {
    /// Reads the files of given paths, which count from a folder below that of the run.
    fn give_all<F: Reads>(
        &mut self,
        reader: &mut F,
        texts: &mut Texts,
        folder: &str,
        paths: &[&str],
    ) -> Result<(), PackageError>
        requires { AreKept (F.gave reader.old) texts.old }
        ensures { AreKept (F.gave reader.new) texts.new }
    {
        for path in paths {
            self.give_from(reader, texts, folder, path)?;
        }
        Ok(())
    }

    /// Reads the files of a given path, which counts from a folder below that of the run.
    fn give_from<F: Reads>(
        &mut self,
        reader: &mut F,
        texts: &mut Texts,
        folder: &str,
        path: &str,
    ) -> Result<(), PackageError>
        requires { AreKept (F.gave reader.old) texts.old }
        ensures { AreKept (F.gave reader.new) texts.new }
    {
        if is_absolute(path) {
            return self.give(reader, texts, path);
        }
        let name = within(self.alloc(), folder, path)?;
        self.give(reader, texts, name.as_str())
    }

    /// What was read, and which of it at given paths.
    fn finish_given<F: Reads>(
        mut self,
        reader: &F,
        texts: Texts,
    ) -> Result<FilesAround, PackageError>
        requires { AreKept (F.gave reader.now) texts }
        ensures read { IfOk result (λ found. AreRead (F.gave reader.now) (string_bytes found.all.folder) found.all.files.items) }
        ensures order { IfOk result (λ found. AreInOrder found.all.files.items) }
    {
        let alloc = self.alloc();
        let given = mem::replace(&mut self.given, BTreeSet::new(alloc));
        Ok(FilesAround {
            all: self.finish(reader, texts)?,
            given,
        })
    }
}
