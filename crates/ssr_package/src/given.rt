//! The files of given paths.
ghost use Rattle.std.specs.Prelude.{IfOk, string_bytes};
ghost use Rattle.ssr_package.specs.Private.Texts.{AreKept};
ghost use Rattle.ssr_package.specs.Reads.{AreInOrder, AreRead};

use crate::notes::Trouble;
use crate::package_error::PackageError;
use crate::paths::{is_absolute, normal_path, within};
use crate::reading::{LIMIT, PackageFiles, Reading};
use crate::reads::{Entry, Reads, Standing};
use crate::root::Root;
use crate::texts::Texts;

/// The files of given paths, from a folder on: a path of a file stands for the file, a path of a folder for all `.rs` files
/// below it, without links, hidden folders and `target`. What their `mod` items name is not looked for.
///
/// A path that leads out of the folder, or to nothing, is an error.
pub fn given_files<F: Reads>(
    reader: &mut F,
    folder: &str,
    paths: &[&str],
) -> Result<PackageFiles, PackageError>
    ensures read { IfOk result (λ found. AreRead (F.gave reader.new) (string_bytes found.folder) found.files.items) }
    ensures order { IfOk result (λ found. AreInOrder found.files.items) }
{
    let alloc = reader.alloc();
    let mut reading = Reading::new(alloc, Root::new(folder));
    let mut texts = Texts::new(reader, folder)?;
    for path in paths {
        reading.give(reader, &mut texts, path)?;
    }
    reading.finish(reader, texts)
}

impl Reading<'_> {
    /// Reads the files of a given path.
    pub(crate) fn give<F: Reads>(
        &mut self,
        reader: &mut F,
        texts: &mut Texts,
        path: &str,
    ) -> Result<(), PackageError>
        requires { AreKept (F.gave reader.old) texts.old }
        ensures { AreKept (F.gave reader.new) texts.new }
    {
        let Some(name) = self.given_name(path)? else {
            return Err(PackageError::Outside(String::from_str(self.alloc(), path)?));
        };
        if is_target(name.as_str()) {
            return self.note(name.as_str(), Trouble::NotOurs);
        }
        match self.root().standing(reader, name.as_str())? {
            Standing::File => self.read_alone(reader, texts, name),
            Standing::Folder => self.read_folder(reader, texts, name),
            Standing::Missing => Err(PackageError::Missing(String::from_str(self.alloc(), path)?)),
            Standing::Link => self.note(name.as_str(), Trouble::Link),
            Standing::Other => self.note(name.as_str(), Trouble::NotAFile),
            Standing::Unreadable(kind) => self.note(name.as_str(), Trouble::Unreadable(kind)),
        }
    }

    /// The name of a given path; `None` where it lies outside.
    fn given_name(&self, path: &str) -> Result<Option<String>, PackageError> {
        let folder = self.root().folder();
        let inside = if is_absolute(path) {
            path.strip_prefix(folder)
        } else {
            Some(path)
        };
        match inside {
            Some(rest) if is_absolute(path) && !rest.is_empty() => match rest.strip_prefix('/') {
                Some(rest) => Ok(normal_path(self.alloc(), "", rest)?),
                None => Ok(None),
            },
            Some(rest) => Ok(normal_path(self.alloc(), "", rest)?),
            None => Ok(None),
        }
    }

    /// Reads the `.rs` files below a folder.
    fn read_folder<F: Reads>(
        &mut self,
        reader: &mut F,
        texts: &mut Texts,
        folder: String,
    ) -> Result<(), PackageError>
        requires { AreKept (F.gave reader.old) texts.old }
        ensures { AreKept (F.gave reader.new) texts.new }
    {
        for name in self.files_below(reader, folder)? {
            self.read_alone(reader, texts, name)?;
        }
        Ok(())
    }

    /// The `.rs` files below a folder, without those in links, hidden folders and `target`. A folder that can't be read is noted.
    pub(crate) fn files_below<F: Reads>(
        &mut self,
        reader: &F,
        folder: String,
    ) -> Result<Vec<String>, PackageError> {
        let mut files = Vec::new(self.alloc());
        let mut open = Vec::new(self.alloc());
        open.push(folder)?;
        for _ in 0..LIMIT {
            let Some(folder) = open.pop() else {
                return Ok(files);
            };
            self.add_entries(reader, folder.as_str(), &mut open, &mut files)?;
        }
        Err(PackageError::TooMany)
    }

    /// Adds the folders in a folder to those that are open, and its `.rs` files to the files.
    fn add_entries<F: Reads>(
        &mut self,
        reader: &F,
        folder: &str,
        open: &mut Vec<String>,
        files: &mut Vec<String>,
    ) -> Result<(), PackageError> {
        let entries = match self.root().entries(reader, folder)? {
            Ok(entries) => entries,
            Err(trouble) => return self.note(folder, trouble),
        };
        for entry in &entries {
            let name = within(self.alloc(), folder, entry.name.as_str())?;
            if entry.is_folder && self.is_searched(reader, name.as_str(), entry)? {
                open.push(name)?;
            } else if !entry.is_folder && entry.name.as_str().ends_with(".rs") {
                files.push(name)?;
            }
        }
        Ok(())
    }

    /// Whether a folder below a given one is looked through: it is not hidden, and not a `target` of cargo's.
    fn is_searched<F: Reads>(
        &self,
        reader: &F,
        name: &str,
        entry: &Entry,
    ) -> Result<bool, PackageError> {
        if entry.name.as_str().starts_with('.') {
            return Ok(false);
        }
        if entry.name.as_str() != "target" {
            return Ok(true);
        }
        let tag = within(self.alloc(), name, "CACHEDIR.TAG")?;
        Ok(!is_target(name) && self.root().standing(reader, tag.as_str())? == Standing::Missing)
    }
}

/// Whether a name is `target`, or lies below it.
fn is_target(name: &str) -> bool {
    name == "target" || name.starts_with("target/")
}
