//! The folders that fit a path of patterns.

use crate::globs::{fits, is_pattern};
use crate::package_error::PackageError;
use crate::packages::MANIFEST;
use crate::paths::within;
use crate::places::is_ours;
use crate::reading::{LIMIT, Reading};
use crate::reads::{Entry, Reads, Standing};
use std::collections::BTreeSet;

impl Reading<'_> {
    /// The folders that fit a path. In a part of it `*` stands for any text and `?` for one character; a part `**` stands for
    /// folders however deep, also for none. A link is no folder.
    pub(crate) fn folders_at<F: Reads>(
        &self,
        reader: &F,
        path: &str,
    ) -> Result<BTreeSet<String>, PackageError> {
        let mut folders = BTreeSet::new(self.alloc());
        folders.insert(String::new(self.alloc()))?;
        for part in path.split('/') {
            folders = self.folders_below(reader, folders, part)?;
        }
        Ok(folders)
    }

    /// The folders that fit a part of a path, in folders.
    fn folders_below<F: Reads>(
        &self,
        reader: &F,
        above: BTreeSet<String>,
        part: &str,
    ) -> Result<BTreeSet<String>, PackageError> {
        let mut folders = BTreeSet::new(self.alloc());
        for folder in above {
            if part == "**" {
                self.add_all_below(reader, &mut folders, folder)?;
            } else if is_pattern(part) {
                self.add_fitting(reader, &mut folders, folder.as_str(), part)?;
            } else {
                self.add_folder(reader, &mut folders, folder.as_str(), part)?;
            }
        }
        Ok(folders)
    }

    /// Adds the folder of a name in a folder, if it is there.
    fn add_folder<F: Reads>(
        &self,
        reader: &F,
        folders: &mut BTreeSet<String>,
        folder: &str,
        name: &str,
    ) -> Result<(), PackageError> {
        let path = within(self.alloc(), folder, name)?;
        if self.root().standing(reader, path.as_str())? == Standing::Folder {
            folders.insert(path)?;
        }
        Ok(())
    }

    /// Adds the folders in a folder whose names fit a pattern.
    fn add_fitting<F: Reads>(
        &self,
        reader: &F,
        folders: &mut BTreeSet<String>,
        folder: &str,
        pattern: &str,
    ) -> Result<(), PackageError> {
        for entry in &self.entries_in(reader, folder)? {
            if entry.is_folder && fits(self.alloc(), pattern, entry.name.as_str())? {
                folders.insert(within(self.alloc(), folder, entry.name.as_str())?)?;
            }
        }
        Ok(())
    }

    /// Adds a folder and those below it, but for hidden ones, and for those in `target` and `vendor`.
    fn add_all_below<F: Reads>(
        &self,
        reader: &F,
        folders: &mut BTreeSet<String>,
        folder: String,
    ) -> Result<(), PackageError> {
        let mut open = Vec::new(self.alloc());
        open.push(folder)?;
        for _ in 0..LIMIT {
            let Some(folder) = open.pop() else {
                return Ok(());
            };
            if !folders.contains(folder.as_str()) {
                self.open_folders(reader, &mut open, folder.as_str())?;
                folders.insert(folder)?;
            }
        }
        Err(PackageError::TooMany)
    }

    /// Adds the folders in a folder that are looked through to those that are open.
    fn open_folders<F: Reads>(
        &self,
        reader: &F,
        open: &mut Vec<String>,
        folder: &str,
    ) -> Result<(), PackageError> {
        for entry in &self.entries_in(reader, folder)? {
            let name = within(self.alloc(), folder, entry.name.as_str())?;
            let manifest = within(self.alloc(), name.as_str(), MANIFEST)?;
            let is_hidden = entry.name.as_str().starts_with('.');
            if entry.is_folder && !is_hidden && is_ours(manifest.as_str()) {
                open.push(name)?;
            }
        }
        Ok(())
    }

    /// What is in a folder; nothing, where that can't be read.
    fn entries_in<F: Reads>(&self, reader: &F, folder: &str) -> Result<Vec<Entry>, PackageError> {
        match self.root().entries(reader, folder)? {
            Ok(entries) => Ok(entries),
            Err(_) => Ok(Vec::new(self.alloc())),
        }
    }
}
