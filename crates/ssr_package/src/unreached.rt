//! The files of packages that nothing reaches.

use crate::notes::Trouble;
use crate::package_error::PackageError;
use crate::paths::within;
use crate::places::{is_ours, last_part};
use crate::reading::Reading;
use crate::reads::{Reads, Standing};
use crate::targets::Package;
use std::alloc::{AllocError, Global};
use std::collections::BTreeSet;

/// How many files are named.
const NAMED: usize = 3;

impl Reading<'_> {
    /// Notes the files below `src` of a package that were not reached, if there are some.
    pub(crate) fn note_unreached<F: Reads>(
        &mut self,
        reader: &F,
        package: &Package,
    ) -> Result<(), PackageError> {
        let alloc = self.alloc();
        let folder = within(alloc, package.folder.as_str(), "src")?;
        if self.root().standing(reader, folder.as_str())? != Standing::Folder
            || !is_ours(folder.as_str())
        {
            return Ok(());
        }
        let unreached = self.unreached_below(reader, folder.as_str())?;
        let name = match unreached.len() {
            0 => return Ok(()),
            1 => format!(in alloc; "1 file below {folder} is reached by no mod item")?,
            count => format!(in alloc; "{count} files below {folder} are reached by no mod item")?,
        };
        let files = first_names(alloc, &unreached)?;
        let trouble = if unreached.len() == 1 {
            Trouble::OneUnreached(files)
        } else {
            Trouble::Unreached(files)
        };
        self.note(name.as_str(), trouble)
    }

    /// The `.rs` files below a folder that were not reached, but for hidden ones and links.
    fn unreached_below<F: Reads>(
        &mut self,
        reader: &F,
        folder: &str,
    ) -> Result<BTreeSet<String>, PackageError> {
        let mut unreached = BTreeSet::new(self.alloc());
        let folder = String::from_str(self.alloc(), folder)?;
        for name in self.files_below(reader, folder)? {
            let is_hidden = last_part(name.as_str()).starts_with('.');
            if !is_hidden
                && !self.is_reached(name.as_str())
                && self.root().standing(reader, name.as_str())? == Standing::File
            {
                unreached.insert(name)?;
            }
        }
        Ok(unreached)
    }
}

/// The first of these names, with commas between them, and `..` if there are more.
fn first_names(alloc: Global, names: &BTreeSet<String>) -> Result<String, AllocError> {
    let mut first = String::new(alloc);
    for (number, name) in names.iter().enumerate() {
        if number > 0 {
            first.push_str(", ")?;
        }
        if number >= NAMED {
            first.push_str("..")?;
            break;
        }
        first.push_str(name.as_str())?;
    }
    Ok(first)
}
