//! A folder of a file system, in which names are looked up.
ghost use Rattle.std.specs.Prelude.{◌≡◌, ◌++◌};
ghost use Rattle.ssr_package.specs.Reads.{given, place};

use crate::notes::Trouble;
use crate::paths::place;
use crate::reads::{Entry, Reads, Standing};
use std::alloc::AllocError;

/// A folder of a file system. Names are paths from it, without empty parts, `.` and `..`.
#[derive(Clone, Copy)]
pub(crate) struct Root<'r> {
    folder: &'r str,
}

impl<'r> Root<'r> {
    /// The folder at a path of the file system.
    pub(crate) fn new(folder: &'r str) -> Self {
        Root { folder }
    }

    /// The folder's path.
    pub(crate) fn folder(&self) -> &'r str {
        self.folder
    }

    /// What stands at a name. No link is followed on the way.
    pub(crate) fn standing<F: Reads>(
        &self,
        reader: &F,
        name: &str,
    ) -> Result<Standing, AllocError> {
        for end in 1..name.len() {
            match self.folder_before(reader, name, end)? {
                Standing::Folder => {}
                Standing::File | Standing::Other => return Ok(Standing::Missing),
                other => return Ok(other),
            }
        }
        self.last_standing(reader, name)
    }

    /// What stands at the folder that ends at a byte of a name, or a folder where none ends there.
    fn folder_before<F: Reads>(
        &self,
        reader: &F,
        name: &str,
        end: usize,
    ) -> Result<Standing, AllocError> {
        match name.split_at_checked(end) {
            Some((folder, rest)) if rest.starts_with('/') => self.last_standing(reader, folder),
            _ => Ok(Standing::Folder),
        }
    }

    /// What stands at a name, where no folder on the way is a link.
    fn last_standing<F: Reads>(&self, reader: &F, name: &str) -> Result<Standing, AllocError> {
        let path = place(reader.alloc(), self.folder, name)?;
        Ok(reader.standing(path.as_str()))
    }

    /// The files and folders in a folder, in the order of their names. A link is no folder. Names that aren't UTF-8 are left out.
    pub(crate) fn entries<F: Reads>(
        &self,
        reader: &F,
        folder: &str,
    ) -> Result<Result<Vec<Entry>, Trouble>, AllocError> {
        let path = place(reader.alloc(), self.folder, folder)?;
        reader.entries(path.as_str())
    }
}

/// The text at a name in a folder of the file system, or why there is none.
pub(crate) fn text_in<F: Reads>(
    reader: &mut F,
    folder: &str,
    name: &str,
) -> Result<Result<String, Trouble>, AllocError>
    ensures { F.gave reader.new ≡ F.gave reader.old ++ given (place folder.now name.now) result }
{
    let path = place(reader.alloc(), folder, name)?;
    reader.text(path.as_str())
}
