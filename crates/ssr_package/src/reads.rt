//! What files are read from. What it gave is known to proofs alone.
ghost use Rattle.std.specs.Prelude.{◌≡◌, ◌++◌, List};
ghost use Rattle.ssr_package.specs.Reads.{Gave, given};

use crate::notes::Trouble;
use std::alloc::{AllocError, Global};
use std::io::ErrorKind;

/// What stands at a path.
#[derive(Clone, Copy, PartialEq, Eq)]
pub enum Standing {
    File,
    Folder,
    /// The name, or a folder on the way to it, is a link.
    Link,
    /// Nothing.
    Missing,
    /// Something that is neither a file nor a folder.
    Other,
    Unreadable(ErrorKind),
}

impl Standing {
    /// Why no file is read there, where none is.
    pub(crate) fn trouble(self) -> Option<Trouble> {
        match self {
            Standing::File => None,
            Standing::Folder | Standing::Other => Some(Trouble::NotAFile),
            Standing::Link => Some(Trouble::Link),
            Standing::Missing => Some(Trouble::Missing),
            Standing::Unreadable(kind) => Some(Trouble::Unreadable(kind)),
        }
    }
}

/// A file or a folder in a folder.
#[derive(Drop)]
pub struct Entry {
    pub name: String,
    pub is_folder: bool,
}

/// A file system. Others may write to it at any time, so it tells what it gave, and not what it has.
pub trait Reads {
    // The texts so far, the latest last.
    ghost gave: { Self → List Gave };

    fn alloc(&self) -> Global;

    /// The text of the file at a path, or why it has none.
    fn text(&mut self, path: &str) -> Result<Result<String, Trouble>, AllocError>
        ensures { gave self.new ≡ gave self.old ++ given path.now result };

    /// What stands at a path. A link that stands there isn't followed.
    fn standing(&self, path: &str) -> Standing;

    /// The files and folders in a folder, in the order of their names. A link is no folder. Names that aren't UTF-8 are left out.
    fn entries(&self, path: &str) -> Result<Result<Vec<Entry>, Trouble>, AllocError>;

    /// Whether a file is at a path, maybe through links.
    fn is_file(&self, path: &str) -> bool;

    /// A folder's path from the file system's root, without links; the path itself, where none is known.
    fn absolute(&self, path: &str) -> Result<String, AllocError>;
}
