//! Why new texts are not written.

use std::alloc::AllocError;
use std::io;
use thiserror::Error;

/// Why a file doesn't get its new text.
#[derive(Debug, Drop, Error)]
pub enum WriteFault {
    /// The path names a folder, a link or something else that is no regular file.
    #[error("is no regular file")]
    NoRegularFile,
    /// The file hasn't the old text, or not any more.
    #[error("was changed in the meantime")]
    Changed,
    /// The temporary file beside it, with this path, lies there already.
    #[error("needs the place of {0}, which lies there already")]
    LeftOver(String),
    /// The file is given twice, or is the temporary file of another one, or has one that is.
    #[error("takes the place of another file, or of a temporary one")]
    Clash,
    /// The file system refuses a step.
    #[error("{0}")]
    Io(io::Error),
    /// Memory ran out.
    #[error("out of memory")]
    Memory,
}

impl From<io::Error> for WriteFault {
    fn from(error: io::Error) -> WriteFault {
        WriteFault::Io(error)
    }
}

impl From<AllocError> for WriteFault {
    fn from(_: AllocError) -> WriteFault {
        WriteFault::Memory
    }
}

/// How many files of a run had been written before a failure, which file failed, and why. Files are counted from 0 in the
/// order in which they were given: the first `written` ones have their new texts, all others their old ones.
#[derive(Debug, Drop)]
pub struct WriteError {
    pub written: usize,
    pub failed: usize,
    pub why: WriteFault,
}
