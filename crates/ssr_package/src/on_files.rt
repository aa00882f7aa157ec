//! A runtime's files as what is read from. That a file has the text that is read is believed of the system. What was read is known
//! to proofs alone: notes have no bytes at run time.
ghost use Rattle.std.specs.Prelude.{◌≡◌, [], map, string_bytes};
ghost use Rattle.ssr_package.specs.Private.Texts.{bytes_of};

use crate::notes::Trouble;
use crate::reads::{Entry, Reads, Standing};
use http_server::Log;
use std::alloc::{AllocError, Global};
use std::collections::BTreeMap;
use std::io::ErrorKind;
use std::rt::Files;
use std::{fs, io};

/// The files of a runtime.
#[derive(Drop)]
pub struct OnFiles<'r, R> {
    rt: &'r R,
    notes: Log<Log<u8, ()>, String>,
}

impl<'r, R: Files + AllocGlobal> OnFiles<'r, R> {
    /// Files of which none was read yet.
    pub fn new(rt: &'r R) -> OnFiles<'r, R>
        ensures { ⟦<OnFiles<'r, R> as Reads>⟧.gave result ≡ [] }
    {
        OnFiles {
            rt,
            notes: Log::new(),
        }
    }
}

impl<R: Files + AllocGlobal> Reads for OnFiles<'_, R> {
    ghost gave = { λ files. map (λ note. (bytes_of note.0.items, string_bytes note.1)) files.notes.items };

    fn alloc(&self) -> Global {
        self.rt.alloc()
    }

    fn text(&mut self, path: &str) -> Result<Result<String, Trouble>, AllocError> {
        match fs::read_to_string(self.rt, path) {
            Ok(text) => {
                self.notes = self.notes.and(&bytes(path), &text);
                Ok(Ok(text))
            }
            Err(error) => Ok(Err(trouble(&error)?)),
        }
    }

    fn standing(&self, path: &str) -> Standing {
        match self.rt.symlink_metadata(path) {
            Ok(found) if found.is_symlink() => Standing::Link,
            Ok(found) if found.is_dir() => Standing::Folder,
            Ok(found) if found.is_file() => Standing::File,
            Ok(_) => Standing::Other,
            Err(error) => match error.kind() {
                ErrorKind::NotFound | ErrorKind::NotADirectory => Standing::Missing,
                kind => Standing::Unreadable(kind),
            },
        }
    }

    fn entries(&self, path: &str) -> Result<Result<Vec<Entry>, Trouble>, AllocError> {
        let listing = match fs::read_dir(&self.rt, path) {
            Ok(listing) => listing,
            Err(error) => return Ok(Err(trouble(&error)?)),
        };
        let mut found = BTreeMap::new(self.alloc());
        for entry in listing {
            let Ok(entry) = entry else { continue };
            let Ok(metadata) = entry.metadata() else {
                continue
            };
            if metadata.is_dir() || metadata.is_file() || metadata.is_symlink() {
                let name = String::from_str(self.alloc(), entry.file_name())?;
                found.insert(name, metadata.is_dir())?;
            }
        }
        Ok(Ok(in_order(self.alloc(), found)?))
    }

    fn is_file(&self, path: &str) -> bool {
        match fs::metadata(self.rt, path) {
            Ok(found) => found.is_file(),
            Err(_) => false,
        }
    }

    fn absolute(&self, path: &str) -> Result<String, AllocError> {
        match self.rt.canonicalize(self.alloc(), path) {
            Ok(found) => Ok(found.into_string()),
            Err(_) => String::from_str(self.alloc(), path),
        }
    }
}

/// The bytes of a path, as notes keep them.
fn bytes(path: &str) -> Log<u8, ()>
    ensures { bytes_of result.items ≡ path.now }
{
    let given = path.as_bytes();
    let mut all = Log::new();
    for byte in given {
        all = all.and(byte, &());
    }
    all
}

/// The entries of a folder, given by their names and whether each is a folder.
fn in_order(alloc: Global, found: BTreeMap<String, bool>) -> Result<Vec<Entry>, AllocError> {
    let mut entries = Vec::new(alloc);
    for (name, is_folder) in found {
        entries.push(Entry { name, is_folder })?;
    }
    Ok(entries)
}

/// Why nothing was read, where memory has not run out.
fn trouble(error: &io::Error) -> Result<Trouble, AllocError> {
    match error.kind() {
        ErrorKind::OutOfMemory => Err(AllocError),
        ErrorKind::InvalidData => Ok(Trouble::NotText),
        ErrorKind::NotFound => Ok(Trouble::Missing),
        kind => Ok(Trouble::Unreadable(kind)),
    }
}
