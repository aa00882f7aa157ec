//! The system's files as a disk. That they do what they are asked is believed of the system. What was asked is known to proofs
//! alone: notes have no bytes at run time.
ghost use Rattle.std.specs.Prelude.{◌≡◌, [], ◌∷◌, ◌++◌};
ghost use Rattle.ssr_writing.specs.Private.Noted.{bytes_of, call_of, calls_of};

use crate::disk::Disk;
use crate::faults::WriteFault;
use crate::temporary::{create, fill, reads_as};
use http_server::Log;
use std::fs;
use std::fs::Permissions;
use std::rt::Files;

/// A call with its outcome. Paths and texts have no bytes at run time.
#[derive(Drop)]
enum Note {
    Saw(Log<u8, ()>, Log<u8, ()>),
    Missed(Log<u8, ()>),
    Made(Log<u8, ()>, Log<u8, ()>),
    NotMade(Log<u8, ()>),
    Renamed(Log<u8, ()>, Log<u8, ()>),
    NotRenamed(Log<u8, ()>, Log<u8, ()>),
    Removed(Log<u8, ()>),
}

/// The files of a runtime.
#[derive(Drop)]
pub struct OnDisk<'a, R> {
    rt: &'a R,
    notes: Log<Note, ()>,
}

impl<'a, R: Files + AllocGlobal> OnDisk<'a, R> {
    /// A disk that wasn't asked anything yet.
    pub fn new(rt: &'a R) -> OnDisk<'a, R>
        ensures { ⟦<OnDisk<'a, R> as Disk>⟧.calls result ≡ [] }
    {
        OnDisk {
            rt,
            notes: Log::new(),
        }
    }
}

impl<R: Files + AllocGlobal> Disk for OnDisk<'_, R> {
    ghost calls = { λ disk. calls_of disk.notes.items };

    fn see(&mut self, path: &str, text: &str) -> Result<Permissions, WriteFault> {
        match permissions_of(self.rt, path, text) {
            Ok(permissions) => {
                self.notes = noted(&self.notes, &Note::Saw(bytes(path), bytes(text)));
                Ok(permissions)
            }
            Err(why) => {
                self.notes = noted(&self.notes, &Note::Missed(bytes(path)));
                Err(why)
            }
        }
    }

    fn make(&mut self, path: &str, text: &str, permissions: Permissions) -> Result<(), WriteFault> {
        match make_file(self.rt, path, text, permissions) {
            Ok(()) => {
                self.notes = noted(&self.notes, &Note::Made(bytes(path), bytes(text)));
                Ok(())
            }
            Err(why) => {
                self.notes = noted(&self.notes, &Note::NotMade(bytes(path)));
                Err(why)
            }
        }
    }

    fn rename(&mut self, from: &str, to: &str) -> Result<(), WriteFault> {
        match fs::rename(self.rt, from, to) {
            Ok(()) => {
                self.notes = noted(&self.notes, &Note::Renamed(bytes(from), bytes(to)));
                Ok(())
            }
            Err(error) => {
                self.notes = noted(&self.notes, &Note::NotRenamed(bytes(from), bytes(to)));
                Err(WriteFault::Io(error))
            }
        }
    }

    fn remove(&mut self, path: &str) {
        let _ = fs::remove_file(self.rt, path);
        self.notes = noted(&self.notes, &Note::Removed(bytes(path)));
    }
}

/// The notes with one more behind them.
fn noted(notes: &Log<Note, ()>, last: &Note) -> Log<Note, ()>
    ensures { calls_of result.items ≡ calls_of notes.now.items ++ call_of last.now ∷ [] }
{
    notes.and(last, &())
}

/// The bytes of a path or a text, as notes keep them.
fn bytes(text: &str) -> Log<u8, ()>
    ensures { bytes_of result.items ≡ text.now }
{
    let given = text.as_bytes();
    let mut all = Log::new();
    for byte in given {
        all = all.and(byte, &());
    }
    all
}

/// The permissions of a file, if it is a regular one that has this text.
fn permissions_of<R: Files + AllocGlobal>(
    rt: &R,
    path: &str,
    text: &str,
) -> Result<Permissions, WriteFault> {
    let metadata = fs::symlink_metadata(rt, path)?;
    if !metadata.is_file() {
        return Err(WriteFault::NoRegularFile);
    }
    let mut reader = fs::open(rt, path)?;
    if !reads_as(rt.alloc(), &mut reader, text)? {
        return Err(WriteFault::Changed);
    }
    Ok(metadata.permissions())
}

/// Makes a new file, whole and on the disk. Where that fails it isn't there.
fn make_file<R: Files + AllocGlobal>(
    rt: &R,
    path: &str,
    text: &str,
    permissions: Permissions,
) -> Result<(), WriteFault> {
    let mut made = create(rt, path)?;
    match fill(&mut made, text, permissions) {
        Ok(()) => Ok(()),
        Err(error) => {
            let _ = fs::remove_file(rt, path);
            Err(WriteFault::Io(error))
        }
    }
}
