//! A file system in memory. One of its calls may fail, and another program may save a file.

use std::alloc::{Allocator, Global};
use std::cell::{Cell, RefCell};
use std::collections::VecDeque;
use std::fs::{Metadata, OpenFile, OpenOptions, Permissions};
use std::io;
use std::io::{ErrorKind, Read, Seek, SeekFrom, Write};
use std::rt::Files;

/// What stands at a path.
#[derive(Clone, Copy, Debug, PartialEq, Eq)]
pub(crate) enum Kind {
    File,
    Folder,
    Link,
}

/// A file, a folder or a link. One that was removed has no path.
#[derive(Drop)]
struct Node {
    path: Option<String>,
    kind: Kind,
    bytes: Vec<u8>,
}

/// Files in memory. As many calls as `left` succeed, then one fails, and all later ones succeed.
#[derive(Drop)]
pub(crate) struct Disk {
    alloc: Global,
    nodes: RefCell<Vec<Node>>,
    left: Cell<usize>,
    saved: Cell<Option<(usize, u8)>>,
}

impl Disk {
    pub(crate) fn new(alloc: Global, left: usize) -> Disk {
        Disk {
            alloc,
            nodes: RefCell::new(Vec::new(alloc)),
            left: Cell::new(left),
            saved: Cell::new(None),
        }
    }

    /// Directly after the next rename another program saves the file of this number, with one more byte.
    pub(crate) fn save_at_rename(&self, number: usize, byte: u8) {
        self.saved.set(Some((number, byte)));
    }

    fn save(&self) -> io::Result<()> {
        let Some((number, byte)) = self.saved.replace(None) else {
            return Ok(());
        };
        let mut nodes = self.nodes.try_borrow_mut()?;
        if let Some(node) = nodes.get_mut(number) {
            node.bytes.push(byte)?;
        }
        Ok(())
    }

    /// Puts something there, a file with this text, and tells its number.
    pub(crate) fn add(&self, path: &str, kind: Kind, text: &str) -> io::Result<usize> {
        let path = Some(String::from_str(self.alloc, path)?);
        let bytes = text.as_bytes().to_vec(self.alloc)?;
        let mut nodes = self.nodes.try_borrow_mut()?;
        let number = nodes.len();
        nodes.push(Node { path, kind, bytes })?;
        Ok(number)
    }

    /// How many files, folders and links there are.
    pub(crate) fn count(&self) -> io::Result<usize> {
        let nodes = self.nodes.try_borrow()?;
        Ok(nodes.iter().filter(|node| node.path.is_some()).count())
    }

    /// Whether a file has this text.
    pub(crate) fn has(&self, path: &str, text: &str) -> io::Result<bool> {
        let number = self.find(path)?;
        let nodes = self.nodes.try_borrow()?;
        match nodes.get(number) {
            Some(node) => Ok(node.bytes.as_slice() == text.as_bytes()),
            None => Ok(false),
        }
    }

    /// Counts a call, which may be the one that fails.
    fn call(&self) -> io::Result<()> {
        let left = self.left.get();
        if left == 0 {
            self.left.set(usize::MAX);
            return Err(io::Error::other("it fails"));
        }
        self.left.set(left - 1);
        Ok(())
    }

    fn find(&self, path: &str) -> io::Result<usize> {
        let nodes = self.nodes.try_borrow()?;
        for (number, node) in nodes.iter().enumerate() {
            if let Some(own) = &node.path {
                if own.as_str() == path {
                    return Ok(number);
                }
            }
        }
        Err(io::Error::from(ErrorKind::NotFound))
    }

    /// The names in a folder, whose path has a slash behind it, each ended by a NUL.
    fn names(&self, folder: &str) -> io::Result<VecDeque<u8>> {
        let mut names = VecDeque::new(self.alloc);
        let nodes = self.nodes.try_borrow()?;
        for node in nodes.iter() {
            let path = node.path.as_ref().map_or("", |path| path.as_str());
            match path.strip_prefix(folder) {
                Some(name) if !name.contains('/') => {
                    names.write_all(name.as_bytes())?;
                    names.push_back(0)?;
                }
                _ => {}
            }
        }
        Ok(names)
    }

    /// Gives a node another path, or none.
    fn name(&self, number: usize, path: Option<String>) -> io::Result<()> {
        let mut nodes = self.nodes.try_borrow_mut()?;
        if let Some(node) = nodes.get_mut(number) {
            node.path = path;
        }
        Ok(())
    }
}

/// The disk as a runtime.
#[derive(Clone, Copy)]
pub(crate) struct OfDisk<'a>(pub(crate) &'a Disk);

impl Alloc for OfDisk<'_> {
    type A = Global;

    fn alloc(&self) -> Global {
        self.0.alloc
    }
}

/// An open file. A call reads or writes one byte.
#[derive(Drop)]
pub(crate) struct Handle<'a> {
    disk: &'a Disk,
    number: usize,
    at: usize,
}

impl Read for Handle<'_> {
    fn read(&mut self, buf: &mut [u8]) -> io::Result<usize> {
        self.disk.call()?;
        let nodes = self.disk.nodes.try_borrow()?;
        let Some(node) = nodes.get(self.number) else {
            return Ok(0);
        };
        match (node.bytes.get(self.at), buf.first_mut()) {
            (Some(byte), Some(place)) => {
                *place = *byte;
                self.at = self.at.saturating_add(1);
                Ok(1)
            }
            _ => Ok(0),
        }
    }
}

impl Write for Handle<'_> {
    fn write(&mut self, buf: &[u8]) -> io::Result<usize> {
        self.disk.call()?;
        let mut nodes = self.disk.nodes.try_borrow_mut()?;
        match (nodes.get_mut(self.number), buf.first()) {
            (Some(node), Some(byte)) => {
                node.bytes.push(*byte)?;
                Ok(1)
            }
            _ => Ok(0),
        }
    }

    fn flush(&mut self) -> io::Result<()> {
        Ok(())
    }
}

fn unsupported() -> io::Error {
    io::Error::from(ErrorKind::Unsupported)
}

impl Seek for Handle<'_> {
    fn seek(&mut self, _to: SeekFrom) -> io::Result<u64> {
        Err(unsupported())
    }
}

impl OpenFile for Handle<'_> {
    fn metadata(&self) -> io::Result<Metadata> {
        Err(unsupported())
    }

    fn set_len(&self, _size: u64) -> io::Result<()> {
        Err(unsupported())
    }

    fn sync_all(&self) -> io::Result<()> {
        self.disk.call()
    }

    fn sync_data(&self) -> io::Result<()> {
        Err(unsupported())
    }

    fn set_permissions(&self, _perm: Permissions) -> io::Result<()> {
        self.disk.call()
    }
}

impl<'a> Files for OfDisk<'a> {
    type File = Handle<'a>;

    type Dir = VecDeque<u8>;

    fn open_file(&self, how: &OpenOptions, path: &str) -> io::Result<Handle<'a>> {
        let disk = self.0;
        how.check()?;
        disk.call()?;
        let number = match disk.find(path) {
            Ok(_) if how.asks_create_new() => return Err(io::Error::from(ErrorKind::AlreadyExists)),
            Ok(number) => number,
            Err(_) if how.asks_create_new() => disk.add(path, Kind::File, "")?,
            Err(error) => return Err(error),
        };
        Ok(Handle {
            disk,
            number,
            at: 0,
        })
    }

    fn open_dir(&self, path: &str) -> io::Result<VecDeque<u8>> {
        self.0.call()?;
        self.0.names(path)
    }

    fn metadata(&self, path: &str) -> io::Result<Metadata> {
        self.symlink_metadata(path)
    }

    fn symlink_metadata(&self, path: &str) -> io::Result<Metadata> {
        self.0.call()?;
        let number = self.0.find(path)?;
        let nodes = self.0.nodes.try_borrow()?;
        let Some(node) = nodes.get(number) else {
            return Err(io::Error::from(ErrorKind::NotFound));
        };
        Ok(match node.kind {
            Kind::File => Metadata::of_file(node.bytes.len() as u64),
            Kind::Folder => Metadata::of_dir(),
            Kind::Link => Metadata::of_symlink(0),
        })
    }

    fn copy(&self, _from: &str, _to: &str) -> io::Result<u64> {
        Err(unsupported())
    }

    fn rename(&self, from: &str, to: &str) -> io::Result<()> {
        self.0.call()?;
        let number = self.0.find(from)?;
        if let Ok(other) = self.0.find(to) {
            self.0.name(other, None)?;
        }
        self.0
            .name(number, Some(String::from_str(self.0.alloc, to)?))?;
        self.0.save()
    }

    fn remove_file(&self, path: &str) -> io::Result<()> {
        self.0.call()?;
        self.0.name(self.0.find(path)?, None)
    }

    fn create_dir(&self, _path: &str) -> io::Result<()> {
        Err(unsupported())
    }

    fn remove_dir(&self, _path: &str) -> io::Result<()> {
        Err(unsupported())
    }

    fn remove_dir_all<B: Allocator>(&self, _alloc: B, _path: &str) -> io::Result<()> {
        Err(unsupported())
    }
}
