//! New texts are written to a disk of whose calls one fails, or where another program saves a file.

use crate::disk::{Disk, Kind, OfDisk};
use ssr_writing::{NewText, OnDisk, WriteError, WriteFault, write_all};
use std::io;
use std::test::Fail;

const FILES: [NewText; 2] = [
    NewText {
        path: "src/a.rs",
        old: "one",
        new: "1",
    },
    NewText {
        path: "b.rs",
        old: "two",
        new: "2!",
    },
];

/// How many of the files in order have their new texts, if all others have their old ones and no other file is there.
fn count_new(disk: &Disk) -> io::Result<Option<usize>> {
    let mut count = 0usize;
    for (index, file) in FILES.iter().enumerate() {
        if disk.has(file.path, file.new)? {
            if count != index {
                return Ok(None);
            }
            count = index + 1;
        } else if !disk.has(file.path, file.old)? {
            return Ok(None);
        }
    }
    if disk.count()? != FILES.len() {
        return Ok(None);
    }
    Ok(Some(count))
}

fn write(rt: HostRuntime, disk: &Disk, files: &[NewText<'_>]) -> Result<(), WriteError> {
    let files_of_disk = OfDisk(disk);
    write_all(rt.alloc(), &mut OnDisk::new(&files_of_disk), files)
}

#[test]
fn each_call_fails_in_turn(rt: HostRuntime) -> Result<(), Fail> {
    let mut last = 0;
    for calls in 0..90 {
        let disk = Disk::new(rt.alloc(), calls);
        for file in &FILES {
            disk.add(file.path, Kind::File, file.old)?;
        }
        let written = match write(rt, &disk, &FILES) {
            Ok(()) => 2,
            Err(error) => {
                assert!(rt; matches!(error.why, WriteFault::Io(_)), "at {calls}");
                error.written
            }
        };
        assert_eq!(rt; count_new(&disk)?, Some(written), "at {calls}");
        last = written;
    }
    assert_eq!(rt; last, 2);
    Ok(())
}

#[test]
fn refused_files_stay(rt: HostRuntime) -> Result<(), Fail> {
    for case in 0..3 {
        let disk = Disk::new(rt.alloc(), usize::MAX);
        disk.add("src/a.rs", Kind::File, "one")?;
        let kind = if case == 1 { Kind::Link } else { Kind::File };
        disk.add("b.rs", kind, if case == 0 { "tw" } else { "two" })?;
        if case == 2 {
            disk.add(".b.rs.ssr-tmp", Kind::File, "")?;
        }
        match write(rt, &disk, &FILES) {
            Ok(()) => assert!(rt; false),
            Err(error) => {
                assert_eq!(rt; (error.written, error.failed), (0, 1));
                assert!(rt;
                    match (case, &error.why) {
                        (0, WriteFault::Changed) | (1, WriteFault::NoRegularFile) => true,
                        (2, WriteFault::LeftOver(path)) => path.as_str() == ".b.rs.ssr-tmp",
                        _ => false,
                    }
                );
            }
        }
        assert!(rt; disk.has("src/a.rs", "one")?);
        assert_eq!(rt; disk.count()?, if case == 2 { 3 } else { 2 });
    }
    Ok(())
}

#[test]
fn saved_between_the_renames(rt: HostRuntime) -> Result<(), Fail> {
    let disk = Disk::new(rt.alloc(), usize::MAX);
    disk.add("src/a.rs", Kind::File, "one")?;
    let second = disk.add("b.rs", Kind::File, "two")?;
    disk.save_at_rename(second, b'!');
    match write(rt, &disk, &FILES) {
        Ok(()) => assert!(rt; false),
        Err(error) => {
            assert_eq!(rt; (error.written, error.failed), (1, 1));
            assert!(rt; matches!(error.why, WriteFault::Changed));
        }
    }
    assert!(rt; disk.has("src/a.rs", "1")?);
    assert!(rt; disk.has("b.rs", "two!")?);
    assert_eq!(rt; disk.count()?, 2);
    Ok(())
}
