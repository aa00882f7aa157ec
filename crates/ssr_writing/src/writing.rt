//! New texts for the files of a run.
ghost use Rattle.std.specs.Prelude.{◌≡◌, ◌<◌, ◌++◌, IfOk, IfErr, OnErr, OnOk, flat_map, length, map, string_bytes};
ghost use Rattle.ssr_writing.specs.Disk.{AreApart, Asks, Failing, Removed, Stops, StopsMaking, StopsReplacing, fails_to_make, fails_to_replace, makes, replaces, temporary_of, writes};

use crate::apart::keep_apart;
use crate::disk::Disk;
use crate::faults::{WriteError, WriteFault};
use crate::temporary::temporary_path;
use std::alloc::{AllocError, Global};

/// A file that gets a new text, where it still has the old one.
#[derive(Clone, Copy, Debug)]
pub struct NewText<'a> {
    pub path: &'a str,
    pub old: &'a str,
    pub new: &'a str,
}

/// Makes a file's temporary file, where the file has its old text.
fn prepare<D: Disk>(disk: &mut D, file: &NewText<'_>, temporary: &str) -> Result<(), WriteFault>
    requires { temporary.now ≡ temporary_of file.now }
    ensures ok { OnOk result (D.calls disk.new ≡ D.calls disk.old ++ makes file.now) }
    ensures err { OnErr result ((how : Failing) × (D.calls disk.new ≡ D.calls disk.old ++ fails_to_make how file.now)) }
{
    let permissions = disk.see(file.path, file.old)?;
    disk.make(temporary, file.new, permissions)?;
    Ok(())
}

/// Puts a file's temporary file in its place, where the file still has its old text. Between the two calls another program may
/// save the file: no system offers both as one.
fn replace<D: Disk>(disk: &mut D, file: &NewText<'_>, temporary: &str) -> Result<(), WriteFault>
    requires { temporary.now ≡ temporary_of file.now }
    ensures ok { OnOk result (D.calls disk.new ≡ D.calls disk.old ++ replaces file.now) }
    ensures err { OnErr result ((how : Failing) × (D.calls disk.new ≡ D.calls disk.old ++ fails_to_replace how file.now)) }
{
    disk.see(file.path, file.old)?;
    disk.rename(temporary, file.path)?;
    Ok(())
}

/// Removes temporary files.
fn remove_all<D: Disk>(disk: &mut D, paths: &[String])
    ensures { D.calls disk.new ≡ D.calls disk.old ++ map (λ path. Removed (string_bytes path)) paths.now }
{
    for path in paths {
        disk.remove(path.as_str());
    }
}

/// The paths of the temporary files.
fn temporary_paths(alloc: Global, files: &[NewText<'_>]) -> Result<Vec<String>, AllocError>
    ensures count { IfOk result (λ paths. length paths.items ≡ length files.now) }
    ensures beside { IfOk result (λ paths. map string_bytes paths.items ≡ map temporary_of files.now) }
{
    let mut paths = Vec::with_capacity(alloc, files.len())?;
    for file in files {
        paths.push(temporary_path(alloc, file.path)?)?;
    }
    Ok(paths)
}

/// Makes all temporary files, or none.
fn prepare_all<D: Disk>(
    disk: &mut D,
    files: &[NewText<'_>],
    temporaries: &[String],
) -> Result<(), WriteError>
    requires { map string_bytes temporaries.now ≡ map temporary_of files.now }
    ensures ok { OnOk result (D.calls disk.new ≡ D.calls disk.old ++ flat_map makes files.now) }
    ensures err { IfErr result (λ e. Asks (D.calls disk.old) (D.calls disk.new) (StopsMaking files.now e.failed)) }
    ensures written { IfErr result (λ e. e.written ≡ 0) }
{
    for (index, file) in files.iter().enumerate() {
        if let Err(why) = prepare(disk, file, temporaries[index].as_str()) {
            remove_all(disk, &temporaries[..index]);
            return Err(WriteError {
                written: 0,
                failed: index,
                why,
            });
        }
    }
    Ok(())
}

/// Puts the temporary files in the places of the files, one by one.
fn replace_all<D: Disk>(
    disk: &mut D,
    files: &[NewText<'_>],
    temporaries: &[String],
) -> Result<(), WriteError>
    requires { map string_bytes temporaries.now ≡ map temporary_of files.now }
    ensures ok { OnOk result (D.calls disk.new ≡ D.calls disk.old ++ flat_map replaces files.now) }
    ensures err { IfErr result (λ e. Asks (D.calls disk.old) (D.calls disk.new) (StopsReplacing files.now e.failed)) }
    ensures written { IfErr result (λ e. e.written ≡ e.failed) }
{
    for (index, file) in files.iter().enumerate() {
        if let Err(why) = replace(disk, file, temporaries[index].as_str()) {
            remove_all(disk, &temporaries[index..]);
            return Err(WriteError {
                written: index,
                failed: index,
                why,
            });
        }
    }
    Ok(())
}

/// Gives each file its new text, where all are regular files that still have their old ones. A new text is first written to a
/// temporary file beside its file, with the file's permissions: for `src/lib.rs` that is `src/.lib.rs.ssr-tmp`, which must not
/// lie there yet. Only when all of these are on the disk do they take the places of the files, one by one, each directly after
/// another look at its file.
///
/// Where a file is given twice, or is another's temporary file, the disk isn't asked anything. A failure before the first new
/// text leaves each file as it was, and no temporary file but what can't be removed.
pub fn write_all<D: Disk>(
    alloc: Global,
    disk: &mut D,
    files: &[NewText<'_>],
) -> Result<(), WriteError>
    ensures ok { OnOk result (D.calls disk.new ≡ D.calls disk.old ++ writes files.now) }
    ensures apart { OnOk result (AreApart files.now) }
    ensures err { IfErr result (λ e. Asks (D.calls disk.old) (D.calls disk.new) (Stops files.now e)) }
    // No file is told that wasn't given.
    ensures failed { IfErr result (λ e. e.failed < length files.now) }
    // Nothing is written before all can be, and then each file before the one that fails.
    ensures written { IfErr result (λ e. 0 < e.written → e.written ≡ e.failed) }
{
    if files.is_empty() {
        return Ok(());
    }
    match temporary_paths(alloc, files) {
        Ok(temporaries) => {
            keep_apart(alloc, files, temporaries.as_slice())?;
            prepare_all(disk, files, temporaries.as_slice())?;
            replace_all(disk, files, temporaries.as_slice())?;
            Ok(())
        }
        Err(AllocError) => Err(WriteError {
            written: 0,
            failed: 0,
            why: WriteFault::Memory,
        }),
    }
}
