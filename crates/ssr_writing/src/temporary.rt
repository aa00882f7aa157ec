//! The temporary file beside a file, which takes its place once it is whole.
ghost use Rattle.std.specs.Prelude.{◌≡◌, IfOk, IfSome, IsTrue, ◌↔◌, OnOk, string_bytes, unwrap_or};
ghost use Rattle.std.specs.Io.KnownBytes.{Appends};
ghost use Rattle.std.specs.Path.{path_file_name, path_with_file_name};
ghost use Rattle.ssr_writing.specs.Temporary.{temporary_path};

use crate::faults::WriteFault;
use std::alloc::{AllocError, Global};
use std::fs::{File, OpenFile, Permissions};
use std::io;
use std::io::{ErrorKind, Read, Write};
use std::path::Path;
use std::rt::Files;

/// The path of the temporary file: for `src/lib.rs` it is `src/.lib.rs.ssr-tmp`.
pub(crate) fn temporary_path(alloc: Global, path: &str) -> Result<String, AllocError>
    ensures { IfOk result (λ beside. string_bytes beside ≡ temporary_path path.now) }
{
    let path = Path::new(path);
    let name = path.file_name().unwrap_or("");
    let hidden = format!(in alloc; ".{name}.ssr-tmp")?;
    let beside = path.with_file_name(alloc, hidden.as_str())?;
    String::from_str(alloc, beside.as_str())
}

/// Whether all that a reader has left is this text.
pub(crate) fn reads_as<R: Read>(alloc: Global, reader: &mut R, text: &str) -> io::Result<bool>
    ensures { IfOk result (λ same. IfSome (R.remaining reader.old) (λ bytes. IsTrue same ↔ (bytes ≡ text.now))) }
{
    let mut bytes = Vec::new(alloc);
    reader.read_to_end(&mut bytes)?;
    Ok(bytes.as_slice() == text.as_bytes())
}

/// Makes a new file; nothing is overwritten.
pub(crate) fn create<R: Files + AllocGlobal>(rt: &R, path: &str) -> Result<R::File, WriteFault> {
    match File::create_new(rt, path) {
        Ok(file) => Ok(file),
        Err(error) if error.kind() == ErrorKind::AlreadyExists => {
            Err(WriteFault::LeftOver(String::from_str(rt.alloc(), path)?))
        }
        Err(error) => Err(WriteFault::Io(error)),
    }
}

/// Gives a new file its permissions, puts a text into it, and waits until it is on the disk.
pub(crate) fn fill<F: Write + OpenFile>(
    file: &mut F,
    text: &str,
    permissions: Permissions,
) -> io::Result<()>
    ensures { OnOk result (Appends (F.contents file.old) (F.contents file.new) text.now) }
{
    file.set_permissions(permissions)?;
    file.write_all(text.as_bytes())?;
    file.sync_all()
}
