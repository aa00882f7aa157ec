//! The manifest of a folder.

use crate::package_error::PackageError;
use crate::packages::MANIFEST;
use crate::paths::path_in;
use crate::places::parent;
use crate::reads::Reads;
use std::alloc::AllocError;

/// The path of the `Cargo.toml` in a folder, or else in the nearest folder above that has one.
pub fn find_manifest<F: Reads>(reader: &F, from: &str) -> Result<String, PackageError> {
    let alloc = reader.alloc();
    let start = absolute(reader, from)?;
    match manifest_above(reader, start.as_str())? {
        Some(folder) => Ok(path_in(alloc, folder, MANIFEST)?),
        None => Err(PackageError::NoManifest(String::from_str(alloc, from)?)),
    }
}

/// The nearest folder that has a manifest: a folder itself, or one above it.
pub(crate) fn manifest_above<'a, F: Reads>(
    reader: &F,
    from: &'a str,
) -> Result<Option<&'a str>, AllocError> {
    let mut here = from;
    for _ in 0..=from.len() {
        if has_manifest(reader, here)? {
            return Ok(Some(here));
        }
        match parent(here) {
            Some(folder) => here = folder,
            None => return Ok(None),
        }
    }
    Ok(None)
}

fn has_manifest<F: Reads>(reader: &F, folder: &str) -> Result<bool, AllocError> {
    let path = path_in(reader.alloc(), folder, MANIFEST)?;
    Ok(reader.is_file(path.as_str()))
}

/// A folder's path from the file system's root, without links; the path itself, where the system tells none.
pub(crate) fn absolute<F: Reads>(reader: &F, folder: &str) -> Result<String, AllocError> {
    reader.absolute(if folder.is_empty() { "." } else { folder })
}
