//! The places of files: of a file's modules, and of a package's targets.
ghost use Rattle.std.specs.Prelude.{◌≡◌, string_bytes, option_copied, option_map, IfOk};
ghost use Rattle.std.specs.Path.{path_parent};
ghost use Rattle.ssr_package.specs.Places as spec;

use crate::paths::within;
use crate::reads::Entry;
use std::alloc::{AllocError, Global};
use std::path::Path;

/// The folder of a path: `/a` of `/a/b`, `/` of `/a`, the empty path of `a`.
pub(crate) fn parent(path: &str) -> Option<&str>
    ensures { option_copied result ≡ path_parent path.now }
{
    match Path::new(path).parent() {
        Some(folder) => Some(folder.as_str()),
        None => None,
    }
}

/// The folder that a file lies in.
pub(crate) fn file_folder(name: &str) -> &str
    ensures { result.now ≡ spec.file_folder name.now }
{
    match parent(name) {
        Some(folder) => folder,
        None => "",
    }
}

/// The last part of a path, where that is a name.
pub(crate) fn last_part(path: &str) -> &str
    ensures { result.now ≡ spec.last_part path.now }
{
    match Path::new(path).file_name() {
        Some(name) => name,
        None => "",
    }
}

/// The last part of a path without its ending.
pub(crate) fn stem(path: &str) -> &str
    ensures { result.now ≡ spec.stem path.now }
{
    match Path::new(path).file_stem() {
        Some(stem) => stem,
        None => "",
    }
}

/// The folder of a file's modules: `src` of `src/lib.rs` and `src/mod.rs`, which own their folders, `src/a` of `src/a.rs`.
pub(crate) fn module_folder(
    alloc: Global,
    name: &str,
    owns_folder: bool,
) -> Result<String, AllocError>
    ensures { IfOk result (λ folder. string_bytes folder ≡ spec.module_folder name.now owns_folder) }
{
    let folder = file_folder(name);
    if owns_folder {
        return String::from_str(alloc, folder);
    }
    within(alloc, folder, stem(name))
}

/// Whether a name lies neither below `target` nor below `vendor`.
#[tactic(auto, using(std::proofs::lemmas::Str::Pattern::starts_text))]
pub(crate) fn is_ours(name: &str) -> bool
    ensures { result ≡ spec.is_ours name.now }
{
    !(name.starts_with("target/") || name.starts_with("vendor/"))
}

/// The file of the target that a file or a folder in a folder of targets makes, as `examples/a.rs` and
/// `examples/a/main.rs`. It is not said that a folder has that file.
#[tactic(auto, using(std::proofs::lemmas::Str::Pattern::ends_text))]
pub(crate) fn default_target(
    alloc: Global,
    folder: &str,
    entry: &Entry,
) -> Result<Option<String>, AllocError>
    ensures { IfOk result (λ file. option_map string_bytes file ≡ spec.default_target folder.now (string_bytes entry.now.name) entry.now.is_folder) }
{
    let name = entry.name.as_str();
    if name.starts_with('.') {
        return Ok(None);
    }
    let path = within(alloc, folder, name)?;
    if entry.is_folder {
        return Ok(Some(within(alloc, path.as_str(), "main.rs")?));
    }
    if name.ends_with(".rs") {
        Ok(Some(path))
    } else {
        Ok(None)
    }
}

/// The name of the target that a file or a folder in a folder of targets makes.
pub(crate) fn target_name(entry: &Entry) -> &str
    ensures { result.now ≡ spec.target_name (string_bytes entry.now.name) entry.now.is_folder }
{
    let name = entry.name.as_str();
    if entry.is_folder { name } else { stem(name) }
}
