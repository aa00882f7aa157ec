//! Paths as texts: parts with slashes between them.
ghost use Rattle.std.specs.Prelude.{◌≡◌, Some, None, if◌then◌else◌, string_bytes, option_map, IfOk};
ghost use Rattle.ssr_package.specs.Paths as spec;
ghost use Rattle.ssr_package.specs.Reads as reads;

use std::alloc::{AllocError, Global};

/// The path of a name in a folder. The folder that paths count from has the empty path.
pub(crate) fn within(alloc: Global, folder: &str, name: &str) -> Result<String, AllocError>
    ensures { IfOk result (λ path. string_bytes path ≡ spec.within folder.now name.now) }
{
    let mut path = String::from_str(alloc, folder)?;
    if !folder.is_empty() {
        path.push('/')?;
    }
    path.push_str(name)?;
    Ok(path)
}

/// The path of a name in a folder of the file system; an absolute name is its own path, and the empty folder is the current one.
#[tactic(auto, using(std::proofs::lemmas::Str::Pattern::ends_text))]
pub fn path_in(alloc: Global, folder: &str, name: &str) -> Result<String, AllocError>
    ensures { IfOk result (λ path. string_bytes path ≡ spec.path_in folder.now name.now) }
{
    if is_absolute(name) {
        return String::from_str(alloc, name);
    }
    if !folder.ends_with("/") {
        return within(alloc, folder, name);
    }
    let mut path = String::from_str(alloc, folder)?;
    path.push_str(name)?;
    Ok(path)
}

/// The path of the file system that a name in a folder stands for.
pub(crate) fn place(alloc: Global, folder: &str, name: &str) -> Result<String, AllocError>
    ensures { IfOk result (λ path. string_bytes path ≡ reads.place folder.now name.now) }
{
    if folder.is_empty() && name.is_empty() {
        return String::from_str(alloc, ".");
    }
    path_in(alloc, folder, name)
}

/// The path, without empty parts, `.` and `..`, that a path stands for from a folder on. `None`: it leads out of the folder that
/// paths count from, or it is absolute.
pub fn normal_path(alloc: Global, folder: &str, path: &str) -> Result<Option<String>, AllocError>
    ensures { IfOk result (λ found. option_map string_bytes found ≡ spec.normal folder.now path.now) }
{
    if is_absolute(path) {
        return Ok(None);
    }
    let mut parts = Vec::new(alloc);
    let in_folder = walk(&mut parts, folder)?;
    if !in_folder {
        return Ok(None);
    }
    let is_inside = walk(&mut parts, path)?;
    if !is_inside {
        return Ok(None);
    }
    let found = joined(alloc, &parts)?;
    Ok(Some(found))
}

/// Whether a path begins with a slash.
pub(crate) fn is_absolute(path: &str) -> bool
    ensures { result ≡ spec.is_absolute path.now }
{
    path.starts_with('/')
}

/// Goes on from a folder, given by its parts, along a path: the parts of where that leads. Tells whether it leads out.
fn walk<'a>(parts: &mut Vec<&'a str>, path: &'a str) -> Result<bool, AllocError>
    ensures { IfOk result (λ inside. spec.walked (Some (spec.texts parts.old)) (spec.parts path.now) ≡ (if inside then Some (spec.texts parts.new) else None)) }
{
    let mut rest = path;
    while let Some((part, after)) = rest.split_once('/') {
        let is_inside = step(parts, part)?;
        if !is_inside {
            return Ok(false);
        }
        rest = after;
    }
    step(parts, rest)
}

/// Goes on by one part. Tells whether that leads out.
fn step<'a>(parts: &mut Vec<&'a str>, part: &'a str) -> Result<bool, AllocError>
    ensures { IfOk result (λ inside. spec.step (Some (spec.texts parts.old)) part.now ≡ (if inside then Some (spec.texts parts.new) else None)) }
{
    if part.is_empty() || part == "." {
        return Ok(true);
    }
    if part == ".." {
        return Ok(parts.pop().is_some());
    }
    parts.push(part)?;
    Ok(true)
}

/// The path of these parts.
#[tactic(auto, using(crate::proofs::PathLaws::joined_more))]
fn joined(alloc: Global, parts: &Vec<&str>) -> Result<String, AllocError>
    ensures { IfOk result (λ path. string_bytes path ≡ spec.joined (spec.texts parts.now)) }
{
    let mut path = String::new(alloc);
    for part in parts {
        path = within(alloc, path.as_str(), part)?;
    }
    Ok(path)
}
