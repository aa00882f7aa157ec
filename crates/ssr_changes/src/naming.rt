//! Names of files, as paths from the folder of a run.
ghost use Rattle.std.specs.Prelude.{◌≡◌, IfOk, codes, map, string_bytes};
ghost use Rattle.std.specs.List.{list_any};
ghost use Rattle.std.specs.Str.{bytes_eq};
ghost use Rattle.ssr_package.specs.Paths.{parts};
ghost use Rattle.ssr_changes.specs.Naming as spec;

use ssr_package::normal_path;
use std::alloc::{AllocError, Global};

/// Whether a name leads nowhere but into the folder: no `/` stands in front, and no part is `..`.
pub(crate) fn is_inside(name: &str) -> bool
    ensures { result ≡ spec.is_inside name.now }
{
    !name.starts_with('/') && !leads_up(name)
}

/// Whether a part of a name is `..`.
fn leads_up(name: &str) -> bool
    ensures { result ≡ list_any (λ part. bytes_eq part (codes "..")) (parts name.now) }
{
    let mut rest = name;
    while let Some((part, after)) = rest.split_once('/') {
        if part == ".." {
            return true;
        }
        rest = after;
    }
    rest == ".."
}

/// Whether a normal name leads below the folder `target`.
pub(crate) fn is_below_target(name: &str) -> bool
    ensures { result ≡ spec.is_below_target name.now }
{
    name.starts_with("target/")
}

/// The normal name of a file: without empty parts and `.`, as `src/lib.rs` for `./src//lib.rs`. One that leads out of the folder
/// stays as it is.
#[tactic(auto, using(crate::proofs::Names::inside_normal))]
pub fn normal_name(alloc: Global, name: &str) -> Result<String, AllocError>
    ensures { IfOk result (λ normal. string_bytes normal ≡ spec.normal name.now) }
{
    if !is_inside(name) {
        return String::from_str(alloc, name);
    }
    match normal_path(alloc, "", name)? {
        Some(normal) => Ok(normal),
        None => String::from_str(alloc, name),
    }
}

/// The normal names of files.
pub fn normal_names(alloc: Global, names: &[String]) -> Result<Vec<String>, AllocError>
    ensures { IfOk result (λ normal. map string_bytes normal.items ≡ map (λ name. spec.normal (string_bytes name)) names.now) }
{
    let mut normal = Vec::with_capacity(alloc, names.len())?;
    for name in names {
        normal.push(normal_name(alloc, name.as_str())?)?;
    }
    Ok(normal)
}
