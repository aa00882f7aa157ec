//! The files that a `mod` item without a body may stand for.
ghost use Rattle.std.specs.Prelude.{◌≡◌, ◌++◌, map, string_bytes, option_copied, option_map, IfOk};
ghost use Rattle.ssr_package.specs.Candidates as spec;

use crate::paths::{normal_path, within};
use std::alloc::{AllocError, Global};

/// A file that a `mod` item may stand for.
#[derive(Drop)]
pub(crate) struct Candidate {
    /// Its name; `None` where that would lie outside of the run's folder.
    pub name: Option<String>,
    /// Whether the modules of the file lie in its own folder, as those of `mod.rs` do.
    pub owns_folder: bool,
}

/// The files that a `mod` item may stand for, of which each that is there is read. `paths` are the values of its `path`
/// attributes, which count from `path_folder`; unless one stands under no condition, it may also be the file of its name in
/// `name_folder`. A folder that is `None` lies outside.
#[tactic(auto, using(crate::proofs::CandidateLaws::seen_pushed))]
pub(crate) fn candidates(
    alloc: Global,
    path_folder: Option<&str>,
    name_folder: Option<&str>,
    name: &str,
    paths: &[&str],
    is_certain: bool,
) -> Result<Vec<Candidate>, AllocError>
    ensures { IfOk result (λ v. map spec.seen v.items ≡ spec.candidates (option_copied path_folder.entry) (option_copied name_folder.entry) name.now (map (λ path. path.now) paths.now) is_certain) }
{
    let mut candidates = at_paths(alloc, path_folder, paths)?;
    if !is_certain {
        let file = at_name(alloc, name_folder, name, ".rs")?;
        candidates.push(Candidate {
            name: file,
            owns_folder: false,
        })?;
        let file = at_name(alloc, name_folder, name, "/mod.rs")?;
        candidates.push(Candidate {
            name: file,
            owns_folder: true,
        })?;
    }
    Ok(candidates)
}

/// The files at paths from a folder on.
#[tactic(auto, using(crate::proofs::CandidateLaws::seen_more))]
fn at_paths(
    alloc: Global,
    folder: Option<&str>,
    paths: &[&str],
) -> Result<Vec<Candidate>, AllocError>
    ensures { IfOk result (λ v. map spec.seen v.items ≡ map (spec.file_at (option_copied folder.entry)) (map (λ path. path.now) paths.now)) }
{
    let mut candidates = Vec::new(alloc);
    for path in paths {
        let name = at_path(alloc, folder, path)?;
        candidates.push(Candidate {
            name,
            owns_folder: true,
        })?;
    }
    Ok(candidates)
}

/// Where a path leads from a folder.
pub(crate) fn at_path(
    alloc: Global,
    folder: Option<&str>,
    path: &str,
) -> Result<Option<String>, AllocError>
    ensures { IfOk result (λ name. option_map string_bytes name ≡ spec.at_path (option_copied folder.entry) path.now) }
{
    match folder {
        Some(folder) => normal_path(alloc, folder, path),
        None => Ok(None),
    }
}

/// The path of a name with an ending, in a folder.
pub(crate) fn at_name(
    alloc: Global,
    folder: Option<&str>,
    name: &str,
    ending: &str,
) -> Result<Option<String>, AllocError>
    ensures { IfOk result (λ path. option_map string_bytes path ≡ spec.at_name (option_copied folder.entry) name.now ending.now) }
{
    match folder {
        Some(folder) => {
            let mut path = within(alloc, folder, name)?;
            path.push_str(ending)?;
            Ok(Some(path))
        }
        None => Ok(None),
    }
}
