//! New texts on the disk.
ghost use Rattle.std.specs.Prelude.{◌≡◌, All, IfOk, OnOk, length, map, string_bytes};
ghost use Rattle.cargo_ssr_program.specs.Planned.{IsWritten, path_planned, text_of, text_planned};
ghost use Rattle.ssr_changes.specs.Planning.{HasDiff};

use crate::failure::Failure;
use crate::input::Input;
use ssr_changes::Planned;
use ssr_package::{Reads, Standing, path_in};
use ssr_writing::{Disk, NewText, WriteError, write_all};
use std::alloc::{AllocError, Global};

/// Writes the new texts of a plan, and tells how many there are. None is written where a file is reached through a link.
pub(crate) fn write<F: Reads, D: Disk>(
    reader: &F,
    disk: &mut D,
    input: &Input,
    plan: &[Planned<'_>],
) -> Result<usize, Failure>
    requires { All (HasDiff input.now.files.files) plan.now }
    ensures { OnOk result (IsWritten (string_bytes input.now.folder) input.now.files.files plan.now (D.calls disk.old) (D.calls disk.new)) }
{
    let alloc = reader.alloc();
    refuse_links(reader, input, plan)?;
    let paths = paths(alloc, input, plan)?;
    let texts = new_texts(alloc, input, plan, &paths)?;
    match write_all(alloc, disk, &texts) {
        Ok(()) => Ok(texts.len()),
        Err(error) => Err(write_failure(alloc, input, plan, &error)?),
    }
}

/// Fails where a file of a plan is reached through a link.
#[tactic(auto, using(crate::proofs::InFiles::each_is_there))]
fn refuse_links<F: Reads>(reader: &F, input: &Input, plan: &[Planned<'_>]) -> Result<(), Failure>
    requires { All (HasDiff input.now.files.files) plan.now }
{
    let alloc = reader.alloc();
    for planned in plan {
        let name = input.files.name(planned.file);
        if is_behind_link(reader, input.folder.as_str(), name)? {
            return Err(Failure::Told(format!(in alloc; "{name}: reached through a link")?));
        }
    }
    Ok(())
}

/// The paths of the files of a plan.
#[tactic(auto, using(crate::proofs::InFiles::each_is_there))]
fn paths(alloc: Global, input: &Input, plan: &[Planned<'_>]) -> Result<Vec<String>, AllocError>
    requires { All (HasDiff input.now.files.files) plan.now }
    ensures { IfOk result (λ paths. map string_bytes paths.items ≡ map (path_planned (string_bytes input.now.folder) input.now.files.files) plan.now) }
{
    let mut paths = Vec::with_capacity(alloc, plan.len())?;
    for planned in plan {
        let name = input.files.name(planned.file);
        paths.push(path_in(alloc, input.folder.as_str(), name)?)?;
    }
    Ok(paths)
}

/// What is written for a plan whose files have these paths.
#[tactic(auto, using(crate::proofs::InFiles::each_is_there))]
fn new_texts<'a>(
    alloc: Global,
    input: &'a Input,
    plan: &'a [Planned<'a>],
    paths: &'a [String],
) -> Result<Vec<NewText<'a>>, AllocError>
    requires there { All (HasDiff input.now.files.files) plan.now }
    requires paths { map string_bytes paths.now ≡ map (path_planned (string_bytes input.now.folder) input.now.files.files) plan.now }
    ensures { IfOk result (λ texts. map text_of texts.items ≡ map (text_planned (string_bytes input.now.folder) input.now.files.files) plan.now) }
{
    let mut texts = Vec::with_capacity(alloc, plan.len())?;
    for (place, planned) in plan.iter().enumerate() {
        texts.push(NewText {
            path: paths[place].as_str(),
            old: input.files.text(planned.file),
            new: planned.new,
        })?;
    }
    Ok(texts)
}

/// Whether a file of a folder is a link, or a folder on the way to it is one.
fn is_behind_link<F: Reads>(reader: &F, folder: &str, name: &str) -> Result<bool, AllocError> {
    let alloc = reader.alloc();
    let mut path = String::from_str(alloc, folder)?;
    for part in name.split('/') {
        path = path_in(alloc, path.as_str(), part)?;
        if reader.standing(path.as_str()) == Standing::Link {
            return Ok(true);
        }
    }
    Ok(false)
}

/// Why not all new texts were written. Files have the names by which they were searched.
fn write_failure(
    alloc: Global,
    input: &Input,
    plan: &[Planned<'_>],
    error: &WriteError,
) -> Result<Failure, AllocError> {
    let name = match plan.get(error.failed) {
        Some(planned) if planned.file < input.files.file_count() => input.files.name(planned.file),
        _ => "",
    };
    let why = &error.why;
    Ok(Failure::Told(match error.written {
        0 => format!(in alloc; "{name}: {why}; no file was written")?,
        written => format!(in alloc; "{name}: {why}; the first {written} files were written")?,
    }))
}
