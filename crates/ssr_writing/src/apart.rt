//! Files that want the same place.
ghost use Rattle.std.specs.Prelude.{◌≡◌, ◌<◌, [], ◌∷◌, IfErr, OnOk, length, map, string_bytes};
ghost use Rattle.ssr_writing.specs.Disk.{AreApart, StopsAtOnce, temporary_of};
ghost use Rattle.ssr_writing.specs.Private.Taken.{AreAdded, AreRefused};

use crate::faults::{WriteError, WriteFault};
use crate::writing::NewText;
use std::alloc::Global;
use std::collections::BTreeSet;

/// Takes a place, if it is free.
fn take_place<'a>(taken: &mut BTreeSet<&'a str>, path: &'a str) -> Result<(), WriteFault>
    ensures ok { OnOk result (AreAdded taken.old taken.new (path.now ∷ [])) }
    ensures err { IfErr result (AreRefused taken.old (path.now ∷ [])) }
{
    match taken.insert(path) {
        Ok(true) => Ok(()),
        Ok(false) => Err(WriteFault::Clash),
        Err(_) => Err(WriteFault::Memory),
    }
}

/// Takes the places of a file's turn, if both are free.
fn take_places<'a>(
    taken: &mut BTreeSet<&'a str>,
    path: &'a str,
    temporary: &'a str,
) -> Result<(), WriteFault>
    ensures ok { OnOk result (AreAdded taken.old taken.new (path.now ∷ temporary.now ∷ [])) }
    ensures err { IfErr result (AreRefused taken.old (path.now ∷ temporary.now ∷ [])) }
{
    take_place(taken, path)?;
    take_place(taken, temporary)?;
    Ok(())
}

/// Fails at the first file that takes a place of one in front of it.
pub(crate) fn keep_apart(
    alloc: Global,
    files: &[NewText<'_>],
    temporaries: &[String],
) -> Result<(), WriteError>
    requires { map string_bytes temporaries.now ≡ map temporary_of files.now }
    ensures ok { OnOk result (AreApart files.now) }
    ensures err { IfErr result (λ e. StopsAtOnce files.now e) }
    ensures failed { IfErr result (λ e. e.failed < length files.now) }
{
    let mut taken = BTreeSet::new(alloc);
    for (index, file) in files.iter().enumerate() {
        if let Err(why) = take_places(&mut taken, file.path, temporaries[index].as_str()) {
            return Err(WriteError {
                written: 0,
                failed: index,
                why,
            });
        }
    }
    Ok(())
}
