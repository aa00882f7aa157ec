//! Flattening nested matches.

ghost use Rattle.std.specs.Prelude.{◌≡◌, ◌++◌, All, IfOk, OnOk, map};
ghost use Rattle.std.specs.List.{flat_map};
ghost use Rattle.ide_ssr.specs.Flattened.{IsAlone, IsEmpty, inside, told_of};
ghost use Rattle.ide_ssr.specs.Matches.{inner_of};
ghost use Rattle.ide_ssr.specs.Private.Flattening.{FlattensLast};

use crate::matches::{Match, PlaceholderMatch};
use std::alloc::AllocError;

/// Moves the matches in a placeholder behind those that are left.
fn take_inner<'a>(
    placeholder: &mut PlaceholderMatch<'a>,
    left: &mut Vec<Match<'a>>,
) -> Result<(), AllocError>
    ensures taken { OnOk result (left.new.items ≡ left.old.items ++ inner_of placeholder.old) }
    ensures empty { OnOk result (IsEmpty placeholder.new) }
    ensures told { OnOk result (told_of placeholder.new ≡ told_of placeholder.old) }
{
    left.append(&mut placeholder.inner)
}

/// Moves the matches in placeholders behind those that are left.
fn take_all_inner<'a>(
    placeholders: &mut [PlaceholderMatch<'a>],
    left: &mut Vec<Match<'a>>,
) -> Result<(), AllocError>
    ensures taken { OnOk result (left.new.items ≡ left.old.items ++ flat_map inner_of placeholders.old) }
    ensures empty { OnOk result (All IsEmpty placeholders.new) }
    ensures told { OnOk result (map told_of placeholders.new ≡ map told_of placeholders.old) }
{
    for placeholder in placeholders.iter_mut() {
        take_inner(placeholder, left)?;
    }
    Ok(())
}

/// How many matches stand in the placeholders of a match.
fn inner_count(m: &Match<'_>) -> usize {
    let mut count = 0usize;
    for placeholder in &m.placeholders {
        count = count.saturating_add(placeholder.inner.len());
    }
    count
}

/// Makes room for the last one of the matches that are left among the flat ones, and for those in it among the others.
fn make_room<'a>(left: &mut Vec<Match<'a>>, flat: &mut Vec<Match<'a>>) -> Result<(), AllocError>
    ensures left { left.new.items ≡ left.old.items }
    ensures flat { flat.new.items ≡ flat.old.items }
{
    let count = match left.last() {
        Some(m) => inner_count(m),
        None => 0,
    };
    left.reserve(count)?;
    flat.reserve(1)
}

/// Takes the last one of the matches that are left, if there is one: alone it becomes the last of the flat ones, and those in
/// it are left in its place. What memory refuses stays in the lists: there is room before a match is taken apart.
pub(crate) fn flatten_last<'a>(
    left: &mut Vec<Match<'a>>,
    flat: &mut Vec<Match<'a>>,
) -> Result<bool, AllocError>
    ensures { IfOk result (FlattensLast left.old.items left.new.items flat.old.items flat.new.items) }
{
    make_room(left, flat)?;
    let Some(mut m) = left.pop() else {
        return Ok(false);
    };
    take_all_inner(&mut m.placeholders, left)?;
    flat.push(m)?;
    Ok(true)
}
