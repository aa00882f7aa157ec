//! Nested matches that are made, and taken by those that hold them.

ghost use Rattle.std.specs.Prelude.{◌≡◌, ◌≢◌, ◌<◌, ℕ, All, AllPairs, Contains, None, Some, IfOk, IsSome, OnOk, length, map, slice_index_or};

use crate::matches::Match;
use std::alloc::{AllocError, Global};

/// A place for each of so many matches, of which none is made.
pub(crate) fn none_made<'a>(
    alloc: Global,
    count: usize,
) -> Result<Vec<Option<Match<'a>>>, AllocError>
    ensures { IfOk result (λ made. length made.items ≡ count) }
{
    let mut made = Vec::new(alloc);
    for _ in 0..count {
        made.push(None)?;
    }
    Ok(made)
}

/// Takes the match of the place.
fn take_made<'a>(made: &mut Vec<Option<Match<'a>>>, place: usize) -> Match<'a>
    requires place { place < length made.old.items }
    requires made { IsSome (slice_index_or made.old.items place None) }
    ensures taken { slice_index_or made.old.items place None ≡ Some result }
    ensures others { (j : ℕ) → j ≢ place → slice_index_or made.new.items j None ≡ slice_index_or made.old.items j None }
    ensures counted { length made.new.items ≡ length made.old.items }
{
    match made[place].take() {
        Some(m) => m,
        None => unreachable!(),
    }
}

/// Takes the matches of these places.
pub(crate) fn take_list<'a>(
    alloc: Global,
    places: &[usize],
    made: &mut Vec<Option<Match<'a>>>,
) -> Result<Vec<Match<'a>>, AllocError>
    requires once { AllPairs (λ m n. m ≢ n) places.now }
    requires there { All (λ n. IsSome (slice_index_or made.old.items n None)) places.now }
    ensures taken { IfOk result (λ list. map Some list.items ≡ map (λ n. slice_index_or made.old.items n None) places.now) }
    ensures others { OnOk result ((n : ℕ) → (Contains places.now n → ⊥) → slice_index_or made.new.items n None ≡ slice_index_or made.old.items n None) }
    ensures counted { OnOk result (length made.new.items ≡ length made.old.items) }
{
    let mut list = Vec::new(alloc);
    for place in places {
        list.push(take_made(made, *place))?;
    }
    Ok(list)
}
