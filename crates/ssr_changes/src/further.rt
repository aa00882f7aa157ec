//! Matches that one search has beside those of another one.

use crate::matching::FoundPlace;
use std::alloc::{AllocError, Global};
use std::collections::BTreeSet;

/// Which match a place is: its rule, its file, and where it begins and ends.
#[derive(Clone, Copy, PartialEq, Eq, PartialOrd, Ord)]
struct MatchKey {
    rule: usize,
    file: u32,
    start: u32,
    end: u32,
}

fn match_key(place: &FoundPlace) -> MatchKey {
    let range = place.range;
    MatchKey {
        rule: place.rule,
        file: range.file_id.0,
        start: range.range.start,
        end: range.range.end,
    }
}

/// Those of matches that aren't among known ones, in their order, each once.
pub fn further_matches(
    alloc: Global,
    known: &[FoundPlace],
    found: Vec<FoundPlace>,
) -> Result<Vec<FoundPlace>, AllocError> {
    let mut keys = BTreeSet::new(alloc);
    for place in known {
        keys.insert(match_key(place))?;
    }
    let mut further = Vec::new(alloc);
    for place in found {
        if keys.insert(match_key(&place))? {
            further.push(place)?;
        }
    }
    Ok(further)
}
