//! The searches of a scenario.

use crate::lines::{Line, rest_of};
use ide_ssr::{MatchFinder, SsrError};
use ssr_base::Semantics;
use ssr_careless::Careless;
use ssr_facts::{Facts, TableSemantics};
use std::alloc::Global;

/// A search by what facts tell, and the same by a provider that tells usages that are none.
#[derive(Drop)]
pub(crate) struct Searches<'a> {
    pub(crate) told: MatchFinder<'a, TableSemantics>,
    pub(crate) careless: MatchFinder<'a, Careless<'a, TableSemantics>>,
}

/// The searches of a scenario.
pub(crate) fn searches_of<'a>(
    alloc: Global,
    facts: &'a Facts,
    careless: &'a Careless<'a, TableSemantics>,
    lines: &[Line<'_>],
) -> Result<Searches<'a>, SsrError> {
    Ok(Searches {
        told: finder_of(alloc, facts, &facts.semantics, lines)?,
        careless: finder_of(alloc, facts, careless, lines)?,
    })
}

/// The search of a scenario by a provider.
fn finder_of<'a, S: Semantics>(
    alloc: Global,
    facts: &'a Facts,
    semantics: &'a S,
    lines: &[Line<'_>],
) -> Result<MatchFinder<'a, S>, SsrError> {
    if rest_of(lines, "context").is_none() {
        return MatchFinder::at_first_file(alloc, &facts.workspace, semantics);
    }
    let mut ranges = Vec::new(alloc);
    for range in &facts.ranges {
        ranges.push(*range)?;
    }
    MatchFinder::in_context(alloc, &facts.workspace, semantics, facts.position, ranges)
}
