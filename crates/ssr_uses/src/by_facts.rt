//! A search by what a facts file tells.

ghost use Rattle.std.specs.Prelude.{IfOk};
ghost use Rattle.ssr_uses.specs.ByFacts.{AreEditsByFacts};

use crate::error::UseError;
use ide_ssr::{MatchFinder, SsrRule};
use ssr_base::{FileId, TextEdit};
use ssr_facts::{Facts, read};
use std::alloc::Global;
use std::collections::BTreeMap;

/// The edits that a rule makes in the files of a facts file, by what that tells.
pub fn edits_by_facts(
    alloc: Global,
    facts: &[u8],
    rule: &str,
) -> Result<BTreeMap<FileId, TextEdit>, UseError>
    ensures { IfOk result (AreEditsByFacts facts.now rule.now) }
{
    let Facts {
        workspace,
        semantics,
        names: _,
        position,
        ranges,
    } = read(alloc, facts)?;
    let mut finder = MatchFinder::in_context(alloc, &workspace, &semantics, position, ranges)?;
    finder.add_rule(SsrRule::parse(alloc, rule)?)?;
    Ok(finder.edits()?)
}
