//! Matches as a list of findings.

ghost use Rattle.std.specs.Prelude.{IfOk};
ghost use Rattle.ide_ssr.specs.Finder.{finder_of};
ghost use Rattle.ssr_uses.specs.Findings.{AreFindings};

use ide_ssr::MatchFinder;
use ssr_base::{FileRange, Semantics};
use std::alloc::{AllocError, Global};

/// A match: where it stands, what stands there, and by which of the finder's rules.
#[derive(Debug, Drop)]
pub struct Finding {
    pub range: FileRange,
    pub text: String,
    pub rule: usize,
}

/// The outermost matches of a finder's rules, in order.
pub fn findings<S: Semantics>(
    alloc: Global,
    finder: &MatchFinder<'_, S>,
) -> Result<Vec<Finding>, AllocError>
    ensures { IfOk result (λ findings. AreFindings (finder_of S.meanings finder.now) findings.items) }
{
    let found = finder.matches()?;
    let mut findings = Vec::new(alloc);
    for m in &found.matches {
        findings.push(Finding {
            range: m.range(),
            text: m.matched_text(alloc)?,
            rule: m.rule_index(),
        })?;
    }
    Ok(findings)
}
