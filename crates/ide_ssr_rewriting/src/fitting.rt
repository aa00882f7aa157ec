//! Which replacements in what a placeholder holds are put in parentheses, so that it groups as before.

ghost use Rattle.std.specs.Prelude.{◌≡◌, All, IfOk, IsCharBoundary, map, string_bytes};
ghost use Rattle.ssr_base_trees.specs.Applied.{changes_of};
ghost use Rattle.ssr_standing.specs.Fitted.{change_with};
ghost use Rattle.ssr_standing.specs.Parts.{FitsPart};
ghost use Rattle.ide_ssr_rewriting.specs.Fitting.{fitted_alone, fitted_between, is_alone};
ghost use Rattle.ide_ssr_rewriting.specs.Private.Fitting.{stands_alone};

use ssr_standing::{Part, between, expression_behind, in_parentheses};
use ssr_syntax_kinds::{Reach, TextRange};
use std::alloc::{AllocError, Global};

/// Whether there is no change, or nothing around it: it has the whole range, and no text stands in front.
fn is_alone(front: &str, range: TextRange, changes: &[(TextRange, String)]) -> bool
    ensures { result ≡ is_alone front.now range.start range.end (changes_of changes.now) }
{
    if changes.len() > 1 {
        return false;
    }
    match changes.first() {
        Some((change, _)) => {
            front.is_empty() && change.start == range.start && change.end == range.end
        }
        None => true,
    }
}

/// The text of a change of a part as it stands alone: as it is, or else in parentheses. What stands neither way stays as it is.
fn fitted_alone(
    alloc: Global,
    part: &Part<'_>,
    range: TextRange,
    text: &str,
) -> Result<String, AllocError>
    requires { FitsPart part.now.text.now part.now.range (change_with range text.now) }
    ensures { IfOk result (λ new. change_with range (string_bytes new) ≡ fitted_alone (stands_alone part.now) (change_with range text.now)) }
{
    if part.stands_with(alloc, range, text)? {
        return String::from_str(alloc, text);
    }
    let wrapped = in_parentheses(alloc, text)?;
    if part.stands_with(alloc, range, wrapped.as_str())? {
        return Ok(wrapped);
    }
    String::from_str(alloc, text)
}

/// Each of the changes of a part as it stands alone.
fn each_fitted(
    alloc: Global,
    part: &Part<'_>,
    changes: &[(TextRange, String)],
) -> Result<Vec<(TextRange, String)>, AllocError>
    requires { All (FitsPart part.now.text.now part.now.range) (changes_of changes.now) }
    ensures { IfOk result (λ fitted. changes_of fitted.items ≡ map (fitted_alone (stands_alone part.now)) (changes_of changes.now)) }
{
    let mut fitted = Vec::with_capacity(alloc, changes.len())?;
    for (range, text) in changes {
        let fit = fitted_alone(alloc, part, *range, text.as_str())?;
        fitted.push((*range, fit))?;
    }
    Ok(fitted)
}

/// The changes that are made in a range of a text, behind a text in front: as they are, if the range groups as before with all of them,
/// else each as it stands alone. Around a change of the whole range nothing stands, and nothing is read then. What isn't an expression
/// isn't judged.
pub(crate) fn fitted(
    alloc: Global,
    reach: Reach,
    front: &str,
    text: &str,
    range: TextRange,
    changes: Vec<(TextRange, String)>,
) -> Result<Vec<(TextRange, String)>, AllocError>
    requires begins { IsCharBoundary text.now range.start }
    requires ends { IsCharBoundary text.now range.end }
    requires changes { All (FitsPart text.now range) (changes_of changes.items) }
    ensures { IfOk result (λ fitted. changes_of fitted.items ≡ fitted_between reach front.now text.now range.start range.end (changes_of changes.items)) }
{
    if is_alone(front, range, &changes) {
        return Ok(changes);
    }
    let held = between(text, range.start, range.end);
    let read = expression_behind(alloc, reach, front, held)?;
    let Some(tree) = read else {
        return Ok(changes);
    };
    let part = Part {
        reach,
        front,
        text,
        range,
        tree,
    };
    if part.stands(alloc, &changes)? {
        return Ok(changes);
    }
    each_fitted(alloc, &part, &changes)
}
