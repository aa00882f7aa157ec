//! Whether changes of a part of a text leave what stands around them in this part as it was.
ghost use Rattle.std.specs.Prelude.{◌≡◌, ◌+◌, ◌<◌, ◌^◌, ◌∷◌, [], All, IfOk, IfSome, IsCharBoundary, Some, length, slice_range, string_bytes};
ghost use Rattle.ssr_base_trees.specs.Applied.{changes_of};
ghost use Rattle.ssr_base_trees.specs.Changes.{FitsText, replaced};
ghost use Rattle.ssr_standing.specs.Fitted.{change_with};
ghost use Rattle.ssr_standing.specs.Parts.{FitsPart, expression_of, stands_between};

use crate::agreeing::agree;
use crate::ranges::{new_ranges_from, old_ranges_from};
use ssr_syntax::{Fragment, Reach, SyntaxError, fragment_of};
use ssr_syntax_kinds::TextRange;
use ssr_syntax_tree::Tree;
use std::alloc::{AllocError, Global};

/// The bytes of a text from one place to another; none if these places are the other way round.
pub fn between(text: &str, from: u32, to: u32) -> &str
    requires from { IsCharBoundary text.now from }
    requires to { IsCharBoundary text.now to }
    ensures { result.now ≡ slice_range text.now from to }
{
    if to < from {
        return "";
    }
    &text[from as usize..to as usize]
}

/// The bytes of a text in a range, with changes made.
pub fn replaced(
    alloc: Global,
    text: &str,
    range: TextRange,
    changes: &[(TextRange, String)],
) -> Result<String, AllocError>
    requires start { IsCharBoundary text.now range.start }
    requires end { IsCharBoundary text.now range.end }
    requires changes { All (FitsText text.now) (changes_of changes.now) }
    ensures { IfOk result (λ new. string_bytes new ≡ replaced text.now range.start range.end (changes_of changes.now)) }
{
    let mut new = String::new(alloc);
    let mut at = range.start;
    for (change, written) in changes {
        new.push_str(between(text, at, change.start))?;
        new.push_str(written.as_str())?;
        at = change.end;
    }
    new.push_str(between(text, at, range.end))?;
    Ok(new)
}

/// What is read of an expression in a reach, with a text in front of it, if it is read. It is read in parentheses, in which comments
/// may stand around it.
pub fn expression_behind(
    alloc: Global,
    reach: Reach,
    front: &str,
    text: &str,
) -> Result<Option<Tree>, AllocError>
    ensures tree { IfOk result (λ tree. tree ≡ expression_of reach front.now text.now) }
    ensures short { IfOk result (λ tree. IfSome tree (λ _. 2 + length front.now + length text.now < 2 ^ 32)) }
{
    let closed = format!(in alloc; "({front}{text})")?;
    match fragment_of(alloc, reach, Fragment::Expr, closed.as_str()) {
        Ok((tree, _)) => Ok(Some(tree)),
        Err(SyntaxError::Memory) => Err(AllocError),
        Err(_) => Ok(None),
    }
}

/// A range of a text that is an expression behind a text in front, with what is read of it.
#[derive(Drop)]
pub struct Part<'a> {
    pub reach: Reach,
    pub front: &'a str,
    pub text: &'a str,
    pub range: TextRange,
    pub tree: Tree,
    ghost begins: { IsCharBoundary text.now range.start },
    ghost ends: { IsCharBoundary text.now range.end },
    ghost read: { expression_of reach front.now (slice_range text.now range.start range.end) ≡ Some tree },
    ghost short: { 2 + length front.now + length (slice_range text.now range.start range.end) < 2 ^ 32 },
}

impl<'a> Part<'a> {
    /// Whether the part with changes made is an expression that groups as before: what is read agrees around the changes.
    pub fn stands(&self, alloc: Global, changes: &[(TextRange, String)]) -> Result<bool, AllocError>
        requires { All (FitsPart self.now.text.now self.now.range) (changes_of changes.now) }
        ensures { IfOk result (λ answer. answer ≡ stands_between self.now.reach self.now.front.now self.now.text.now self.now.range.start self.now.range.end (changes_of changes.now)) }
    {
        let text = replaced(alloc, self.text, self.range, changes)?;
        let read = expression_behind(alloc, self.reach, self.front, text.as_str())?;
        let Some(new) = read else {
            return Ok(false);
        };
        let at = 1 + self.front.len() as u32;
        let from = self.range.start;
        let olds = old_ranges_from(alloc, changes, at, from)?;
        let news = new_ranges_from(alloc, changes, at, from)?;
        agree(alloc, &self.tree, &olds, &new, &news)
    }

    /// Whether one change stands.
    pub fn stands_with(
        &self,
        alloc: Global,
        range: TextRange,
        text: &str,
    ) -> Result<bool, AllocError>
        requires { FitsPart self.now.text.now self.now.range (change_with range text.now) }
        ensures { IfOk result (λ answer. answer ≡ stands_between self.now.reach self.now.front.now self.now.text.now self.now.range.start self.now.range.end (change_with range text.now ∷ [])) }
    {
        let mut changes = Vec::with_capacity(alloc, 1)?;
        changes.push((range, String::from_str(alloc, text)?))?;
        self.stands(alloc, &changes)
    }
}
