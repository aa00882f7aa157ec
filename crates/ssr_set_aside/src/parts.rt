//! What the changes of a text set aside, by its tokens.
ghost use Rattle.std.specs.Prelude.{◌≡◌, ◌∷◌, IfOk, IfSome, IsTrue, List, drop, map, slice_range, string_bytes};
ghost use Rattle.ssr_base_trees.specs.Applied.{change_of, changes_of};
ghost use Rattle.ssr_base_trees.specs.Changes.{Change};
ghost use Rattle.ssr_base_trees.specs.Origins.{span_of};
ghost use Rattle.ssr_set_aside.specs.Parts.{AreOfTokens, IsFront, IsRun, IsToken, filled as filled_of, solid as solid_of};

use crate::forms::is_of;
use crate::fronts::{blanked, front};
use crate::units::{are_bytes, are_units};
use ssr_drafts::{Form, Part, Unit};
use ssr_syntax_kinds::TextRange;
use ssr_syntax_lex::RawToken;
use std::alloc::{AllocError, Global};

/// A text, the same with blanks for its front, and the tokens of that, which are neither white space nor comments.
#[derive(Clone, Copy)]
pub(crate) struct Cut<'a> {
    pub(crate) text: &'a str,
    pub(crate) plain: &'a str,
    pub(crate) tokens: &'a [RawToken],
}

/// The tokens that are neither white space nor comments.
pub(crate) fn solid(alloc: Global, tokens: &[RawToken]) -> Result<Vec<RawToken>, AllocError>
    ensures { IfOk result (λ v. v.items ≡ solid_of tokens.now) }
{
    let mut kept = Vec::new(alloc);
    let mut rest = tokens;
    while let Some((first, after)) = rest.split_first() {
        if !first.kind.is_trivia() {
            kept.push(*first)?;
        }
        rest = after;
    }
    Ok(kept)
}

/// Whether each change sets aside the part that is told of it, and these are the bytes of those of units, in order.
pub(crate) fn are_of_tokens(
    alloc: Global,
    cut: &Cut,
    changes: &[(TextRange, String)],
    parts: &[Part],
    unsearched: &[TextRange],
) -> Result<bool, AllocError>
    ensures { IfOk result (λ yes. IsTrue yes
        → AreOfTokens cut.now.text.now cut.now.plain.now cut.now.tokens.now (changes_of changes.now) (map span_of unsearched.now)) }
{
    let mut told = parts;
    let mut wanted = unsearched;
    for change in changes {
        let Some((part, others)) = told.split_first() else {
            return Ok(false);
        };
        let Some(left) = behind_part(alloc, cut, change, part, wanted)? else {
            return Ok(false);
        };
        told = others;
        wanted = left;
    }
    Ok(wanted.is_empty())
}

/// If a change sets aside this part: the ranges behind the first one, where the part is of units with that range, else all of them.
fn behind_part<'a>(
    alloc: Global,
    cut: &Cut,
    change: &(TextRange, String),
    part: &Part,
    ranges: &'a [TextRange],
) -> Result<Option<&'a [TextRange]>, AllocError>
    ensures { IfOk result (λ answer. IfSome answer (λ left. (cs : List Change)
        → AreOfTokens cut.now.text.now cut.now.plain.now cut.now.tokens.now cs (map span_of left.now)
        → AreOfTokens cut.now.text.now cut.now.plain.now cut.now.tokens.now (change_of change.now ∷ cs) (map span_of ranges.now))) }
{
    match part {
        Part::Front => Ok(ranges_if(is_front(alloc, cut.text, change)?, ranges)),
        Part::Token(place, form) => {
            Ok(ranges_if(is_token(alloc, cut, *place, *form, change)?, ranges))
        }
        Part::Units(units) => match ranges.split_first() {
            Some((first, others)) => {
                Ok(ranges_if(
                    is_run(alloc, cut, units.as_slice(), *first, change)?,
                    others,
                ))
            }
            None => Ok(None),
        },
    }
}

/// The ranges, if a test holds.
fn ranges_if(holds: bool, ranges: &[TextRange]) -> Option<&[TextRange]>
    ensures { IfSome result (λ left. IsTrue holds × (left.now ≡ ranges.now)) }
{
    if holds { Some(ranges) } else { None }
}

/// Whether a change leaves blanks for what stands in front of all tokens.
fn is_front(alloc: Global, text: &str, change: &(TextRange, String)) -> Result<bool, AllocError>
    ensures { IfOk result (λ yes. IsTrue yes → IsFront text.now (change_of change.now)) }
{
    let (range, new) = change;
    let front = front(text);
    let blanks = blanked(alloc, front)?;
    Ok(range.start == 0 && range.end as usize == front.len() && new.as_bytes() == blanks.as_bytes())
}

/// Whether a change is that of the token at a place, as one of a form.
fn is_token(
    alloc: Global,
    cut: &Cut,
    place: usize,
    form: Form,
    change: &(TextRange, String),
) -> Result<bool, AllocError>
    ensures { IfOk result (λ yes. IsTrue yes → IsToken cut.now.plain.now cut.now.tokens.now place form (change_of change.now)) }
{
    let (range, new) = change;
    match cut.tokens.get(place) {
        Some(token) if is_range_of(*range, token) && is_of(form, cut.tokens, place) => {
            is_filled(alloc, cut.plain, *range, form.word(), new.as_str())
        }
        _ => Ok(false),
    }
}

/// Whether a range is that of a whole token.
fn is_range_of(range: TextRange, token: &RawToken) -> bool
    ensures { IsTrue result → (range.start ≡ token.now.range.start) × (range.end ≡ token.now.range.end) }
{
    range.start == token.range.start && range.end == token.range.end
}

/// Whether a change leaves blanks for these bytes, which are those of units that aren't read.
fn is_run(
    alloc: Global,
    cut: &Cut,
    units: &[Unit],
    bytes: TextRange,
    change: &(TextRange, String),
) -> Result<bool, AllocError>
    ensures { IfOk result (λ yes. IsTrue yes → IsRun cut.now.plain.now cut.now.tokens.now (span_of bytes) (change_of change.now)) }
{
    let (Some(first), Some(last)) = (units.first(), units.last()) else {
        return Ok(false);
    };
    let (range, new) = change;
    if range.start != bytes.start
        || range.end != bytes.end
        || !are_bytes(cut.tokens, first.from, last.to, bytes)
        || !is_filled(alloc, cut.plain, bytes, "", new.as_str())?
    {
        return Ok(false);
    }
    are_units(alloc, cut.plain, cut.tokens, units, first.from, last.to)
}

/// Whether a text has a word, and blanks for the further bytes that another text has at a range.
fn is_filled(
    alloc: Global,
    text: &str,
    range: TextRange,
    word: &str,
    new: &str,
) -> Result<bool, AllocError>
    ensures { IfOk result (λ yes. IsTrue yes → new.now ≡ filled_of word.now (slice_range text.now range.start range.end)) }
{
    let bytes = text.as_bytes();
    let Some(old) = bytes.get(range.start as usize..range.end as usize) else {
        return Ok(false);
    };
    let made = filled(alloc, word, old)?;
    Ok(is_same(new, made.as_str()))
}

/// Whether two texts are the same.
fn is_same(one: &str, other: &str) -> bool
    ensures { IsTrue result → one.now ≡ other.now }
{
    one.as_bytes() == other.as_bytes()
}

/// A word, and blanks for the further bytes of others.
fn filled(alloc: Global, word: &str, old: &[u8]) -> Result<String, AllocError>
    ensures { IfOk result (λ new. string_bytes new ≡ filled_of word.now old.now) }
{
    let mut new = String::from_str(alloc, word)?;
    let further = blanked(alloc, behind(old, word.len()))?;
    new.push_str(further.as_str())?;
    Ok(new)
}

/// The bytes behind the first ones.
#[tactic(auto, using(std::proofs::lemmas::List::drop_all))]
fn behind(bytes: &[u8], count: usize) -> &[u8]
    ensures { result.now ≡ drop count bytes.now }
{
    if count <= bytes.len() {
        &bytes[count..]
    } else {
        &[]
    }
}
