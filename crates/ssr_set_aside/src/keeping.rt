//! Changes that keep the place of each byte outside of them, their reaches, and those that leave blanks.
ghost use Rattle.std.specs.Prelude.{◌≡◌, ◌∷◌, IsTrue, List, All, map};
ghost use Rattle.std.specs.List.{list_all};
ghost use Rattle.ssr_base_trees.specs.Changes.{Change, ChangesInOrder};
ghost use Rattle.ssr_base_trees.specs.Applied.{change_of, changes_of};
ghost use Rattle.ssr_base_trees.specs.Origins.{span_of};
ghost use Rattle.ssr_set_aside.specs.SetAside.{AreBlanked, AreCovered, BeginInOrder, IsBlanked, KeepsLength, is_blank as is_blank_of};

use ssr_syntax_kinds::TextRange;

/// Whether changes are in order, share no byte, and each has a text of as many bytes as it replaces.
pub(crate) fn keep_places(changes: &[(TextRange, String)]) -> bool
    ensures order { IsTrue result → ChangesInOrder 0 (changes_of changes.now) }
    ensures lengths { IsTrue result → All KeepsLength (changes_of changes.now) }
{
    let mut end = 0;
    for (range, text) in changes {
        if range.start < end || text.len() != range.len() as usize {
            return false;
        }
        end = range.end;
    }
    true
}

/// Whether each change has its reach, which covers it, and the reaches are in the order of where they begin.
pub(crate) fn cover(changes: &[(TextRange, String)], reaches: &[TextRange]) -> bool
    ensures covered { IsTrue result → AreCovered (changes_of changes.now) (map span_of reaches.now) }
    ensures order { IsTrue result → BeginInOrder 0 (map span_of reaches.now) }
{
    let mut left = reaches;
    let mut from = 0;
    for (range, _) in changes {
        let Some((reach, others)) = left.split_first() else {
            return false;
        };
        if reach.start < from || range.start < reach.start || reach.end < range.end {
            return false;
        }
        from = reach.start;
        left = others;
    }
    left.is_empty()
}

/// Whether each of these ranges is that of a change that leaves blanks, in the order of the changes.
pub(crate) fn are_blanked(changes: &[(TextRange, String)], ranges: &[TextRange]) -> bool
    ensures { IsTrue result → AreBlanked (changes_of changes.now) (map span_of ranges.now) }
{
    let mut wanted = ranges;
    for change in changes {
        wanted = behind_blanked(wanted, change);
    }
    wanted.is_empty()
}

/// The ranges behind the first one, if this change leaves blanks there; else all of them.
#[tactic(auto, using(crate::proofs::KeptPlaces::blanked_from, crate::proofs::KeptPlaces::blanked_later))]
fn behind_blanked<'a>(ranges: &'a [TextRange], change: &(TextRange, String)) -> &'a [TextRange]
    ensures { (cs : List Change) → AreBlanked cs (map span_of result.now) → AreBlanked (change_of change.now ∷ cs) (map span_of ranges.now) }
{
    match ranges.split_first() {
        Some((first, others)) if leaves_blanks(change, first) => others,
        _ => ranges,
    }
}

/// Whether a change replaces these bytes, by blanks alone.
fn leaves_blanks(change: &(TextRange, String), bytes: &TextRange) -> bool
    ensures { IsTrue result → IsBlanked (span_of bytes.now) (change_of change.now) }
{
    let (range, text) = change;
    bytes.start == range.start && bytes.end == range.end && is_blank(text.as_str())
}

/// Whether a text has no bytes but blanks and line breaks.
fn is_blank(text: &str) -> bool
    ensures { result ≡ list_all is_blank_of text.now }
{
    text.as_bytes()
        .iter()
        .all(|byte| *byte == b' ' || *byte == b'\n')
}
