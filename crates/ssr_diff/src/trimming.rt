//! What differs between two places.
ghost use Rattle.std.specs.Prelude.{◌≡◌, MatchOption};
ghost use Rattle.ssr_diff.specs.Private.Writing.{AreInOrder, SameLines, IsTrimmed};

use crate::lines::Texts;
use crate::places::{Block, Place};

/// The lines between two places without those that begin or end both texts there; `None` where nothing differs.
pub(crate) fn trimmed(texts: &Texts<'_, '_>, from: Place, to: Place) -> Option<Block>
    requires { AreInOrder texts.now.old texts.now.new from to }
    ensures { MatchOption result (SameLines texts.now.old texts.now.new from to) (IsTrimmed texts.now.old texts.now.new from to) }
{
    let from = behind_same(texts, from, to);
    let to = before_same(texts, from, to);
    let block = Block { from, to };
    if block.is_empty() { None } else { Some(block) }
}

/// The place behind the lines with which both texts begin.
fn behind_same(texts: &Texts<'_, '_>, from: Place, to: Place) -> Place
    requires { AreInOrder texts.now.old texts.now.new from to }
    ensures same { SameLines texts.now.old texts.now.new from result }
    ensures left { AreInOrder texts.now.old texts.now.new result to }
{
    let mut at = from;
    while at.old < to.old && at.new < to.new && texts.agree_at(at) {
        at.old += 1;
        at.new += 1;
    }
    at
}

/// The place before the lines with which both texts end.
fn before_same(texts: &Texts<'_, '_>, from: Place, to: Place) -> Place
    requires { AreInOrder texts.now.old texts.now.new from to }
    ensures same { SameLines texts.now.old texts.now.new result to }
    ensures left { AreInOrder texts.now.old texts.now.new from result }
{
    let mut at = to;
    while from.old < at.old && from.new < at.new {
        let before = at.line_before();
        if !texts.agree_at(before) {
            return at;
        }
        at = before;
    }
    at
}
