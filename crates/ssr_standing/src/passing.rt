//! In which of the places that are replaced bytes lie that are asked for one after the other.
ghost use Rattle.std.specs.Prelude.{◌≡◌, map};
ghost use Rattle.ssr_syntax_tree.specs.Places.{HasElement, part_of};
ghost use Rattle.ssr_base_trees.specs.Origins.{plain_origin, span_of};
ghost use Rattle.ssr_standing.specs.Around.{has, hole_at, hole_of, passed};
ghost use Rattle.ssr_standing.specs.Expansions.{change_of, has_change, is_inside};
ghost use Rattle.ssr_standing.specs.Private.Passing.{is_clear};

use crate::holes::{hole_behind, passed_from};
use ssr_syntax_kinds::TextRange;
use ssr_syntax_tree::{Element, Tree};

/// Places, and how many of them are passed at a byte.
#[derive(Clone, Copy)]
pub(crate) struct Passing<'a> {
    places: &'a [TextRange],
    byte: u32,
    count: usize,
    ghost known: { count ≡ passed (map span_of places.now) byte },
}

/// Whether a range has the bytes of a place.
pub(crate) fn has(range: TextRange, place: TextRange) -> bool
    ensures { result ≡ has place.start place.end (span_of range) }
{
    range.start <= place.start && place.end <= range.end
}

/// Whether a call or a node has this place in it, and more.
pub(crate) fn is_inside(call: TextRange, place: TextRange) -> bool
    ensures { result ≡ is_inside (span_of call) (span_of place) }
{
    has(call, place) && !has(place, call)
}

impl<'a> Passing<'a> {
    /// The places, at the beginning of the text.
    pub(crate) fn new(places: &'a [TextRange]) -> Passing<'a>
        ensures { result.places.now ≡ places.entry.now }
    {
        let count = passed_from(places, 0, 0);
        Passing {
            places,
            byte: 0,
            count,
        }
    }

    /// How many places are passed at a byte. Those in front of the last byte that was asked for are looked at again only where this
    /// one stands in front of it.
    fn counted(&self, byte: u32) -> usize
        ensures { result ≡ passed (map span_of self.now.places.now) byte }
    {
        if byte < self.byte {
            return passed_from(self.places, 0, byte);
        }
        passed_from(self.places, self.count, byte)
    }

    /// The same, and the byte is the last one then.
    fn passed(&mut self, byte: u32) -> usize
        ensures count { result ≡ passed (map span_of self.new.places.now) byte }
        ensures places { self.new.places.now ≡ self.old.places.now }
    {
        let count = self.counted(byte);
        *self = Passing {
            places: self.places,
            byte,
            count,
        };
        count
    }

    /// The number of the place that has the origin of a token.
    pub(crate) fn change_of(&mut self, origin: Option<TextRange>) -> Option<usize>
        ensures answer { result ≡ change_of (map span_of self.new.places.now) (plain_origin origin) }
        ensures places { self.new.places.now ≡ self.old.places.now }
    {
        self.hole_at(origin?)
    }

    /// The number of the place in which the bytes of a range lie.
    pub(crate) fn hole_at(&mut self, range: TextRange) -> Option<usize>
        ensures answer { result ≡ hole_at (map span_of self.new.places.now) range.start range.end }
        ensures places { self.new.places.now ≡ self.old.places.now }
    {
        let number = self.passed(range.start);
        hole_behind(self.places, number, range)
    }

    /// The number of the place in which a part of a tree lies as a whole.
    pub(crate) fn hole_of(&mut self, tree: &Tree, part: Element) -> Option<usize>
        requires { HasElement tree.now part }
        ensures answer { result ≡ hole_of (map span_of self.new.places.now) tree.now (part_of tree.now part) }
        ensures places { self.new.places.now ≡ self.old.places.now }
    {
        match part {
            Element::Token(token) => self.hole_at(tree.token_range(token)),
            Element::Node(node) => self.hole_at(tree.range(node)),
        }
    }

    /// Whether no place has bytes of a range, begins where it ends, or ends in it.
    pub(crate) fn is_clear(&self, range: TextRange) -> bool
        ensures { result ≡ is_clear (map span_of self.now.places.now) range.start range.end }
    {
        match self.places.get(self.counted(range.start)) {
            Some(place) => range.end < place.start && range.end < place.end,
            None => true,
        }
    }

    /// Whether a call has one of the places in it, and more.
    pub(crate) fn has_change(&mut self, call: TextRange) -> bool
        ensures answer { result ≡ has_change (map span_of self.new.places.now) (span_of call) }
        ensures places { self.new.places.now ≡ self.old.places.now }
    {
        let number = self.passed(call.start);
        match self.places.get(number) {
            Some(place) => is_inside(call, *place),
            None => false,
        }
    }
}
