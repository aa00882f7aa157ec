//! In which of the places that are replaced the parts of a tree lie.
ghost use Rattle.std.specs.Prelude.{◌≡◌, ◌+◌, ◌≤◌, IfOk, drop, map};
ghost use Rattle.ssr_syntax_tree.specs.Syntax.{token_count};
ghost use Rattle.ssr_syntax_tree.specs.Places.{HasElement, offset_of, part_of};
ghost use Rattle.ssr_base_trees.specs.Origins.{span_of};
ghost use Rattle.ssr_standing.specs.Around.{hole_at, hole_of, passed};
ghost use Rattle.ssr_standing.specs.Private.Holes.{AreAllPassed};

use ssr_syntax_kinds::TextRange;
use ssr_syntax_tree::{Element, NodeNo, TokenNo, Tree};
use std::alloc::{AllocError, Global};

/// A tree, and the places of its text that are replaced.
#[derive(Drop)]
pub(crate) struct Holes<'a> {
    tree: &'a Tree,
    places: &'a [TextRange],
    /// How many places are passed where each token begins, and where the text ends.
    passed: Vec<usize>,
    ghost known: { AreAllPassed tree.now (map span_of places.now) passed.items },
}

/// How many places are passed at a byte, where so many are known to be.
pub(crate) fn passed_from(places: &[TextRange], known: usize, byte: u32) -> usize
    requires { known + passed (drop known (map span_of places.now)) byte ≡ passed (map span_of places.now) byte }
    ensures { result ≡ passed (map span_of places.now) byte }
{
    let mut count = known;
    while let Some(place) = places.get(count) {
        if byte < place.end {
            break;
        }
        count += 1;
    }
    count
}

/// The number of the place in which the bytes of a range lie, at whose beginning so many are passed.
pub(crate) fn hole_behind(places: &[TextRange], number: usize, range: TextRange) -> Option<usize>
    requires { number ≡ passed (map span_of places.now) range.start }
    ensures { result ≡ hole_at (map span_of places.now) range.start range.end }
{
    let place = places.get(number)?;
    if place.start <= range.start && range.end <= place.end {
        Some(number)
    } else {
        None
    }
}

/// How many places are passed where each token begins, and where the text ends.
fn passed_at_tokens(
    alloc: Global,
    tree: &Tree,
    places: &[TextRange],
) -> Result<Vec<usize>, AllocError>
    ensures { IfOk result (λ table. AreAllPassed tree.now (map span_of places.now) table.items) }
{
    let mut table = Vec::with_capacity(alloc, tree.token_count() as usize + 1)?;
    let mut count = 0;
    for number in 0..tree.token_count() {
        count = passed_from(places, count, tree.token_range(TokenNo(number)).start);
        table.push(count)?;
    }
    table.push(passed_from(places, count, tree.range(NodeNo(0)).end))?;
    Ok(table)
}

impl<'a> Holes<'a> {
    /// The tree with these places.
    pub(crate) fn new(
        alloc: Global,
        tree: &'a Tree,
        places: &'a [TextRange],
    ) -> Result<Holes<'a>, AllocError>
        ensures tree { IfOk result (λ holes. holes.tree.now ≡ tree.entry.now) }
        ensures places { IfOk result (λ holes. holes.places.now ≡ places.entry.now) }
    {
        let passed = passed_at_tokens(alloc, tree, places)?;
        Ok(Holes {
            tree,
            places,
            passed,
        })
    }

    /// The tree.
    pub(crate) fn tree(&self) -> &'a Tree
        ensures { result.now ≡ self.now.tree.now }
    {
        self.tree
    }

    /// The number of the place in which the bytes of a range lie that begins with this token.
    fn hole_at(&self, first: u32, range: TextRange) -> Option<usize>
        requires within { first ≤ token_count self.now.tree.now.children }
        requires start { range.start ≡ offset_of self.now.tree.now first }
        ensures { result ≡ hole_at (map span_of self.now.places.now) range.start range.end }
    {
        hole_behind(self.places, self.passed[first as usize], range)
    }

    /// The number of the place in which a part of the tree lies as a whole.
    pub(crate) fn hole_of(&self, part: Element) -> Option<usize>
        requires { HasElement self.now.tree.now part }
        ensures { result ≡ hole_of (map span_of self.now.places.now) self.now.tree.now (part_of self.now.tree.now part) }
    {
        match part {
            Element::Token(token) => self.hole_at(token.0, self.tree.token_range(token)),
            Element::Node(node) => {
                self.hole_at(self.tree.tokens_below(node).start, self.tree.range(node))
            }
        }
    }
}
