//! The lists of kept matches: those that one placeholder holds, and the outermost ones.

ghost use Rattle.std.specs.Prelude.{[], ◌≡◌, ◌<◌, ◌≤◌, All, IfOk, IsSortedByKey, None, Some, false, length, map, not, slice_get, true};
ghost use Rattle.std.specs.Cmp.Lexicographic.{slice_cmp};
ghost use Rattle.std.specs.List.{range_with_len};
ghost use Rattle.std.specs.List.Sorted.{IsPartitionPoint};
ghost use Rattle.std.specs.Ordering.{nat_cmp};
ghost use Rattle.ide_ssr_nesting.specs.Holding.{IsKept};
ghost use Rattle.ide_ssr_nesting.specs.Lists.{AreLists, holder_key, listed};
ghost use Rattle.ide_ssr_nesting.specs.Private.Rows.{IsRowOf, comes_before};

use crate::holders::Holder;
use crate::kept_matches::KeptMatches;
use ssr_base_trees::{FileId, FileRange};
use ssr_syntax_kinds::TextRange;
use std::alloc::{AllocError, Global};
use std::cmp::Ordering;
use std::marker::Model;

/// The place of a kept match, and the numbers by which the lists are sorted.
#[derive(Clone, Copy)]
pub(crate) struct Row {
    key: [usize; 9],
    place: usize,
}

/// All lists of kept matches, one behind another: first that of the outermost ones, then those of placeholders, by match and
/// binding.
#[derive(Drop)]
pub struct Lists {
    places: Vec<usize>,
    holders: Vec<Option<Holder>>,
}

impl Model for Lists {
    ghost use Rattle.ide_ssr_nesting.specs.Lists.{Listing};
    ghost use Rattle.ide_ssr_nesting.specs.KeptCode.{listing_code};
    ghost use Rattle.ide_ssr_nesting.specs.Private.Rows.{AreSorted};

    ghost Value = { Listing };

    ghost coded = { listing_code };

    ghost view = { λ lists. record { places = lists.places.items; holders = lists.holders.items } };

    ghost invariant = { λ lists. AreSorted (record { places = lists.places.items; holders = lists.holders.items }) };
}

/// The numbers by which the lists are sorted: the outermost matches come first, then those that a match holds, by its place
/// and that of the binding.
fn holder_key(holder: Option<Holder>) -> [usize; 3]
    ensures { result ≡ holder_key holder }
{
    match holder {
        Some(holder) => [1, holder.place, holder.binding],
        None => [0, 0, 0],
    }
}

/// Whether the list of one holder comes before that of the other.
fn comes_before(one: Option<Holder>, other: Option<Holder>) -> bool
    ensures { result ≡ comes_before one other }
{
    match (one, other) {
        (_, None) => false,
        (None, Some(_)) => true,
        (Some(one), Some(other)) => {
            one.place < other.place || one.place == other.place && one.binding < other.binding
        }
    }
}

/// How two rows stand in order: number by number.
fn compare(one: &Row, other: &Row) -> Ordering
    ensures { result ≡ slice_cmp nat_cmp one.now.key other.now.key }
{
    one.key.cmp(&other.key)
}

/// The row of the kept match at a place.
fn row_at(kept: &KeptMatches<'_>, place: usize) -> Row
    requires { place < length kept.now.matches }
    ensures row { IsRowOf kept.now result }
    ensures place { result.place ≡ place }
{
    let found = kept.get(place);
    let node = found.node();
    let [held, by, binding] = holder_key(kept.holder(place));
    let none = FileRange {
        file_id: FileId(0),
        range: TextRange::new(0, 0),
    };
    let range = kept.workspace().original_range(node).unwrap_or(none);
    Row {
        key: [
            held,
            by,
            binding,
            range.file_id.0 as usize,
            range.range.start as usize,
            range.range.end as usize,
            found.rule(),
            node.tree as usize,
            node.node.0 as usize,
        ],
        place,
    }
}

/// The rows of all kept matches.
fn rows(alloc: Global, kept: &KeptMatches<'_>) -> Result<Vec<Row>, AllocError>
    ensures kept { IfOk result (λ _. IsKept kept.now) }
    ensures each { IfOk result (λ rows. All (IsRowOf kept.now) rows.items) }
    ensures places { IfOk result (λ rows. map (λ row. row.place) rows.items ≡ range_with_len 0 (length kept.now.matches)) }
{
    let mut rows = Vec::with_capacity(alloc, kept.len())?;
    for place in 0..kept.len() {
        rows.push(row_at(kept, place))?;
    }
    Ok(rows)
}

impl Lists {
    /// The lists of rows that are sorted.
    fn of_rows(alloc: Global, kept: &KeptMatches<'_>, rows: &[Row]) -> Result<Lists, AllocError>
        requires rows { All (IsRowOf kept.now) rows.now }
        requires in_order { IsSortedByKey (λ row. row.key) (slice_cmp nat_cmp) rows.now }
        ensures places { IfOk result (λ lists. lists.places ≡ map (λ row. row.place) rows.now) }
        ensures beside { IfOk result (λ lists. map Some lists.holders ≡ map (slice_get kept.now.holders) lists.places) }
    {
        let mut places = Vec::with_capacity(alloc, rows.len())?;
        let mut holders = Vec::with_capacity(alloc, rows.len())?;
        for row in rows {
            places.push(row.place)?;
            holders.push(kept.holder(row.place))?;
        }
        Ok(Lists { places, holders })
    }

    /// The lists of kept matches.
    pub fn new(alloc: Global, kept: &KeptMatches<'_>) -> Result<Lists, AllocError>
        ensures { IfOk result (λ lists. AreLists kept.now lists) }
    {
        let mut rows = rows(alloc, kept)?;
        rows.sort_unstable_by(|one, other| compare(one, other));
        let lists = Lists::of_rows(alloc, kept, &rows)?;
        Ok(lists)
    }

    /// The places of the outermost matches: by file, start and end of the original range, rule, tree and node.
    pub fn outermost(&self) -> &[usize]
        ensures { result.now ≡ listed self.now None }
    {
        self.list(None)
    }

    /// The places of the matches that a match holds by one of its bindings: by file, start and end of the original range, rule,
    /// tree and node.
    pub fn under(&self, place: usize, binding: usize) -> &[usize]
        ensures { result.now ≡ listed self.now (Some (record { place = place; binding = binding })) }
    {
        self.list(Some(Holder { place, binding }))
    }

    /// Whether all lists that have a place come before that of a holder, as those of outermost matches do.
    fn are_before(&self, holder: Option<Holder>) -> bool
        ensures { result ≡ true → listed self.now holder ≡ [] }
    {
        if self.holders.is_empty() {
            return false;
        }
        let last = self.holders.len() - 1;
        comes_before(self.holders[last], holder)
    }

    /// The list of a holder: the lists stand one behind another, in the order of their holders.
    fn list(&self, holder: Option<Holder>) -> &[usize]
        ensures { result.now ≡ listed self.now holder }
    {
        if self.are_before(holder) {
            return &[];
        }
        let start = self.start_of(holder);
        let end = self.end_of(holder);
        &self.places[start..end]
    }

    /// How many places stand in lists before that of a holder.
    fn start_of(&self, holder: Option<Holder>) -> usize
        ensures bound { result ≤ length self.now.holders }
        ensures point { IsPartitionPoint (λ other. comes_before other holder ≡ true) (λ other. comes_before other holder ≡ false) self.now.holders result }
    {
        self.holders
            .partition_point(|other| comes_before(*other, holder))
    }

    /// How many places stand in the list of a holder and in those before it.
    fn end_of(&self, holder: Option<Holder>) -> usize
        ensures bound { result ≤ length self.now.holders }
        ensures point { IsPartitionPoint (λ other. not (comes_before holder other) ≡ true) (λ other. not (comes_before holder other) ≡ false) self.now.holders result }
    {
        self.holders
            .partition_point(|other| !comes_before(holder, *other))
    }
}
