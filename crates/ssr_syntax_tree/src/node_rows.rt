//! The rows of a tree's nodes, in two vectors: their kinds, and their places.
ghost use Rattle.std.specs.Prelude.{◌≡◌, ◌<◌, ◌++◌, [], ◌∷◌, Some, length, map, slice_get, slice_set, IfOk, MatchResult};

use crate::rows::NodeRow;
use ssr_syntax_kinds::SyntaxKind;
use std::alloc::{AllocError, Global};
use std::marker::Model;

/// A row without the kind.
#[derive(Clone, Copy)]
struct NodePlace {
    parent: u32,
    first: u32,
    past: u32,
    below: u32,
}

/// Rows of nodes. The kinds stand apart, so that whoever looks for a kind reads no more than those.
#[derive(Drop)]
pub struct NodeRows {
    kinds: Vec<SyntaxKind>,
    places: Vec<NodePlace>,
}

impl Model for NodeRows {
    ghost use Rattle.std.specs.Prelude.{List};
    ghost use Rattle.ssr_syntax_tree.specs.declared.rows.NodeRow.{NodeRow};
    ghost use Rattle.ssr_syntax_tree.specs.Private.NodeRows.{rows_of, AreBeside};

    ghost Value = { List NodeRow };

    ghost view = { rows_of };

    ghost invariant = { AreBeside };
}

/// A row's place.
fn place_of(row: NodeRow) -> NodePlace
    ensures { result ≡ record { parent = row.parent; first = row.first; past = row.past; below = row.below } }
{
    NodePlace {
        parent: row.parent,
        first: row.first,
        past: row.past,
        below: row.below,
    }
}

impl NodeRows {
    /// No rows, with room for so many.
    pub fn with_capacity(alloc: Global, count: usize) -> Result<NodeRows, AllocError>
        ensures { IfOk result (λ rows. rows ≡ []) }
    {
        Ok(NodeRows {
            kinds: Vec::with_capacity(alloc, count)?,
            places: Vec::with_capacity(alloc, count)?,
        })
    }

    /// Puts a row behind the others. Where memory runs out, nothing changes.
    pub fn push(&mut self, row: NodeRow) -> Result<(), AllocError>
        ensures { MatchResult result (λ _. self.new ≡ self.old ++ row ∷ []) (λ _. self.new ≡ self.old) }
    {
        self.kinds.push(row.kind)?;
        match self.places.push(place_of(row)) {
            Ok(()) => Ok(()),
            Err(failed) => {
                self.kinds.pop();
                Err(failed.into())
            }
        }
    }

    /// How many rows there are.
    #[inline(always)]
    pub fn len(&self) -> usize
        ensures { result ≡ length self.now }
    {
        self.kinds.len()
    }

    /// The row of that number, counted from 0.
    #[inline(always)]
    pub fn row(&self, number: usize) -> NodeRow
        requires { number < length self.now }
        ensures { slice_get self.now number ≡ Some result }
    {
        let place = self.places[number];
        NodeRow {
            kind: self.kinds[number],
            parent: place.parent,
            first: place.first,
            past: place.past,
            below: place.below,
        }
    }

    /// The kind of that row.
    pub fn kind(&self, number: usize) -> SyntaxKind
        requires { number < length self.now }
        ensures { slice_get (map (λ row. row.kind) self.now) number ≡ Some result }
    {
        self.kinds()[number]
    }

    /// The kinds in order.
    pub fn kinds(&self) -> &[SyntaxKind]
        ensures { result.now ≡ map (λ row. row.kind) self.now }
    {
        self.kinds.as_slice()
    }

    /// Puts another row in the place of that number.
    #[inline(always)]
    pub fn set(&mut self, number: usize, row: NodeRow)
        requires { number < length self.old }
        ensures { self.new ≡ slice_set self.old number row }
    {
        self.kinds[number] = row.kind;
        self.places[number] = place_of(row);
    }
}
