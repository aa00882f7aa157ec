//! Rows of tokens on their way from a text's to a tree's, in one place, so that no second one is needed.
ghost use Rattle.std.specs.Prelude.{◌≡◌, ◌<◌, ◌+◌, ◌++◌, [], ◌∷◌, suc, length, IfSome, IfNone};
ghost use Rattle.ssr_syntax_rows.specs.Private.Packing.{PackingRows, packed_of};

use ssr_syntax_kinds::{TokenRow, TokenRows};
use std::marker::Model;

/// Packed rows at the front, and unread ones at the end. Between them is room for those that were read and aren't
/// packed, since some are joined.
#[derive(Drop)]
pub(crate) struct Packing {
    rows: TokenRows,
    /// How many rows are packed.
    packed: usize,
    /// Where the unread rows begin.
    unread: usize,
}

impl Model for Packing {
    ghost use Rattle.std.specs.Prelude.{◌≤◌, length};
    ghost use Rattle.ssr_syntax_rows.specs.Private.Packing.{PackingRows, packed_of};

    ghost Value = { PackingRows };

    ghost view = { λ p. packed_of p.rows p.packed p.unread };

    ghost invariant = { λ p. (p.packed ≤ p.unread) × (p.unread ≤ length p.rows) };
}

impl Packing {
    /// These rows, of which all are unread.
    pub(crate) fn new(rows: TokenRows) -> Packing
        ensures { result ≡ record { packed = []; unread = rows; room = 0 } }
    {
        Packing {
            rows,
            packed: 0,
            unread: 0,
        }
    }

    /// How many rows are packed.
    #[inline(always)]
    pub(crate) fn packed(&self) -> usize
        ensures { result ≡ length self.now.packed }
    {
        self.packed
    }

    /// Reads the first one of the unread rows.
    #[inline(always)]
    pub(crate) fn read(&mut self) -> Option<TokenRow>
        ensures all { IfNone result ((self.old.unread ≡ []) × (self.new ≡ self.old)) }
        ensures row { IfSome result (λ row. self.old.unread ≡ row ∷ self.new.unread) }
        ensures room { IfSome result (λ row. self.new.room ≡ suc self.old.room) }
        ensures packed { self.new.packed ≡ self.old.packed }
    {
        if self.unread == self.rows.len() {
            return None;
        }
        let row = self.rows.row(self.unread);
        self.unread += 1;
        Some(row)
    }

    /// Puts a row behind the packed ones.
    #[inline(always)]
    pub(crate) fn put(&mut self, row: TokenRow)
        requires { 0 < self.old.room }
        ensures packed { self.new.packed ≡ self.old.packed ++ row ∷ [] }
        ensures unread { self.new.unread ≡ self.old.unread }
        ensures room { self.new.room + 1 ≡ self.old.room }
    {
        self.rows.set(self.packed, row);
        self.packed += 1;
    }

    /// The packed rows; what is unread is dropped.
    pub(crate) fn finish(mut self) -> TokenRows
        ensures { result ≡ self.packed }
    {
        self.rows.truncate(self.packed);
        self.rows
    }
}
