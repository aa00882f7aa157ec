//! Rows on their way from the parser's order to preorder, in one place, so that no second one is needed.
ghost use Rattle.std.specs.Prelude.{◌≡◌, ◌<◌, ◌+◌, ◌++◌, [], ◌∷◌, suc, length, reverse, IfSome, IfNone};
ghost use Rattle.ssr_syntax_rows.specs.Private.Turning.{TurningRows, turned_of};

use ssr_syntax_tree::{NodeRow, NodeRows};
use std::marker::Model;

/// Unread rows at the front, and turned ones at the end. Between them is room for those that were read
/// and aren't turned yet.
#[derive(Drop)]
pub(crate) struct Turning {
    rows: NodeRows,
    /// How many rows are unread.
    unread: usize,
    /// Where the turned rows begin.
    turned: usize,
}

impl Model for Turning {
    ghost use Rattle.std.specs.Prelude.{◌≤◌, length};
    ghost use Rattle.ssr_syntax_rows.specs.Private.Turning.{TurningRows, turned_of};

    ghost Value = { TurningRows };

    ghost view = { λ t. turned_of t.rows t.unread t.turned };

    ghost invariant = { λ t. (t.unread ≤ t.turned) × (t.turned ≤ length t.rows) };
}

impl Turning {
    /// These rows, of which all are unread.
    pub(crate) fn new(rows: NodeRows) -> Turning
        ensures { result ≡ record { unread = rows; turned = []; room = 0 } }
    {
        let count = rows.len();
        Turning {
            rows,
            unread: count,
            turned: count,
        }
    }

    /// How many rows are unread.
    #[inline(always)]
    pub(crate) fn unread(&self) -> usize
        ensures { result ≡ length self.now.unread }
    {
        self.unread
    }

    /// Reads the last one of the unread rows.
    #[inline(always)]
    pub(crate) fn read(&mut self) -> Option<NodeRow>
        ensures all { IfNone result ((self.old.unread ≡ []) × (self.new ≡ self.old)) }
        ensures row { IfSome result (λ row. self.old.unread ≡ self.new.unread ++ row ∷ []) }
        ensures room { IfSome result (λ row. self.new.room ≡ suc self.old.room) }
        ensures turned { self.new.turned ≡ self.old.turned }
    {
        if self.unread == 0 {
            return None;
        }
        self.unread -= 1;
        Some(self.rows.row(self.unread))
    }

    /// Puts a row in front of the turned ones.
    #[inline(always)]
    pub(crate) fn put(&mut self, row: NodeRow)
        requires { 0 < self.old.room }
        ensures unread { self.new.unread ≡ self.old.unread }
        ensures turned { self.new.turned ≡ self.old.turned ++ row ∷ [] }
        ensures room { self.new.room + 1 ≡ self.old.room }
    {
        self.turned -= 1;
        self.rows.set(self.turned, row);
    }

    /// All rows, when they are turned.
    pub(crate) fn finish(self) -> NodeRows
        requires read { self.unread ≡ [] }
        requires full { self.room ≡ 0 }
        ensures { result ≡ reverse self.turned }
    {
        self.rows
    }
}
