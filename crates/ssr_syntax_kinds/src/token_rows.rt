//! The rows of a text's tokens: five bytes for each.

ghost use Rattle.std.specs.Prelude.{◌≡◌, ◌<◌, ◌∷◌, ◌++◌, [], length, map, take, slice_get, slice_set, Some, ◌==◌, MatchResult};
ghost use Rattle.std.specs.Simd.Lanes.{zip2};
ghost use Rattle.ssr_syntax_kinds.specs.TokenRows.{row_with};

use crate::kinds::SyntaxKind;
use std::alloc::{AllocError, Global};
use std::marker::Model;

/// The row of a token: its kind, and where it begins, in bytes. It ends where the next one begins.
#[derive(Clone, Copy)]
pub struct TokenRow {
    pub kind: SyntaxKind,
    pub start: u32,
}

/// Rows in order. The kinds and the starts lie apart, so that none of their bytes is lost.
#[derive(Drop)]
pub struct TokenRows {
    kinds: Vec<SyntaxKind>,
    starts: Vec<u32>,
}

impl Model for TokenRows {
    ghost use Rattle.std.specs.Prelude.{List};
    ghost use Rattle.ssr_syntax_kinds.specs.declared.token_rows.TokenRow.{TokenRow};

    ghost Value = { List TokenRow };

    ghost use Rattle.ssr_syntax_kinds.specs.Private.TokenRows.{rows_of, AreBeside};

    ghost view = { rows_of };

    ghost invariant = { AreBeside };
}

impl TokenRows {
    /// No rows.
    pub fn new(alloc: Global) -> TokenRows
        ensures { result ≡ [] }
    {
        TokenRows {
            kinds: Vec::new(alloc),
            starts: Vec::new(alloc),
        }
    }

    /// The rows of tokens of these kinds, which begin there.
    pub fn from_columns(kinds: Vec<SyntaxKind>, starts: Vec<u32>) -> TokenRows
        requires { length kinds.items ≡ length starts.items }
        ensures { result ≡ zip2 row_with kinds.items starts.items }
    {
        TokenRows { kinds, starts }
    }

    /// How many rows there are.
    pub fn len(&self) -> usize
        ensures { result ≡ length self.now }
    {
        self.kinds.len()
    }

    /// Whether there is no row.
    pub fn is_empty(&self) -> bool
        ensures { result ≡ (length self.now == 0) }
    {
        self.kinds.is_empty()
    }

    /// The row of that number, counted from 0.
    pub fn get(&self, number: usize) -> Option<TokenRow>
        ensures { result ≡ slice_get self.now number }
    {
        if number < self.len() {
            Some(self.row(number))
        } else {
            None
        }
    }

    /// The row of that number, which is less than `len`.
    pub fn row(&self, number: usize) -> TokenRow
        requires { number < length self.now }
        ensures { slice_get self.now number ≡ Some result }
    {
        TokenRow {
            kind: self.kinds[number],
            start: self.starts[number],
        }
    }

    /// The kinds in order.
    pub fn kinds(&self) -> &[SyntaxKind]
        ensures { result.now ≡ map (λ row. row.kind) self.now }
    {
        self.kinds.as_slice()
    }

    /// Puts a row behind the others. Where memory runs out, nothing changes.
    pub fn push(&mut self, row: TokenRow) -> Result<(), AllocError>
        ensures { MatchResult result (λ _. self.new ≡ self.old ++ row ∷ []) (λ _. self.new ≡ self.old) }
    {
        self.kinds.push(row.kind)?;
        match self.starts.push(row.start) {
            Ok(()) => Ok(()),
            Err(failed) => {
                self.kinds.pop();
                Err(failed.into())
            }
        }
    }

    /// Puts another row in the place of that number.
    pub fn set(&mut self, number: usize, row: TokenRow)
        requires { number < length self.old }
        ensures { self.new ≡ slice_set self.old number row }
    {
        self.kinds[number] = row.kind;
        self.starts[number] = row.start;
    }

    /// Drops all rows but the first `count`.
    pub fn truncate(&mut self, count: usize)
        ensures { self.new ≡ take count self.old }
    {
        self.kinds.truncate(count);
        self.starts.truncate(count);
    }
}
