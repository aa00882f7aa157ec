//! Where the parser is in a text: which token of the grammar comes next, what its number is among all tokens of the tree,
//! and which of the text's tokens are left.
ghost use Rattle.std.specs.Prelude.{◌≡◌, ◌+◌, ◌<◌, ◌^◌, true, length, IfOk, IfSome};
ghost use Rattle.ssr_syntax_forms.specs.Places.{behind_trivia, behind_solid, behind_token, is_alone, place_at};

use crate::rows::MOST_COUNTED;
use ssr_syntax_kinds::SyntaxKind;
use std::alloc::AllocError;
use std::marker::Model;

/// Between two tokens of the grammar. All tokens of a tree are counted, those that are left too.
#[derive(Drop)]
pub(crate) struct Place<'a> {
    /// The number past the token in front.
    end: u32,
    /// The number of the token behind.
    next: u32,
    /// The kinds of the text's tokens from that one on.
    kinds: &'a [SyntaxKind],
}

impl<'a> Model for Place<'a> {
    ghost use Rattle.std.specs.Prelude.{◌+◌, ◌<◌, ◌^◌, length};
    ghost use Rattle.ssr_syntax_forms.specs.Places.{Place};

    ghost Value = { Place };

    ghost view = { λ p. record { end = p.end; next = p.next; kinds = p.kinds.now } };

    ghost invariant = { λ p. p.next + length p.kinds.now < 2 ^ 32 };
}

/// What is behind the white space and comments in front.
#[inline(always)]
fn behind_trivia(kinds: &[SyntaxKind]) -> &[SyntaxKind]
    ensures { result.now ≡ behind_trivia kinds.now }
{
    let mut rest = kinds;
    while let Some((first, others)) = rest.split_first() {
        if !first.is_trivia() {
            break;
        }
        rest = others;
    }
    rest
}

/// What is behind so many solid tokens.
#[inline(always)]
fn behind_solid(kinds: &[SyntaxKind], count: u8) -> &[SyntaxKind]
    ensures { result.now ≡ behind_solid count kinds.now }
{
    let mut rest = kinds;
    let mut left = count;
    while left > 0 {
        let Some((first, others)) = rest.split_first() else {
            return rest;
        };
        if !first.is_trivia() {
            left -= 1;
        }
        rest = others;
    }
    rest
}

impl<'a> Place<'a> {
    /// In front of tokens of these kinds, with so many tokens of the tree to the left. More tokens than are counted are
    /// told as want of memory.
    #[inline(always)]
    pub(crate) fn at(end: usize, kinds: &'a [SyntaxKind]) -> Result<Place<'a>, AllocError>
        ensures { IfOk result (λ p. p ≡ place_at end kinds.entry.now) }
    {
        if end > MOST_COUNTED || kinds.len() > MOST_COUNTED - end {
            return Err(AllocError);
        }
        Ok(Place::counted(end as u32, kinds))
    }

    /// The same, where that is known to be counted.
    #[inline(always)]
    fn counted(end: u32, kinds: &'a [SyntaxKind]) -> Place<'a>
        requires { end + length kinds.now < 2 ^ 32 }
        ensures { result ≡ place_at end kinds.entry.now }
    {
        let rest = behind_trivia(kinds);
        let leading = (kinds.len() - rest.len()) as u32;
        Place {
            end,
            next: end + leading,
            kinds: rest,
        }
    }

    /// The number past the token in front.
    #[inline(always)]
    pub(crate) fn end(&self) -> u32
        ensures { result ≡ self.now.end }
    {
        self.end
    }

    /// The number of the token behind.
    #[inline(always)]
    pub(crate) fn next(&self) -> u32
        ensures { result ≡ self.now.next }
    {
        self.next
    }

    /// Behind the next token of the grammar, where that is one of the text as it is, and of this kind. This is what nearly
    /// all are; without an answer nothing is known.
    #[inline(always)]
    pub(crate) fn behind_alone(&self, kind: SyntaxKind) -> Option<Place<'a>>
        ensures { IfSome result (λ p. (is_alone kind 1 self.now.kinds ≡ true) × (p ≡ behind_token 1 self.now)) }
    {
        let (first, others) = self.kinds.split_first()?;
        if *first != kind || first.is_trivia() {
            return None;
        }
        Some(Place::counted(self.next + 1, others))
    }

    /// Whether the next token of the grammar is one of the text as it is, if it is of this kind and joined from so many.
    #[inline(always)]
    pub(crate) fn is_alone(&self, kind: SyntaxKind, size: u8) -> bool
        ensures { result ≡ is_alone kind size self.now.kinds }
    {
        match self.kinds.first() {
            Some(first) => *first == kind && size == 1,
            None => false,
        }
    }

    /// Behind the next token of the grammar, which is joined from so many solid ones of the text.
    #[inline(always)]
    pub(crate) fn behind_token(&self, size: u8) -> Result<Place<'a>, AllocError>
        ensures { IfOk result (λ p. p ≡ behind_token size self.now) }
    {
        Place::at(self.next as usize + 1, behind_solid(self.kinds, size))
    }
}
