//! A text that isn't read, by its tokens, and the forms that they are part of.

use crate::finding::{Part, Parts};
use crate::form::{Form, Side, filled};
use crate::units::{Unit, UnitKind};
use ssr_syntax_kinds::SyntaxKind::*;
use ssr_syntax_kinds::{SyntaxKind, TextRange};
use ssr_syntax_lex::RawToken;
use std::alloc::{AllocError, Global};

/// Tokens of a draft that follow each other: from the place `from` up to before `to`.
#[derive(Clone, Copy, Debug, PartialEq, Eq)]
pub(crate) struct Span {
    pub(crate) from: usize,
    pub(crate) to: usize,
}

/// A text by its tokens without white space and comments, and the form that each is part of. The columns have an entry a token.
#[derive(Drop)]
pub(crate) struct Draft<'a> {
    text: &'a str,
    pub(crate) kinds: Vec<SyntaxKind>,
    tokens: &'a [RawToken],
    /// The place of the bracket that pairs with this one; of any other token its own place.
    partners: Vec<usize>,
    forms: Vec<Form>,
    /// Of a token with which a unit begins that isn't read, the kind of that unit and the place behind it. A larger unit that begins
    /// before it may have it.
    unread: Vec<Option<Unit>>,
    /// How often a token has come to be part of another form.
    treated: usize,
}

/// The bracket that closes what this one opens.
fn closing(kind: SyntaxKind) -> Option<SyntaxKind> {
    match kind {
        L_PAREN => Some(R_PAREN),
        L_BRACK => Some(R_BRACK),
        L_CURLY => Some(R_CURLY),
        _ => None,
    }
}

fn is_closing(kind: SyntaxKind) -> bool {
    matches!(kind, R_PAREN | R_BRACK | R_CURLY)
}

/// For each token the place of the bracket that pairs with it, if each bracket has its own; of any other token its own place.
fn paired(alloc: Global, kinds: &[SyntaxKind]) -> Result<Option<Vec<usize>>, AllocError> {
    let mut partners: Vec<usize> = Vec::with_capacity(alloc, kinds.len())?;
    let mut open: Vec<(usize, SyntaxKind)> = Vec::new(alloc);
    for (place, kind) in kinds.iter().enumerate() {
        let mut partner = place;
        if is_closing(*kind) {
            match open.pop() {
                Some((start, close)) if close == *kind => partner = start,
                _ => return Ok(None),
            }
            if let Some(of_start) = partners.get_mut(partner) {
                *of_start = place;
            }
        }
        partners.push(partner)?;
        if let Some(close) = closing(*kind) {
            open.push((place, close))?;
        }
    }
    Ok(if open.is_empty() {
        Some(partners)
    } else {
        None
    })
}

impl<'a> Draft<'a> {
    /// The draft of a text of which all stays, by its tokens without white space and comments, if its brackets pair.
    pub(crate) fn new(
        alloc: Global,
        text: &'a str,
        tokens: &'a [RawToken],
    ) -> Result<Option<Draft<'a>>, AllocError> {
        let kinds: Vec<SyntaxKind> = tokens.iter().map(|token| token.kind).collect(alloc)?;
        let Some(partners) = paired(alloc, &kinds)? else {
            return Ok(None);
        };
        let forms = vec![in alloc; Form::Kept; tokens.len()]?;
        let unread = vec![in alloc; None; tokens.len()]?;
        Ok(Some(Draft {
            text,
            kinds,
            tokens,
            partners,
            forms,
            unread,
            treated: 0,
        }))
    }

    pub(crate) fn len(&self) -> usize {
        self.kinds.len()
    }

    /// The kinds of the tokens from a place on.
    pub(crate) fn rest(&self, place: usize) -> &[SyntaxKind] {
        self.kinds.get(place..).unwrap_or(&[])
    }

    /// The kind of the token at a place; where there is none, that of white space, which no token of a draft has.
    pub(crate) fn kind(&self, place: usize) -> SyntaxKind {
        self.kinds.get(place).copied().unwrap_or(WHITESPACE)
    }

    /// The kind of the token so many places in front of another one.
    pub(crate) fn kind_before(&self, place: usize, count: usize) -> SyntaxKind {
        match place.checked_sub(count) {
            Some(before) => self.kind(before),
            None => WHITESPACE,
        }
    }

    /// The place behind a token; behind an opening bracket, that behind the one that closes it.
    pub(crate) fn behind(&self, place: usize) -> usize {
        let partner = self.partners.get(place).copied().unwrap_or(place);
        partner.max(place).saturating_add(1)
    }

    /// Whether punctuation follows a token directly.
    pub(crate) fn is_joint(&self, place: usize) -> bool {
        self.tokens.get(place).is_some_and(|token| token.joint)
    }

    /// The text of a token.
    pub(crate) fn token_text(&self, place: usize) -> &'a str {
        match self.tokens.get(place) {
            Some(token) => self.text_between(token.range.start, token.range.end),
            None => "",
        }
    }

    fn text_between(&self, start: u32, end: u32) -> &'a str {
        self.text.get(start as usize..end as usize).unwrap_or("")
    }

    /// How often a token has come to be part of another form: as often as before, where nothing has changed since.
    pub(crate) fn treated(&self) -> usize {
        self.treated
    }

    /// Says which form a token is part of. What isn't searched stays so.
    pub(crate) fn treat(&mut self, place: usize, form: Form) {
        if let Some(old) = self.forms.get_mut(place) {
            if *old != form && *old != Form::Unread {
                *old = form;
                self.treated = self.treated.saturating_add(1);
            }
        }
    }

    /// Says which forms the tokens from a place on are part of; those that are read keep what they have.
    pub(crate) fn treat_all(&mut self, place: usize, forms: &[Form]) {
        for (offset, form) in forms.iter().enumerate() {
            if *form != Form::Kept {
                self.treat(place.saturating_add(offset), *form);
            }
        }
    }

    /// Says which form the tokens of a span are part of.
    pub(crate) fn treat_span(&mut self, span: Span, form: Form) {
        for place in span.from..span.to {
            self.treat(place, form);
        }
    }

    /// Sets aside a unit that isn't read.
    pub(crate) fn set_aside(&mut self, unit: Span, kind: UnitKind) {
        self.treat_span(unit, Form::Unread);
        let Span { from, to } = unit;
        if let Some(old) = self.unread.get_mut(from) {
            *old = Some(Unit { kind, from, to });
        }
    }

    /// Writes the tokens of a span as they are treated, apart by a blank where they stand apart.
    pub(crate) fn write(&self, span: Span, new: &mut String) -> Result<(), AllocError> {
        let mut end = 0;
        for place in span.from..span.to {
            let (Some(token), Some(form)) = (self.tokens.get(place), self.forms.get(place)) else {
                break;
            };
            if token.range.start != end {
                new.push(' ')?;
            }
            match (*form, form.word()) {
                (Form::Kept, _) => new.push_str(self.token_text(place))?,
                (_, "") => new.push(' ')?,
                (_, word) => new.push_str(word)?,
            }
            end = token.range.end;
        }
        Ok(())
    }

    /// The parts that are set aside, in order: tokens, and units that aren't read, together where they follow each other.
    pub(crate) fn parts(&self, alloc: Global) -> Result<Parts, AllocError> {
        let nexts = self.next_kept(alloc)?;
        let mut parts = Parts::new(alloc);
        let mut behind = 0;
        for (place, form) in self.forms.iter().enumerate() {
            let (Some(token), Some(next)) = (self.tokens.get(place), nexts.get(place)) else {
                break;
            };
            if place < behind {
                continue;
            }
            match *form {
                Form::Kept => {}
                Form::Unread => {
                    behind = self.behind_unread(place);
                    self.push_unread(alloc, place, behind, &mut parts)?;
                }
                form => {
                    let new = filled(alloc, form.word(), self.token_text(place))?;
                    parts.changes.push((token.range, new))?;
                    parts.parts.push(Part::Token(place, form))?;
                    parts.reaches.push(reach(form.side(), token.range, *next))?;
                }
            }
        }
        Ok(parts)
    }

    /// The place behind the tokens from a place on that aren't read.
    pub(crate) fn behind_unread(&self, place: usize) -> usize {
        let rest = self.forms.get(place..).unwrap_or(&[]);
        let count = rest.iter().position(|form| *form != Form::Unread);
        place.saturating_add(count.unwrap_or(rest.len()))
    }

    /// Adds a part of all bytes from the token at a place up to before another one, which aren't read.
    fn push_unread(
        &self,
        alloc: Global,
        place: usize,
        behind: usize,
        parts: &mut Parts,
    ) -> Result<(), AllocError> {
        let last = self.tokens.get(behind.saturating_sub(1));
        if let (Some(first), Some(last)) = (self.tokens.get(place), last) {
            let end = first.range.end.max(last.range.end);
            let range = TextRange::new(first.range.start, end);
            let new = filled(alloc, "", self.text_between(range.start, range.end))?;
            parts.changes.push((range, new))?;
            parts
                .parts
                .push(Part::Units(self.units_between(alloc, place, behind)?))?;
            parts.reaches.push(range)?;
            parts.unsearched.push(range)?;
        }
        Ok(())
    }

    /// The units that aren't read from a place up to another one, in order: the largest ones.
    fn units_between(
        &self,
        alloc: Global,
        from: usize,
        to: usize,
    ) -> Result<Vec<Unit>, AllocError> {
        let mut units = Vec::new(alloc);
        let mut next = from;
        for place in from..to {
            if place < next {
                continue;
            }
            if let Some(Some(unit)) = self.unread.get(place) {
                units.push(*unit)?;
                next = unit.to;
            }
        }
        Ok(units)
    }

    /// For each token the byte behind the first one of the next token that stays; 0 where none does.
    fn next_kept(&self, alloc: Global) -> Result<Vec<u32>, AllocError> {
        let mut nexts = vec![in alloc; 0; self.len()]?;
        let mut next = 0;
        for (place, of_place) in nexts.iter_mut().enumerate().rev() {
            *of_place = next;
            if let (Some(Form::Kept), Some(token)) = (
                self.forms.get(place),
                self.tokens.get(place),
            ) {
                next = token.range.start.saturating_add(1);
            }
        }
        Ok(nexts)
    }
}

/// The bytes of a part that no match may touch: its own, and the first one of the token behind it that stays, if it belongs to that.
/// `next` is the place behind that byte.
fn reach(side: Side, range: TextRange, next: u32) -> TextRange {
    match side {
        Side::Inside => range,
        Side::Ahead => TextRange::new(range.start, range.end.max(next)),
    }
}
