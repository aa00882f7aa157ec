//! What a function can be read without: its generics, its return type, and its conditions.

use crate::draft::{Draft, Span};
use crate::units::UnitKind;
use ssr_syntax_kinds::SyntaxKind;
use ssr_syntax_kinds::SyntaxKind::*;
use std::alloc::{AllocError, Global};

impl Draft<'_> {
    /// Sets aside which of a function's generics, return type and conditions aren't read by themselves.
    pub(crate) fn treat_head(&mut self, alloc: Global, unit: Span) -> Result<(), AllocError> {
        let head = self.head(unit.from);
        if self.kind(head) != FN_KW {
            return Ok(());
        }
        let from = head.saturating_add(2);
        let parameters = self.first_outside(from, unit.to, L_PAREN);
        let tail = self.behind(parameters);
        let body = self
            .first_outside(tail, unit.to, L_CURLY)
            .min(self.first_outside(tail, unit.to, SEMICOLON));
        let conditions = self.first_outside(tail, body, WHERE_KW);
        self.treat_part(
            alloc,
            Span {
                from,
                to: parameters,
            },
            UnitKind::Generics,
        )?;
        self.treat_part(
            alloc,
            Span {
                from: tail,
                to: conditions,
            },
            UnitKind::Tail,
        )?;
        self.treat_part(
            alloc,
            Span {
                from: conditions,
                to: body,
            },
            UnitKind::Tail,
        )
    }

    /// Sets aside a part of a function, unless it is read.
    fn treat_part(&mut self, alloc: Global, part: Span, kind: UnitKind) -> Result<(), AllocError> {
        if part.from < part.to && !self.reads(alloc, part, kind)? {
            self.set_aside(part, kind);
        }
        Ok(())
    }

    /// The place from one up to before another at which the first token of a kind stands that is in no brackets, also not between `<`
    /// and `>`; the latter, if there is none.
    fn first_outside(&self, from: usize, to: usize, kind: SyntaxKind) -> usize {
        let mut depth = 0u32;
        let mut next = from;
        for place in from..to {
            if place < next {
                continue;
            }
            if depth == 0 && self.kind(place) == kind {
                return place;
            }
            match self.kind(place) {
                L_ANGLE => depth = depth.saturating_add(1),
                R_ANGLE if !self.ends_arrow(place) => depth = depth.saturating_sub(1),
                _ => {}
            }
            next = self.behind(place);
        }
        to
    }

    /// Whether the `>` at a place ends `->` or `=>`.
    fn ends_arrow(&self, place: usize) -> bool {
        matches!(self.kind_before(place, 1), MINUS | EQ) && self.is_joint(place.saturating_sub(1))
    }
}
