//! Finds what is set aside: as little of each unit as it takes to read it.

use crate::draft::{Draft, Span};
use crate::units::{Body, UnitKind};
use ssr_syntax::{Reach, SyntaxError, parse_file_of};
use ssr_syntax_kinds::SyntaxKind::*;
use std::alloc::{AllocError, Global};

/// How deep a unit that isn't read is looked into: a body in a body, and so on. Each level may read
/// the text of the unit again, which happens four times at most.
const MOST_LEVELS: u32 = 64;

/// Whether a text is read as a file.
fn is_read(alloc: Global, text: &str) -> Result<bool, AllocError> {
    match parse_file_of(alloc, Reach::Whole, text) {
        Ok(_) => Ok(true),
        Err(SyntaxError::Memory) => Err(AllocError),
        Err(_) => Ok(false),
    }
}

impl Draft<'_> {
    /// Whether a unit is read alone, as it is treated.
    pub(crate) fn reads(
        &self,
        alloc: Global,
        unit: Span,
        kind: UnitKind,
    ) -> Result<bool, AllocError> {
        let mut text = String::from_str(alloc, kind.front())?;
        self.write(unit, &mut text)?;
        text.push_str(kind.back())?;
        is_read(alloc, text.as_str())
    }

    /// Whether a unit that wasn't read is read now: tokens have come to be part of another form since so many had.
    fn reads_since(
        &self,
        alloc: Global,
        unit: Span,
        kind: UnitKind,
        treated: usize,
    ) -> Result<bool, AllocError> {
        Ok(self.treated() != treated && self.reads(alloc, unit, kind)?)
    }

    /// The items of the file, without the inner attributes in front.
    fn file_body(&self) -> Body {
        let mut next = 0;
        for place in 0..self.len() {
            if place < next {
                continue;
            }
            match self.rest(place) {
                [POUND, BANG, L_BRACK, ..] => next = self.behind(place.saturating_add(2)),
                _ => break,
            }
        }
        Body {
            span: Span {
                from: next,
                to: self.len(),
            },
            kind: UnitKind::Items,
        }
    }

    /// Treats the tokens of a unit by the rules, but for those in its bodies.
    fn treat_outside(&mut self, alloc: Global, unit: Span) -> Result<(), AllocError> {
        let mut from = unit.from;
        for body in self.bodies(alloc, unit)? {
            self.treat_by_rules(Span {
                from,
                to: body.span.from,
            });
            from = body.span.to;
        }
        self.treat_by_rules(Span { from, to: unit.to });
        Ok(())
    }

    /// Sees that a unit is read, looking into its bodies so many levels deep.
    fn settle(
        &mut self,
        alloc: Global,
        unit: Span,
        kind: UnitKind,
        levels: u32,
    ) -> Result<(), AllocError> {
        if self.reads(alloc, unit, kind)? {
            return Ok(());
        }
        let treated = self.treated();
        self.treat_outside(alloc, unit)?;
        self.treat_head(alloc, unit)?;
        if self.reads_since(alloc, unit, kind, treated)? {
            return Ok(());
        }
        let treated = self.treated();
        if levels > 0 {
            for body in self.bodies(alloc, unit)? {
                for part in self.units(alloc, body)? {
                    self.settle(alloc, part, body.kind, levels - 1)?;
                }
            }
        }
        if self.reads_since(alloc, unit, kind, treated)? {
            return Ok(());
        }
        self.finish(alloc, unit, kind)
    }

    /// Sees that a unit is read that isn't with its bodies settled: by the rules for all its tokens, or whole.
    fn finish(&mut self, alloc: Global, unit: Span, kind: UnitKind) -> Result<(), AllocError> {
        let treated = self.treated();
        self.treat_by_rules(unit);
        if !self.reads_since(alloc, unit, kind, treated)? {
            self.set_aside(unit, kind);
        }
        Ok(())
    }

    /// Whether the file has items, and each of them is set aside whole.
    pub(crate) fn is_set_aside_whole(&self) -> bool {
        let from = self.file_body().span.from;
        from < self.len() && self.behind_unread(from) >= self.len()
    }

    /// Sees that each item of the file is read, with as little set aside as that takes.
    pub(crate) fn settle_finely(&mut self, alloc: Global) -> Result<(), AllocError> {
        for unit in self.units(alloc, self.file_body())? {
            self.settle(alloc, unit, UnitKind::Items, MOST_LEVELS)?;
        }
        Ok(())
    }

    /// Sees that each item of the file is read, by setting aside whole those that aren't.
    pub(crate) fn settle_coarsely(&mut self, alloc: Global) -> Result<(), AllocError> {
        for unit in self.units(alloc, self.file_body())? {
            if !self.reads(alloc, unit, UnitKind::Items)? {
                self.set_aside(unit, UnitKind::Items);
            }
        }
        Ok(())
    }
}
