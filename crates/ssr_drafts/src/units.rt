//! The units of a draft: items, statements and arms, cut by tokens alone.
ghost use Rattle.std.specs.Prelude.{◌≡◌};
ghost use Rattle.ssr_drafts.specs.Units.{front_of, back_of};

use crate::draft::{Draft, Span};
use ssr_syntax_kinds::SyntaxKind;
use ssr_syntax_kinds::SyntaxKind::*;
use std::alloc::{AllocError, Global};

/// What can be read by itself.
#[derive(Clone, Copy, Debug, PartialEq, Eq)]
pub enum UnitKind {
    /// An item.
    Items,
    /// An item of a trait, of which functions need no body.
    Members,
    /// One of a block of foreign items, which have none.
    Foreign,
    /// A statement.
    Statements,
    /// An arm of a `match`.
    Arms,
    /// The generics of a function.
    Generics,
    /// The return type of a function, or its conditions.
    Tail,
}

/// A unit that isn't read: the tokens from the place `from` up to before `to` among those that are neither white space nor comments.
#[derive(Clone, Copy, Debug, PartialEq, Eq)]
pub struct Unit {
    pub kind: UnitKind,
    pub from: usize,
    pub to: usize,
}

impl UnitKind {
    /// What a unit is read behind, to be read as a file. No inner attribute may stand there.
    pub fn front(self) -> &'static str
        ensures { result.now ≡ front_of self }
    {
        match self {
            UnitKind::Items => "use a; ",
            UnitKind::Members => "trait T { ",
            UnitKind::Foreign => "extern { ",
            UnitKind::Statements => "fn f() { ",
            UnitKind::Arms => "fn f() { match x { ",
            UnitKind::Generics => "fn f ",
            UnitKind::Tail => "fn f() ",
        }
    }

    /// What follows a unit that is read as a file.
    pub fn back(self) -> &'static str
        ensures { result.now ≡ back_of self }
    {
        match self {
            UnitKind::Items => "",
            UnitKind::Members | UnitKind::Foreign | UnitKind::Statements => " }",
            UnitKind::Arms => " } }",
            UnitKind::Generics => " () {}",
            UnitKind::Tail => " {}",
        }
    }
}

/// Tokens between braces, and what stands there.
#[derive(Clone, Copy, Debug, PartialEq, Eq)]
pub(crate) struct Body {
    pub(crate) span: Span,
    pub(crate) kind: UnitKind,
}

/// Whether a statement that begins so may end with a brace.
fn is_block_like(head: SyntaxKind) -> bool {
    matches!(
        head,
        IF_KW
            | MATCH_KW
            | LOOP_KW
            | WHILE_KW
            | FOR_KW
            | L_CURLY
            | LIFETIME_IDENT
            | FN_KW
            | IMPL_KW
            | TRAIT_KW
            | MOD_KW
            | STRUCT_KW
            | ENUM_KW
            | EXTERN_KW
    )
}

/// Whether an item that begins so ends with `;` alone.
fn ends_with_semicolon(head: SyntaxKind) -> bool {
    matches!(head, USE_KW | TYPE_KW | STATIC_KW | CONST_KW)
}

/// Whether these tokens are words in front of what an item or a block begins with.
fn is_qualifier(rest: &[SyntaxKind]) -> bool {
    match rest {
        [PUB_KW | UNSAFE_KW | POUND, ..] => true,
        // a block of `async` is no statement by itself
        [ASYNC_KW, FN_KW | UNSAFE_KW | EXTERN_KW, ..] => true,
        [
            CONST_KW,
            FN_KW | UNSAFE_KW | ASYNC_KW | EXTERN_KW | L_CURLY,
            ..
        ] => true,
        [EXTERN_KW, FN_KW, ..] | [EXTERN_KW, STRING, FN_KW, ..] | [STRING, FN_KW, ..] => true,
        [IDENT, FN_KW | TRAIT_KW | IMPL_KW | UNSAFE_KW, ..] => true,
        _ => false,
    }
}

impl Draft<'_> {
    /// The place of the first token of a unit that is neither an attribute nor a word in front of what it is.
    pub(crate) fn head(&self, from: usize) -> usize {
        let mut next = from;
        for place in from..self.len() {
            if place < next {
                continue;
            }
            let follows = matches!(self.kind_before(place, 1), POUND | PUB_KW) && place > from;
            let opens = matches!(self.kind(place), L_BRACK | L_PAREN) && follows;
            if !opens && !is_qualifier(self.rest(place)) {
                return place;
            }
            next = self.behind(place);
        }
        from
    }

    /// The units of a body, in order: all its tokens.
    pub(crate) fn units(&self, alloc: Global, body: Body) -> Result<Vec<Span>, AllocError> {
        let mut units = Vec::new(alloc);
        let mut from = body.span.from;
        let mut next = from;
        let mut head = self.kind(self.head(from));
        for place in body.span.from..body.span.to {
            if place < next {
                continue;
            }
            next = self.behind(place);
            if self.ends_unit(body.kind, head, place) {
                units.push(Span { from, to: next })?;
                from = next;
                head = self.kind(self.head(from));
            }
        }
        if from < body.span.to {
            units.push(Span {
                from,
                to: body.span.to,
            })?;
        }
        Ok(units)
    }

    /// Whether a unit that begins so ends with the token at a place, or with what that opens.
    fn ends_unit(&self, kind: UnitKind, head: SyntaxKind, place: usize) -> bool {
        match self.kind(place) {
            SEMICOLON => kind != UnitKind::Arms,
            COMMA => kind == UnitKind::Arms,
            L_CURLY => self.ends_with_brace(kind, head, place),
            _ => false,
        }
    }

    /// Whether a unit that begins so ends with what the brace at a place opens.
    fn ends_with_brace(&self, kind: UnitKind, head: SyntaxKind, place: usize) -> bool {
        let behind = self.kind(self.behind(place));
        // `=`, `|` and `in` follow the fields of a pattern
        let goes_on = matches!(behind, DOT | QUESTION | ELSE_KW | COMMA | EQ | PIPE | IN_KW);
        match kind {
            UnitKind::Items | UnitKind::Members | UnitKind::Foreign => !ends_with_semicolon(head),
            UnitKind::Statements => {
                !goes_on && (is_block_like(head) || self.kind_before(place, 1) == BANG)
            }
            UnitKind::Arms => {
                !goes_on
                    && self.kind_before(place, 1) == R_ANGLE
                    && self.kind_before(place, 2) == EQ
            }
            // the parts of a function aren't cut
            UnitKind::Generics | UnitKind::Tail => false,
        }
    }

    /// Whether the brace at a place opens the fields of a record.
    fn opens_fields(&self, place: usize) -> bool {
        if !matches!(self.kind_before(place, 1), IDENT | SELF_TYPE_KW | R_ANGLE) {
            return false;
        }
        match self.rest(self.behind_attributes(place.saturating_add(1))) {
            [IDENT, COLON, COLON, ..] => false,
            [IDENT, COLON | COMMA, ..] | [DOT, DOT, ..] => true,
            [IDENT, R_CURLY, EQ, ..] => true,
            [REF_KW | MUT_KW, ..] => true,
            _ => false,
        }
    }

    /// What stands between the braces that open at a place of a unit that begins with `head`; nothing that can be cut, if
    /// these are fields. `control` is the last word in front that a block follows.
    fn kind_of_body(
        &self,
        head: SyntaxKind,
        control: SyntaxKind,
        place: usize,
    ) -> Option<UnitKind> {
        match head {
            STRUCT_KW | ENUM_KW | USE_KW => None,
            TRAIT_KW => Some(UnitKind::Members),
            IMPL_KW | MOD_KW => Some(UnitKind::Items),
            EXTERN_KW => Some(UnitKind::Foreign),
            _ if self.opens_fields(place) => None,
            _ if control == MATCH_KW => Some(UnitKind::Arms),
            _ => Some(UnitKind::Statements),
        }
    }

    /// The outermost bodies of a unit that can be cut.
    pub(crate) fn bodies(&self, alloc: Global, unit: Span) -> Result<Vec<Body>, AllocError> {
        let mut bodies = Vec::new(alloc);
        let head = self.kind(self.head(unit.from));
        let mut control = WHITESPACE;
        let mut next = unit.from;
        for place in unit.from..unit.to {
            if place < next {
                continue;
            }
            next = self.behind_macro_call(place);
            match self.kind(place) {
                word @ (MATCH_KW | IF_KW | WHILE_KW | FOR_KW | ELSE_KW | LOOP_KW) => control = word,
                L_CURLY => {
                    if let Some(kind) = self.kind_of_body(head, control, place) {
                        next = self.behind(place);
                        let span = Span {
                            from: place.saturating_add(1),
                            to: next.saturating_sub(1),
                        };
                        bodies.push(Body { span, kind })?;
                        control = WHITESPACE;
                    }
                }
                _ => {}
            }
        }
        Ok(bodies)
    }

    /// The place behind a token; behind the name of a macro call, that behind its arguments.
    pub(crate) fn behind_macro_call(&self, place: usize) -> usize {
        match self.rest(place) {
            [IDENT, BANG, L_PAREN | L_BRACK | L_CURLY, ..] => self.behind(place.saturating_add(2)),
            [IDENT, BANG, IDENT, L_PAREN | L_BRACK | L_CURLY, ..] => {
                self.behind(place.saturating_add(3))
            }
            _ => place.saturating_add(1),
        }
    }
}
