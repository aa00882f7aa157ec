//! The forms that no stable compiler reads, those that only one of an earlier edition reads, and of today's the default of a `const`
//! parameter, which isn't read yet: by their tokens.

use crate::draft::{Draft, Span};
use crate::form::Form;
use crate::form::Form::{Binder, Inclusive, Inner, Kept, Modifier, Name};
use ssr_syntax_kinds::SyntaxKind;
use ssr_syntax_kinds::SyntaxKind::*;

/// The forms of tokens that begin with `unsafe`: it goes in front of a module.
fn of_unsafe(rest: &[SyntaxKind]) -> &'static [Form] {
    match rest {
        [_, MOD_KW, ..] => &[Modifier],
        _ => &[],
    }
}

/// Whether a token of this kind may be the default of a `const` parameter.
fn is_value(kind: SyntaxKind) -> bool {
    matches!(kind, INT_NUMBER | CHAR | BYTE | TRUE_KW | FALSE_KW | IDENT)
}

/// The forms of tokens that begin with `const`: it goes in front of a trait and an `impl`, and a parameter loses its default.
fn of_const(rest: &[SyntaxKind]) -> &'static [Form] {
    match rest {
        [_, TRAIT_KW | IMPL_KW, ..] => &[Modifier],
        [
            _,
            IDENT,
            COLON,
            IDENT,
            EQ,
            MINUS,
            value,
            COMMA | R_ANGLE,
            ..
        ] if is_value(*value) => { &[Kept, Kept, Kept, Kept, Inner, Inner, Inner] }
        [_, IDENT, COLON, IDENT, EQ, value, COMMA | R_ANGLE, ..] if is_value(*value) => {
            &[Kept, Kept, Kept, Kept, Inner, Inner]
        }
        _ => &[],
    }
}

/// The forms of tokens that begin with a name: of words that are none of the language's, as `default` and `auto`.
fn of_name(rest: &[SyntaxKind]) -> &'static [Form] {
    match rest {
        [_, FN_KW | TRAIT_KW | STATIC_KW, ..] | [_, UNSAFE_KW | ASYNC_KW | CONST_KW, FN_KW, ..] => {
            &[Modifier]
        }
        _ => &[],
    }
}

/// The forms of tokens that begin with a dot, where this token stands in front: `...` of a pattern is `..=` by now, that of a
/// parameter stays.
fn of_dot(before: SyntaxKind, rest: &[SyntaxKind]) -> &'static [Form] {
    match (before, rest) {
        (COMMA | L_PAREN | COLON, _) => &[],
        (_, [_, DOT, DOT, ..]) => &[Kept, Kept, Inclusive],
        _ => &[],
    }
}

/// The forms of these tokens, by the first one and those that follow, where this token stands in front.
fn of_tokens(before: SyntaxKind, rest: &[SyntaxKind]) -> &'static [Form] {
    match rest {
        [UNSAFE_KW, ..] => of_unsafe(rest),
        [CONST_KW, ..] => of_const(rest),
        [IDENT, ..] => of_name(rest),
        [DOT, ..] => of_dot(before, rest),
        [TRY_KW, BANG, ..] => &[Name],
        [IMPL_KW, CONST_KW, ..] => &[Kept, Inner],
        [TILDE | QUESTION, CONST_KW, ..] => &[Inner, Inner],
        _ => &[],
    }
}

impl Draft<'_> {
    /// Treats the tokens of a span as the rules say.
    pub(crate) fn treat_by_rules(&mut self, span: Span) {
        let mut next = span.from;
        for place in span.from..span.to {
            if place >= next {
                next = self.treat_from(place);
            }
        }
    }

    /// Treats the form that begins at a place, if there is one, and answers the place from which to go on. The tokens of attributes
    /// and of macro calls stay.
    fn treat_from(&mut self, place: usize) -> usize {
        match self.rest(place) {
            [POUND, L_BRACK, ..] => return self.behind_next(place, 1),
            [POUND, BANG, L_BRACK, ..] => return self.behind_next(place, 2),
            [FOR_KW, L_ANGLE, LIFETIME_IDENT | R_ANGLE, ..] => return self.treat_binder(place),
            _ => {}
        }
        let forms = of_tokens(self.kind_before(place, 1), self.rest(place));
        self.treat_all(place, forms);
        self.behind_macro_call(place)
    }

    /// The place behind the token so many places behind another one, and behind what it opens.
    fn behind_next(&self, place: usize, count: usize) -> usize {
        self.behind(place.saturating_add(count))
    }

    /// Treats `for<..>` of a closure, where it has lifetimes alone, and answers the place behind it. That of a type stays.
    fn treat_binder(&mut self, place: usize) -> usize {
        let end = self.behind_angle(place);
        let has_lifetimes = (place.saturating_add(2)..end.saturating_sub(1)).all(|inside| {
            matches!(self.kind(inside), LIFETIME_IDENT | COMMA | COLON | PLUS)
        });
        if has_lifetimes && matches!(self.kind(end), PIPE | MOVE_KW | ASYNC_KW) {
            let span = Span {
                from: place,
                to: end,
            };
            self.treat_span(span, Binder);
        }
        end
    }

    /// The place behind the next `>`; behind all tokens, if there is none.
    fn behind_angle(&self, place: usize) -> usize {
        let rest = self.rest(place);
        let angle = rest.iter().position(|kind| *kind == R_ANGLE);
        place
            .saturating_add(angle.unwrap_or(rest.len()))
            .saturating_add(1)
    }

    /// The place behind the attributes that begin at a place.
    pub(crate) fn behind_attributes(&self, place: usize) -> usize {
        let mut next = place;
        for at in place..self.len() {
            if at < next {
                continue;
            }
            match self.rest(at) {
                [POUND, L_BRACK, ..] => next = self.behind_next(at, 1),
                _ => break,
            }
        }
        next
    }
}
