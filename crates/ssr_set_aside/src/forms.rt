//! Which tokens are set aside as one of a form.
ghost use Rattle.std.specs.Prelude.{◌≡◌, ◌+◌, ◌≤◌};
ghost use Rattle.ssr_set_aside.specs.Forms as spec;

use ssr_drafts::Form;
use ssr_syntax_kinds::SyntaxKind;
use ssr_syntax_kinds::SyntaxKind::*;
use ssr_syntax_lex::RawToken;

/// Whether the token at a place may be set aside as one of a form.
pub(crate) fn is_of(form: Form, tokens: &[RawToken], place: usize) -> bool
    ensures { result ≡ spec.is_of form tokens.now place }
{
    let before = kind_before(tokens, place, 1);
    let kind = kind_at(tokens, place);
    let behind = kind_behind(tokens, place);
    match form {
        Form::Modifier => is_modifier(kind, behind),
        Form::Binder => opens_binder(before, kind, behind) || ends_binder(before, kind, behind),
        Form::Inner => is_const_bound(before, kind, behind) || is_default(tokens, place),
        Form::Name => is_try(kind, behind),
        Form::Inclusive => is_third_dot(tokens, place),
        Form::Kept | Form::Unread => false,
    }
}

/// The kind of the token at a place; where there is none, that of white space.
fn kind_at(tokens: &[RawToken], place: usize) -> SyntaxKind
    ensures { result ≡ spec.kind_at tokens.now place }
{
    match tokens.get(place) {
        Some(token) => token.kind,
        None => WHITESPACE,
    }
}

/// The kind of the token behind a place.
fn kind_behind(tokens: &[RawToken], place: usize) -> SyntaxKind
    ensures { result ≡ spec.kind_at tokens.now (place + 1) }
{
    match place.checked_add(1) {
        Some(behind) => kind_at(tokens, behind),
        None => WHITESPACE,
    }
}

/// The kind of the token so many places in front of another one.
#[tactic(auto, unfolding(crate::specs::Forms::kind_before))]
fn kind_before(tokens: &[RawToken], place: usize, count: usize) -> SyntaxKind
    ensures { result ≡ spec.kind_before tokens.now place count }
{
    match place.checked_sub(count) {
        Some(before) => kind_at(tokens, before),
        None => WHITESPACE,
    }
}

/// Whether a token is a modifier: `unsafe` of a module, `const` of a trait or an `impl`, or a name in front of an item.
#[tactic(auto, unfolding(crate::specs::Forms::is_modifier))]
fn is_modifier(kind: SyntaxKind, behind: SyntaxKind) -> bool
    ensures { result ≡ spec.is_modifier kind behind }
{
    kind.is(UNSAFE_KW) && behind.is(MOD_KW)
        || kind.is(CONST_KW) && (behind.is(TRAIT_KW) || behind.is(IMPL_KW))
        || kind.is(IDENT) && is_item_word(behind)
}

/// Whether a name may be a modifier in front of this.
fn is_item_word(kind: SyntaxKind) -> bool
    ensures { result ≡ spec.is_one_of spec.item_words kind }
{
    matches!(
        kind,
        FN_KW | TRAIT_KW | STATIC_KW | UNSAFE_KW | ASYNC_KW | CONST_KW
    )
}

/// Whether `for<..>` of a closure begins with this token, or has it as its second one.
#[tactic(auto, unfolding(crate::specs::Forms::opens_binder))]
fn opens_binder(before: SyntaxKind, kind: SyntaxKind, behind: SyntaxKind) -> bool
    ensures { result ≡ spec.opens_binder before kind behind }
{
    kind.is(FOR_KW) && behind.is(L_ANGLE) || kind.is(L_ANGLE) && before.is(FOR_KW)
}

/// Whether this token stands in the brackets of `for<..>` of a closure, or closes them.
#[tactic(auto, unfolding(crate::specs::Forms::ends_binder))]
fn ends_binder(before: SyntaxKind, kind: SyntaxKind, behind: SyntaxKind) -> bool
    ensures { result ≡ spec.ends_binder before kind behind }
{
    (before.is(L_ANGLE) || is_in_binder(before))
        && (is_in_binder(kind) || kind.is(R_ANGLE) && begins_closure(behind))
}

/// Whether a token of this kind may stand in the brackets of `for<..>`.
fn is_in_binder(kind: SyntaxKind) -> bool
    ensures { result ≡ spec.is_one_of spec.binder_kinds kind }
{
    matches!(kind, LIFETIME_IDENT | COMMA | COLON | PLUS)
}

/// Whether a closure may begin with a token of this kind.
fn begins_closure(kind: SyntaxKind) -> bool
    ensures { result ≡ spec.is_one_of spec.closure_kinds kind }
{
    matches!(kind, PIPE | MOVE_KW | ASYNC_KW)
}

/// Whether a token is one of `~const` or `?const`, or the `const` of `impl const`.
#[tactic(auto, unfolding(crate::specs::Forms::is_const_bound))]
fn is_const_bound(before: SyntaxKind, kind: SyntaxKind, behind: SyntaxKind) -> bool
    ensures { result ≡ spec.is_const_bound before kind behind }
{
    (kind.is(TILDE) || kind.is(QUESTION)) && behind.is(CONST_KW)
        || kind.is(CONST_KW) && (before.is(IMPL_KW) || before.is(TILDE) || before.is(QUESTION))
}

/// Whether the token at a place is one of the default of a `const` parameter: its `=`, a `-`, or its value.
#[tactic(auto, unfolding(crate::specs::Forms::is_default))]
fn is_default(tokens: &[RawToken], place: usize) -> bool
    ensures { result ≡ spec.is_default tokens.now place }
{
    let kind = kind_at(tokens, place);
    begins_default(tokens, place, 0)
        || begins_default(tokens, place, 1) && (kind.is(MINUS) || is_value(kind))
        || begins_default(tokens, place, 2)
            && kind_before(tokens, place, 1).is(MINUS)
            && is_value(kind)
}

/// Whether the `=` of a parameter's default stands so many places in front of another place: at most two.
#[tactic(auto, unfolding(crate::specs::Forms::begins_default))]
fn begins_default(tokens: &[RawToken], place: usize, count: usize) -> bool
    requires { count ≤ 2 }
    ensures { result ≡ spec.begins_default tokens.now place count }
{
    kind_before(tokens, place, count).is(EQ)
        && kind_before(tokens, place, count + 2).is(COLON)
        && kind_before(tokens, place, count + 4).is(CONST_KW)
}

/// Whether a token of this kind may be the default of a `const` parameter.
fn is_value(kind: SyntaxKind) -> bool
    ensures { result ≡ spec.is_one_of spec.value_kinds kind }
{
    matches!(kind, INT_NUMBER | CHAR | BYTE | TRUE_KW | FALSE_KW | IDENT)
}

/// Whether a token is the `try` of `try!`.
#[tactic(auto, unfolding(crate::specs::Forms::is_try))]
fn is_try(kind: SyntaxKind, behind: SyntaxKind) -> bool
    ensures { result ≡ spec.is_try kind behind }
{
    kind.is(TRY_KW) && behind.is(BANG)
}

/// Whether the token at a place is the last one of `...`.
#[tactic(auto, unfolding(crate::specs::Forms::is_third_dot))]
fn is_third_dot(tokens: &[RawToken], place: usize) -> bool
    ensures { result ≡ spec.is_third_dot tokens.now place }
{
    kind_before(tokens, place, 0).is(DOT)
        && kind_before(tokens, place, 1).is(DOT)
        && kind_before(tokens, place, 2).is(DOT)
}
