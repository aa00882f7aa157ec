//! What the tokens of a text say of modules.
ghost use Rattle.std.specs.Prelude.{◌≡◌, option_map, IfOk};
ghost use Rattle.ssr_package.specs.Marks as spec;

use ssr_syntax_kinds::{SyntaxKind, TextRange};
use ssr_syntax_lex::RawToken;
use std::alloc::{AllocError, Global};

/// Something that tokens say of modules.
#[derive(Clone, Copy)]
pub(crate) enum Mark {
    /// `mod name`: the name.
    Module(TextRange),
    /// `name! {` or `macro_rules! name {`, up to before the brace.
    Macro,
    /// `#[key = "value"]`: the key and the value, with its quotes.
    Attribute(TextRange, TextRange),
    /// `, key = "value"`, as in `#[cfg_attr(unix, path = "value")]`: the key and the value, with its quotes.
    Condition(TextRange, TextRange),
    /// `{`
    Opens,
    /// `}`
    Closes,
    /// `;`
    Ends,
}

/// What tokens say of modules, in order. The tokens are those of a text without white space and comments.
pub(crate) fn marks(alloc: Global, tokens: &[RawToken]) -> Result<Vec<Mark>, AllocError>
    ensures { IfOk result (λ v. v.items ≡ spec.marks tokens.now) }
{
    let mut marks = Vec::new(alloc);
    let mut rest = tokens;
    while let Some((first, after)) = rest.split_first() {
        if let Some(mark) = mark_of(first.kind, after) {
            marks.push(mark)?;
        }
        rest = after;
    }
    Ok(marks)
}

/// What a token of a kind says in front of these.
fn mark_of(kind: SyntaxKind, rest: &[RawToken]) -> Option<Mark>
    ensures { result ≡ spec.mark_of kind rest.now }
{
    match kind {
        SyntaxKind::MOD_KW => module_mark(rest),
        SyntaxKind::IDENT => macro_call(rest),
        SyntaxKind::POUND => attribute(rest),
        SyntaxKind::COMMA => condition(rest),
        SyntaxKind::L_CURLY => Some(Mark::Opens),
        SyntaxKind::R_CURLY => Some(Mark::Closes),
        SyntaxKind::SEMICOLON => Some(Mark::Ends),
        _ => None,
    }
}

/// What `mod` says in front of these.
fn module_mark(rest: &[RawToken]) -> Option<Mark>
    ensures { result ≡ spec.module_mark rest.now }
{
    let (name, _) = eat(SyntaxKind::IDENT, rest)?;
    Some(Mark::Module(name))
}

/// What a name says in front of these.
fn macro_call(rest: &[RawToken]) -> Option<Mark>
    ensures { result ≡ spec.macro_call rest.now }
{
    let (_, rest) = eat(SyntaxKind::BANG, rest)?;
    if opens_brace(rest) || is_named_brace(rest) {
        Some(Mark::Macro)
    } else {
        None
    }
}

/// Whether tokens begin with `{`.
fn opens_brace(rest: &[RawToken]) -> bool
    ensures { result ≡ spec.opens_brace rest.now }
{
    eat(SyntaxKind::L_CURLY, rest).is_some()
}

/// Whether tokens begin with a name and `{`.
fn is_named_brace(rest: &[RawToken]) -> bool
    ensures { result ≡ spec.is_named_brace rest.now }
{
    match eat(SyntaxKind::IDENT, rest) {
        Some((_, rest)) => opens_brace(rest),
        None => false,
    }
}

/// What `#` says in front of these.
fn attribute(rest: &[RawToken]) -> Option<Mark>
    ensures { result ≡ spec.attribute rest.now }
{
    let (_, rest) = eat(SyntaxKind::L_BRACK, rest)?;
    let (key, value) = assignment(rest)?;
    Some(Mark::Attribute(key, value))
}

/// What a comma says in front of these.
fn condition(rest: &[RawToken]) -> Option<Mark>
    ensures { result ≡ spec.condition rest.now }
{
    let (key, value) = assignment(rest)?;
    Some(Mark::Condition(key, value))
}

/// The key and the value of `key = "value"`, where tokens begin so.
fn assignment(rest: &[RawToken]) -> Option<(TextRange, TextRange)>
    ensures { result ≡ spec.assignment rest.now }
{
    let (key, rest) = eat(SyntaxKind::IDENT, rest)?;
    let (_, rest) = eat(SyntaxKind::EQ, rest)?;
    let (value, _) = eat(SyntaxKind::STRING, rest)?;
    Some((key, value))
}

/// Where tokens begin with one of this kind: its range, and the tokens behind it.
pub(crate) fn eat(kind: SyntaxKind, tokens: &[RawToken]) -> Option<(TextRange, &[RawToken])>
    ensures { option_map (λ found. (found.0, found.1.now)) result ≡ spec.eat kind tokens.now }
{
    let (first, rest) = tokens.split_first()?;
    if first.kind.is(kind) {
        Some((first.range, rest))
    } else {
        None
    }
}
