//! What arguments are read as: a tuple, an array or a `match`.
ghost use Rattle.std.specs.Prelude.{◌≡◌, ◌+◌, ◌≤◌, ◌<◌, ◌^◌, ◌++◌, OnOk, IfOk, length, map, drop, if◌then◌else◌};
ghost use Rattle.ssr_macro_arguments.specs.Arguments.{piece_of, pieces};
ghost use Rattle.ssr_macro_arguments.specs.Private.Tokens.{written};
ghost use Rattle.ssr_macro_arguments.specs.Forms.{opens, closes, depth_behind, is_outer, front_length, begins_with_name, name_length, values, ends_with_comma, without_comma, closing, in_tuple, array_of, head_of, arms, match_of, expansion_of};

use crate::arguments::ArgumentToken;
use crate::macros::Form;
use crate::writer::Writer;
use ssr_syntax::ExpToken;
use ssr_syntax_kinds::SyntaxKind;
use std::alloc::{AllocError, Global};

/// Whether a token opens a bracket.
fn opens(kind: SyntaxKind) -> bool
    ensures { result ≡ opens kind }
{
    kind.is(SyntaxKind::L_PAREN) || kind.is(SyntaxKind::L_CURLY) || kind.is(SyntaxKind::L_BRACK)
}

/// Whether a token closes a bracket.
fn closes(kind: SyntaxKind) -> bool
    ensures { result ≡ closes kind }
{
    kind.is(SyntaxKind::R_PAREN) || kind.is(SyntaxKind::R_CURLY) || kind.is(SyntaxKind::R_BRACK)
}

/// How many brackets are open behind a token, where so many are open in front of it.
fn depth_behind(depth: usize, kind: SyntaxKind) -> usize
    requires { depth + 1 < 2 ^ 64 }
    ensures value { result ≡ depth_behind depth kind }
    ensures near { result ≤ depth + 1 }
{
    if opens(kind) {
        depth + 1
    } else if closes(kind) {
        depth.saturating_sub(1)
    } else {
        depth
    }
}

/// Whether a token is of this kind, and stands outside of brackets.
fn is_outer(mark: SyntaxKind, depth: usize, kind: SyntaxKind) -> bool
    ensures { result ≡ is_outer mark depth kind }
{
    depth == 0 && kind.is(mark)
}

/// How many tokens stand in front of the first one of a kind that stands outside of brackets; all, where there is none.
pub(crate) fn front_length(mark: SyntaxKind, arguments: &[ArgumentToken]) -> usize
    ensures value { result ≡ front_length mark 0 arguments.now }
    ensures within { result ≤ length arguments.now }
{
    let mut depth = 0;
    let mut count = 0;
    let mut rest = arguments;
    while let Some((token, others)) = rest.split_first() {
        if is_outer(mark, depth, token.kind) {
            return count;
        }
        depth = depth_behind(depth, token.kind);
        count += 1;
        rest = others;
    }
    count
}

/// Whether tokens begin with a name and `=`, as an argument does that has a name.
fn begins_with_name(arguments: &[ArgumentToken]) -> bool
    ensures { result ≡ begins_with_name arguments.now }
{
    match arguments {
        [name, equal, ..] => {
            name.kind.is(SyntaxKind::IDENT) && equal.kind.is(SyntaxKind::EQ) && !equal.token.joint
        }
        _ => false,
    }
}

/// The tokens behind a name and `=`, where they begin with these.
fn behind_name(arguments: &[ArgumentToken]) -> &[ArgumentToken]
    ensures { result.now ≡ drop (name_length arguments.now) arguments.now }
{
    if begins_with_name(arguments) && arguments.len() >= 2 {
        &arguments[2..]
    } else {
        arguments
    }
}

/// Whether the last token is a comma.
fn ends_with_comma(arguments: &[ArgumentToken]) -> bool
    ensures { result ≡ ends_with_comma arguments.now }
{
    match arguments.last() {
        Some(last) => last.kind.is(SyntaxKind::COMMA),
        None => false,
    }
}

/// The tokens without a comma that is the last one.
fn without_comma(arguments: &[ArgumentToken]) -> &[ArgumentToken]
    ensures { result.now ≡ without_comma arguments.now }
{
    if ends_with_comma(arguments) {
        &arguments[..arguments.len().saturating_sub(1)]
    } else {
        arguments
    }
}

/// The tokens behind a token; behind a comma without the name that an argument begins with there.
fn behind(is_comma: bool, others: &[ArgumentToken]) -> &[ArgumentToken]
    ensures { result.now ≡ drop (if is_comma then name_length others.now else 0) others.now }
{
    if is_comma {
        behind_name(others)
    } else {
        others
    }
}

/// Puts arguments behind other tokens, each without a name in front.
fn copy_values(writer: &mut Writer, arguments: &[ArgumentToken]) -> Result<(), AllocError>
    ensures { OnOk result (written writer.new ≡ written writer.old ++ pieces (values arguments.now)) }
{
    let mut depth = 0;
    let mut rest = behind_name(arguments);
    while let Some((token, others)) = rest.split_first() {
        writer.copy(token)?;
        let is_comma = is_outer(SyntaxKind::COMMA, depth, token.kind);
        depth = depth_behind(depth, token.kind);
        rest = behind(is_comma, others);
    }
    Ok(())
}

/// Puts the end of a tuple behind its values, with a comma where the arguments end without.
fn close_tuple(writer: &mut Writer, arguments: &[ArgumentToken]) -> Result<(), AllocError>
    ensures { OnOk result (written writer.new ≡ written writer.old ++ closing arguments.now) }
{
    if ends_with_comma(arguments) {
        writer.marks(&[")"])
    } else {
        writer.marks(&[",", ")"])
    }
}

/// A tuple of arguments, each without a name in front.
fn write_named(writer: &mut Writer, arguments: &[ArgumentToken]) -> Result<(), AllocError>
    ensures { OnOk result (written writer.new ≡ written writer.old ++ in_tuple arguments.now (pieces (values arguments.now))) }
{
    writer.marks(&["("])?;
    copy_values(writer, arguments)?;
    close_tuple(writer, arguments)
}

/// A tuple of arguments.
fn write_values(writer: &mut Writer, arguments: &[ArgumentToken]) -> Result<(), AllocError>
    ensures { OnOk result (written writer.new ≡ written writer.old ++ in_tuple arguments.now (pieces arguments.now)) }
{
    writer.marks(&["("])?;
    writer.copy_all(arguments)?;
    close_tuple(writer, arguments)
}

/// An array of a value and how often it stands there.
fn write_array(writer: &mut Writer, arguments: &[ArgumentToken]) -> Result<(), AllocError>
    ensures { OnOk result (written writer.new ≡ written writer.old ++ array_of arguments.now) }
{
    writer.marks(&["["])?;
    writer.copy_all(arguments)?;
    writer.marks(&["]"])
}

/// What stands in front of a pattern.
fn write_head(writer: &mut Writer, value: &[ArgumentToken]) -> Result<(), AllocError>
    ensures { OnOk result (written writer.new ≡ written writer.old ++ head_of value.now) }
{
    writer.marks(&["match"])?;
    writer.copy_all(value)?;
    writer.marks(&["{"])
}

/// What stands behind a pattern.
fn write_arms(writer: &mut Writer) -> Result<(), AllocError>
    ensures { OnOk result (written writer.new ≡ written writer.old ++ arms) }
{
    writer.marks(&["=", ">", "true", ",", "_", "=", ">", "false", "}"])
}

/// A `match` of a value with a pattern.
fn write_match(
    writer: &mut Writer,
    value: &[ArgumentToken],
    pattern: &[ArgumentToken],
) -> Result<(), AllocError>
    ensures { OnOk result (written writer.new ≡ written writer.old ++ match_of value.now pattern.now) }
{
    write_head(writer, value)?;
    writer.copy_all(pattern)?;
    write_arms(writer)
}

/// The tokens as which arguments are read.
#[tactic(auto, unfolding(crate::specs::Forms::expansion_of))]
fn write_expansion(
    writer: &mut Writer,
    form: Form,
    arguments: &[ArgumentToken],
) -> Result<(), AllocError>
    ensures { OnOk result (written writer.new ≡ written writer.old ++ expansion_of form arguments.now) }
{
    match form {
        Form::Formatted(_) => write_named(writer, arguments),
        Form::Values => write_values(writer, arguments),
        Form::Elements => {
            if front_length(SyntaxKind::SEMICOLON, arguments) < arguments.len() {
                write_array(writer, arguments)
            } else {
                write_values(writer, arguments)
            }
        }
        Form::Matched => {
            let comma = front_length(SyntaxKind::COMMA, arguments);
            if comma < arguments.len() {
                let pattern = without_comma(&arguments[comma + 1..]);
                write_match(writer, &arguments[..comma], pattern)
            } else {
                write_values(writer, arguments)
            }
        }
    }
}

/// The tokens as which the arguments of a call are read.
pub(crate) fn expansion_tokens(
    alloc: Global,
    form: Form,
    arguments: &[ArgumentToken],
) -> Result<Vec<ExpToken>, AllocError>
    ensures { IfOk result (λ tokens. map piece_of tokens.items ≡ expansion_of form arguments.now) }
{
    let mut writer = Writer::new(alloc);
    write_expansion(&mut writer, form, arguments)?;
    Ok(writer.tokens)
}
