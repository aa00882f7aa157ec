//! What is written in front of what a placeholder holds.

ghost use Rattle.std.specs.Prelude.{◌≡◌, ◌++◌, [], false, IfOk, OnOk, option_map, replicate, string_bytes};
ghost use Rattle.ide_ssr_rewriting.specs.Private.Pieces.{piece_bytes};
ghost use Rattle.ide_ssr_rewriting.specs.Replacements.{prefix, taken_as};

use crate::piece::Piece;
use ide_ssr_bindings::Binding;
use ssr_base_trees::SelfKind;
use ssr_syntax::Reach;
use ssr_syntax_shorts::MadeText;
use std::alloc::{AllocError, Global};

/// How a method takes what it is called on.
fn taken_as(self_kind: SelfKind) -> &'static str
    ensures { result.now ≡ taken_as self_kind }
{
    match self_kind {
        SelfKind::Owned => "",
        SelfKind::Ref => "&",
        SelfKind::Mut => "&mut ",
    }
}

/// Whether anything is written in front of what a binding holds.
pub(crate) fn has_prefix(binding: Binding) -> bool
    ensures { result ≡ false → prefix binding ≡ [] }
{
    match binding.self_kind {
        SelfKind::Owned => binding.deref_count > 0,
        SelfKind::Ref | SelfKind::Mut => true,
    }
}

/// Adds so many `*`.
fn push_stars(text: &mut String, count: usize) -> Result<(), AllocError>
    ensures { OnOk result (string_bytes text.new ≡ string_bytes text.old ++ replicate count 42) }
{
    for _ in 0..count {
        text.push_str("*")?;
    }
    Ok(())
}

/// What is written in front of what a binding holds.
pub(crate) fn prefix(alloc: Global, binding: Binding) -> Result<String, AllocError>
    ensures { IfOk result (λ text. string_bytes text ≡ prefix binding) }
{
    let mut text = String::from_str(alloc, taken_as(binding.self_kind))?;
    push_stars(&mut text, binding.deref_count)?;
    Ok(text)
}

/// A text with another one in front of it.
fn behind(reach: Reach, prefix: String, held: Piece<'_>) -> Result<Piece<'_>, AllocError>
    ensures { IfOk result (λ text. piece_bytes text ≡ string_bytes prefix ++ piece_bytes held.entry) }
{
    if prefix.is_empty() {
        return Ok(held);
    }
    let mut text = prefix;
    text.push_str(held.as_str())?;
    Ok(Piece::Made(MadeText::new(reach, text)))
}

/// What a placeholder holds, if it can be made, with a text in front of it.
pub(crate) fn with_prefix(
    reach: Reach,
    prefix: String,
    held: Option<Piece<'_>>,
) -> Result<Option<Piece<'_>>, AllocError>
    ensures { IfOk result (λ piece. option_map piece_bytes piece ≡ option_map (λ text. string_bytes prefix ++ text) (option_map piece_bytes held.entry)) }
{
    match held {
        Some(held) => Ok(Some(behind(reach, prefix, held)?)),
        None => Ok(None),
    }
}
