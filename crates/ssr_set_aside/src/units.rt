//! Units that aren't read: a look at each of them, alone in a file as it stands.
ghost use Rattle.std.specs.Prelude.{◌≡◌, IfOk, IfSome, IsTrue, slice_range, string_bytes};
ghost use Rattle.ssr_base_trees.specs.Origins.{span_of};
ghost use Rattle.ssr_set_aside.specs.Parts.{AreBytes, AreUnits, IsUnit, IsUnread, alone};

use ssr_drafts::{Unit, UnitKind};
use ssr_syntax::{Reach, SyntaxError, parse_file_owned_of};
use ssr_syntax_kinds::TextRange;
use ssr_syntax_lex::RawToken;
use std::alloc::{AllocError, Global};

/// Whether these are the bytes of the tokens from one place up to before another.
pub(crate) fn are_bytes(tokens: &[RawToken], from: usize, to: usize, bytes: TextRange) -> bool
    ensures { IsTrue result → AreBytes tokens.now from to (span_of bytes) }
{
    match bytes_of(tokens, from, to) {
        Some(range) => range.start == bytes.start && range.end == bytes.end,
        None => false,
    }
}

/// The bytes of the tokens from one place up to before another, if there are such tokens.
fn bytes_of(tokens: &[RawToken], from: usize, to: usize) -> Option<TextRange>
    ensures { IfSome result (λ bytes. AreBytes tokens.now from to (span_of bytes)) }
{
    let last = to.checked_sub(1)?;
    match (tokens.get(from), tokens.get(last)) {
        (Some(first), Some(last)) if first.range.start <= last.range.end => {
            Some(TextRange::new(first.range.start, last.range.end))
        }
        _ => None,
    }
}

/// Whether units follow each other from one token up to before another, and none of them is read as it stands.
pub(crate) fn are_units(
    alloc: Global,
    text: &str,
    tokens: &[RawToken],
    units: &[Unit],
    from: usize,
    to: usize,
) -> Result<bool, AllocError>
    ensures { IfOk result (λ yes. IsTrue yes → AreUnits text.now tokens.now from to) }
{
    let mut at = from;
    for unit in units {
        if unit.from != at || !is_unit(alloc, text, tokens, unit)? {
            return Ok(false);
        }
        at = unit.to;
    }
    Ok(at == to)
}

/// Whether a unit has a token, and isn't read as it stands.
fn is_unit(alloc: Global, text: &str, tokens: &[RawToken], unit: &Unit) -> Result<bool, AllocError>
    ensures { IfOk result (λ yes. IsTrue yes → IsUnit text.now tokens.now unit.now.kind unit.now.from unit.now.to) }
{
    match bytes_of(tokens, unit.from, unit.to) {
        Some(bytes) if unit.from < unit.to => is_unread(alloc, text, unit.kind, bytes),
        _ => Ok(false),
    }
}

/// Whether these bytes of a text aren't read as a unit of a kind, alone in a file.
fn is_unread(
    alloc: Global,
    text: &str,
    kind: UnitKind,
    bytes: TextRange,
) -> Result<bool, AllocError>
    ensures { IfOk result (λ yes. IsTrue yes → IsUnread (alone kind (slice_range text.now bytes.start bytes.end))) }
{
    let Some(unit) = text.get(bytes.start as usize..bytes.end as usize) else {
        return Ok(false);
    };
    let file = put_alone(alloc, kind, unit)?;
    match parse_file_owned_of(alloc, Reach::Whole, file) {
        Ok(_) => Ok(false),
        Err(SyntaxError::Memory) => Err(AllocError),
        Err(_) => Ok(true),
    }
}

/// A text as a unit of a kind, alone in a file.
fn put_alone(alloc: Global, kind: UnitKind, unit: &str) -> Result<String, AllocError>
    ensures { IfOk result (λ file. string_bytes file ≡ alone kind unit.now) }
{
    let mut file = String::from_str(alloc, kind.front())?;
    file.push_str(unit)?;
    file.push_str(kind.back())?;
    Ok(file)
}
