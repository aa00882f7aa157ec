//! Places of a file as they are written: FILE:LINE or FILE:LINE:COLUMN.
ghost use Rattle.std.specs.Prelude.{IfOk, IfSome};
ghost use Rattle.cargo_ssr_options.specs.Place.{EndsInNumber, Spells};

use std::alloc::{AllocError, Global};

/// A place of a file. The line and the column count from 1, the column in characters.
#[derive(Debug, PartialEq, Eq, Drop)]
pub struct Place {
    pub file: String,
    pub line: u32,
    pub column: u32,
}

/// The place that a text names: FILE:LINE:COLUMN, or else FILE:LINE, its first column.
pub fn read_place(alloc: Global, text: &str) -> Result<Option<Place>, AllocError>
    ensures { IfOk result (λ place. IfSome place (Spells text.now)) }
{
    let Some((front, last)) = numbered(text) else {
        return Ok(None);
    };
    let (file, line, column) = match numbered(front) {
        Some((file, line)) => (file, line, last),
        None => (front, last, 1),
    };
    Ok(Some(Place {
        file: String::from_str(alloc, file)?,
        line,
        column,
    }))
}

/// What stands before the last colon, and the number behind it.
#[tactic(auto, using(crate::proofs::Colons::around_colon))]
fn numbered(text: &str) -> Option<(&str, u32)>
    ensures { IfSome result (λ found. EndsInNumber text.now found.0.now found.1) }
{
    let (front, number) = text.rsplit_once(':')?;
    match number.parse::<u32>() {
        Ok(number) => Some((front, number)),
        Err(_) => None,
    }
}
