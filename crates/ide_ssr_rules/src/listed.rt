//! Names as a user writes them: `$a, $b`.
ghost use Rattle.std.specs.Prelude.{◌≡◌, IfOk, string_bytes};
ghost use Rattle.ide_ssr_rules.specs.Listed.{mark, listed};

use ide_ssr_resolved_rule::Name;
use std::alloc::{AllocError, Global};

/// The names, listed.
pub(crate) fn listed(alloc: Global, names: &[Name<'_>]) -> Result<String, AllocError>
    ensures { IfOk result (λ text. string_bytes text ≡ listed names.now) }
{
    let mut text = String::new(alloc);
    for (place, name) in names.iter().enumerate() {
        text.push_str(mark(place))?;
        text.push_str(name.text)?;
    }
    Ok(text)
}

/// What stands before the name at this place of a list.
fn mark(place: usize) -> &'static str
    ensures { result.now ≡ mark place }
{
    if place == 0 { "$" } else { ", $" }
}
