//! Lines and numbers of hunks, as they are written.
ghost use Rattle.std.specs.Prelude.{◌≡◌, ◌-◌, ◌≤◌, ◌++◌, ◌==◌, OnOk, length, map, flat_map, slice_index, string_bytes};
ghost use Rattle.std.specs.List.{slice_range};
ghost use Rattle.ssr_diff.specs.Patch.{signed_line, span_text};

use crate::lines::Lines;
use std::alloc::AllocError;

/// Writes lines behind a sign each: those from a place up to another one, counted from 0.
pub(crate) fn push_lines(
    text: &mut String,
    sign: &str,
    lines: &Lines<'_>,
    from: usize,
    to: usize,
) -> Result<(), AllocError>
    requires order { from ≤ to }
    requires fits { to ≤ length lines.now }
    ensures { OnOk result (string_bytes text.new ≡ string_bytes text.old ++ flat_map (signed_line sign.now) (slice_range lines.now from to)) }
{
    for place in from..to {
        push_line(text, sign, lines.line(place))?;
    }
    Ok(())
}

fn push_line(text: &mut String, sign: &str, line: &str) -> Result<(), AllocError>
    ensures { OnOk result (string_bytes text.new ≡ string_bytes text.old ++ signed_line sign.now line.now) }
{
    text.push_str(sign)?;
    text.push_str(line)?;
    if !is_ended(line) {
        text.push_str("\n\\ No newline at end of file\n")?;
    }
    Ok(())
}

/// Whether a line has its line break.
fn is_ended(line: &str) -> bool
    ensures { result ≡ (slice_index line.now (length line.now - 1) == 10) }
{
    match line.as_bytes().last() {
        Some(byte) => *byte == b'\n',
        None => false,
    }
}

/// Writes the number of the first line and how many there are: those from a place up to another one, counted from 0.
pub(crate) fn push_span(text: &mut String, from: usize, to: usize) -> Result<(), AllocError>
    requires { from ≤ to }
    ensures { OnOk result (string_bytes text.new ≡ string_bytes text.old ++ span_text from (to - from)) }
{
    let count = to - from;
    let first = if count == 0 { from } else { from + 1 };
    write!(text, "{first},{count}")
}
