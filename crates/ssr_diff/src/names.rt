//! Names of files, as git writes them.
ghost use Rattle.std.specs.Prelude.{◌≡◌, ◌<◌, ◌++◌, IfOk, OnOk, string_bytes};
ghost use Rattle.std.specs.List.{list_any};
ghost use Rattle.std.specs.Str.{chars};
ghost use Rattle.ssr_diff.specs.Names.{is_escaped as is_escaped_of, octal, escape, quoted as quoted_of};

use std::alloc::{AllocError, Global};

/// A name as git writes it. One with `"`, `\` or a control character stands between quotation marks, with escapes as `\t` and `\001`
/// for these characters. Any other name stays as it is.
pub fn quoted(alloc: Global, name: &str) -> Result<String, AllocError>
    ensures { IfOk result (λ text. string_bytes text ≡ quoted_of name.now) }
{
    if !has_escapes(name) {
        return String::from_str(alloc, name);
    }
    let mut text = String::from_str(alloc, "\"")?;
    for c in name.chars() {
        push_escape(&mut text, c)?;
    }
    text.push_str("\"")?;
    Ok(text)
}

/// Whether a name has a character that can't stand for itself between quotation marks.
fn has_escapes(name: &str) -> bool
    ensures { result ≡ list_any is_escaped_of (chars name.now) }
{
    name.chars().any(is_escaped)
}

/// Whether a character can't stand for itself between quotation marks.
fn is_escaped(c: char) -> bool
    ensures { result ≡ is_escaped_of c }
{
    c == '"' || c == '\\' || c.is_ascii_control()
}

/// Writes what stands for a character between quotation marks.
fn push_escape(text: &mut String, c: char) -> Result<(), AllocError>
    ensures { OnOk result (string_bytes text.new ≡ string_bytes text.old ++ escape c) }
{
    match c {
        '"' => text.push_str("\\\""),
        '\\' => text.push_str("\\\\"),
        '\u{7}' => text.push_str("\\a"),
        '\u{8}' => text.push_str("\\b"),
        '\t' => text.push_str("\\t"),
        '\n' => text.push_str("\\n"),
        '\u{b}' => text.push_str("\\v"),
        '\u{c}' => text.push_str("\\f"),
        '\r' => text.push_str("\\r"),
        _ if c.is_ascii_control() => push_octal(text, c),
        _ => Ok(text.push(c)?),
    }
}

/// Writes a backslash and a character's number as three octal digits.
fn push_octal(text: &mut String, c: char) -> Result<(), AllocError>
    requires { c < 128 }
    ensures { OnOk result (string_bytes text.new ≡ string_bytes text.old ++ octal c) }
{
    let number = c as u8;
    text.push_str("\\")?;
    text.push(char::from(b'0' + number / 64))?;
    text.push(char::from(b'0' + number / 8 % 8))?;
    text.push(char::from(b'0' + number % 8))?;
    Ok(())
}
