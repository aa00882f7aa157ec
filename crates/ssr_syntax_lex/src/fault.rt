//! What a lexer fault is.

use std::fmt;

/// What is wrong where a text has no token, by what begins there.
#[derive(Clone, Copy, Debug, PartialEq, Eq)]
pub(crate) enum FaultKind {
    /// A `/*` comment without its `*/`.
    UnclosedComment,
    /// A string of any kind without its end.
    UnclosedString,
    /// `b'` that begins no byte.
    UnclosedByte,
    /// `'` that begins neither a character nor a lifetime.
    UnclosedChar,
    /// A character that begins no token.
    NoToken,
}

impl fmt::Display for FaultKind {
    ghost use Rattle.std.specs.Prelude.{Some};
    ghost use Rattle.ssr_syntax_lex.specs.Fault.{kind_words};

    ghost output = { λ kind. Some (kind_words kind) };

    fn fmt<W: fmt::Write>(&self, f: &mut fmt::Formatter<W>) -> fmt::Result {
        f.write_str(match self {
            FaultKind::UnclosedComment => "a block comment that is not closed",
            FaultKind::UnclosedString => "a string that is not closed",
            FaultKind::UnclosedByte => "a byte literal that is not closed",
            FaultKind::UnclosedChar => "a character literal that is not closed",
            FaultKind::NoToken => "a character that begins no token",
        })
    }
}
