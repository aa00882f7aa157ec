//! The refusals of rules, each in its words.
ghost use Rattle.std.specs.Prelude.{◌++◌};
ghost use Rattle.std.specs.Fmt.{IsPlainFormatter, HasWritten};
ghost use Rattle.std.specs.Result.{IsOk};
ghost use Rattle.ide_ssr_refusals.specs.Refusals.{Tells};

use crate::error::SsrError;
use ssr_syntax_kinds::SyntaxKind;
use ssr_syntax_lex::LexError;
use std::alloc::{AllocError, Global};
use std::fmt;
use std::marker::Model;

/// A text that the words of a refusal name.
#[derive(Drop)]
pub struct Text<'a>(pub &'a str);

impl<'a> Model for Text<'a> {
    ghost use Rattle.std.specs.Prelude.{List, ℕ};

    ghost Value = { List ℕ };

    ghost view = { λ text. text.0.now };
}

/// A fault of the lexer, which is told in its own words.
#[derive(Drop)]
pub struct Fault(pub LexError);

impl Model for Fault {
    ghost use Rattle.std.specs.Prelude.{List, ℕ};
    ghost use Rattle.ssr_syntax_lex.specs.Fault.{error_words};

    ghost Value = { List ℕ };

    ghost view = { λ fault. error_words fault.0 };
}

/// Why a rule is refused, with what its words name.
#[derive(Drop)]
pub enum Refusal<'a> {
    NoDelimiter,
    SecondDelimiter,
    LexerFault(Fault),
    /// `$` has no identifier in the name's place.
    NoName,
    /// Behind `$` stands neither an identifier nor `{`.
    NoPlaceholder,
    /// The side ends behind `${`.
    EndOfPlaceholder,
    NoClosingBrace,
    /// A token behind the name that is neither `:` nor `}`.
    UnexpectedToken(Text<'a>),
    /// The side ends where a constraint begins.
    NoConstraint,
    /// The side ends behind `kind(`.
    EndOfKind,
    /// What stands behind `kind(` is no identifier, but of this kind.
    NoKindName(SyntaxKind),
    /// A bracket of a constraint, and what stands in its place.
    OtherBracket(Text<'a>, Text<'a>),
    /// The side ends before this bracket of a constraint.
    NoBracket(Text<'a>),
    UnknownKind(Text<'a>),
    UnknownConstraint(Text<'a>),
    DeepConstraint,
    Repeated(Text<'a>),
    /// The stand-in of this name is no token of its own.
    Glued(Text<'a>),
    /// An identifier is spelled as a stand-in.
    Reserved(Text<'a>),
    NoKind,
    ConstraintInMacroCall(Text<'a>),
    ConstraintInTemplate,
    /// The template uses placeholders of these names, listed, which the pattern lacks.
    Undefined(Text<'a>),
    UnresolvedPath(Text<'a>),
}

/// Writes a text between words.
fn write_around<W: fmt::Write>(
    f: &mut fmt::Formatter<W>,
    front: &str,
    text: &Text<'_>,
    behind: &str,
) -> fmt::Result
    ensures { IsPlainFormatter f.old → IsOk result → HasWritten W.write_str_gives f.old (front.now ++ (text.now ++ behind.now)) f.new }
{
    write!(f, "{front}{}{behind}", text.0)
}

impl fmt::Display for Refusal<'_> {
    ghost use Rattle.std.specs.Prelude.{Some};
    ghost use Rattle.ide_ssr_refusals.specs.Refusals.{words};

    ghost output = { λ refusal. Some (words refusal) };

    fn fmt<W: fmt::Write>(&self, f: &mut fmt::Formatter<W>) -> fmt::Result {
        match self {
            Refusal::NoDelimiter => f.write_str("Cannot find delimiter `==>>`"),
            Refusal::SecondDelimiter => f.write_str("More than one delimiter found"),
            Refusal::LexerFault(fault) => write!(f, "Failed to parse pattern: {}", fault.0),
            Refusal::NoName => f.write_str("Placeholder ($) with no name"),
            Refusal::NoPlaceholder => {
                f.write_str("Placeholders should either be $name or ${name:constraints}")
            }
            Refusal::EndOfPlaceholder => f.write_str("Unexpected end of placeholder"),
            Refusal::NoClosingBrace => f.write_str("Placeholder is missing closing brace '}'"),
            Refusal::UnexpectedToken(text) => write_around(
                f,
                "Unexpected token while parsing placeholder: '",
                text,
                "'",
            ),
            Refusal::NoConstraint => {
                f.write_str("Found end of placeholder while looking for a constraint")
            }
            Refusal::EndOfKind => f.write_str(
                "Unexpected end of constraint while looking for kind",
            ),
            Refusal::NoKindName(kind) => {
                write!(
                    f,
                    "Expected ident, found {kind:?} while parsing kind constraint"
                )
            }
            Refusal::OtherBracket(wanted, text) => {
                write!(f, "Expected {} found {}", wanted.0, text.0)
            }
            Refusal::NoBracket(wanted) => write_around(
                f,
                "Expected ",
                wanted,
                " found end of stream",
            ),
            Refusal::UnknownKind(text) => write_around(f, "Unknown node kind '", text, "'"),
            Refusal::UnknownConstraint(text) => write_around(
                f,
                "Unsupported constraint type '",
                text,
                "'",
            ),
            Refusal::DeepConstraint => f.write_str("Constraint nested too deeply"),
            Refusal::Repeated(name) => write_around(
                f,
                "Placeholder `$",
                name,
                "` repeats more than once",
            ),
            Refusal::Glued(name) => write_around(
                f,
                "Placeholder `$",
                name,
                "` isn't a token of its own",
            ),
            Refusal::Reserved(text) => write_around(f, "Name `", text, "` is reserved"),
            Refusal::NoKind => {
                f.write_str("Not a valid Rust expression, type, item, path or pattern")
            }
            Refusal::ConstraintInMacroCall(name) => write_around(
                f,
                "Placeholder `$",
                name,
                "` in a macro call cannot have constraints",
            ),
            Refusal::ConstraintInTemplate => {
                f.write_str("Replacement placeholders cannot have constraints")
            }
            Refusal::Undefined(names) => {
                write!(
                    f,
                    "Replacement contains undefined placeholders: {}",
                    names.0
                )
            }
            Refusal::UnresolvedPath(path) => write_around(f, "Failed to resolve path `", path, "`"),
        }
    }
}

impl Refusal<'_> {
    /// The error that tells the refusal, unless there is no memory for its words.
    pub fn told(&self, alloc: Global) -> SsrError
        ensures { Tells result self.now }
    {
        match self.to_string(alloc) {
            Ok(message) => SsrError::Message(message),
            Err(AllocError) => SsrError::Memory,
        }
    }
}
