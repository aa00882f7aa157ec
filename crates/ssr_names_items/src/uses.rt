//! The paths of a `use` item, one by one: those of `use a::{b, c::*};` are `a::b` and `a::c::*`.

use crate::code::Code;
use crate::names::Names;
use crate::table::{Brings, Name, Start};
use ssr_syntax_kinds::SyntaxKind;
use ssr_syntax_tree::NodeNo;
use std::alloc::{AllocError, Global};

/// The most names that a path of a `use` item may have. What a longer one stands for isn't known.
const MOST_SEGMENTS: usize = 64;

/// A path of a `use` item.
#[derive(Drop)]
pub(crate) struct UsePath {
    pub(crate) start: Start,
    /// The names behind the start; `None`, where there are too many.
    pub(crate) segments: Option<Vec<Name>>,
    pub(crate) brings: Brings,
    pub(crate) only_types: bool,
}

/// How much of a path stands in front of a brace.
#[derive(Clone, Copy)]
struct Prefix {
    start: Start,
    count: usize,
}

/// A `use` item as its tokens are gone over.
#[derive(Drop)]
struct Uses {
    alloc: Global,
    paths: Vec<UsePath>,
    prefixes: Vec<Prefix>,
    start: Start,
    segments: Vec<Name>,
    /// What the path has behind its names, if that was read.
    end: End,
    /// Whether the path has a token of its own.
    is_begun: bool,
}

/// What stands behind the names of a path.
#[derive(Clone, Copy, PartialEq, Eq)]
enum End {
    Plain,
    /// `self` in braces.
    Itself,
    /// `as`, and perhaps `self` in braces in front.
    As(bool),
    /// `as` and a name, or `_`.
    Renamed(bool, Option<Name>),
    Star,
}

/// The paths of a `use` item.
pub(crate) fn use_paths(
    alloc: Global,
    names: &mut Names,
    code: Code<'_>,
    item: NodeNo,
) -> Result<Vec<UsePath>, AllocError> {
    let mut uses = Uses {
        alloc,
        paths: Vec::new(alloc),
        prefixes: Vec::new(alloc),
        start: Start::Plain,
        segments: Vec::new(alloc),
        end: End::Plain,
        is_begun: false,
    };
    let tokens = code.tokens(item);
    let first = code.token(item, SyntaxKind::USE_KW);
    for token in first.unwrap_or(tokens.end)..tokens.end {
        let kind = code.token_kind(token);
        if !kind.is_trivia() {
            uses.go_on(names, kind, code.token_text(token))?;
        }
    }
    let Uses { paths, .. } = uses;
    Ok(paths)
}

/// What the end is behind `self` in braces, or behind `as`.
fn behind_as(end: End) -> End {
    End::As(end == End::Itself)
}

impl Uses {
    /// Goes on behind a token.
    fn go_on(&mut self, names: &mut Names, kind: SyntaxKind, text: &str) -> Result<(), AllocError> {
        match kind {
            SyntaxKind::IDENT => return self.go_on_behind_name(names.add(text)?),
            SyntaxKind::L_CURLY => {
                self.prefixes.push(Prefix {
                    start: self.start,
                    count: self.segments.len(),
                })?;
                self.is_begun = false;
            }
            SyntaxKind::COMMA => return self.finish(),
            SyntaxKind::R_CURLY => {
                self.finish()?;
                self.prefixes.pop();
                self.is_begun = false;
            }
            SyntaxKind::SEMICOLON => return self.finish(),
            SyntaxKind::USE_KW => {}
            _ => self.go_on_behind_mark(kind),
        }
        Ok(())
    }

    /// Whether nothing of the path stands in front.
    fn is_at_start(&self) -> bool {
        self.segments.is_empty() && self.start == Start::Plain
    }

    fn go_on_behind_name(&mut self, name: Name) -> Result<(), AllocError> {
        self.is_begun = true;
        if let End::As(is_itself) = self.end {
            self.end = End::Renamed(is_itself, Some(name));
        } else if self.segments.len() <= MOST_SEGMENTS {
            self.segments.push(name)?;
        }
        Ok(())
    }

    fn go_on_behind_mark(&mut self, kind: SyntaxKind) {
        match kind {
            SyntaxKind::COLON2 if self.is_at_start() => self.start = Start::Global,
            SyntaxKind::CRATE_KW => self.start = Start::Crate,
            SyntaxKind::SUPER_KW => self.start = above(self.start),
            SyntaxKind::SELF_KW if self.is_at_start() => self.start = Start::SelfModule,
            SyntaxKind::SELF_KW => self.end = End::Itself,
            SyntaxKind::STAR => self.end = End::Star,
            SyntaxKind::AS_KW => self.end = behind_as(self.end),
            SyntaxKind::UNDERSCORE => {
                self.end = End::Renamed(self.end == End::As(true), None);
            }
            _ => {}
        }
        self.is_begun = true;
    }

    /// Adds the path that ends here, if there is one, and goes back to what stands in front of the brace.
    fn finish(&mut self) -> Result<(), AllocError> {
        if self.is_begun {
            let path = self.path()?;
            self.paths.push(path)?;
        }
        let prefix = match self.prefixes.last() {
            Some(prefix) => *prefix,
            None => Prefix {
                start: Start::Plain,
                count: 0,
            },
        };
        self.start = prefix.start;
        self.segments.truncate(prefix.count);
        self.end = End::Plain;
        self.is_begun = false;
        Ok(())
    }

    /// The path that ends here.
    fn path(&self) -> Result<UsePath, AllocError> {
        let segments = if self.segments.len() > MOST_SEGMENTS {
            None
        } else {
            Some(Vec::from_slice(self.alloc, self.segments.as_slice())?)
        };
        let last = match self.segments.last() {
            Some(last) => Brings::Name(*last),
            None => Brings::Nothing,
        };
        let (brings, only_types) = match self.end {
            End::Plain => (last, false),
            End::Itself => (last, true),
            End::As(is_itself) => (Brings::Nothing, is_itself),
            End::Renamed(is_itself, Some(name)) => (Brings::Name(name), is_itself),
            End::Renamed(is_itself, None) => (Brings::Nothing, is_itself),
            End::Star => (Brings::Glob, false),
        };
        Ok(UsePath {
            start: self.start,
            segments,
            brings,
            only_types,
        })
    }
}

/// How a path begins that goes one module further up.
fn above(start: Start) -> Start {
    match start {
        Start::Super(count) => Start::Super(count.saturating_add(1)),
        _ => Start::Super(1),
    }
}
