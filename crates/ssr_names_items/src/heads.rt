//! What the tokens of a macro's argument or of its bodies may declare, as far as it is spelled there.

use crate::code::Code;
use crate::names::Names;
use crate::plain_macros::{is_plain, opens};
use crate::table::{ItemKind, Name};
use ssr_syntax_kinds::SyntaxKind;
use std::alloc::{AllocError, Global};
use std::ops::Range;

/// The beginning of an item: its kind, its name and where it stands.
#[derive(Clone, Copy)]
pub(crate) struct Head {
    pub(crate) kind: HeadKind,
    pub(crate) name: Name,
    /// How many brackets are open around it.
    pub(crate) depth: u32,
}

/// What the beginning of an item is of.
#[derive(Clone, Copy, PartialEq, Eq)]
pub(crate) enum HeadKind {
    Item(ItemKind),
    Module,
    /// A name that a `use` or an `extern crate` has.
    Used,
}

/// The call of a macro.
#[derive(Clone, Copy)]
pub(crate) struct Call {
    pub(crate) name: Name,
    /// Whether what it declares is spelled in its argument, if no file defines a macro with that name.
    pub(crate) is_plain: bool,
    /// How many braces are open around it, those of a call's argument aside.
    pub(crate) braces: u32,
}

/// What tokens may declare.
#[derive(Drop)]
pub(crate) struct Heads {
    pub(crate) heads: Vec<Head>,
    /// The macros that are called.
    pub(crate) calls: Vec<Call>,
    /// The words in the arguments of these calls, but for those in bodies of functions and other deeper braces.
    pub(crate) words: Vec<Name>,
    /// Whether something may be brought in that isn't spelled: by a `use` with `*`, by a file, or under a name that is put together.
    pub(crate) has_glob: bool,
    /// Whether a `use` has a metavariable.
    pub(crate) has_open_use: bool,
    /// Whether the name of an item is a metavariable.
    pub(crate) has_open_head: bool,
    /// Whether there is a `*` at all.
    pub(crate) has_star: bool,
}

/// What stands in front of a token.
#[derive(Clone, Copy, PartialEq, Eq)]
enum Front {
    Other,
    /// What the name of such an item stands behind.
    Item(HeadKind),
    /// The word `macro_rules`.
    MacroRules,
    /// The name of another macro: of which sort that is.
    Word(Name, Sort),
    /// Such a name and a `!`.
    Called(Name, Sort),
    Extern,
    /// A `use` or an `extern crate`, up to its `;`.
    Use,
    /// A `$` in a `use`.
    UseDollar,
    Star,
}

/// What is known of a macro by its name, if no file defines one.
#[derive(Clone, Copy, PartialEq, Eq)]
enum Sort {
    /// What it declares is spelled in its argument.
    Plain,
    /// It brings in what isn't spelled.
    Opener,
    Other,
}

/// What is known of the macro with a name.
fn sort_of(text: &str) -> Sort {
    if is_plain(text) || matches!(text, "thread_local" | "lazy_static" | "cfg_if") {
        Sort::Plain
    } else if opens(text) {
        Sort::Opener
    } else {
        Sort::Other
    }
}

/// How many braces are open around the items of a macro's bodies: its own, and those of an arm.
pub(crate) const AROUND_BODY: u32 = 2;

/// What the front is behind a token that is no name.
fn front_behind(front: Front, kind: SyntaxKind) -> Front {
    let item = match kind {
        SyntaxKind::FN_KW => ItemKind::Function,
        SyntaxKind::STRUCT_KW => ItemKind::Struct,
        SyntaxKind::ENUM_KW => ItemKind::Enum,
        SyntaxKind::TRAIT_KW => ItemKind::Trait,
        SyntaxKind::TYPE_KW => ItemKind::TypeAlias,
        SyntaxKind::MACRO_KW => ItemKind::Macro,
        SyntaxKind::CONST_KW if front != Front::Star => ItemKind::Const,
        SyntaxKind::STATIC_KW => ItemKind::Static,
        SyntaxKind::REF_KW | SyntaxKind::MUT_KW => return behind_ref(front),
        SyntaxKind::MOD_KW => return Front::Item(HeadKind::Module),
        SyntaxKind::EXTERN_KW => return Front::Extern,
        SyntaxKind::CRATE_KW if front == Front::Extern => return Front::Use,
        SyntaxKind::USE_KW => return Front::Use,
        SyntaxKind::STAR => return Front::Star,
        _ => return Front::Other,
    };
    Front::Item(HeadKind::Item(item))
}

/// What the front is behind `ref` or `mut`: that of a static stays.
fn behind_ref(front: Front) -> Front {
    match front {
        Front::Item(HeadKind::Item(ItemKind::Static)) => front,
        _ => Front::Other,
    }
}

/// What the tokens from the first of a range on may declare, with at most so many braces around it.
pub(crate) fn spelled(
    alloc: Global,
    names: &mut Names,
    code: Code<'_>,
    tokens: Range<u32>,
    deepest: u32,
) -> Result<Heads, AllocError> {
    let mut scan = Scan {
        found: Heads {
            heads: Vec::new(alloc),
            calls: Vec::new(alloc),
            words: Vec::new(alloc),
            has_glob: false,
            has_open_use: false,
            has_open_head: false,
            has_star: false,
        },
        front: Front::Other,
        depth: 0,
        braces: 0,
        around_call: None,
        deepest,
        has_open_braces: false,
    };
    for token in tokens.start..tokens.end {
        let kind = code.token_kind(token);
        if !kind.is_trivia() {
            scan.go_on(names, kind, code.token_text(token))?;
        }
    }
    let Scan { found, .. } = scan;
    Ok(found)
}

/// Tokens as they are gone over.
#[derive(Drop)]
struct Scan {
    found: Heads,
    front: Front,
    depth: u32,
    /// How many braces are open, those of a call's argument aside.
    braces: u32,
    /// How many brackets are open around the outermost call, in its argument.
    around_call: Option<u32>,
    /// How many braces may be open around what is declared.
    deepest: u32,
    /// Whether `extern` or `macro_rules` was met: what stands in the braces behind it may be declared around them.
    has_open_braces: bool,
}

impl Scan {
    /// Goes on behind a token.
    fn go_on(&mut self, names: &mut Names, kind: SyntaxKind, text: &str) -> Result<(), AllocError> {
        self.count(kind);
        self.count_brace(kind);
        self.note_word(names, kind, text)?;
        match self.front {
            Front::Use | Front::UseDollar => self.go_on_in_use(names, kind, text),
            _ if kind.is(SyntaxKind::IDENT) => self.go_on_behind_word(names, text),
            _ => self.go_on_behind_mark(kind),
        }
    }

    /// Counts a bracket, and looks for a `*`.
    fn count(&mut self, kind: SyntaxKind) {
        match kind {
            SyntaxKind::L_CURLY | SyntaxKind::L_PAREN | SyntaxKind::L_BRACK => {
                self.depth = self.depth.saturating_add(1);
            }
            SyntaxKind::R_CURLY | SyntaxKind::R_PAREN | SyntaxKind::R_BRACK => {
                self.depth = self.depth.saturating_sub(1);
            }
            SyntaxKind::STAR => self.found.has_star = true,
            SyntaxKind::EXTERN_KW => self.has_open_braces = true,
            _ => {}
        }
    }

    /// Whether what is declared here isn't a part of an `impl`, a function or a module in the body of a macro.
    fn is_outer(&self) -> bool {
        self.braces <= self.deepest || self.has_open_braces
    }

    /// Counts a brace that is none of a call's argument.
    fn count_brace(&mut self, kind: SyntaxKind) {
        if self.around_call.is_some() {
            return;
        }
        match kind {
            SyntaxKind::L_CURLY => self.braces = self.braces.saturating_add(1),
            SyntaxKind::R_CURLY => self.braces = self.braces.saturating_sub(1),
            _ => {}
        }
    }

    /// Notes a word that stands in the argument of a call, which ends with the bracket that closes it.
    fn note_word(
        &mut self,
        names: &mut Names,
        kind: SyntaxKind,
        text: &str,
    ) -> Result<(), AllocError> {
        let Some(around) = self.around_call else {
            return Ok(());
        };
        match kind {
            SyntaxKind::IDENT if self.braces <= AROUND_BODY => {
                self.found.words.push(names.add(text)?)?;
            }
            SyntaxKind::R_CURLY | SyntaxKind::R_PAREN | SyntaxKind::R_BRACK
                if self.depth <= around => {
                self.around_call = None;
            }
            _ => {}
        }
        Ok(())
    }

    /// Notes the call of a macro, whose argument begins with a bracket.
    fn note_call(&mut self, name: Name, sort: Sort, bracket: SyntaxKind) -> Result<(), AllocError> {
        if self.around_call.is_none() {
            self.around_call = Some(self.depth.saturating_sub(1));
            if bracket.is(SyntaxKind::L_CURLY) {
                self.braces = self.braces.saturating_sub(1);
            }
        }
        let is_plain = sort == Sort::Plain;
        let braces = if self.has_open_braces { 0 } else { self.braces };
        self.found.calls.push(Call {
            name,
            is_plain,
            braces,
        })?;
        self.found.has_glob |= sort == Sort::Opener;
        Ok(())
    }

    fn add(&mut self, kind: HeadKind, name: Name) -> Result<(), AllocError> {
        let depth = self.depth;
        if self.is_outer() {
            self.found.heads.push(Head { kind, name, depth })?;
        }
        Ok(())
    }

    fn go_on_in_use(
        &mut self,
        names: &mut Names,
        kind: SyntaxKind,
        text: &str,
    ) -> Result<(), AllocError> {
        let is_behind_dollar = self.front == Front::UseDollar;
        self.front = Front::Use;
        match kind {
            SyntaxKind::SEMICOLON => self.front = Front::Other,
            SyntaxKind::STAR | SyntaxKind::L_BRACK => self.found.has_glob |= self.is_outer(),
            SyntaxKind::DOLLAR => self.front = Front::UseDollar,
            SyntaxKind::IDENT if is_behind_dollar => self.found.has_open_use = true,
            SyntaxKind::IDENT => self.add(HeadKind::Used, names.add(text)?)?,
            SyntaxKind::L_PAREN if is_behind_dollar => self.found.has_open_use = true,
            _ => {}
        }
        Ok(())
    }

    fn go_on_behind_word(&mut self, names: &mut Names, text: &str) -> Result<(), AllocError> {
        let name = names.add(text)?;
        if let Front::Item(kind) = self.front {
            self.add(kind, name)?;
            self.front = Front::Other;
        } else if text == "union" {
            self.front = Front::Item(HeadKind::Item(ItemKind::Union));
        } else if text == "macro_rules" {
            self.has_open_braces = true;
            self.front = Front::MacroRules;
        } else {
            self.front = Front::Word(name, sort_of(text));
        }
        Ok(())
    }

    fn go_on_behind_mark(&mut self, kind: SyntaxKind) -> Result<(), AllocError> {
        let front = self.front;
        self.front = front_behind(front, kind);
        match (front, kind) {
            (Front::Item(_), SyntaxKind::DOLLAR) => self.found.has_open_head |= self.is_outer(),
            // a name that is put together, as `paste!` does
            (Front::Item(_), SyntaxKind::L_BRACK) => self.found.has_glob |= self.is_outer(),
            (Front::MacroRules, SyntaxKind::BANG) => {
                self.front = Front::Item(HeadKind::Item(ItemKind::Macro));
            }
            (Front::Word(name, sort), SyntaxKind::BANG) => self.front = Front::Called(name, sort),
            (
                Front::Called(name, sort),
                SyntaxKind::L_CURLY | SyntaxKind::L_PAREN | SyntaxKind::L_BRACK,
            ) => self.note_call(name, sort, kind)?,
            _ => {}
        }
        Ok(())
    }
}
