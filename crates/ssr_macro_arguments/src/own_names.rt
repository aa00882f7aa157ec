//! The macros of the standard library in whose place files have others of the same name.
ghost use Rattle.ssr_syntax_tree.specs.Places.{HasNode};

use crate::macros::form_of;
use ssr_syntax_kinds::SyntaxKind;
use ssr_syntax_tree::{NodeNo, TokenNo, Tree};
use std::alloc::{AllocError, Global};

/// Names of macros of the standard library that mean others in the files.
#[derive(Drop)]
pub(crate) struct OwnNames {
    alloc: Global,
    names: Vec<String>,
}

/// What stands directly in front of a token, white space and comments aside.
#[derive(Clone, Copy, PartialEq, Eq)]
enum Front {
    Other,
    /// The word `macro_rules`.
    MacroRules,
    /// `macro_rules!` or `macro`, behind which a name stands.
    Definition,
}

/// What stands in front of the token behind this one.
fn front_behind(front: Front, kind: SyntaxKind, text: &str) -> Front {
    match kind {
        SyntaxKind::MACRO_KW => Front::Definition,
        SyntaxKind::IDENT if text == "macro_rules" => Front::MacroRules,
        SyntaxKind::BANG if front == Front::MacroRules => Front::Definition,
        _ => Front::Other,
    }
}

/// Whether a path begins with the standard library.
fn is_std(name: &str) -> bool {
    matches!(name, "std" | "core" | "alloc")
}

/// Whether a `use` item names the standard library first.
fn uses_std(tree: &Tree, item: NodeNo) -> bool
    requires { HasNode tree.now item.0 }
{
    let mut is_behind_use = false;
    let below = tree.tokens_below(item);
    for number in below.start..below.end {
        let token = TokenNo(number);
        let kind = tree.token_kind(token);
        if kind.is(SyntaxKind::USE_KW) {
            is_behind_use = true;
        } else if is_behind_use && !kind.is_trivia() && !kind.is(SyntaxKind::COLON2) {
            return is_std(tree.token_text(token));
        }
    }
    false
}

impl OwnNames {
    pub(crate) fn new(alloc: Global) -> OwnNames {
        OwnNames {
            alloc,
            names: Vec::new(alloc),
        }
    }

    /// Whether the files have a macro of their own with this name.
    pub(crate) fn has(&self, name: &str) -> bool {
        self.names.iter().any(|own| own.as_str() == name)
    }

    /// Adds a name, if the standard library has a macro with it.
    fn add(&mut self, name: &str) -> Result<(), AllocError> {
        if form_of(name).is_some() && !self.has(name) {
            self.names.push(String::from_str(self.alloc, name)?)?;
        }
        Ok(())
    }

    /// Adds the macros that a file defines.
    fn add_defined(&mut self, tree: &Tree) -> Result<(), AllocError> {
        let mut front = Front::Other;
        for number in 0..tree.token_count() {
            let token = TokenNo(number);
            let kind = tree.token_kind(token);
            if kind.is_trivia() {
                continue;
            }
            if front == Front::Definition && kind.is(SyntaxKind::IDENT) {
                self.add(tree.token_text(token))?;
            }
            front = front_behind(front, kind, tree.token_text(token));
        }
        Ok(())
    }

    /// Adds the last names of a `use` item's paths.
    fn add_last_names(&mut self, tree: &Tree, item: NodeNo) -> Result<(), AllocError>
        requires { HasNode tree.now item.0 }
    {
        let mut last = None;
        let below = tree.tokens_below(item);
        for number in below.start..below.end {
            let token = TokenNo(number);
            match tree.token_kind(token) {
                SyntaxKind::IDENT => last = Some(tree.token_text(token)),
                SyntaxKind::COMMA | SyntaxKind::SEMICOLON | SyntaxKind::R_CURLY => {
                    if let Some(name) = last {
                        self.add(name)?;
                    }
                    last = None;
                }
                kind if kind.is_trivia() => {}
                _ => last = None,
            }
        }
        Ok(())
    }

    /// Adds the macros that a file brings in from elsewhere.
    fn add_used(&mut self, tree: &Tree) -> Result<(), AllocError> {
        for number in 0..tree.node_count() {
            let node = NodeNo(number);
            if tree.kind(node).is(SyntaxKind::USE) && !uses_std(tree, node) {
                self.add_last_names(tree, node)?;
            }
        }
        Ok(())
    }

    /// Adds the macros that a file defines or brings in from elsewhere.
    pub(crate) fn add_file(&mut self, tree: &Tree) -> Result<(), AllocError> {
        self.add_defined(tree)?;
        self.add_used(tree)
    }
}
