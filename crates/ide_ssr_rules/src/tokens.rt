//! The tokens of a side.
ghost use Rattle.std.specs.Prelude.{◌≡◌, ◌<◌, ◌^◌, length, IfOk};
ghost use Rattle.ide_ssr_rules.specs.Private.Tokens.{IsLexed};

use ssr_syntax_kinds::SyntaxKind;
use ssr_syntax_lex::{LexError, lex};
use std::alloc::Global;
use std::marker::Model;
use std::vec::IntoIter;

/// A token of a side: its kind and its text.
#[derive(Drop)]
pub(crate) struct Token<'a> {
    pub(crate) kind: SyntaxKind,
    pub(crate) text: &'a str,
}

impl<'a> Model for Token<'a> {
    ghost use Rattle.ssr_syntax_tree.specs.Syntax.{Token};

    ghost Value = { Token };

    ghost view = { λ token. record { kind = token.kind; text = token.text.now } };
}

impl<'a> Token<'a> {
    ghost use Rattle.ssr_syntax_kinds.specs.Kinds.{is_ident};
    ghost use Rattle.ide_ssr_rules.specs.Constraints.{is_colon, opens, closes};
    ghost use Rattle.ide_ssr_rules.specs.Elements.{is_dollar};

    pub(crate) fn is_dollar(&self) -> bool
        ensures { result ≡ is_dollar self.now.kind }
    {
        matches!(self.kind, SyntaxKind::DOLLAR)
    }

    pub(crate) fn is_ident(&self) -> bool
        ensures { result ≡ is_ident self.now.kind }
    {
        matches!(self.kind, SyntaxKind::IDENT)
    }

    pub(crate) fn is_colon(&self) -> bool
        ensures { result ≡ is_colon self.now.kind }
    {
        matches!(self.kind, SyntaxKind::COLON)
    }

    /// Whether the token opens the braces of a placeholder.
    pub(crate) fn opens(&self) -> bool
        ensures { result ≡ opens self.now.kind }
    {
        matches!(self.kind, SyntaxKind::L_CURLY)
    }

    /// Whether the token closes the braces of a placeholder.
    pub(crate) fn closes(&self) -> bool
        ensures { result ≡ closes self.now.kind }
    {
        matches!(self.kind, SyntaxKind::R_CURLY)
    }

    pub(crate) fn text(&self) -> &'a str
        ensures { result.now ≡ self.now.text }
    {
        self.text
    }
}

/// The tokens of a side that are still to be read.
#[derive(Drop)]
pub(crate) struct Tokens<'a> {
    left: IntoIter<Token<'a>>,
}

impl<'a> Model for Tokens<'a> {
    ghost use Rattle.std.specs.Prelude.{List};
    ghost use Rattle.std.specs.Vec.Iter.{into_iter_items};
    ghost use Rattle.ssr_syntax_tree.specs.Syntax.{Token};

    ghost Value = { List Token };

    ghost view = { λ tokens. into_iter_items tokens.left };
}

impl<'a> Tokens<'a> {
    ghost use Rattle.std.specs.Prelude.{[], ◌∷◌, MatchOption};

    pub(crate) fn new(tokens: Vec<Token<'a>>) -> Tokens<'a>
        ensures { result ≡ tokens.entry.items }
    {
        Tokens {
            left: tokens.into_iter(),
        }
    }

    /// Takes the first of the tokens.
    pub(crate) fn next(&mut self) -> Option<Token<'a>>
        ensures { MatchOption result (self.old ≡ []) (λ token. self.old ≡ token ∷ self.new) }
    {
        self.left.next()
    }
}

/// The tokens of a text.
pub(crate) fn lexed<'a>(alloc: Global, text: &'a str) -> Result<Vec<Token<'a>>, LexError>
    ensures value { IsLexed result text.now }
    ensures few { IfOk result (λ v. length v.items < 2 ^ 32) }
{
    let raw = lex(alloc, text)?;
    let mut tokens = Vec::new(alloc);
    for token in raw.as_slice() {
        let kind = token.kind;
        let text = &text[token.range.start as usize..token.range.end as usize];
        tokens.push(Token { kind, text })?;
    }
    Ok(tokens)
}
