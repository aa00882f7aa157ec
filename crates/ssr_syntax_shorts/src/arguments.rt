//! The arguments of a call, one child of their list after the other.
ghost use Rattle.std.specs.Prelude.{IfSome};
ghost use Rattle.ssr_syntax_tree.specs.Places.{HasToken};
ghost use Rattle.ssr_syntax_shorts.specs.Private.Arguments.{IsTurn};

use crate::tokens::Walk;
use ssr_syntax_kinds::SyntaxKind;
use ssr_syntax_tree::{Element, TokenNo};

/// What may come next in a list of arguments.
#[derive(Clone, Copy)]
pub(crate) enum Turn {
    /// The parenthesis that opens.
    Opening,
    /// An argument, or the parenthesis that closes.
    Argument,
    /// A comma, or the parenthesis that closes.
    Behind,
    /// Nothing more.
    Closed,
}

/// What may come behind a token, if it may stand there.
pub(crate) fn turn_behind(walk: &Walk<'_>, turn: Turn, token: TokenNo) -> Option<Turn>
    requires { HasToken walk.now.tree.now token.0 }
    ensures { IfSome result (λ next. IsTurn walk.now.tree.now walk.now.names.now turn (Element.Token token) next) }
{
    match turn {
        Turn::Opening => {
            if walk.is_mark(token, &[SyntaxKind::L_PAREN]) {
                return Some(Turn::Argument);
            }
            None
        }
        Turn::Argument => {
            if walk.is_mark(token, &[SyntaxKind::R_PAREN]) {
                return Some(Turn::Closed);
            }
            None
        }
        Turn::Behind => {
            if walk.is_mark(token, &[SyntaxKind::COMMA]) {
                return Some(Turn::Argument);
            }
            if walk.is_mark(token, &[SyntaxKind::R_PAREN]) {
                return Some(Turn::Closed);
            }
            None
        }
        Turn::Closed => None,
    }
}
