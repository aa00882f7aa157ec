//! Whether a stand-in of a placeholder is among the tokens of a path.
ghost use Rattle.std.specs.Prelude.{◌≡◌};
ghost use Rattle.std.specs.List.{list_any};
ghost use Rattle.ssr_syntax_tree.specs.Places.{HasNode, HasToken, node_of, token_of};
ghost use Rattle.ide_ssr_resolving.specs.Used.{names_placeholder, holds_stand_in};
ghost use Rattle.ide_ssr_resolving.specs.Private.Pieces.{tokens_at, HasPiece};

use crate::keys::Piece;
use crate::paths::name_end;
use ide_ssr_resolved_rule::{Names, last_segment};
use ssr_syntax_kinds::SyntaxKind;
use ssr_syntax_tree::{NodeNo, TokenNo, Tree};

/// Whether a token is the stand-in of one of the names.
fn names_placeholder(names: &Names<'_>, tree: &Tree, token: TokenNo) -> bool
    requires { HasToken tree.now token.0 }
    ensures { result ≡ names_placeholder names.now (token_of tree.now token.0) }
{
    matches!(tree.token_kind(token), SyntaxKind::IDENT)
        && names.has_stand_in(tree.token_text(token))
}

/// Whether one of the tokens of a piece is the stand-in of one of the names.
fn has_stand_in(names: &Names<'_>, tree: &Tree, piece: Piece) -> bool
    requires { HasPiece tree.now piece }
    ensures { result ≡ list_any (names_placeholder names.now) (tokens_at tree.now piece) }
{
    for number in piece.first..piece.past {
        if names_placeholder(names, tree, TokenNo(number)) {
            return true;
        }
    }
    false
}

/// Whether one of the tokens of a path, but for the arguments of its last segment, is the stand-in of one of the names.
pub(crate) fn holds_stand_in(names: &Names<'_>, tree: &Tree, path: NodeNo) -> bool
    requires { HasNode tree.now path.0 }
    ensures { result ≡ holds_stand_in names.now (node_of tree.now path.0).children }
{
    let tokens = tree.tokens_below(path);
    let Some(last) = last_segment(tree, path) else {
        let whole = Piece {
            first: tokens.start,
            past: tokens.end,
        };
        return has_stand_in(names, tree, whole);
    };
    let front = Piece {
        first: tokens.start,
        past: name_end(tree, last),
    };
    let behind = Piece {
        first: tree.tokens_below(last).end,
        past: tokens.end,
    };
    has_stand_in(names, tree, front) || has_stand_in(names, tree, behind)
}
