//! Elements of a tree: which of them have no meaning for a match, and which say the same.

ghost use Rattle.std.specs.Prelude.{◌≡◌};
ghost use Rattle.ssr_syntax_tree.specs.Places.{HasToken, HasElement, token_of, part_of};
ghost use Rattle.ssr_syntax_tree.specs.Syntax.{same_token};
ghost use Rattle.ide_ssr_token_trees.specs.Elements.{is_closing, is_trivia_part, closes_part};

use ssr_syntax_kinds::SyntaxKind;
use ssr_syntax_tree::{Element, TokenNo, Tree};

/// Whether a closing bracket is of this kind.
#[tactic(auto, unfolding(crate::specs::Elements::is_closing))]
fn is_closing(kind: SyntaxKind) -> bool
    ensures { result ≡ is_closing kind }
{
    matches!(
        kind,
        SyntaxKind::R_PAREN | SyntaxKind::R_CURLY | SyntaxKind::R_BRACK
    )
}

/// Whether an element is a closing bracket, directly before which a comma may stand or not.
pub fn closes(tree: &Tree, element: Element) -> bool
    requires { HasElement tree.now element }
    ensures { result ≡ closes_part (part_of tree.now element) }
{
    match element {
        Element::Token(token) => is_closing(tree.token_kind(token)),
        Element::Node(_) => false,
    }
}

/// Whether two tokens have one kind and one text.
pub fn tokens_match(pattern: &Tree, p: TokenNo, code: &Tree, c: TokenNo) -> bool
    requires p_in { HasToken pattern.now p.0 }
    requires c_in { HasToken code.now c.0 }
    ensures { result ≡ same_token (token_of pattern.now p.0) (token_of code.now c.0) }
{
    pattern.token_kind(p).is(code.token_kind(c)) && pattern.token_text(p) == code.token_text(c)
}

/// Whether an element is trivia: white space or a comment.
pub fn is_trivia(tree: &Tree, element: Element) -> bool
    requires { HasElement tree.now element }
    ensures { result ≡ is_trivia_part (part_of tree.now element) }
{
    match element {
        Element::Token(token) => tree.token_kind(token).is_trivia(),
        Element::Node(_) => false,
    }
}
