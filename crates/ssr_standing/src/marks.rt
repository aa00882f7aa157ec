//! Marks of a node's children.
ghost use Rattle.std.specs.Prelude.{◌≡◌, ◌↔◌, IfSome, IsTrue, map, option_to_list};
ghost use Rattle.ssr_syntax_tree.specs.Places.{HasElement, HasToken, part_of, token_of};
ghost use Rattle.ssr_standing.specs.Around.{is_trivia_part, kept, marks_of};
ghost use Rattle.ssr_standing.specs.Private.Marks.{IsMarkOf, shown};

use ssr_syntax_tree::{Element, TokenNo, Tree};

/// A mark of an outline that stands for a child.
#[derive(Clone, Copy)]
pub(crate) enum Mark {
    Token(TokenNo),
    /// A child that is a node, whose own mark comes later.
    Child,
    /// What lies in the place of this number.
    Hole(usize),
}

/// Whether a part of a tree is white space or a comment.
pub(crate) fn is_trivia(tree: &Tree, part: Element) -> bool
    requires { HasElement tree.now part }
    ensures { result ≡ is_trivia_part (part_of tree.now part) }
{
    match part {
        Element::Token(token) => tree.token_kind(token).is_trivia(),
        Element::Node(_) => false,
    }
}

/// The mark of a part that lies in no place.
fn kept(tree: &Tree, part: Element) -> Mark
    requires { HasElement tree.now part }
    ensures shown { shown tree.now result ≡ kept (part_of tree.now part) }
    ensures had { IsMarkOf tree.now result }
{
    match part {
        Element::Token(token) => Mark::Token(token),
        Element::Node(_) => Mark::Child,
    }
}

/// The mark of a part that lies in a place, if it does, behind one that lies in another, if it does. Those that are joined have one
/// mark for their place.
pub(crate) fn mark_of(
    tree: &Tree,
    joined: bool,
    before: Option<usize>,
    hole: Option<usize>,
    part: Element,
) -> Option<Mark>
    requires { HasElement tree.now part }
    ensures shown { map (shown tree.now) (option_to_list result) ≡ marks_of joined before hole (part_of tree.now part) }
    ensures had { IfSome result (IsMarkOf tree.now) }
{
    let Some(number) = hole else {
        return Some(kept(tree, part));
    };
    if joined && before == Some(number) {
        return None;
    }
    Some(Mark::Hole(number))
}

/// Whether two marks are the same: of tokens their kinds and their texts count.
pub(crate) fn is_same_mark(tree: &Tree, mark: Mark, other_tree: &Tree, other: Mark) -> bool
    requires mark { IsMarkOf tree.now mark }
    requires other { IsMarkOf other_tree.now other }
    ensures { IsTrue result ↔ (shown tree.now mark ≡ shown other_tree.now other) }
{
    match (mark, other) {
        (Mark::Token(one), Mark::Token(two)) => is_same_token(tree, one, other_tree, two),
        (Mark::Child, Mark::Child) => true,
        (Mark::Hole(one), Mark::Hole(two)) => one == two,
        _ => false,
    }
}

/// Whether two tokens have the same kind and the same text.
fn is_same_token(tree: &Tree, token: TokenNo, other_tree: &Tree, other: TokenNo) -> bool
    requires token { HasToken tree.now token.0 }
    requires other { HasToken other_tree.now other.0 }
    ensures { IsTrue result ↔ (token_of tree.now token.0 ≡ token_of other_tree.now other.0) }
{
    tree.token_kind(token).is(other_tree.token_kind(other))
        && tree.token_text(token) == other_tree.token_text(other)
}
