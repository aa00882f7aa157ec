//! The rows of a tree's tokens, from those of the text's tokens and the joined ones.
ghost use Rattle.std.specs.Prelude.{◌≡◌, ◌+◌, ◌<◌, ◌≤◌, ◌∷◌, ◌++◌, List, length};
ghost use Rattle.ssr_syntax_rows.specs.TreeTokens.{joined_rows};
ghost use Rattle.ssr_syntax_kinds.specs.declared.token_rows.TokenRow.{TokenRow};

use crate::packing::Packing;
use ssr_syntax_forms::Joined;
use ssr_syntax_kinds::{TokenRow, TokenRows};

/// Adds a token of the text. The token that was added last has `left` solid ones more, and `next` are the joined ones
/// behind it: the answer says what is left of both.
fn add<'a>(token: TokenRow, left: u8, next: &'a [Joined], rows: &mut Packing) -> (u8, &'a [Joined])
    requires room { 0 < rows.old.room }
    ensures packed { (others : List TokenRow) → rows.new.packed ++ joined_rows result.0 (length rows.new.packed) result.1.now others
        ≡ rows.old.packed ++ joined_rows left (length rows.old.packed) next.now (token ∷ others) }
    ensures unread { rows.new.unread ≡ rows.old.unread }
    ensures count { length rows.new.packed ≤ length rows.old.packed + 1 }
{
    if left > 0 {
        let is_trivia = token.kind.is_trivia();
        return (if is_trivia { left } else { left - 1 }, next);
    }
    let Some((first, others)) = next.split_first() else {
        rows.put(token);
        return (0, next);
    };
    if first.number as usize != rows.packed() {
        rows.put(token);
        return (0, next);
    }
    rows.put(TokenRow {
        kind: first.kind,
        start: token.start,
    });
    (first.size.saturating_sub(1), others)
}

/// The tokens of the tree of a text with these rows, of whose tokens these are joined.
#[inline(never)]
pub fn tree_tokens(rows: TokenRows, joined: &[Joined]) -> TokenRows
    ensures rows { result ≡ joined_rows 0 0 joined.now rows }
    ensures count { length result ≤ length rows }
{
    if joined.is_empty() {
        return rows;
    }
    let mut packing = Packing::new(rows);
    let mut left = 0;
    let mut next = joined;
    while let Some(token) = packing.read() {
        (left, next) = add(token, left, next, &mut packing);
    }
    packing.finish()
}
