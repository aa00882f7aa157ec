//! What covers the origins of tokens.

ghost use Rattle.std.specs.Prelude.{◌≡◌, ◌+◌, ◌<◌, ◌≤◌, IfOk, length, map, Some};
ghost use Rattle.std.specs.Option.{option_map};
ghost use Rattle.ssr_syntax_tree.specs.Syntax.{node_count, token_count};
ghost use Rattle.ssr_syntax_tree.specs.Places.{HasNode, node_of};
ghost use Rattle.ssr_base_trees.specs.Origins.{span_of, join, covered, cover_of, cover_of_one, plain_cover, plain_origin};
ghost use Rattle.ssr_base_trees.specs.Workspace.{cover_below};
ghost use Rattle.ssr_base_trees.specs.Private.Covers.{CoversFrom, AreCovers};

use ssr_syntax_kinds::TextRange;
use ssr_syntax_tree::{Element, NodeNo, Tree};
use std::alloc::{AllocError, Global};

/// What covers the origins of tokens.
#[derive(Clone, Copy)]
pub enum Cover {
    /// There is no token.
    NoToken,
    /// A token has no origin.
    NoOrigin,
    /// All tokens have an origin, and this is the least range with them all.
    Range(TextRange),
}

impl Cover {
    /// What covers the origin of one token.
    pub fn of_token(origin: Option<TextRange>) -> Cover
        ensures { plain_cover result ≡ cover_of_one (plain_origin origin) }
    {
        match origin {
            Some(range) => Cover::Range(range),
            None => Cover::NoOrigin,
        }
    }

    /// What covers the origins that this one covers and those that another one covers.
    pub fn join(self, other: Cover) -> Cover
        ensures { plain_cover result ≡ join (plain_cover self) (plain_cover other) }
    {
        match (self, other) {
            (Cover::NoToken, _) => other,
            (Cover::NoOrigin, _) => Cover::NoOrigin,
            (Cover::Range(_), Cover::NoToken) => self,
            (Cover::Range(_), Cover::NoOrigin) => Cover::NoOrigin,
            (Cover::Range(a), Cover::Range(b)) => {
                Cover::Range(TextRange::new(a.start.min(b.start), a.end.max(b.end)))
            }
        }
    }

    /// The range that covers the origins, if there is a token and all tokens have one.
    pub fn range(self) -> Option<TextRange>
        ensures { option_map span_of result ≡ covered (plain_cover self) }
    {
        match self {
            Cover::Range(range) => Some(range),
            _ => None,
        }
    }
}

/// What covers the origins of these tokens.
pub(crate) fn cover_all(origins: &[Option<TextRange>]) -> Cover
    ensures { plain_cover result ≡ cover_of (map plain_origin origins.now) }
{
    let mut cover = Cover::NoToken;
    for origin in origins {
        cover = cover.join(Cover::of_token(*origin));
    }
    cover
}

/// What covers the origins of the tokens below a node, where those below the nodes behind it are known.
fn cover_below(tree: &Tree, origins: &[Option<TextRange>], node: NodeNo, covers: &[Cover]) -> Cover
    requires has { HasNode tree.now node.0 }
    requires origins { length origins.now ≡ token_count tree.now.children }
    requires counted { length covers.now ≡ 1 + node_count tree.now.children }
    requires known { CoversFrom tree.now (map plain_origin origins.now) (1 + node.0) covers.now }
    ensures { plain_cover result ≡ cover_below (map plain_origin origins.now) (node_of tree.now node.0) }
{
    let mut cover = Cover::NoToken;
    for part in tree.children(node) {
        cover = cover.join(match part {
            Element::Node(child) => covers[child.0 as usize],
            Element::Token(token) => Cover::of_token(origins[token.0 as usize]),
        });
    }
    cover
}

/// For each node of a tree what covers the origins of the tokens below it.
pub(crate) fn covers(
    alloc: Global,
    tree: &Tree,
    origins: &[Option<TextRange>],
) -> Result<Vec<Cover>, AllocError>
    requires { length origins.now ≡ token_count tree.now.children }
    ensures { IfOk result (λ covers. AreCovers tree.now (map plain_origin origins.now) covers.items) }
{
    let count = tree.node_count();
    let mut covers = vec![in alloc; Cover::NoToken; count as usize]?;
    let mut left = count;
    while left > 0 {
        left -= 1;
        covers[left as usize] = cover_below(tree, origins, NodeNo(left), &covers);
    }
    Ok(covers)
}
