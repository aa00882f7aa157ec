//! Tokens that stand for themselves, and names that stand for expressions.
ghost use Rattle.std.specs.Prelude.{◌≡◌, ◌==◌, IsTrue};
ghost use Rattle.std.specs.List.{list_any};
ghost use Rattle.ssr_syntax_kinds.specs.Kinds.{same_kind};
ghost use Rattle.ssr_syntax_tree.specs.Places.{HasNode, HasToken};
ghost use Rattle.ssr_syntax_shorts.specs.Private.Marks.{IsHeld, IsMark, IsOwn};

use ssr_syntax_kinds::SyntaxKind;
use ssr_syntax_tree::{NodeNo, TokenNo, Tree};

/// A tree that is walked over, and its names.
#[derive(Drop)]
pub(crate) struct Walk<'a> {
    pub(crate) tree: &'a Tree,
    /// The tokens that stand for other expressions.
    pub(crate) names: &'a [TokenNo],
}

/// Whether the kind is one of these.
pub(crate) fn is_one_of(kind: SyntaxKind, kinds: &[SyntaxKind]) -> bool
    ensures { result ≡ list_any (λ own. same_kind kind own) kinds.now }
{
    kinds.iter().any(|own| kind.is(*own))
}

/// Whether the token is a name.
fn is_name(names: &[TokenNo], token: TokenNo) -> bool
    ensures { result ≡ list_any (λ name. name.0 == token.0) names.now }
{
    names.iter().any(|name| name.0 == token.0)
}

impl<'a> Walk<'a> {
    /// Whether a token is solid, and no name.
    pub(crate) fn is_own(&self, token: TokenNo) -> bool
        requires { HasToken self.now.tree.now token.0 }
        ensures { IsTrue result → IsOwn self.now.tree.now self.now.names.now token.0 }
    {
        !self.tree.token_kind(token).is_trivia() && !is_name(self.names, token)
    }

    /// Whether a token stands for itself and is of one of these kinds.
    pub(crate) fn is_mark(&self, token: TokenNo, kinds: &[SyntaxKind]) -> bool
        requires { HasToken self.now.tree.now token.0 }
        ensures { IsTrue result → IsMark self.now.tree.now self.now.names.now kinds.now token.0 }
    {
        is_one_of(self.tree.token_kind(token), kinds) && self.is_own(token)
    }

    /// Whether a node is a name alone.
    pub(crate) fn is_held(&self, node: NodeNo) -> bool
        requires { HasNode self.now.tree.now node.0 }
        ensures { IsTrue result → IsHeld self.now.tree.now self.now.names.now node.0 }
    {
        let tokens = self.tree.tokens_below(node);
        if !self.tree.kind(node).is(SyntaxKind::PATH_EXPR) || tokens.end - tokens.start != 1 {
            return false;
        }
        let token = TokenNo(tokens.start);
        self.tree.token_kind(token).is(SyntaxKind::IDENT) && is_name(self.names, token)
    }
}
