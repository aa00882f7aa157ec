//! The elements of a side.
ghost use Rattle.std.specs.Prelude.{◌≡◌};
ghost use Rattle.ide_ssr_rules.specs.Elements.{is_constrained};

use crate::constraints::Placeholder;
use crate::tokens::Token;

/// A part of a side.
#[derive(Drop)]
pub(crate) enum Element<'a> {
    Token(Token<'a>),
    Placeholder(Placeholder<'a>),
}

impl Element<'_> {
    /// Whether the element is a placeholder with constraints.
    pub(crate) fn is_constrained(&self) -> bool
        ensures { result ≡ is_constrained self.now }
    {
        match self {
            Element::Token(_) => false,
            Element::Placeholder(placeholder) => placeholder.is_constrained(),
        }
    }
}
