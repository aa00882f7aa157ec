//! How the tokens of an expansion are put together.
ghost use Rattle.std.specs.Prelude.{◌≡◌, [], ◌∷◌, ◌++◌, OnOk, map};
ghost use Rattle.ssr_macro_arguments.specs.Private.Tokens.{written};
ghost use Rattle.ssr_macro_arguments.specs.Arguments.{mark, argument_piece, pieces};

use crate::arguments::ArgumentToken;
use ssr_syntax::ExpToken;
use ssr_syntax_kinds::TextRange;
use std::alloc::{AllocError, Global};

/// Tokens of an expansion.
#[derive(Drop)]
pub(crate) struct Writer {
    alloc: Global,
    pub(crate) tokens: Vec<ExpToken>,
}

impl Writer {
    pub(crate) fn new(alloc: Global) -> Writer
        ensures { written result ≡ [] }
    {
        Writer {
            alloc,
            tokens: Vec::new(alloc),
        }
    }

    fn push(&mut self, text: &str, joint: bool, origin: Option<TextRange>) -> Result<(), AllocError>
        ensures { OnOk result (written self.new ≡ written self.old ++ record { text = text.now; joint = joint; origin = origin } ∷ []) }
    {
        let text = String::from_str(self.alloc, text)?;
        self.tokens.push(ExpToken {
            text,
            joint,
            origin,
        })?;
        Ok(())
    }

    /// Puts tokens behind the others that come from nowhere. An `=` is joined with what follows.
    pub(crate) fn marks(&mut self, texts: &[&str]) -> Result<(), AllocError>
        ensures { OnOk result (written self.new ≡ written self.old ++ map (λ text. mark text.now) texts.now) }
    {
        for text in texts {
            self.push(text, *text == "=", None)?;
        }
        Ok(())
    }

    /// Puts a token of arguments behind the others.
    pub(crate) fn copy(&mut self, token: &ArgumentToken) -> Result<(), AllocError>
        ensures { OnOk result (written self.new ≡ written self.old ++ argument_piece token.now ∷ []) }
    {
        self.push(
            token.token.text.as_str(),
            token.token.joint,
            token.token.origin,
        )
    }

    /// Puts tokens of arguments behind the others.
    pub(crate) fn copy_all(&mut self, tokens: &[ArgumentToken]) -> Result<(), AllocError>
        ensures { OnOk result (written self.new ≡ written self.old ++ pieces tokens.now) }
    {
        for token in tokens {
            self.copy(token)?;
        }
        Ok(())
    }
}
