//! Why there is no new text.

use ssr_facts::FactsError;
use ssr_syntax::SyntaxError;
use std::alloc::AllocError;

/// Why there is no new text.
#[derive(Debug, Drop)]
pub(crate) enum RewriteError {
    /// The bytes of a file are no text.
    NoText,
    /// The text is no file.
    File(SyntaxError),
    /// The bytes are no facts.
    Facts(FactsError),
    /// There is no finder, or a rule is refused, with this message.
    Search(String),
    /// What stands for two matches clashes, which is told in these words.
    Clash(String),
    /// Memory ran out for the search.
    Memory,
}

impl From<SyntaxError> for RewriteError {
    ghost use Rattle.std.specs.Prelude.{◌≡◌};
    ghost use Rattle.ssr_program.specs.declared.rewrite_error.RewriteError.TheVariants as errors;

    ghost from_gives = { λ error result. result ≡ errors.File error };

    fn from(error: SyntaxError) -> RewriteError {
        RewriteError::File(error)
    }
}

impl From<FactsError> for RewriteError {
    ghost use Rattle.std.specs.Prelude.{◌≡◌};
    ghost use Rattle.ssr_program.specs.declared.rewrite_error.RewriteError.TheVariants as errors;

    ghost from_gives = { λ error result. result ≡ errors.Facts error };

    fn from(error: FactsError) -> RewriteError {
        RewriteError::Facts(error)
    }
}

impl From<AllocError> for RewriteError {
    ghost use Rattle.std.specs.Prelude.{◌≡◌};
    ghost use Rattle.ssr_program.specs.declared.rewrite_error.RewriteError.TheVariants as errors;

    ghost from_gives = { λ _ result. result ≡ errors.Memory };

    fn from(_: AllocError) -> RewriteError {
        RewriteError::Memory
    }
}
