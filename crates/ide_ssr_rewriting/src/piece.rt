//! What stands for a placeholder.

ghost use Rattle.std.specs.Prelude.{◌≡◌};
ghost use Rattle.ide_ssr_rewriting.specs.Private.Pieces.{is_made, piece_bytes};

use ssr_syntax_shorts::MadeText;

/// What stands for a placeholder.
#[derive(Drop)]
pub(crate) enum Piece<'a> {
    /// A part of a file's text.
    Code(&'a str),
    /// A text in which matches were rewritten, or that has a prefix.
    Made(MadeText),
}

impl<'a> Piece<'a> {
    /// The text.
    pub(crate) fn as_str(&self) -> &str
        ensures { result.now ≡ piece_bytes self.now }
    {
        match self {
            Piece::Code(text) => text,
            Piece::Made(made) => made.as_str(),
        }
    }

    /// Whether it was made.
    pub(crate) fn is_made(&self) -> bool
        ensures { result ≡ is_made self.now }
    {
        matches!(self, Piece::Made(_))
    }
}
