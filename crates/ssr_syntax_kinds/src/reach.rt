//! How much of Rust is read.
ghost use Rattle.std.specs.Prelude.{◌≡◌};

/// How much of Rust is read.
#[derive(Debug, Clone, Copy, PartialEq, Eq)]
pub enum Reach {
    /// The stated language.
    Stated,
    /// All of stable Rust, of edition 2024.
    Whole,
}

impl Reach {
    ghost use Rattle.ssr_syntax_kinds.specs.Reach.{is_whole};

    /// Whether all of Rust is read.
    pub fn is_whole(self) -> bool
        ensures { result ≡ is_whole self }
    {
        matches!(self, Reach::Whole)
    }
}
