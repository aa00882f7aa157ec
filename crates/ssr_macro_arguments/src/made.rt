//! Expansions that are made, and the calls that they are made of.
ghost use Rattle.std.specs.Prelude.{◌≡◌};
ghost use Rattle.ssr_macro_arguments.specs.Private.Starts.{starts_of};

use crate::expanding::ReadExpansion;
use crate::macros::Form;
use ssr_syntax_kinds::TextRange;
use ssr_syntax_tree::NodeNo;

/// An expansion that is read, and how many calls there are up to its file.
#[derive(Drop)]
pub(crate) struct Made {
    pub(crate) read: ReadExpansion,
    pub(crate) nesting: u32,
    /// Where its tokens begin in their text.
    pub(crate) starts: Vec<usize>,
    ghost begin: { starts.items ≡ starts_of read.expansion.tokens.items },
}

/// A call of a macro of the standard library: where it stands in its tree, how its arguments are read, and their brackets.
#[derive(Clone, Copy)]
pub(crate) struct Call {
    pub(crate) range: TextRange,
    pub(crate) form: Form,
    pub(crate) brackets: NodeNo,
}
