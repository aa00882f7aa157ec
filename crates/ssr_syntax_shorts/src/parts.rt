//! Texts that are put together from parts.
ghost use Rattle.std.specs.Prelude.{◌≡◌, ◌++◌, ◌∷◌, [], IfOk, IfSome, OnOk};
ghost use Rattle.ssr_syntax_shorts.specs.Made.{ArePutTogether, is_piece, plain_of, text_of, unless_tight};
ghost use Rattle.ssr_syntax_shorts.specs.Private.Joining.{IsPushed};
ghost use Rattle.ssr_syntax_shorts.specs.Shorts.{IsShort, opening};

use crate::joining::{line_of, written};
use crate::made::MadeText;
use crate::short::Short;
use ssr_syntax::Reach;
use std::alloc::{AllocError, Global};

/// A text with no more bytes can as well be read itself.
const FEW: usize = 48;

/// A short text with more names takes too long.
const MOST_NAMES: usize = 16;

/// A loose piece whose short text has more bytes is read, so that one name stands for it.
const MOST_SHORT: usize = 24;

/// Short texts with more bytes together take too long, too.
const MOST_BYTES: usize = 1024;

/// A part of a text that is put together.
#[derive(Clone, Copy)]
pub enum Part<'a> {
    /// What stands as it is.
    Words(&'a str),
    /// A piece, which stands in parentheses where it is no node.
    Piece(&'a str),
    /// A piece that was made.
    Made(&'a MadeText),
}

impl Part<'_> {
    /// The text.
    pub(crate) fn as_str(&self) -> &str
        ensures { result.now ≡ text_of self.now }
    {
        match self {
            Part::Words(text) => text,
            Part::Piece(text) => text,
            Part::Made(made) => made.as_str(),
        }
    }

    /// Whether it is a piece.
    pub(crate) fn is_piece(&self) -> bool
        ensures { result ≡ is_piece self.now }
    {
        !matches!(self, Part::Words(_))
    }

    /// The short text that stands for it in a reach, if one is known.
    fn short_in(&self, reach: Reach) -> Option<&Short>
        ensures { IfSome result (λ short. IsShort reach short.now (text_of self.now)) }
    {
        match self {
            Part::Made(made) => made.short_in(reach),
            _ => None,
        }
    }

    /// Pushes its short text, or the text as it is.
    pub(crate) fn push_short(&self, reach: Reach, short: &mut Short) -> Result<(), AllocError>
        ensures { OnOk result (IsPushed reach (text_of self.now) short.old short.new) }
    {
        match self.short_in(reach) {
            Some(own) => short.push(own),
            None => short.push_str(self.as_str()),
        }
    }

    /// Pushes its short text in parentheses, or one name that stands for it.
    fn push_loose(&self, alloc: Global, reach: Reach, short: &mut Short) -> Result<(), AllocError>
        ensures { OnOk result (IsPushed reach (opening ∷ (text_of self.now ++ 41 ∷ [])) short.old short.new) }
    {
        let text = self.as_str();
        if let Some(own) = self.short_in(reach) {
            return push_in_parentheses(alloc, reach, own, text, short);
        }
        let own = Short::of(alloc, text)?;
        push_in_parentheses(alloc, reach, &own, text, short)
    }

    /// Pushes its short text, in parentheses if it is loose.
    pub(crate) fn push_unless_tight(
        &self,
        alloc: Global,
        reach: Reach,
        loose: bool,
        short: &mut Short,
    ) -> Result<(), AllocError>
        ensures { OnOk result (IsPushed reach (unless_tight loose (text_of self.now)) short.old short.new) }
    {
        if loose {
            self.push_loose(alloc, reach, short)
        } else {
            self.push_short(reach, short)
        }
    }
}

/// Pushes a short text in parentheses. Where it is long and tells what is read of the long text, one name stands for it.
fn push_in_parentheses(
    alloc: Global,
    reach: Reach,
    own: &Short,
    long: &str,
    short: &mut Short,
) -> Result<(), AllocError>
    requires { IsShort reach own.now long.now }
    ensures { OnOk result (IsPushed reach (opening ∷ (long.now ++ 41 ∷ [])) short.old short.new) }
{
    if own.text().len() > MOST_SHORT {
        if let Some(tree) = own.read(alloc, reach, long)? {
            return short.push_in_parentheses(&tree);
        }
    }
    short.push_str("(")?;
    short.push(own)?;
    short.push_str(")")
}

/// Whether short texts may be read in less time than the text itself, or a part that was made has none yet.
fn is_worth_reading(reach: Reach, parts: &[Part<'_>], plain: &str) -> bool {
    if plain.len() <= FEW {
        return false;
    }
    let mut bytes: usize = 0;
    let mut names: usize = 0;
    let mut is_new = false;
    for part in parts {
        if let Some(short) = part.short_in(reach) {
            bytes = bytes.saturating_add(short.text().len());
            names = names.saturating_add(short.names().len());
        } else {
            bytes = bytes.saturating_add(part.as_str().len());
            is_new = is_new || matches!(part, Part::Made(_));
        }
    }
    names <= MOST_NAMES && bytes <= MOST_BYTES && (is_new || bytes <= plain.len() / 2)
}

/// The parts behind one another, which are this text: each piece that is no node of what is read of it stands in parentheses.
/// Nothing where short texts don't tell what is read, or the text is so short that it can as well be read itself.
pub fn put_together(
    alloc: Global,
    reach: Reach,
    parts: &[Part<'_>],
    plain: &str,
) -> Result<Option<MadeText>, AllocError>
    requires { plain.now ≡ plain_of parts.now }
    ensures { IfOk result (λ answer. IfSome answer (λ text. ArePutTogether reach parts.now text)) }
{
    if !is_worth_reading(reach, parts, plain) {
        return Ok(None);
    }
    let line = line_of(alloc, reach, parts)?;
    let Some(tree) = line.short.read(alloc, reach, plain)? else {
        return Ok(None);
    };
    written(alloc, reach, line.parts.as_slice(), &tree)
}
