//! The short text of parts behind one another, and where each part stands in it.
ghost use Rattle.std.specs.Prelude.{◌≡◌, ◌+◌, ℕ, List, IfOk, IfSome, length};
ghost use Rattle.ssr_syntax_kinds.specs.declared.reach.Reach.{Reach};
ghost use Rattle.ssr_syntax_shorts.specs.Made.{is_loose, put_together, text_of};
ghost use Rattle.ssr_syntax_shorts.specs.Private.Joining.{AreJoined, ArePlaced, IsAt, parts_of};
ghost use Rattle.ssr_syntax_shorts.specs.Shorts.{IsReadOf};

use crate::made::MadeText;
use crate::parts::Part;
use crate::reading::ShortTree;
use crate::short::Short;
use ssr_syntax::Reach;
use std::alloc::{AllocError, Global};

/// A part, and where it begins and ends in the short text of all parts.
#[derive(Clone, Copy)]
pub(crate) struct Placed<'a> {
    pub(crate) part: Part<'a>,
    pub(crate) from: usize,
    pub(crate) to: usize,
}

/// The short text of parts behind one another, and its parts.
#[derive(Drop)]
pub(crate) struct Line<'a> {
    pub(crate) short: Short,
    pub(crate) parts: Vec<Placed<'a>>,
}

/// Puts the short texts of parts behind one another.
pub(crate) fn line_of<'a>(
    alloc: Global,
    reach: Reach,
    parts: &[Part<'a>],
) -> Result<Line<'a>, AllocError>
    ensures { IfOk result (λ line. AreJoined reach parts.now line.short line.parts.items) }
{
    let mut short = Short::of(alloc, "")?;
    let mut placed = Vec::with_capacity(alloc, parts.len())?;
    for part in parts {
        let from = short.text().len();
        part.push_short(reach, &mut short)?;
        placed.push(Placed {
            part: *part,
            from,
            to: short.text().len(),
        })?;
    }
    Ok(Line {
        short,
        parts: placed,
    })
}

/// Whether a part is a piece and no node of what was read. Nothing for a piece that is empty.
fn is_loose(tree: &ShortTree<'_>, placed: &Placed<'_>) -> Option<bool>
    ensures { IfSome result (λ loose. (reach : Reach) (long : List ℕ) (at : ℕ) (read : IsReadOf reach tree.now long)
        → IsAt tree.now.names placed.now.from at → IsAt tree.now.names placed.now.to (at + length (text_of placed.now.part))
        → loose ≡ is_loose read.syntax at placed.now.part) }
{
    if !placed.part.is_piece() {
        return Some(false);
    }
    if placed.from >= placed.to {
        return None;
    }
    Some(!tree.is_node(placed.from, placed.to))
}

/// The parts behind one another, each piece that is no node of what was read in parentheses. Nothing where a piece is empty.
pub(crate) fn written(
    alloc: Global,
    reach: Reach,
    parts: &[Placed<'_>],
    tree: &ShortTree<'_>,
) -> Result<Option<MadeText>, AllocError>
    ensures { IfOk result (λ answer. IfSome answer (λ text. (reach : Reach) (long : List ℕ) (read : IsReadOf reach tree.now long)
        → ArePlaced (IsAt tree.now.names) 0 parts.now → text ≡ put_together read.syntax 0 (parts_of parts.now))) }
{
    let mut made = MadeText::empty(alloc, reach)?;
    for placed in parts {
        let Some(loose) = is_loose(tree, placed) else {
            return Ok(None);
        };
        made.push(alloc, &placed.part, loose)?;
    }
    Ok(Some(made))
}
