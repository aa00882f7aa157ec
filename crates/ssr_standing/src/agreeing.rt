//! Whether two trees are the same around the places that are replaced.
ghost use Rattle.std.specs.Prelude.{◌≡◌, ◌↔◌, IfOk, IsTrue, map};
ghost use Rattle.ssr_base_trees.specs.Origins.{span_of};
ghost use Rattle.ssr_standing.specs.Around.{agree, around};

use crate::outlines::{Outline, are_same};
use ssr_syntax_kinds::TextRange;
use ssr_syntax_tree::Tree;
use std::alloc::{AllocError, Global};

/// Whether two trees are the same around the places of their texts that are replaced, in bytes: those of the old text, and beside
/// each the place of the new text that has what was written for it. White space and comments don't count. Each part of the tree that
/// lies in a place is a hole, so one part stands for one. In a macro's brackets, which hold tokens, several side by side are one hole.
/// What lies partly in a place is kept.
///
/// A place that only white space or comments are written to has no hole in the new tree, so the trees differ.
pub fn agree(
    alloc: Global,
    old: &Tree,
    olds: &[TextRange],
    new: &Tree,
    news: &[TextRange],
) -> Result<bool, AllocError>
    ensures value { IfOk result (λ same. same ≡ agree old.now (map span_of olds.now) new.now (map span_of news.now)) }
    ensures same { IfOk result (λ same. IsTrue same ↔ (around old.now (map span_of olds.now) ≡ around new.now (map span_of news.now))) }
{
    Ok(are_same(Outline::new(old, olds), Outline::new(new, news)))
}
