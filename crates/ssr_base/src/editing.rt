//! The text of a file with an edit made.
ghost use Rattle.std.specs.Prelude.{◌≡◌, All, IfOk, string_bytes};
ghost use Rattle.ssr_syntax_tree.specs.Syntax.{source_of};
ghost use Rattle.ssr_base_trees.specs.Changes.{FitsText};
ghost use Rattle.ssr_base.specs.Editing.{new_text};

use ssr_base_trees::{ApplyError, TextEdit};
use ssr_syntax_tree::Tree;
use std::alloc::{AllocError, Global};

/// The text of a file with an edit made that fits it.
pub fn edited(alloc: Global, tree: &Tree, edit: &TextEdit) -> Result<String, AllocError>
    requires { All (FitsText (source_of tree.now)) edit.now }
    ensures { IfOk result (λ new. string_bytes new ≡ new_text tree.now edit.now) }
{
    match edit.apply(alloc, tree.source()) {
        Ok(new) => Ok(new),
        Err(ApplyError::Memory) => Err(AllocError),
        Err(ApplyError::Range) => unreachable!(),
    }
}
