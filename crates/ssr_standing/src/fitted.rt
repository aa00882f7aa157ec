//! A change of a file as it stands: as it is, or else in parentheses.
ghost use Rattle.std.specs.Prelude.{◌≡◌, [], ◌∷◌, IfOk, string_bytes};
ghost use Rattle.std.specs.Option.{option_map};
ghost use Rattle.ssr_syntax_tree.specs.Syntax.{source_of};
ghost use Rattle.ssr_base_trees.specs.Changes.{FitsText};
ghost use Rattle.ssr_standing.specs.Fitted.{change_with, if_fitted};
ghost use Rattle.ssr_standing.specs.Near.{settled, stands_by};

use crate::code::in_parentheses;
use crate::expansions::SearchedFile;
use ssr_base_trees::TextEdit;
use ssr_syntax_kinds::TextRange;
use std::alloc::{AllocError, Global};

/// What a change is judged by.
#[derive(Clone, Copy)]
pub enum Judge {
    /// The nearest block around it.
    Block,
    /// The whole file, with this change alone.
    File,
}

/// The edit that makes one change.
pub(crate) fn single(alloc: Global, range: TextRange, text: &str) -> Result<TextEdit, AllocError>
    ensures { IfOk result (λ edit. edit ≡ change_with range text.now ∷ []) }
{
    let mut changes = Vec::with_capacity(alloc, 1)?;
    changes.push((range, String::from_str(alloc, text)?))?;
    Ok(TextEdit::new(changes))
}

impl<'a> SearchedFile<'a> {
    /// Whether one change stands by what it is judged by.
    fn stands_by(
        &self,
        alloc: Global,
        judge: Judge,
        range: TextRange,
        text: &str,
    ) -> Result<bool, AllocError>
        requires { FitsText (source_of self.now.tree.now) (change_with range text.now) }
        ensures { IfOk result (λ answer. answer ≡ stands_by self.now.trees.now self.now.number judge (change_with range text.now)) }
    {
        match judge {
            Judge::Block => self.stands_near(alloc, range, text),
            Judge::File => self.stands(alloc, &single(alloc, range, text)?),
        }
    }

    /// The text of a change as it stands by what it is judged by, if it does: as it is, or else in parentheses.
    pub fn fitted(
        &self,
        alloc: Global,
        judge: Judge,
        range: TextRange,
        text: &str,
    ) -> Result<Option<String>, AllocError>
        requires { FitsText (source_of self.now.tree.now) (change_with range text.now) }
        ensures { IfOk result (λ fitted. option_map (change_with range) (option_map string_bytes fitted) ≡ if_fitted (stands_by self.now.trees.now self.now.number judge) (change_with range text.now)) }
    {
        if self.stands_by(alloc, judge, range, text)? {
            return Ok(Some(String::from_str(alloc, text)?));
        }
        let wrapped = in_parentheses(alloc, text)?;
        if self.stands_by(alloc, judge, range, wrapped.as_str())? {
            return Ok(Some(wrapped));
        }
        Ok(None)
    }

    /// The text of a change as its nearest block tells. Where it doesn't stand by that, as it stands alone in the whole file, if it does.
    pub fn settled(
        &self,
        alloc: Global,
        range: TextRange,
        text: &str,
    ) -> Result<Option<String>, AllocError>
        requires { FitsText (source_of self.now.tree.now) (change_with range text.now) }
        ensures { IfOk result (λ answer. option_map (change_with range) (option_map string_bytes answer) ≡ settled (stands_by self.now.trees.now self.now.number) (change_with range text.now)) }
    {
        match self.fitted(alloc, Judge::Block, range, text)? {
            Some(new) => Ok(Some(new)),
            None => self.fitted(alloc, Judge::File, range, text),
        }
    }
}
