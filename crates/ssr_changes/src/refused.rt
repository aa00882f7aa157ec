//! Which rule or search pattern is refused.

use crate::finding::{Form, add};
use crate::searchable::Searchable;
use ide_ssr::MatchFinder;
use ssr_base::{FilePosition, Semantics};
use std::alloc::Global;

/// The number of the first rule or search pattern that is refused, if one is. Names are looked up at the position.
pub fn first_refused<S: Semantics>(
    alloc: Global,
    files: &Searchable,
    semantics: &S,
    position: FilePosition,
    form: Form,
    texts: &[String],
) -> Option<usize> {
    let ranges = Vec::new(alloc);
    let workspace = files.workspace();
    let mut finder = MatchFinder::in_context(alloc, workspace, semantics, position, ranges).ok()?;
    for (number, text) in texts.iter().enumerate() {
        if add(alloc, &mut finder, form, text.as_str()).is_err() {
            return Some(number);
        }
    }
    None
}
