//! The text that tokens of the trees of macro calls spell, with changes of the file made.
ghost use Rattle.std.specs.Prelude.{◌≡◌, ◌++◌, [], IfOk, OnOk, None, slice_get, string_bytes};
ghost use Rattle.std.specs.Option.{option_map, option_map_or};
ghost use Rattle.ssr_base_trees.specs.Applied.{change_of};
ghost use Rattle.ssr_base_trees.specs.Origins.{plain_origin};
ghost use Rattle.ssr_standing.specs.Expansions.{gap, touches, with_change, with_change_at, with_token};
ghost use Rattle.ssr_standing.specs.Private.Spelling.{shown};

use ssr_base_trees::TextEdit;
use ssr_syntax_kinds::TextRange;
use std::alloc::{AllocError, Global};

/// Where the text of a change stands.
#[derive(Clone, Copy)]
pub(crate) struct Place {
    pub(crate) start: usize,
    pub(crate) end: usize,
}

/// What tokens spell.
#[derive(Drop)]
pub(crate) struct Speller {
    pub(crate) text: String,
    /// Where the texts of changes stand in it.
    pub(crate) places: Vec<Place>,
    /// The bytes of the file that the end of it comes from.
    behind: Option<TextRange>,
    /// The number of the change whose text ends it.
    change: Option<usize>,
}

/// Whether what comes from the second range stands directly behind what comes from the first one.
fn touches(before: Option<TextRange>, next: Option<TextRange>) -> bool
    ensures { result ≡ touches (plain_origin before) (plain_origin next) }
{
    match (before, next) {
        (Some(before), Some(next)) => before.end == next.start,
        _ => false,
    }
}

/// What is put between them.
fn gap(before: Option<TextRange>, next: Option<TextRange>) -> &'static str
    ensures { result.now ≡ gap (plain_origin before) (plain_origin next) }
{
    if touches(before, next) { "" } else { " " }
}

/// The change with a number, if it is there.
fn change_at(edit: &TextEdit, number: usize) -> Option<&(TextRange, String)>
    ensures { option_map (λ pair. change_of pair.now) result ≡ slice_get edit.now number }
{
    edit.iter().as_slice().get(number)
}

impl Speller {
    /// The text that a bracket opens.
    pub(crate) fn new(alloc: Global, opening: &str) -> Result<Speller, AllocError>
        ensures { IfOk result (λ speller. shown speller ≡ record { text = opening.now; places = []; behind = None; change = None }) }
    {
        Ok(Speller {
            text: String::from_str(alloc, opening)?,
            places: Vec::new(alloc),
            behind: None,
            change: None,
        })
    }

    /// Puts a text behind the others.
    fn put(
        &mut self,
        origin: Option<TextRange>,
        text: &str,
        change: Option<usize>,
    ) -> Result<(), AllocError>
        ensures text { OnOk result (string_bytes self.new.text ≡ string_bytes self.old.text ++ (gap (plain_origin self.old.behind) (plain_origin origin) ++ text.now)) }
        ensures places { OnOk result (self.new.places ≡ self.old.places) }
        ensures behind { OnOk result (self.new.behind ≡ origin) }
        ensures change { OnOk result (self.new.change ≡ change) }
    {
        self.text.push_str(gap(self.behind, origin))?;
        self.text.push_str(text)?;
        self.behind = origin;
        self.change = change;
        Ok(())
    }

    /// A token more.
    fn add_token(&mut self, origin: Option<TextRange>, text: &str) -> Result<(), AllocError>
        ensures { OnOk result (shown self.new ≡ with_token (plain_origin origin) text.now (shown self.old)) }
    {
        self.put(origin, text, None)
    }

    /// The text of a change more.
    fn add_change(&mut self, number: usize, range: TextRange, text: &str) -> Result<(), AllocError>
        ensures { OnOk result (shown self.new ≡ with_change number (record { start = range.start; end = range.end; text = text.now }) (shown self.old)) }
    {
        self.put(Some(range), text, Some(number))?;
        let end = self.text.len();
        self.places.push(Place {
            start: end - text.len(),
            end,
        })?;
        Ok(())
    }

    /// The text of the change with this number more, unless it stands there already.
    fn add_change_at(&mut self, edit: &TextEdit, number: usize) -> Result<(), AllocError>
        ensures { OnOk result (shown self.new ≡ with_change_at edit.now number (shown self.old)) }
    {
        if self.change == Some(number) {
            return Ok(());
        }
        match change_at(edit, number) {
            Some((range, text)) => self.add_change(number, *range, text.as_str()),
            None => Ok(()),
        }
    }

    /// A token more: itself, or, where its bytes are replaced by the change with a number, that one's text.
    pub(crate) fn add(
        &mut self,
        edit: &TextEdit,
        change: Option<usize>,
        origin: Option<TextRange>,
        text: &str,
    ) -> Result<(), AllocError>
        ensures { OnOk result (shown self.new ≡ option_map_or (λ n. with_change_at edit.now n (shown self.old)) change (with_token (plain_origin origin) text.now (shown self.old))) }
    {
        match change {
            Some(number) => self.add_change_at(edit, number),
            None => self.add_token(origin, text),
        }
    }
}
