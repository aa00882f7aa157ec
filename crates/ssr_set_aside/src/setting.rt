//! Sets aside what a file has that the language leaves out.
ghost use Rattle.std.specs.Prelude.{◌≡◌, ◌≢◌, [], Ok, Err, IfOk, IfErr, IfSome};
ghost use Rattle.ssr_syntax_kinds.specs.declared.reach.Reach.TheVariants.{Whole};
ghost use Rattle.ssr_syntax_tree.specs.Syntax.{Syntax, source_of};
ghost use Rattle.ssr_syntax.specs.Reading.{file_reading_of};
ghost use Rattle.ssr_syntax.specs.declared.syntax_error.SyntaxError.TheVariants as errors;
ghost use Rattle.ssr_set_aside.specs.Fronts.{bare as bare_of};
ghost use Rattle.ssr_set_aside.specs.Parts.{AreTokens};
ghost use Rattle.ssr_set_aside.specs.SetAside.{IsSetAside, IsRead};

use crate::aside::SetAside;
use crate::fronts::{bare, front};
use crate::keeping::{are_blanked, cover, keep_places};
use crate::parts::{Cut, are_of_tokens, solid};
use crate::reaches::Reaches;
use ssr_base_trees::{ApplyError, TextEdit};
use ssr_drafts::{Care, Parts, found};
use ssr_syntax::{Reach, SyntaxError, Tree, parse_file_of, parse_file_owned_of};
use ssr_syntax_lex::{LexError, lex};
use std::alloc::{AllocError, Global};

/// A file's text with as little set aside as it takes to read it: nothing, where it is read as it stands. The error is that of
/// the file as it stands, where it isn't read with all set aside that can be or none of its items is left then, or `Memory`.
pub fn set_aside(alloc: Global, text: &str) -> Result<SetAside, SyntaxError>
    ensures aside { IfOk result (λ made. IsSetAside text.now made) }
    ensures read { IfOk result IsRead }
    ensures as_it_stands { (code : Syntax) → file_reading_of Whole text.now ≡ Ok code → IfOk result (λ made. made.aside ≡ []) }
    ensures error { IfErr result (λ error. error ≢ errors.Memory → file_reading_of Whole text.now ≡ Err error) }
{
    let error = match parse_file_of(alloc, Reach::Whole, text) {
        Ok(tree) => return Ok(as_it_stands(alloc, tree)),
        Err(error) => error,
    };
    if matches!(error, SyntaxError::TooLong | SyntaxError::Memory) {
        return Err(error);
    }
    match by_parts(alloc, text)? {
        Some(made) => Ok(made),
        None => Err(error),
    }
}

/// A text with as little set aside as it takes to read it, if it is read with all set aside that can be.
fn by_parts(alloc: Global, text: &str) -> Result<Option<SetAside>, AllocError>
    ensures aside { IfOk result (λ answer. IfSome answer (λ made. IsSetAside text.now made)) }
    ensures read { IfOk result (λ answer. IfSome answer IsRead) }
{
    let plain = bare(alloc, text)?;
    let raw = match lex(alloc, plain.as_str()) {
        Ok(raw) => raw,
        Err(LexError::Memory) => return Err(AllocError),
        Err(_) => return Ok(None),
    };
    let tokens = solid(alloc, &raw)?;
    let cut = Cut {
        text,
        plain: plain.as_str(),
        tokens: tokens.as_slice(),
    };
    for care in [Care::Fine, Care::Coarse] {
        let Some(parts) = found(alloc, cut.plain, front(text).len(), cut.tokens, care)? else {
            return Ok(None);
        };
        if let Some(made) = made_by(alloc, &cut, parts)? {
            return Ok(Some(made));
        }
    }
    Ok(None)
}

/// A text of which nothing is set aside, by its tree.
fn as_it_stands(alloc: Global, tree: Tree) -> SetAside
    ensures tree { result.tree ≡ tree }
    ensures aside { result.aside ≡ [] }
    ensures reaches { result.reaches ≡ [] }
    ensures unsearched { result.unsearched ≡ [] }
{
    SetAside::new(
        tree,
        TextEdit::new(Vec::new(alloc)),
        Reaches::new(Vec::new(alloc)),
        Vec::new(alloc),
    )
}

/// The text with the changes made, if they keep the place of each byte, have their reaches, leave blanks where nothing is searched,
/// set aside parts that may go, and it is read then.
fn made_by(alloc: Global, cut: &Cut, parts: Parts) -> Result<Option<SetAside>, AllocError>
    requires plain { cut.now.plain.now ≡ bare_of cut.now.text.now }
    requires tokens { AreTokens cut.now.text.now cut.now.tokens.now }
    ensures aside { IfOk result (λ answer. IfSome answer (λ made. IsSetAside cut.now.text.now made)) }
    ensures read { IfOk result (λ answer. IfSome answer IsRead) }
{
    let Parts {
        changes,
        parts,
        reaches,
        unsearched,
    } = parts;
    if !keep_places(&changes)
        || !cover(&changes, &reaches)
        || !are_blanked(&changes, &unsearched)
        || !are_of_tokens(alloc, cut, &changes, &parts, &unsearched)?
    {
        return Ok(None);
    }
    let aside = TextEdit::new(changes);
    let searched = match aside.apply(alloc, cut.text) {
        Ok(searched) => searched,
        Err(ApplyError::Range) => return Ok(None),
        Err(ApplyError::Memory) => return Err(AllocError),
    };
    match parse_file_owned_of(alloc, Reach::Whole, searched) {
        Ok(tree) => Ok(Some(SetAside::new(tree, aside, Reaches::new(reaches), unsearched))),
        Err(SyntaxError::Memory) => Err(AllocError),
        Err(_) => Ok(None),
    }
}
