//! Texts that are lexed once, to be read as several fragments.
ghost use Rattle.std.specs.Prelude.{◌≡◌, ◌<◌, ◌^◌, List, length, reverse, ◌&&◌, Some, IfOk, slice_get, string_bytes};
ghost use Rattle.std.specs.Option.{option_map};
ghost use Rattle.ssr_syntax_lex.specs.declared.tokens.RawToken.{RawToken};
ghost use Rattle.ssr_syntax_lex.specs.Tokens.{tokens};
ghost use Rattle.ssr_syntax_tree.specs.Syntax.{Syntax};
ghost use Rattle.ssr_syntax.specs.Private.Reading.{end_before, kinds_begin_solid};
ghost use Rattle.ssr_syntax.specs.Reading.{Answers, FitsFragment, FitsFragmentOf, IsLexedTrimmed, IsThatOrTooDeep, IsTreeOfFragment, IsTreeOfFragmentOf, as_token, fragment_reading, fragment_reading_of, trimmed};
ghost use Rattle.ssr_syntax_rows.specs.Solid.{pieces};

use crate::fragments::goal;
use crate::grammar::parse_as;
use crate::reading::{check_length, token_rows, written_tree};
use crate::syntax_error::SyntaxError;
use ssr_syntax_forms::Token;
use ssr_syntax_kinds::{Fragment, Reach, SyntaxKind, TokenRow, TokenRows};
use ssr_syntax_rows::solid::solid_tokens;
use ssr_syntax_tree::Tree;
use std::alloc::{AllocError, Global};
use std::marker::Model;

/// A text with the tokens that it has without the white space around it.
#[derive(Drop)]
pub struct FragmentText {
    text: String,
    rows: TokenRows,
    solid: Vec<Token>,
}

impl Model for FragmentText {
    ghost use Rattle.std.specs.Prelude.{List, ℕ, string_bytes};
    ghost use Rattle.ssr_syntax.specs.Private.Reading.{AreTokensOf};

    ghost Value = { List ℕ };

    ghost view = { λ lexed. string_bytes lexed.text };

    ghost invariant = { λ lexed. AreTokensOf (string_bytes lexed.text) lexed.rows lexed.solid.items };
}

impl FragmentText {
    /// Lexes a text without the white space around it, or tells why it has no tokens: `Lex`, or `TooLong` where that isn't
    /// shorter than 2^32 bytes.
    pub fn new(alloc: Global, text: String) -> Result<FragmentText, SyntaxError>
        ensures { IsLexedTrimmed (string_bytes text) result }
    {
        let rows = token_rows(alloc, text.as_str().trim())?;
        let solid = solid_tokens(alloc, rows.kinds())?;
        Ok(FragmentText { text, rows, solid })
    }

    /// The kind and the text of the token of that number, counted from 0.
    pub fn token(&self, number: usize) -> Option<(SyntaxKind, &str)>
        ensures { (raw : List RawToken) → tokens (trimmed self.now) ≡ Some raw
            → option_map as_token result ≡ slice_get (pieces (trimmed self.now) raw) number }
    {
        let row = self.rows.get(number)?;
        let text = self.text.as_str().trim();
        let end = end_before(self.rows.get(number + 1), text.len());
        Some((row.kind, &text[row.start as usize..end]))
    }

    /// The syntax tree of the text without the white space around it, as `fragment` answers it.
    pub fn read(&self, alloc: Global, fragment: Fragment) -> Result<Tree, SyntaxError>
        ensures answers { Answers result (fragment_reading fragment self.now) self.now }
        ensures sound { IfOk result (λ tree. IsTreeOfFragment fragment self.now tree) }
        ensures complete { (syntax : Syntax) → length self.now < 2 ^ 32 → FitsFragment fragment self.now syntax
            → IsThatOrTooDeep (λ tree. tree) syntax result }
    {
        self.read_of(alloc, Reach::Stated, fragment)
    }

    /// The same, where so much of Rust is read.
    pub fn read_of(
        &self,
        alloc: Global,
        reach: Reach,
        fragment: Fragment,
    ) -> Result<Tree, SyntaxError>
        ensures answers { Answers result (fragment_reading_of reach fragment self.now) self.now }
        ensures sound { IfOk result (λ tree. IsTreeOfFragmentOf reach fragment self.now tree) }
        ensures complete { (syntax : Syntax) → length self.now < 2 ^ 32 → FitsFragmentOf reach fragment self.now syntax
            → IsThatOrTooDeep (λ tree. tree) syntax result }
    {
        check_length(self.text.as_str())?;
        if !is_solid_outside(self.rows.kinds()) {
            return Err(SyntaxError::NoTree);
        }
        let written = parse_as(alloc, reach, goal(fragment), &self.solid, self.rows.kinds())?;
        // A tree owns its text and its rows. They are copied only where the tokens are those of a tree.
        let text = String::from_str(alloc, self.text.as_str().trim())?;
        let rows = copied(alloc, &self.rows)?;
        written_tree(alloc, text, rows, written)
    }
}

/// Where a token ends in front of the next one, or of the end of a text of so many bytes.
fn end_before(next: Option<TokenRow>, total: usize) -> usize
    ensures { result ≡ end_before total next }
{
    match next {
        Some(next) => next.start as usize,
        None => total,
    }
}

/// Whether the first and the last token are neither white space nor comments.
pub(crate) fn is_solid_outside(kinds: &[SyntaxKind]) -> bool
    ensures { result ≡ (kinds_begin_solid kinds.now && kinds_begin_solid (reverse kinds.now)) }
{
    let (Some(first), Some(last)) = (kinds.first(), kinds.last()) else {
        return true;
    };
    !first.is_trivia() && !last.is_trivia()
}

/// The rows of tokens, copied.
fn copied(alloc: Global, rows: &TokenRows) -> Result<TokenRows, AllocError>
    ensures { IfOk result (λ copy. copy ≡ rows.now) }
{
    let mut copy = TokenRows::new(alloc);
    for number in 0..rows.len() {
        copy.push(rows.row(number))?;
    }
    Ok(copy)
}
