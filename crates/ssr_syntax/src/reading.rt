//! The syntax trees of texts.
ghost use Rattle.std.specs.Prelude.{◌≡◌, ◌<◌, ◌≤◌, ◌^◌, List, length, Some, IfOk, IfErr, string_bytes};
ghost use Rattle.ssr_syntax.specs.declared.syntax_error.SyntaxError.TheVariants.{TooLong};
ghost use Rattle.ssr_syntax_lex.specs.Tokens.{tokens, rows_in};
ghost use Rattle.ssr_syntax.specs.Reading.{Answers, AnswersTrimmed, tree_reading, file_reading, file_reading_of, fragment_reading, fragment_reading_of, FitsFile, FitsFileOf, FitsFragment, FitsFragmentOf, IsRead, IsReadOf, IsTreeOfFile, IsTreeOfFileOf, IsTreeOfFragment, IsTreeOfFragmentOf, IsThatOrTooDeep};
ghost use Rattle.ssr_syntax.specs.Private.Reading.{IsLexed, IsCut, IsWritten};
ghost use Rattle.ssr_syntax_lex.specs.declared.tokens.RawToken.{RawToken};
ghost use Rattle.ssr_syntax_kinds.specs.declared.reach.Reach.{Reach};
ghost use Rattle.ssr_syntax_types.specs.declared.goals.Goal.{Goal};
ghost use Rattle.ssr_syntax_tree.specs.Syntax.{Syntax};

use crate::fragment_text::is_solid_outside;
use crate::fragments::goal;
use crate::grammar::parse_as;
use crate::syntax_error::SyntaxError;
use ssr_syntax_forms::{Output, Token};
use ssr_syntax_kinds::{Fragment, Reach, TokenRows};
use ssr_syntax_lex::{LexError, lex_rows};
use ssr_syntax_rows::macro_rules::misnames_macros;
use ssr_syntax_rows::preorder::node_rows;
use ssr_syntax_rows::solid::solid_tokens;
use ssr_syntax_rows::tree_tokens::tree_tokens;
use ssr_syntax_tree::Tree;
use ssr_syntax_types::goals::Goal;
use std::alloc::Global;

/// Refuses a text that isn't shorter than 2^32 bytes.
pub(crate) fn check_length(text: &str) -> Result<(), SyntaxError>
    ensures short { IfOk result (λ _. length text.now < 2 ^ 32) }
    ensures long { IfErr result (λ e. (e ≡ TooLong) × (2 ^ 32 ≤ length text.now)) }
{
    if text.len() > u32::MAX as usize {
        return Err(SyntaxError::TooLong);
    }
    Ok(())
}

/// The rows of a text's tokens.
pub(crate) fn token_rows(alloc: Global, text: &str) -> Result<TokenRows, SyntaxError>
    ensures { IsLexed text.now result }
{
    match lex_rows(alloc, text) {
        Ok(rows) => Ok(rows),
        Err(LexError::TooLong) => Err(SyntaxError::TooLong),
        Err(LexError::Fault(_)) => Err(SyntaxError::Lex),
        Err(LexError::Memory) => Err(SyntaxError::Memory),
    }
}

/// The tree that a text with these rows is, read as the goal in the reach.
fn read_tokens(
    alloc: Global,
    reach: Reach,
    goal: Goal,
    text: String,
    rows: TokenRows,
) -> Result<Tree, SyntaxError>
    requires short { length (string_bytes text) < 2 ^ 32 }
    requires lexed { rows_in (string_bytes text) ≡ Some rows }
    ensures { (raw : List RawToken) → tokens (string_bytes text) ≡ Some raw
        → Answers result (tree_reading reach goal (string_bytes text) raw) (string_bytes text) }
{
    let solid = solid_tokens(alloc, rows.kinds())?;
    read_solid(alloc, reach, goal, text, rows, solid)
}

/// The tree that a text is, read as the goal in the reach, of which these are the rows and the solid tokens.
pub(crate) fn read_solid(
    alloc: Global,
    reach: Reach,
    goal: Goal,
    text: String,
    rows: TokenRows,
    solid: Vec<Token>,
) -> Result<Tree, SyntaxError>
    requires short { length (string_bytes text) < 2 ^ 32 }
    requires cut { (raw : List RawToken) × IsCut (string_bytes text) rows solid.items raw }
    ensures { (raw : List RawToken) → IsCut (string_bytes text) rows solid.items raw
        → Answers result (tree_reading reach goal (string_bytes text) raw) (string_bytes text) }
{
    let written = parse_as(alloc, reach, goal, &solid, rows.kinds())?;
    // The solid tokens are dropped as soon as they are read, which keeps the most memory in use low.
    drop(solid);
    written_tree(alloc, text, rows, written)
}

/// The tree of a text with these rows, of which this is written.
pub(crate) fn written_tree(
    alloc: Global,
    text: String,
    rows: TokenRows,
    written: Output,
) -> Result<Tree, SyntaxError>
    requires short { length (string_bytes text) < 2 ^ 32 }
    requires written { (reach : Reach) × (goal : Goal) × (raw : List RawToken) × IsWritten reach goal (string_bytes text) rows written raw }
    ensures { (reach : Reach) (goal : Goal) (raw : List RawToken) → IsWritten reach goal (string_bytes text) rows written raw
        → Answers result (tree_reading reach goal (string_bytes text) raw) (string_bytes text) }
{
    let tokens = tree_tokens(rows, &written.joined);
    let nodes = node_rows(alloc, written.rows, tokens.len() as u32)?;
    let tree = Tree::from_parts(text, tokens, nodes);
    if misnames_macros(&tree) {
        return Err(SyntaxError::NoTree);
    }
    Ok(tree)
}

/// The syntax tree of a file. Its leaves are all tokens of the text, white space and comments among them.
pub fn parse_file(alloc: Global, text: &str) -> Result<Tree, SyntaxError>
    ensures answers { Answers result (file_reading text.now) text.now }
    ensures sound { IfOk result (λ tree. IsTreeOfFile text.now tree) }
    ensures read { IfOk result IsRead }
    ensures complete { (syntax : Syntax) → length text.now < 2 ^ 32 → FitsFile text.now syntax → IsThatOrTooDeep (λ tree. tree) syntax result }
{
    parse_file_of(alloc, Reach::Stated, text)
}

/// The same, where so much of Rust is read.
pub fn parse_file_of(alloc: Global, reach: Reach, text: &str) -> Result<Tree, SyntaxError>
    ensures answers { Answers result (file_reading_of reach text.now) text.now }
    ensures sound { IfOk result (λ tree. IsTreeOfFileOf reach text.now tree) }
    ensures read { IfOk result (IsReadOf reach) }
    ensures complete { (syntax : Syntax) → length text.now < 2 ^ 32 → FitsFileOf reach text.now syntax
        → IsThatOrTooDeep (λ tree. tree) syntax result }
{
    check_length(text)?;
    parse_file_owned_of(alloc, reach, String::from_str(alloc, text)?)
}

/// The syntax tree of a file, of which the text becomes the source: it isn't copied.
pub fn parse_file_owned(alloc: Global, text: String) -> Result<Tree, SyntaxError>
    ensures answers { Answers result (file_reading (string_bytes text)) (string_bytes text) }
    ensures sound { IfOk result (λ tree. IsTreeOfFile (string_bytes text) tree) }
    ensures read { IfOk result IsRead }
    ensures complete { (syntax : Syntax) → length (string_bytes text) < 2 ^ 32 → FitsFile (string_bytes text) syntax
        → IsThatOrTooDeep (λ tree. tree) syntax result }
{
    parse_file_owned_of(alloc, Reach::Stated, text)
}

/// The same, where so much of Rust is read.
pub fn parse_file_owned_of(alloc: Global, reach: Reach, text: String) -> Result<Tree, SyntaxError>
    ensures answers { Answers result (file_reading_of reach (string_bytes text)) (string_bytes text) }
    ensures sound { IfOk result (λ tree. IsTreeOfFileOf reach (string_bytes text) tree) }
    ensures read { IfOk result (IsReadOf reach) }
    ensures complete { (syntax : Syntax) → length (string_bytes text) < 2 ^ 32 → FitsFileOf reach (string_bytes text) syntax
        → IsThatOrTooDeep (λ tree. tree) syntax result }
{
    let rows = token_rows(alloc, text.as_str())?;
    read_tokens(alloc, reach, Goal::File, text, rows)
}

/// The syntax tree of a text without the white space around it, and how many bytes of that stand in front. The tree's
/// root is a node of the fragment's kind. A comment in front of it or behind it is no part of a fragment: `NoTree`.
pub fn fragment(alloc: Global, fragment: Fragment, text: &str) -> Result<(Tree, u32), SyntaxError>
    ensures answers { AnswersTrimmed result (fragment_reading fragment text.now) text.now }
    ensures sound { IfOk result (λ answer. IsTreeOfFragment fragment text.now answer.0) }
    ensures complete { (syntax : Syntax) → length text.now < 2 ^ 32 → FitsFragment fragment text.now syntax
        → IsThatOrTooDeep (λ answer. answer.0) syntax result }
{
    fragment_of(alloc, Reach::Stated, fragment, text)
}

/// The same, where so much of Rust is read.
pub fn fragment_of(
    alloc: Global,
    reach: Reach,
    fragment: Fragment,
    text: &str,
) -> Result<(Tree, u32), SyntaxError>
    ensures answers { AnswersTrimmed result (fragment_reading_of reach fragment text.now) text.now }
    ensures sound { IfOk result (λ answer. IsTreeOfFragmentOf reach fragment text.now answer.0) }
    ensures complete { (syntax : Syntax) → length text.now < 2 ^ 32 → FitsFragmentOf reach fragment text.now syntax
        → IsThatOrTooDeep (λ answer. answer.0) syntax result }
{
    check_length(text)?;
    let inner = text.trim();
    let rows = token_rows(alloc, inner)?;
    if !is_solid_outside(rows.kinds()) {
        return Err(SyntaxError::NoTree);
    }
    let front = text.len().saturating_sub(text.trim_start().len()) as u32;
    let source = String::from_str(alloc, inner)?;
    let tree = read_tokens(alloc, reach, goal(fragment), source, rows)?;
    Ok((tree, front))
}
