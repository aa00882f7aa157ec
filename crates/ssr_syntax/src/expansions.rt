//! The syntax trees of what macro calls stand for.
ghost use Rattle.std.specs.Prelude.{◌≡◌, ◌<◌, ◌≤◌, ◌^◌, [], ◌∷◌, ◌++◌, length, IfOk, IfErr};
ghost use Rattle.ssr_syntax.specs.declared.syntax_error.SyntaxError.TheVariants.{TooLong};
ghost use Rattle.ssr_syntax.specs.Reading.{Answers, IsThatOrTooDeep};
ghost use Rattle.ssr_syntax.specs.Expansions.{expansion_text, expansion_reading, expansion_reading_of, goal_of_expansion, FitsExpansion, FitsExpansionOf, IsTreeOfExpansion, IsTreeOfExpansionOf};
ghost use Rattle.ssr_syntax.specs.Private.Gathering.{IsLoneKind, AreGathered, behind};
ghost use Rattle.ssr_syntax_tree.specs.Syntax.{Syntax};

use crate::reading::{read_solid, token_rows};
use crate::syntax_error::SyntaxError;
use ssr_syntax_kinds::{Reach, SyntaxKind, TextRange, TokenRow, TokenRows};
use ssr_syntax_rows::solid::solid_tokens;
use ssr_syntax_tree::Tree;
use ssr_syntax_types::goals::{ExprPlace, Goal};
use std::alloc::{AllocError, Global};

/// What a macro call stands for.
#[derive(Debug, Clone, Copy, PartialEq, Eq)]
pub enum ExpansionKind {
    /// An expression.
    Expr,
    /// Items, as they stand in a file.
    Items,
    /// Statements, then perhaps an expression; a last `let` may lack its `;`.
    Stmts,
}

/// A token that is handed in.
#[derive(Debug, PartialEq, Eq, Drop)]
pub struct ExpToken {
    /// The text that the token is: neither white space nor a comment.
    pub text: String,
    /// Whether punctuation follows the token directly, with which it may be joined.
    pub joint: bool,
    /// Where the token comes from. The tree doesn't depend on that.
    pub origin: Option<TextRange>,
}

impl ExpansionKind {
    fn goal(self) -> Goal
        ensures { result ≡ goal_of_expansion self }
    {
        match self {
            ExpansionKind::Expr => Goal::Expr(ExprPlace::Anywhere),
            ExpansionKind::Items => Goal::Items,
            ExpansionKind::Stmts => Goal::Stmts,
        }
    }
}

/// Refuses tokens whose texts together aren't shorter than 2^32 bytes.
fn check_length(tokens: &[ExpToken]) -> Result<(), SyntaxError>
    ensures short { IfOk result (λ _. length (expansion_text tokens.now) < 2 ^ 32) }
    ensures long { IfErr result (λ e. (e ≡ TooLong) × (2 ^ 32 ≤ length (expansion_text tokens.now))) }
{
    let mut left = u32::MAX as usize;
    let mut rest = tokens;
    while let Some((token, others)) = rest.split_first() {
        if token.text.len() > left {
            return Err(SyntaxError::TooLong);
        }
        left -= token.text.len();
        rest = others;
    }
    Ok(())
}

/// The kind of the one token that a text is. A text of several or of none, and white space or a comment, is `NoTree`.
fn lone_kind(alloc: Global, text: &str) -> Result<SyntaxKind, SyntaxError>
    requires { length text.now < 2 ^ 32 }
    ensures { IsLoneKind text.now result }
{
    let rows = token_rows(alloc, text)?;
    match rows.kinds() {
        [kind] if !kind.is_trivia() => Ok(*kind),
        _ => Err(SyntaxError::NoTree),
    }
}

/// Tokens that are put together.
#[derive(Drop)]
struct Gathered {
    /// The texts of the tokens, with nothing between.
    text: String,
    rows: TokenRows,
    /// The kinds of the tokens. White space stands behind each token that isn't joint, as in a text.
    kinds: Vec<SyntaxKind>,
}

/// Puts a token's kind behind others, and white space behind it if it isn't joint.
fn push_kind(kinds: &mut Vec<SyntaxKind>, kind: SyntaxKind, joint: bool) -> Result<(), AllocError>
    ensures { IfOk result (λ _. kinds.new.items ≡ kinds.old.items ++ kind ∷ behind joint []) }
{
    kinds.push(kind)?;
    if !joint {
        kinds.push(SyntaxKind::WHITESPACE)?;
    }
    Ok(())
}

/// Puts tokens together whose texts are shorter than 2^32 bytes, or tells why the first text that is no token is refused.
fn gather(alloc: Global, tokens: &[ExpToken]) -> Result<Gathered, SyntaxError>
    requires { length (expansion_text tokens.now) < 2 ^ 32 }
    ensures { AreGathered tokens.now result }
{
    let mut text = String::new(alloc);
    let mut rows = TokenRows::new(alloc);
    let mut kinds = Vec::new(alloc);
    let mut rest = tokens;
    while let Some((token, others)) = rest.split_first() {
        let kind = lone_kind(alloc, token.text.as_str())?;
        let start = text.len() as u32;
        rows.push(TokenRow { kind, start })?;
        text.push_str(token.text.as_str())?;
        push_kind(&mut kinds, kind, token.joint)?;
        rest = others;
    }
    Ok(Gathered { text, rows, kinds })
}

/// The syntax tree of tokens that are handed in. Its source is their texts, one after another with nothing between, and
/// its root is a MACRO_ITEMS for items, a MACRO_STMTS for statements, and otherwise the expression. The first text that is
/// no token is refused before the tree is looked for: `Lex` where it begins none, `NoTree` where it is several or none, white
/// space or a comment.
pub fn parse_tokens(
    alloc: Global,
    kind: ExpansionKind,
    tokens: &[ExpToken],
) -> Result<Tree, SyntaxError>
    ensures answers { Answers result (expansion_reading kind tokens.now) (expansion_text tokens.now) }
    ensures sound { IfOk result (λ tree. IsTreeOfExpansion kind tokens.now tree) }
    ensures complete { (syntax : Syntax) → length (expansion_text tokens.now) < 2 ^ 32 → FitsExpansion kind tokens.now syntax
        → IsThatOrTooDeep (λ tree. tree) syntax result }
{
    parse_tokens_of(alloc, Reach::Stated, kind, tokens)
}

/// The same, where so much of Rust is read.
pub fn parse_tokens_of(
    alloc: Global,
    reach: Reach,
    kind: ExpansionKind,
    tokens: &[ExpToken],
) -> Result<Tree, SyntaxError>
    ensures answers { Answers result (expansion_reading_of reach kind tokens.now) (expansion_text tokens.now) }
    ensures sound { IfOk result (λ tree. IsTreeOfExpansionOf reach kind tokens.now tree) }
    ensures complete { (syntax : Syntax) → length (expansion_text tokens.now) < 2 ^ 32 → FitsExpansionOf reach kind tokens.now syntax
        → IsThatOrTooDeep (λ tree. tree) syntax result }
{
    check_length(tokens)?;
    let gathered = gather(alloc, tokens)?;
    let solid = solid_tokens(alloc, &gathered.kinds)?;
    drop(gathered.kinds);
    read_solid(
        alloc,
        reach,
        kind.goal(),
        gathered.text,
        gathered.rows,
        solid,
    )
}
