//! The tokens of a macro call's arguments.
ghost use Rattle.std.specs.Prelude.{◌≡◌, ◌+◌, ◌-◌, ◌<◌, ◌≤◌, ◌^◌, ◌++◌, if◌then◌else◌, ℕ, List, [], ◌∷◌, All, IfOk, IfSome, OnOk, length};
ghost use Rattle.std.specs.List.{range_with_len};
ghost use Rattle.ssr_syntax_kinds.specs.Kinds.{is_trivia};
ghost use Rattle.ssr_syntax_tree.specs.Syntax.{source_of, token_count};
ghost use Rattle.ssr_syntax_tree.specs.Places.{node_of, token_of, HasNode, HasToken};
ghost use Rattle.ssr_syntax.specs.Expansions.{expansion_text};
ghost use Rattle.ssr_macro_arguments.specs.Arguments.{Spells, argument_piece, piece_of};
ghost use Rattle.ssr_macro_arguments.specs.Calls.{file, its_tree, solid_between, IsArgumentAt, AreArgumentsOf};
ghost use Rattle.ssr_macro_arguments.specs.Private.Tokens.{AreSpelled, AreSpelledArguments};
ghost use Rattle.ssr_macro_arguments.specs.Private.Starts.{starts_of};

use crate::made::Made;
use ssr_syntax::ExpToken;
use ssr_syntax_kinds::SyntaxKind;
use ssr_syntax_tree::{Element, NodeNo, TokenNo, Tree};
use std::alloc::{AllocError, Global};
use std::ops::Range;

/// A token of a macro call's arguments, with the kind that it has in its tree.
#[derive(Drop)]
pub(crate) struct ArgumentToken {
    pub(crate) kind: SyntaxKind,
    pub(crate) token: ExpToken,
}

/// Whether two tokens may be joined, of which the second follows directly.
fn joins(kind: SyntaxKind, next: SyntaxKind) -> bool {
    match next {
        SyntaxKind::EQ => true,
        SyntaxKind::R_ANGLE => matches!(
            kind,
            SyntaxKind::EQ | SyntaxKind::MINUS | SyntaxKind::R_ANGLE
        ),
        SyntaxKind::COLON
        | SyntaxKind::DOT
        | SyntaxKind::AMP
        | SyntaxKind::PIPE
        | SyntaxKind::L_ANGLE => kind.is(next),
        _ => false,
    }
}

/// Whether a token may be joined with the one behind it.
fn is_joint(tree: &Tree, kind: SyntaxKind, next: u32) -> bool {
    let token = TokenNo(next);
    tree.has(Element::Token(token)) && joins(kind, tree.token_kind(token))
}

/// The numbers of the tokens between a node's first and its last one.
fn tokens_between(tree: &Tree, node: NodeNo) -> Range<u32>
    requires { HasNode tree.now node.0 }
    ensures ordered { result.start ≤ result.end }
    ensures within { result.end ≤ token_count tree.now.children }
    ensures numbers { range_with_len result.start (result.end - result.start) ≡ range_with_len (1 + (node_of tree.now node.0).first) (token_count (node_of tree.now node.0).children - 2) }
{
    let below = tree.tokens_below(node);
    if below.end - below.start >= 2 {
        below.start + 1..below.end - 1
    } else {
        below.start..below.start
    }
}

/// Adds the number of a token, unless that is white space or a comment.
fn add_solid(tree: &Tree, number: u32, numbers: &mut Vec<u32>) -> Result<(), AllocError>
    requires { HasToken tree.now number }
    ensures { OnOk result (numbers.new.items ≡ (if is_trivia (token_of tree.now number).kind then numbers.old.items else numbers.old.items ++ number ∷ [])) }
{
    if tree.token_kind(TokenNo(number)).is_trivia() {
        return Ok(());
    }
    numbers.push(number)?;
    Ok(())
}

/// The numbers of the tokens between a node's first and its last one, white space and comments aside.
fn solid_between(alloc: Global, tree: &Tree, node: NodeNo) -> Result<Vec<u32>, AllocError>
    requires { HasNode tree.now node.0 }
    ensures numbers { IfOk result (λ numbers. numbers.items ≡ solid_between tree.now (node_of tree.now node.0)) }
    ensures has { IfOk result (λ numbers. All (HasToken tree.now) numbers.items) }
{
    let between = tokens_between(tree, node);
    let mut numbers = Vec::new(alloc);
    for number in between.start..between.end {
        add_solid(tree, number, &mut numbers)?;
    }
    Ok(numbers)
}

/// A token of a file's tree.
fn located(alloc: Global, tree: &Tree, number: u32) -> Result<ArgumentToken, AllocError>
    requires { HasToken tree.now number }
    ensures argument { IfOk result (IsArgumentAt (file tree.now) number) }
    ensures spells { IfOk result (λ token. Spells (source_of tree.now) (argument_piece token)) }
{
    let range = tree.token_range(TokenNo(number));
    let kind = tree.token_kind(TokenNo(number));
    let text = String::from_str(
        alloc,
        &tree.source()[range.start as usize..range.end as usize],
    )?;
    Ok(ArgumentToken {
        kind,
        token: ExpToken {
            text,
            joint: is_joint(tree, kind, number.saturating_add(1)),
            origin: Some(range),
        },
    })
}

/// The tokens between the brackets of a token tree of a file.
pub(crate) fn arguments_in_file(
    alloc: Global,
    tree: &Tree,
    brackets: NodeNo,
) -> Result<Vec<ArgumentToken>, AllocError>
    requires { HasNode tree.now brackets.0 }
    ensures all { IfOk result (λ tokens. AreArgumentsOf (file tree.now) (node_of tree.now brackets.0) tokens.items) }
    ensures spelled { IfOk result (λ tokens. AreSpelledArguments (source_of tree.now) tokens.items) }
{
    let numbers = solid_between(alloc, tree, brackets)?;
    let mut tokens = Vec::with_capacity(alloc, numbers.len())?;
    for number in &numbers {
        let token = located(alloc, tree, *number)?;
        tokens.push(token)?;
    }
    Ok(tokens)
}

/// A token that was handed in, with the kind that it has in the tree.
fn copied(alloc: Global, token: &ExpToken, kind: SyntaxKind) -> Result<ArgumentToken, AllocError>
    ensures kind { IfOk result (λ copy. copy.kind ≡ kind) }
    ensures token { IfOk result (λ copy. argument_piece copy ≡ piece_of token.now) }
{
    Ok(ArgumentToken {
        kind,
        token: ExpToken {
            text: String::from_str(alloc, token.text.as_str())?,
            joint: token.joint,
            origin: token.origin,
        },
    })
}

/// The token that was handed in for one of an expansion's tree; none, where no token with its text begins there.
fn handed_in_at(
    alloc: Global,
    above: &Made,
    number: u32,
) -> Result<Option<ArgumentToken>, AllocError>
    requires { HasToken above.now.read.tree number }
    ensures argument { IfOk result (λ found. IfSome found (IsArgumentAt (its_tree above.now.read) number)) }
    ensures spells { IfOk result (λ found. IfSome found (λ token. (text : List ℕ) → AreSpelled text above.now.read.expansion.tokens.items → Spells text (argument_piece token))) }
{
    let tree = &above.read.tree;
    let range = tree.token_range(TokenNo(number));
    let Ok(place) = above.starts.binary_search(&(range.start as usize)) else {
        return Ok(None);
    };
    let token = &above.read.expansion.tokens[place];
    if token.text.as_str() != &tree.source()[range.start as usize..range.end as usize] {
        return Ok(None);
    }
    let copy = copied(alloc, token, tree.token_kind(TokenNo(number)))?;
    Ok(Some(copy))
}

/// The tokens between the brackets of a token tree of an expansion; none, where one of them isn't a token that was handed in.
pub(crate) fn arguments_in_expansion(
    alloc: Global,
    above: &Made,
    brackets: NodeNo,
) -> Result<Option<Vec<ArgumentToken>>, AllocError>
    requires { HasNode above.now.read.tree brackets.0 }
    ensures all { IfOk result (λ found. IfSome found (λ tokens. AreArgumentsOf (its_tree above.now.read) (node_of above.now.read.tree brackets.0) tokens.items)) }
    ensures spelled { IfOk result (λ found. IfSome found (λ tokens. (text : List ℕ) → AreSpelled text above.now.read.expansion.tokens.items → AreSpelledArguments text tokens.items)) }
{
    let numbers = solid_between(alloc, &above.read.tree, brackets)?;
    let mut tokens = Vec::with_capacity(alloc, numbers.len())?;
    for number in &numbers {
        let Some(token) = handed_in_at(alloc, above, *number)? else {
            return Ok(None);
        };
        tokens.push(token)?;
    }
    Ok(Some(tokens))
}

/// Where tokens begin in the text that they spell.
pub(crate) fn starts_of(alloc: Global, tokens: &[ExpToken]) -> Result<Vec<usize>, AllocError>
    requires { length (expansion_text tokens.now) < 2 ^ 32 }
    ensures { IfOk result (λ starts. starts.items ≡ starts_of tokens.now) }
{
    let mut starts = Vec::with_capacity(alloc, tokens.len())?;
    let mut start = 0usize;
    for token in tokens {
        starts.push(start)?;
        start += token.text.len();
    }
    Ok(starts)
}
