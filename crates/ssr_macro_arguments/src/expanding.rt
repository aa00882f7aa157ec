//! The expansions of the calls in files, and of those in these expansions.
ghost use Rattle.std.specs.Prelude.{◌≡◌, ◌+◌, ◌<◌, ◌≤◌, ◌^◌, ℕ, List, All, Ok, Some, IfOk, OnOk, IfSome, length, map, slice_get};
ghost use Rattle.ssr_syntax_kinds.specs.declared.reach.Reach.TheVariants.{Whole};
ghost use Rattle.ssr_syntax_tree.specs.Syntax.{Syntax, source_of};
ghost use Rattle.ssr_syntax_tree.specs.Places.{node_of, HasNode};
ghost use Rattle.ssr_syntax.specs.Expansions.{expansion_text, expansion_reading_of};
ghost use Rattle.ssr_syntax.specs.declared.expansions.ExpansionKind.TheVariants.{Expr};
ghost use Rattle.ssr_base_trees.specs.Built.{most_trees};
ghost use Rattle.ssr_macro_arguments.specs.Arguments.{AreArguments, HasItsTree, expansions_of, piece_of};
ghost use Rattle.ssr_macro_arguments.specs.Calls.{Searched, file as in_file, its_tree, tree_of, trees_of, AreArgumentsOf, IsOfItsCall};
ghost use Rattle.ssr_macro_arguments.specs.Forms.{expansion_of, searched};
ghost use Rattle.ssr_macro_arguments.specs.Private.Tokens.{AreSpelled, AreSpelledArguments};
ghost use Rattle.ssr_macro_arguments.specs.Private.Made.{IsCallIn, IsMadeIn, AreMadeIn, AreMade, reads_of};

use crate::arguments::{ArgumentToken, arguments_in_expansion, arguments_in_file, starts_of};
use crate::format_strings::searched;
use crate::forms::expansion_tokens;
use crate::macros::{Form, form_of, name_in_std};
use crate::made::{Call, Made};
use crate::own_names::OwnNames;
use ide_ssr_resolved_rule::first_child;
use ssr_base::{Expansion, MOST_NESTED, MOST_TREES};
use ssr_syntax::{ExpToken, ExpansionKind, Reach, SyntaxError, parse_tokens_of};
use ssr_syntax_kinds::{SyntaxKind, TextRange};
use ssr_syntax_tree::{NodeNo, Tree};
use std::alloc::{AllocError, Global};

/// An expansion, and the tree that its tokens are read as.
#[derive(Drop)]
pub struct ReadExpansion {
    pub expansion: Expansion,
    pub tree: Tree,
}

/// How the arguments of the macro with this path are read.
fn form_of_path(path: &str, own: &OwnNames) -> Option<Form> {
    match name_in_std(path) {
        Some(name) => form_of(name),
        None if own.has(path) => None,
        None => form_of(path),
    }
}

/// The call of a macro of the standard library that a node is.
fn call_at(tree: &Tree, node: NodeNo, own: &OwnNames) -> Option<Call>
    requires { HasNode tree.now node.0 }
    ensures call { IfSome result (IsCallIn tree.now) }
    ensures has { IfSome result (λ call. HasNode tree.now call.brackets.0) }
{
    if !tree.kind(node).is(SyntaxKind::MACRO_CALL) {
        return None;
    }
    let path = first_child(tree, node, SyntaxKind::PATH)?;
    let form = form_of_path(tree.text(path), own)?;
    let brackets = first_child(tree, node, SyntaxKind::TOKEN_TREE)?;
    Some(Call {
        range: tree.range(node),
        form,
        brackets,
    })
}

/// The tree of tokens that are read as an expression in all of Rust, if they can be.
fn expression(alloc: Global, tokens: &[ExpToken]) -> Result<Option<Tree>, AllocError>
    ensures read { IfOk result (λ read. IfSome read (λ tree. expansion_reading_of Whole Expr tokens.now ≡ Ok tree)) }
    ensures short { IfOk result (λ read. IfSome read (λ _. length (expansion_text tokens.now) < 2 ^ 32)) }
{
    match parse_tokens_of(alloc, Reach::Whole, ExpansionKind::Expr, tokens) {
        Ok(tree) => Ok(Some(tree)),
        Err(SyntaxError::Memory) => Err(AllocError),
        Err(_) => Ok(None),
    }
}

/// The expansion of a call in a tree, if its arguments can be read.
fn made_of(
    alloc: Global,
    tree: u32,
    call: Call,
    arguments: Vec<ArgumentToken>,
    nesting: u32,
) -> Result<Option<Made>, AllocError>
    ensures made { IfOk result (λ made. (place : Searched) (text : List ℕ) → IsCallIn (tree_of place) call
        → AreArgumentsOf place (node_of (tree_of place) call.brackets.0) arguments.items → AreSpelledArguments text arguments.items → IfSome made (IsMadeIn place tree text)) }
    ensures tokens { IfOk result (λ made. IfSome made (λ one. map piece_of one.read.expansion.tokens.items ≡ expansion_of call.form (searched call.form arguments.items))) }
{
    let values = searched(call.form, arguments);
    if values.is_empty() {
        return Ok(None);
    }
    let tokens = expansion_tokens(alloc, call.form, values.as_slice())?;
    let handed_in = tokens.as_slice();
    let Some(read) = expression(alloc, handed_in)? else {
        return Ok(None);
    };
    let starts = starts_of(alloc, handed_in)?;
    let expansion = Expansion {
        call: (tree, call.range),
        kind: ExpansionKind::Expr,
        tokens,
    };
    Ok(Some(Made {
        read: ReadExpansion {
            expansion,
            tree: read,
        },
        nesting,
        starts,
    }))
}

/// Adds an expansion, if there is one.
fn add_made(made: &mut Vec<Made>, found: Option<Made>) -> Result<(), AllocError>
    ensures made { OnOk result ((place : Searched) (tree : ℕ) (text : List ℕ) → AreMadeIn place tree text made.old.items → IfSome found (IsMadeIn place tree text) → AreMadeIn place tree text made.new.items) }
    ensures few { OnOk result (length made.new.items ≤ length made.old.items + 1) }
{
    let Some(one) = found else {
        return Ok(());
    };
    made.push(one)?;
    Ok(())
}

/// Adds the expansion of the call that a node of a file's tree is.
fn add_call_in_file(
    alloc: Global,
    file: u32,
    tree: &Tree,
    node: NodeNo,
    own: &OwnNames,
    made: &mut Vec<Made>,
) -> Result<(), AllocError>
    requires { HasNode tree.now node.0 }
    ensures made { OnOk result (AreMadeIn (in_file tree.now) file (source_of tree.now) made.old.items → AreMadeIn (in_file tree.now) file (source_of tree.now) made.new.items) }
    ensures few { OnOk result (length made.new.items ≤ length made.old.items + 1) }
{
    let Some(call) = call_at(tree, node, own) else {
        return Ok(());
    };
    let arguments = arguments_in_file(alloc, tree, call.brackets)?;
    let found = made_of(alloc, file, call, arguments, 1)?;
    add_made(made, found)?;
    Ok(())
}

/// The expansions of the calls in a file with this tree, at most `room`.
fn made_in_file(
    alloc: Global,
    file: u32,
    tree: &Tree,
    own: &OwnNames,
    room: usize,
) -> Result<Vec<Made>, AllocError>
    ensures made { IfOk result (λ made. AreMadeIn (in_file tree.now) file (source_of tree.now) made.items) }
    ensures few { IfOk result (λ made. length made.items ≤ room) }
{
    let mut made = Vec::new(alloc);
    for number in 0..tree.node_count() {
        if made.len() >= room {
            break;
        }
        add_call_in_file(alloc, file, tree, NodeNo(number), own, &mut made)?;
    }
    Ok(made)
}

/// Adds the expansion of the call that a node of an expansion is, whose tree has this number.
fn add_call_below(
    alloc: Global,
    number: u32,
    above: &Made,
    node: NodeNo,
    own: &OwnNames,
    made: &mut Vec<Made>,
) -> Result<(), AllocError>
    requires { HasNode above.now.read.tree node.0 }
    ensures made { OnOk result ((text : List ℕ) → AreSpelled text above.now.read.expansion.tokens.items → AreMadeIn (its_tree above.now.read) number text made.old.items → AreMadeIn (its_tree above.now.read) number text made.new.items) }
    ensures few { OnOk result (length made.new.items ≤ length made.old.items + 1) }
{
    let Some(call) = call_at(&above.read.tree, node, own) else {
        return Ok(());
    };
    let Some(arguments) = arguments_in_expansion(alloc, above, call.brackets)? else {
        return Ok(());
    };
    let nesting = above.nesting.saturating_add(1);
    let found = made_of(alloc, number, call, arguments, nesting)?;
    add_made(made, found)?;
    Ok(())
}

/// The expansions of the calls in an expansion that has the tree of this number, at most `room`.
fn made_below(
    alloc: Global,
    number: u32,
    above: &Made,
    own: &OwnNames,
    room: usize,
) -> Result<Vec<Made>, AllocError>
    ensures made { IfOk result (λ made. (text : List ℕ) → AreSpelled text above.now.read.expansion.tokens.items → AreMadeIn (its_tree above.now.read) number text made.items) }
    ensures few { IfOk result (λ made. length made.items ≤ room) }
{
    let mut made = Vec::new(alloc);
    for node in 0..above.read.tree.node_count() {
        if made.len() >= room {
            break;
        }
        add_call_below(alloc, number, above, NodeNo(node), own, &mut made)?;
    }
    Ok(made)
}

/// The macros of the standard library in whose place the files have others.
fn own_names(alloc: Global, files: &[Tree]) -> Result<OwnNames, AllocError> {
    let mut own = OwnNames::new(alloc);
    for tree in files {
        own.add_file(tree)?;
    }
    Ok(own)
}

/// Adds the expansions of the calls in a file, at most so many with those before.
fn add_file(
    alloc: Global,
    file: u32,
    tree: &Tree,
    own: &OwnNames,
    most: usize,
    made: &mut Vec<Made>,
) -> Result<(), AllocError>
    requires { length made.old.items ≤ most }
    ensures made { OnOk result ((files : List Syntax) → slice_get files file ≡ Some tree.now → AreMade files made.old.items → AreMade files made.new.items) }
    ensures few { OnOk result (length made.new.items ≤ most) }
{
    let mut new = made_in_file(alloc, file, tree, own, most - made.len())?;
    made.append(&mut new)?;
    Ok(())
}

/// The expansions of the calls in files, at most so many.
#[tactic(auto, using(crate::proofs::Tops::none_made))]
fn made_in_files(
    alloc: Global,
    files: &[Tree],
    own: &OwnNames,
    most: usize,
) -> Result<Vec<Made>, AllocError>
    requires { length files.now ≤ most_trees }
    ensures made { IfOk result (λ made. AreMade files.now made.items) }
    ensures few { IfOk result (λ made. length made.items ≤ most) }
{
    let mut made = Vec::new(alloc);
    for (file, tree) in files.iter().enumerate() {
        add_file(alloc, file as u32, tree, own, most, &mut made)?;
    }
    Ok(made)
}

/// Adds the expansions of the calls in an expansion, at most so many with those before. `files` trees stand in front.
fn add_below(
    alloc: Global,
    files: usize,
    next: usize,
    own: &OwnNames,
    most: usize,
    made: &mut Vec<Made>,
) -> Result<(), AllocError>
    requires next { next < length made.old.items }
    requires few { length made.old.items ≤ most }
    requires numbers { files + most ≤ most_trees }
    ensures made { OnOk result ((trees : List Syntax) → length trees ≡ files → AreMade trees made.old.items → AreMade trees made.new.items) }
    ensures few { OnOk result (length made.new.items ≤ most) }
{
    if made[next].nesting >= MOST_NESTED {
        return Ok(());
    }
    let number = (files + next) as u32;
    let mut new = made_below(alloc, number, &made[next], own, most - made.len())?;
    made.append(&mut new)?;
    Ok(())
}

/// Adds the expansions of the calls in expansions, at most so many with those before. `files` trees stand in front.
fn add_nested(
    alloc: Global,
    files: usize,
    own: &OwnNames,
    most: usize,
    made: &mut Vec<Made>,
) -> Result<(), AllocError>
    requires few { length made.old.items ≤ most }
    requires numbers { files + most ≤ most_trees }
    ensures made { OnOk result ((trees : List Syntax) → length trees ≡ files → AreMade trees made.old.items → AreMade trees made.new.items) }
    ensures few { OnOk result (length made.new.items ≤ most) }
{
    let mut next = 0;
    while next < made.len() {
        add_below(alloc, files, next, own, most, made)?;
        next += 1;
    }
    Ok(())
}

/// The expansions with their trees alone.
fn reads(alloc: Global, made: Vec<Made>) -> Result<Vec<ReadExpansion>, AllocError>
    ensures { IfOk result (λ reads. reads.items ≡ reads_of made.items) }
{
    let mut reads = Vec::with_capacity(alloc, made.len())?;
    for one in made {
        reads.push(one.read)?;
    }
    Ok(reads)
}

/// What the calls of the standard library's macros stand for whose arguments are expressions: expansions for a workspace of files
/// with these trees, each with the tree that it is read as. Calls in the arguments of others have theirs too. File number i has
/// tree i there.
///
/// `println!("{}", a)` stands for the tuple `(a,)`, `vec![a; n]` for `[a;n]`, and `matches!(a, p)` for
/// `match a{p=>true,_=>false}`. Only the arguments' tokens have origins, so a match stands in an argument. A format string that
/// is one token is no argument. A call has no expansion without arguments, where they can't be read so, nor where a file defines
/// a macro of that name or brings one in that isn't the standard library's.
///
/// A workspace has at most 65,536 trees, and at most 32 calls above one: calls beyond that have none.
pub fn macro_arguments(alloc: Global, files: &[Tree]) -> Result<Vec<ReadExpansion>, AllocError>
    ensures arguments { IfOk result (λ made. AreArguments (map source_of files.now) (expansions_of made.items)) }
    ensures calls { IfOk result (λ made. All (IsOfItsCall (trees_of files.now made.items)) made.items) }
    ensures read { IfOk result (λ made. All HasItsTree made.items) }
    ensures few { IfOk result (λ made. length files.now ≤ most_trees → length files.now + length made.items ≤ most_trees) }
{
    if files.len() > MOST_TREES {
        return Ok(Vec::new(alloc));
    }
    let most = MOST_TREES - files.len();
    let own = own_names(alloc, files)?;
    let mut made = made_in_files(alloc, files, &own, most)?;
    add_nested(alloc, files.len(), &own, most, &mut made)?;
    let reads = reads(alloc, made)?;
    Ok(reads)
}
