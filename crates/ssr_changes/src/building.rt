//! The workspace of trees that are read, and of what macro calls in them stand for.
ghost use Rattle.std.specs.Prelude.{◌≡◌, ◌+◌, ◌≤◌, All, IfOk, OnOk, Ok, length};
ghost use Rattle.ssr_syntax_kinds.specs.declared.reach.Reach.TheVariants.{Whole};
ghost use Rattle.ssr_syntax.specs.Expansions.{expansion_reading_of};
ghost use Rattle.ssr_syntax.specs.Reading.{IsReadOf};
ghost use Rattle.ssr_base_trees.specs.Built.{most_trees};
ghost use Rattle.ssr_macro_arguments.specs.Arguments.{HasItsTree};
ghost use Rattle.ssr_changes.specs.Private.Building.{IsAdded, IsOneMore, missing};

use crate::read_in::READ_IN;
use ssr_base::{Expansion, Workspace, WorkspaceError};
use ssr_macro_arguments::{ReadExpansion, macro_arguments};
use ssr_syntax::Tree;
use std::alloc::{AllocError, Global};

/// A workspace, and how many calls of macros aren't searched in it.
#[derive(Drop)]
pub(crate) struct Built {
    pub(crate) workspace: Workspace,
    pub(crate) refused: usize,
}

/// The number that a tree has in the workspace, if it is there. The files come first; then `places` tells of each expansion where
/// its tree stands.
fn there(files: u32, places: &[Option<u32>], tree: u32) -> Option<u32> {
    match tree.checked_sub(files) {
        Some(place) => places.get(place as usize).copied().flatten(),
        None => Some(tree),
    }
}

/// The same expansion, of a call in the tree of this number.
fn moved(expansion: Expansion, tree: u32) -> Expansion
    ensures kind { result.kind ≡ expansion.kind }
    ensures tokens { result.tokens ≡ expansion.tokens }
    ensures call { result.call ≡ (tree, expansion.call.1) }
{
    let Expansion { call, kind, tokens } = expansion;
    Expansion {
        call: (tree, call.1),
        kind,
        tokens,
    }
}

/// Adds an expansion with its tree, which is read in the workspace's reach, and gives the number of the tree, unless the expansion is refused.
fn add(
    alloc: Global,
    workspace: &mut Workspace,
    expansion: &Expansion,
    tree: Tree,
) -> Result<Option<u32>, AllocError>
    requires { expansion_reading_of workspace.old.reach expansion.now.kind expansion.now.tokens.items ≡ Ok tree }
    ensures { IfOk result (IsAdded workspace.old expansion.now workspace.new) }
{
    let trees = workspace.trees();
    let number = trees.file_count() + trees.expansion_count();
    match workspace.add_of(alloc, expansion, tree) {
        Ok(()) => Ok(Some(number)),
        Err(error) => match error {
            WorkspaceError::Memory => Err(AllocError),
            _ => Ok(None),
        },
    }
}

/// Adds an expansion with its tree, if the tree of its call is there, and gives the number that its own tree has then.
fn add_there(
    alloc: Global,
    workspace: &mut Workspace,
    there: Option<u32>,
    made: ReadExpansion,
) -> Result<Option<u32>, AllocError>
    requires made { HasItsTree made }
    requires reach { workspace.old.reach ≡ Whole }
    ensures { IfOk result (IsOneMore workspace.old workspace.new) }
{
    let Some(number) = there else {
        return Ok(None);
    };
    let ReadExpansion { expansion, tree } = made;
    add(alloc, workspace, &moved(expansion, number), tree)
}

/// How many trees aren't there: one or none.
fn missing(number: Option<u32>) -> usize
    ensures { result ≡ missing number }
{
    match number {
        Some(_) => 0,
        None => 1,
    }
}

/// Adds expansions with their trees, and tells how many aren't added: those that are refused, and those in their arguments.
fn add_all(
    alloc: Global,
    workspace: &mut Workspace,
    made: Vec<ReadExpansion>,
) -> Result<usize, AllocError>
    requires made { All HasItsTree made.items }
    requires reach { workspace.old.reach ≡ Whole }
    ensures reach { OnOk result (workspace.new.reach ≡ Whole) }
    ensures files { OnOk result (workspace.new.files ≡ workspace.old.files) }
    ensures counted { IfOk result (λ refused. length workspace.new.expansions + refused ≡ length workspace.old.expansions + length made.items) }
{
    let files = workspace.file_count();
    let mut places = Vec::with_capacity(alloc, made.len())?;
    let mut refused = 0usize;
    for one in made {
        let there = there(files, &places, one.expansion.call.0);
        let added = add_there(alloc, workspace, there, one)?;
        refused += missing(added);
        places.push(added)?;
    }
    Ok(refused)
}

/// What calls of the standard library's macros in files with these trees stand for, if that is asked for; else nothing.
fn expansions(alloc: Global, trees: &[Tree], macros: bool) -> Result<Vec<ReadExpansion>, AllocError>
    ensures { IfOk result (λ made. All HasItsTree made.items) }
{
    if macros {
        macro_arguments(alloc, trees)
    } else {
        Ok(Vec::new(alloc))
    }
}

/// The workspace of files with these trees. With macros, what the calls of the standard library's macros in them stand for is
/// searched too. One that is refused is left out, with those in its arguments.
pub(crate) fn build(alloc: Global, trees: Vec<Tree>, macros: bool) -> Result<Built, AllocError>
    requires read { All (IsReadOf Whole) trees.items }
    requires few { length trees.items ≤ most_trees }
    ensures files { IfOk result (λ built. built.workspace.files ≡ trees.items) }
    ensures reach { IfOk result (λ built. built.workspace.reach ≡ Whole) }
{
    let made = expansions(alloc, &trees, macros)?;
    let mut workspace = Workspace::of_trees_of(alloc, READ_IN, trees);
    let refused = add_all(alloc, &mut workspace, made)?;
    Ok(Built { workspace, refused })
}
