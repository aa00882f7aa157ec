//! What a search is made for: where names are looked up, which ranges are searched, and the function around a position.
ghost use Rattle.std.specs.Prelude.{◌≡◌, ◌↔◌, ◌⊎◌, IsTrue, IfOk, MatchResult, All, map};
ghost use Rattle.ssr_base_trees.specs.Workspace.{file_span_of};
ghost use Rattle.ide_ssr_search.specs.Making.{restricting, HasFile, LiesInText, Makes, MakesFirst};
ghost use Rattle.ide_ssr_search.specs.Private.Files.{IsFileAt, IsFunctionAt};
ghost use Rattle.ssr_syntax_tree.specs.Places.{HasNode};

use crate::context_error::ContextError;
use crate::positions::{function_around, node_at};
use ssr_base_trees::{FileId, FilePosition, FileRange, NodeId, ScopeId, Semantics, Trees};
use ssr_syntax_tree::{NodeNo, Tree};
use std::alloc::{AllocError, Global};
use std::marker::Model;

/// What a search is made for.
#[derive(Drop)]
pub struct Context {
    pub(crate) scope: ScopeId,
    pub(crate) restrictions: Vec<FileRange>,
    pub(crate) function: Option<NodeId>,
}

impl Model for Context {
    ghost use Rattle.std.specs.Prelude.{map};
    ghost use Rattle.ide_ssr_search.specs.Context.{Context as ContextValue};

    ghost Value = { ContextValue };

    ghost use Rattle.ssr_base_trees.specs.Workspace.{file_span_of};

    ghost view = { λ c. record { scope = c.scope; restrictions = map file_span_of c.restrictions.items; function = c.function } };
}

/// The restrictions that aren't empty.
fn restricting(alloc: Global, restrictions: &[FileRange]) -> Result<Vec<FileRange>, AllocError>
    ensures { IfOk result (λ kept. kept.items ≡ restricting restrictions.now) }
{
    let mut kept = Vec::new(alloc);
    for restriction in restrictions {
        if restriction.range.start < restriction.range.end {
            kept.push(*restriction)?;
        }
    }
    Ok(kept)
}

/// Whether there are files of the numbers that ranges have.
fn are_of_files(workspace: &Trees, ranges: &[FileRange]) -> bool
    ensures { IsTrue result ↔ All (λ range. HasFile workspace.now range.file_id.0) ranges.now }
{
    for range in ranges {
        if range.file_id.0 >= workspace.file_count() {
            return false;
        }
    }
    true
}

/// The file of a position, which lies in its text or at the end.
fn file_at(workspace: &Trees, position: FilePosition) -> Result<&Tree, ContextError>
    ensures { MatchResult result (λ tree. IsFileAt workspace.now position tree.now) (λ e. (e ≡ ContextError.NoSuchFile × ¬ HasFile workspace.now position.file_id.0) ⊎ (e ≡ ContextError.NoSuchPosition × HasFile workspace.now position.file_id.0 × ¬ LiesInText workspace.now position)) }
{
    let file = position.file_id.0;
    if file >= workspace.file_count() {
        return Err(ContextError::NoSuchFile);
    }
    let Some(tree) = workspace.tree(file) else {
        return Err(ContextError::NoSuchFile);
    };
    if tree.source().len() < position.offset as usize {
        return Err(ContextError::NoSuchPosition);
    }
    Ok(tree)
}

/// The innermost function at or above a node of a file's tree.
fn function_at(tree: &Tree, file: u32, node: NodeNo) -> Option<NodeId>
    requires { HasNode tree.now node.0 }
    ensures { IsFunctionAt tree.now file node.0 result }
{
    let node = function_around(tree, node)?;
    Some(NodeId { tree: file, node })
}

impl Context {
    /// What a search is made for at a position. Empty restrictions are dropped; if none is left, all files are searched.
    /// Refused, by the first of these that holds: no file of the position, no such position in it, no file of a
    /// restriction that isn't empty, no scope of the position's node.
    pub fn at<S: Semantics>(
        alloc: Global,
        workspace: &Trees,
        semantics: &S,
        position: FilePosition,
        restrictions: Vec<FileRange>,
    ) -> Result<Context, ContextError>
        ensures { Makes workspace.now (S.meanings semantics.now) position restrictions.items result }
    {
        let tree = file_at(workspace, position)?;
        let restrictions = restricting(alloc, &restrictions)?;
        if !are_of_files(workspace, &restrictions) {
            return Err(ContextError::NoSuchFile);
        }
        let file = position.file_id.0;
        let node = node_at(tree, position.offset);
        let id = NodeId { tree: file, node };
        let Some(scope) = semantics.scope(alloc, id)? else {
            return Err(ContextError::NoScope);
        };
        Ok(Context {
            scope,
            restrictions,
            function: function_at(tree, file, node),
        })
    }

    /// What a search is made for in front of the first file, without restrictions. Refused where there is no file, and
    /// where the position's node has no scope.
    pub fn at_first_file<S: Semantics>(
        alloc: Global,
        workspace: &Trees,
        semantics: &S,
    ) -> Result<Context, ContextError>
        ensures { MakesFirst workspace.now (S.meanings semantics.now) result }
    {
        if workspace.file_count() == 0 {
            return Err(ContextError::NoFiles);
        }
        let start = FilePosition {
            file_id: FileId(0),
            offset: 0,
        };
        Context::at(alloc, workspace, semantics, start, Vec::new(alloc))
    }

    /// The scope in which the names of rules are looked up.
    pub fn scope(&self) -> ScopeId
        ensures { result ≡ self.now.scope }
    {
        self.scope
    }

    /// The ranges that are searched, none of which is empty; without any, all files are.
    pub fn restrictions(&self) -> &[FileRange]
        ensures { map file_span_of result.now ≡ self.now.restrictions }
    {
        &self.restrictions
    }

    /// The innermost function around the position.
    pub fn function(&self) -> Option<NodeId>
        ensures { result ≡ self.now.function }
    {
        self.function
    }
}
