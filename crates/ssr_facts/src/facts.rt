//! A facts file read to a workspace and its provider.

ghost use Rattle.std.specs.Prelude.{◌≡◌, ◌+◌, ◌≤◌, length, map, IfOk, Ok};
ghost use Rattle.std.specs.Map.{lookup};
ghost use Rattle.std.specs.Option.{option_map, option_and_then};
ghost use Rattle.ssr_syntax_kinds.specs.declared.kinds.SyntaxKind.TheVariants as kinds;
ghost use Rattle.ssr_base_trees.specs.declared.ids.NodeId.{NodeId as Id};
ghost use Rattle.ssr_base_trees.specs.Built.{most_trees};
ghost use Rattle.ssr_facts_rows.specs.Facts.{plain_facts, facts_of};
ghost use Rattle.ssr_facts_rows.specs.Meanings.{plain_types};
ghost use Rattle.ssr_facts_rows.specs.declared.places.PlaceRow.{PlaceRow as Place};
ghost use Rattle.ssr_facts.specs.Nodes.{node_at, place_of, same_place};
ghost use Rattle.ssr_facts.specs.Provider.{provided};
ghost use Rattle.ssr_facts.specs.Reading.{Answers};
ghost use Rattle.ssr_facts.specs.Tables.{meanings_of};
ghost use Rattle.ssr_facts.specs.Told.{meanings_told};
ghost use Rattle.ssr_facts.specs.Private.Nodes.{at_place, types_at};
ghost use Rattle.ssr_facts.specs.Private.Reading.{Builds, IsToldIfNamed};

use crate::facts_error::FactsError;
use crate::grouping::first_rows;
use crate::naming::all_named;
use crate::nodes::{at_nodes, nodes_by_place};
use crate::provider::TableSemantics;
use crate::scopes::scopes_of_nodes;
use crate::sources::{expansions, names_and_texts};
use crate::tables::Tables;
use crate::types::types_of_nodes;
use ssr_base::{
    Expansion, FileId, FilePosition, FileRange, NodeId, TypeId, Workspace, WorkspaceError,
};
use ssr_facts_rows::{FactRows, PlaceRow, read_rows};
use ssr_syntax_kinds::SyntaxKind;
use std::alloc::{AllocError, Global};
use std::collections::BTreeMap;
use std::mem;

/// What a facts file tells: a workspace, what its names, scopes and types mean, and where to search.
#[derive(Drop)]
pub struct Facts {
    pub workspace: Workspace,
    pub semantics: TableSemantics,
    /// The names of the files.
    pub names: Vec<String>,
    /// Where the names of rules are looked up: at the beginning of file 0, where the facts tell no position. It isn't looked
    /// at whether there is such a place.
    pub position: FilePosition,
    /// The ranges to search in. It isn't looked at whether there are such.
    pub ranges: Vec<FileRange>,
}

/// The values of a list, which is empty then.
fn taken<T: Drop>(alloc: Global, list: &mut Vec<T>) -> Vec<T>
    ensures { result ≡ list.old }
{
    mem::replace(list, Vec::new(alloc))
}

/// The types of nodes, of several rows of a place those of the first one.
fn types_by_nodes(
    alloc: Global,
    workspace: &Workspace,
    rows: Vec<(PlaceRow, Vec<TypeId>)>,
) -> Result<Vec<(NodeId, Vec<TypeId>)>, AllocError>
    requires { length workspace.now.files + length workspace.now.expansions ≤ most_trees }
    ensures { IfOk result (λ told. (x : Id) → types_at told.items x ≡ option_and_then (λ place. lookup (same_place place) (map plain_types rows.items)) (place_of workspace.now x)) }
{
    let by_place = first_rows(alloc, rows)?;
    types_of_nodes(alloc, workspace, &by_place)
}

/// What rows tell of a workspace with these paths and method calls, as tables.
fn tables(
    alloc: Global,
    workspace: &Workspace,
    rows: FactRows,
    path_nodes: &BTreeMap<PlaceRow, NodeId>,
    call_nodes: &BTreeMap<PlaceRow, NodeId>,
) -> Result<Tables, AllocError>
    requires few { length workspace.now.files + length workspace.now.expansions ≤ most_trees }
    requires paths { (place : Place) → at_place path_nodes.now place ≡ node_at workspace.now kinds.PATH place }
    requires calls { (place : Place) → at_place call_nodes.now place ≡ node_at workspace.now kinds.METHOD_CALL_EXPR place }
    ensures { IfOk result (λ tables. meanings_of tables ≡ meanings_told workspace.now (plain_facts rows)) }
{
    Ok(Tables {
        definitions: rows.definitions,
        scopes: scopes_of_nodes(alloc, workspace, &rows.scopes)?,
        names: rows.names,
        members: rows.members,
        paths: at_nodes(alloc, path_nodes, &rows.paths)?,
        methods: at_nodes(alloc, call_nodes, &rows.methods)?,
        types: types_by_nodes(alloc, workspace, rows.types)?,
        printed: rows.printed,
    })
}

/// The provider of what rows tell of a workspace; none where a number names nothing, or a row no such node.
fn semantics(
    alloc: Global,
    workspace: &Workspace,
    rows: FactRows,
) -> Result<Option<TableSemantics>, AllocError>
    requires { length workspace.now.files + length workspace.now.expansions ≤ most_trees }
    ensures { IfOk result (λ told. IsToldIfNamed workspace.now (plain_facts rows) (option_map provided told)) }
{
    let paths = nodes_by_place(alloc, workspace, SyntaxKind::PATH)?;
    let calls = nodes_by_place(alloc, workspace, SyntaxKind::METHOD_CALL_EXPR)?;
    if !all_named(workspace, &rows, &paths, &calls) {
        return Ok(None);
    }
    let tables = tables(alloc, workspace, rows, &paths, &calls)?;
    Ok(Some(TableSemantics::new(alloc, tables)?))
}

/// The workspace of files and expansions.
fn workspace(
    alloc: Global,
    texts: Vec<String>,
    expansions: Vec<Expansion>,
) -> Result<Workspace, FactsError>
    ensures { Builds texts.items expansions.items result }
{
    match Workspace::build(alloc, texts, expansions) {
        Ok(workspace) => Ok(workspace),
        Err(WorkspaceError::Memory) => Err(FactsError::Memory),
        Err(refusal) => Err(FactsError::Workspace(refusal)),
    }
}

/// What rows tell.
fn into_facts(alloc: Global, mut rows: FactRows) -> Result<Facts, FactsError>
    ensures { Answers (Ok (plain_facts rows)) result }
{
    let expansions = expansions(alloc, taken(alloc, &mut rows.expansions))?;
    let (names, texts) = names_and_texts(alloc, taken(alloc, &mut rows.files))?;
    let workspace = workspace(alloc, texts, expansions)?;
    let position = rows.position.unwrap_or(FilePosition {
        file_id: FileId(0),
        offset: 0,
    });
    let ranges = taken(alloc, &mut rows.ranges);
    match semantics(alloc, &workspace, rows)? {
        Some(semantics) => Ok(Facts {
            workspace,
            semantics,
            names,
            position,
            ranges,
        }),
        None => Err(FactsError::Shape),
    }
}

/// The workspace of a facts file, and what its names, scopes and types mean. Refused, by the first of these that holds: bytes
/// that are no JSON (`NotJson`); a key, value or number of another form, or a start above its end (`Shape`); files or expansions
/// without a workspace (`Workspace`); a number that names nothing, or a row of a path or a method call that names no such node
/// (`Shape`). Want of memory (`Memory`) may be told in place of any of them.
pub fn read(alloc: Global, bytes: &[u8]) -> Result<Facts, FactsError>
    ensures { Answers (facts_of bytes.now) result }
{
    into_facts(alloc, read_rows(alloc, bytes)?)
}
