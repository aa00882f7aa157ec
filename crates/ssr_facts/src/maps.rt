//! Tables, ready to be asked.

ghost use Rattle.std.specs.Prelude.{◌≡◌, ◌++◌, IfOk, OnOk, filter};
ghost use Rattle.std.specs.Map.{lookup};
ghost use Rattle.ssr_base_trees.specs.Workspace.{same_id};
ghost use Rattle.ssr_facts.specs.Tables.{callee, stands_for};
ghost use Rattle.ssr_facts.specs.Usages.{uses_of};

use crate::grouping::{add, first_rows, keys};
use crate::tables::Tables;
use ssr_base::{DefId, NodeId, Res, ScopeId, TypeId};
use ssr_facts_rows::{Definition, MemberKey, Method, NameKey, PrintedKey};
use std::alloc::{AllocError, Global};
use std::collections::BTreeMap;

/// What tables know, by its keys, and beside that the nodes that use a thing.
#[derive(Drop)]
pub(crate) struct Maps {
    pub(crate) definitions: Vec<Definition>,
    pub(crate) scopes: BTreeMap<NodeId, ScopeId>,
    pub(crate) names: BTreeMap<NameKey, Res>,
    pub(crate) members: BTreeMap<MemberKey, DefId>,
    pub(crate) paths: BTreeMap<NodeId, Res>,
    pub(crate) methods: BTreeMap<NodeId, Method>,
    pub(crate) types: BTreeMap<NodeId, Vec<TypeId>>,
    pub(crate) printed: BTreeMap<PrintedKey, String>,
    pub(crate) usages: BTreeMap<Res, Vec<NodeId>>,
}

/// Adds paths to the nodes that use what they stand for.
fn add_paths(
    alloc: Global,
    usages: &mut BTreeMap<Res, Vec<NodeId>>,
    paths: &BTreeMap<NodeId, Res>,
    nodes: Vec<NodeId>,
) -> Result<(), AllocError>
    ensures { OnOk result ((r : Res) → uses_of usages.new r ≡ uses_of usages.old r ++ filter (λ node. stands_for r (lookup (same_id node) paths.now.entries)) nodes.items) }
{
    for node in nodes {
        if let Some(res) = paths.get(&node) {
            add(alloc, usages, *res, node)?;
        }
    }
    Ok(())
}

/// Adds method calls to the nodes that use what they call.
fn add_calls(
    alloc: Global,
    usages: &mut BTreeMap<Res, Vec<NodeId>>,
    methods: &BTreeMap<NodeId, Method>,
    nodes: Vec<NodeId>,
) -> Result<(), AllocError>
    ensures { OnOk result ((r : Res) → uses_of usages.new r ≡ uses_of usages.old r ++ filter (λ node. stands_for r (callee (lookup (same_id node) methods.now.entries))) nodes.items) }
{
    for node in nodes {
        if let Some(method) = methods.get(&node) {
            add(alloc, usages, Res::Def(method.def), node)?;
        }
    }
    Ok(())
}

impl Maps {
    ghost use Rattle.ssr_facts.specs.Private.Maps.{AreMade};

    /// The tables as maps.
    pub(crate) fn new(alloc: Global, tables: Tables) -> Result<Maps, AllocError>
        ensures { IfOk result (λ maps. AreMade maps tables) }
    {
        let Tables {
            definitions,
            scopes,
            names,
            members,
            paths,
            methods,
            types,
            printed,
        } = tables;
        let named = keys(alloc, &paths)?;
        let called = keys(alloc, &methods)?;
        let paths = first_rows(alloc, paths)?;
        let methods = first_rows(alloc, methods)?;
        let mut usages = BTreeMap::new(alloc);
        add_paths(alloc, &mut usages, &paths, named)?;
        add_calls(alloc, &mut usages, &methods, called)?;
        Ok(Maps {
            definitions,
            scopes: first_rows(alloc, scopes)?,
            names: first_rows(alloc, names)?,
            members: first_rows(alloc, members)?,
            paths,
            methods,
            types: first_rows(alloc, types)?,
            printed: first_rows(alloc, printed)?,
            usages,
        })
    }
}
