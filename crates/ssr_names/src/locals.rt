//! Which names of the code are bound where they stand, by a function around.
ghost use Rattle.std.specs.Prelude.{◌≡◌, ◌&&◌, true, false, IfOk, OnOk, Contains};
ghost use Rattle.ssr_base_trees.specs.Workspace.{trees as placed};
ghost use Rattle.ssr_base_trees.specs.Built.{IsBuilt};
ghost use Rattle.ssr_base_trees.specs.Laws.{IsBelow};
ghost use Rattle.ssr_names.specs.Private.Meanings.{Means};
ghost use Rattle.ssr_names.specs.Locals.{is_function, is_function_at, HasParameterAt, IsBoundName, IsLocal, IsOfGenerics};
ghost use Rattle.ssr_names.specs.Private.Locals.{BindAll, BindAmong, BindAround, CollectsAll, IsBoundBy, IsRight, StaysBound, is_bound};

use crate::definitions::Meaning;
use crate::places::{is_generic_at, kind_at, plain_name, value_name};
use crate::resolving::Row;
use crate::words::Words;
use ssr_base_trees::{NodeId, Trees};
use ssr_names_items::Name;
use ssr_syntax_kinds::SyntaxKind;
use ssr_syntax_tree::Element;
use std::alloc::{AllocError, Global};
use std::collections::BTreeSet;

/// A name that a function binds.
#[derive(Clone, Copy, Debug, PartialEq, Eq, PartialOrd, Ord)]
pub(crate) struct Bound {
    pub(crate) function: NodeId,
    pub(crate) name: Name,
}

/// What functions bind of the names that are asked for.
#[derive(Clone, Copy)]
pub(crate) struct Locals<'l> {
    pub(crate) trees: &'l Trees,
    pub(crate) words: &'l Words,
    pub(crate) bound: &'l BTreeSet<Bound>,
}

/// Whether a node of this kind binds names for all that is below it.
fn is_function(kind: SyntaxKind) -> bool
    ensures { result ≡ is_function kind }
{
    matches!(
        kind,
        SyntaxKind::FN | SyntaxKind::CONST | SyntaxKind::STATIC
    )
}

/// Whether a node is a function, a constant or a static item.
fn is_function_at(trees: &Trees, node: NodeId) -> bool
    ensures { result ≡ is_function_at (placed trees.now) node }
{
    match kind_at(trees, node) {
        Some(kind) => is_function(kind),
        None => false,
    }
}

/// The nodes above a node, from the nearest on.
fn all_above(alloc: Global, trees: &Trees, node: NodeId) -> Result<Vec<NodeId>, AllocError>
    requires { IsBuilt trees.now }
    ensures { IfOk result (λ found. (above : NodeId) → IsBelow (placed trees.now) node above → Contains found.items above) }
{
    let mut found = Vec::new(alloc);
    let mut at = node;
    while let Some(above) = trees.above(at) {
        found.push(above)?;
        at = above;
    }
    Ok(found)
}

/// Lets each function among nodes bind a name.
fn bind_among(
    trees: &Trees,
    nodes: &[NodeId],
    name: Name,
    bound: &mut BTreeSet<Bound>,
) -> Result<(), AllocError>
    ensures kept { OnOk result (StaysBound bound.old bound.new) }
    ensures bound { OnOk result (BindAmong (placed trees.now) bound.new nodes.now name) }
{
    for node in nodes {
        if !is_function_at(trees, *node) {
            continue;
        }
        bound.insert(Bound {
            function: *node,
            name,
        })?;
    }
    Ok(())
}

/// Lets each function around a node bind a name.
pub(crate) fn bind_around(
    alloc: Global,
    trees: &Trees,
    node: NodeId,
    name: Name,
    bound: &mut BTreeSet<Bound>,
) -> Result<(), AllocError>
    requires { IsBuilt trees.now }
    ensures kept { OnOk result (StaysBound bound.old bound.new) }
    ensures bound { OnOk result (BindAround (placed trees.now) bound.new node name) }
{
    let nodes = all_above(alloc, trees, node)?;
    bind_among(trees, nodes.as_slice(), name, bound)?;
    Ok(())
}

/// Whether a node is a function that binds a name.
fn binds(trees: &Trees, bound: &BTreeSet<Bound>, function: NodeId, name: Name) -> bool
    ensures { result ≡ (is_function_at (placed trees.now) function && is_bound bound.now function name) }
{
    is_function_at(trees, function) && bound.contains(&Bound { function, name })
}

/// Whether a function among nodes binds a name.
fn binds_among(trees: &Trees, bound: &BTreeSet<Bound>, nodes: &[NodeId], name: Name) -> bool
    ensures { result ≡ false → (function : NodeId) → Contains nodes.now function → ¬ IsBoundBy (placed trees.now) bound.now function name }
{
    for node in nodes {
        if binds(trees, bound, *node, name) {
            return true;
        }
    }
    false
}

/// Whether a function around a node binds a name.
fn is_bound_around(
    alloc: Global,
    trees: &Trees,
    bound: &BTreeSet<Bound>,
    node: NodeId,
    name: Name,
) -> Result<bool, AllocError>
    requires { IsBuilt trees.now }
    ensures { IfOk result (λ is. is ≡ false → (function : NodeId) → IsBelow (placed trees.now) node function → ¬ IsBoundBy (placed trees.now) bound.now function name) }
{
    let nodes = all_above(alloc, trees, node)?;
    Ok(binds_among(trees, bound, nodes.as_slice(), name))
}

/// Whether an item among nodes has a generic parameter of a name.
fn has_parameter_among(trees: &Trees, nodes: &[NodeId], name: &str) -> bool
    ensures { result ≡ false → (item : NodeId) → Contains nodes.now item → ¬ HasParameterAt (placed trees.now) item name.now }
{
    for node in nodes {
        if is_generic_at(trees, *node, name) {
            return true;
        }
    }
    false
}

/// Whether an item around a node has a generic parameter of a name.
fn is_parameter_around(
    alloc: Global,
    trees: &Trees,
    node: NodeId,
    name: &str,
) -> Result<bool, AllocError>
    requires { IsBuilt trees.now }
    ensures { IfOk result (λ is. is ≡ false → (item : NodeId) → IsBelow (placed trees.now) node item → ¬ HasParameterAt (placed trees.now) item name.now) }
{
    let nodes = all_above(alloc, trees, node)?;
    Ok(has_parameter_among(trees, nodes.as_slice(), name))
}

impl<'l> Locals<'l> {
    /// Whether a path is a name alone that a function around binds. Of one that isn't asked for that isn't known.
    fn is_local(&self, alloc: Global, path: NodeId) -> Result<bool, AllocError>
        requires built { IsBuilt self.now.trees.now }
        requires collected { CollectsAll (placed self.now.trees.now) self.now.words.now }
        requires bound { BindAll (placed self.now.trees.now) self.now.bound.now self.now.words.now.binders.items }
        ensures { IfOk result (λ is. is ≡ false → ¬ IsLocal (placed self.now.trees.now) path) }
    {
        let Some(tree) = self.trees.tree(path.tree) else {
            return Ok(false);
        };
        if !tree.has(Element::Node(path.node)) {
            return Ok(false);
        }
        let Some(text) = value_name(tree, path.node) else {
            return Ok(false);
        };
        match self.words.number(text) {
            Some(name) => is_bound_around(alloc, self.trees, self.bound, path, name),
            None => Ok(true),
        }
    }

    /// Whether a path is a name alone that is a generic parameter of an item around.
    fn is_of_generics(&self, alloc: Global, path: NodeId) -> Result<bool, AllocError>
        requires { IsBuilt self.now.trees.now }
        ensures { IfOk result (λ is. is ≡ false → ¬ IsOfGenerics (placed self.now.trees.now) path) }
    {
        let Some(tree) = self.trees.tree(path.tree) else {
            return Ok(false);
        };
        if !tree.has(Element::Node(path.node)) {
            return Ok(false);
        }
        match plain_name(tree, path.node) {
            Some(name) => is_parameter_around(alloc, self.trees, path, name),
            None => Ok(false),
        }
    }

    /// Whether a path is a name alone that is bound where it stands.
    fn is_bound(&self, alloc: Global, path: NodeId) -> Result<bool, AllocError>
        requires built { IsBuilt self.now.trees.now }
        requires collected { CollectsAll (placed self.now.trees.now) self.now.words.now }
        requires bound { BindAll (placed self.now.trees.now) self.now.bound.now self.now.words.now.binders.items }
        ensures { IfOk result (λ is. is ≡ false → ¬ IsBoundName (placed self.now.trees.now) path) }
    {
        if self.is_local(alloc, path)? {
            return Ok(true);
        }
        self.is_of_generics(alloc, path)
    }

    /// A row, where that of a name that is bound says that it isn't known what that stands for.
    pub(crate) fn without_local(&self, alloc: Global, row: Row) -> Result<Row, AllocError>
        requires built { IsBuilt self.now.trees.now }
        requires collected { CollectsAll (placed self.now.trees.now) self.now.words.now }
        requires bound { BindAll (placed self.now.trees.now) self.now.bound.now self.now.words.now.binders.items }
        ensures local { IfOk result (λ row. IsRight (placed self.now.trees.now) row) }
        ensures told { IfOk result (λ told. (told.node ≡ row.node) × Means told.meaning (λ d. row.meaning ≡ Meaning.One d)) }
    {
        if !self.is_bound(alloc, row.node)? {
            return Ok(row);
        }
        Ok(Row {
            meaning: Meaning::Unknown,
            ..row
        })
    }
}
