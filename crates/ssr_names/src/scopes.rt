//! The scopes that nodes stand in: each module, and each block that has items, is one.
ghost use Rattle.std.specs.Prelude.{◌≡◌};
ghost use Rattle.ssr_names.specs.Private.Scopes.{scope_in, scope_at};

use crate::space::between;
use ssr_base_trees::{NodeId, ScopeId, Trees};
use ssr_names_items::{Module, ModuleNo, Table};
use ssr_syntax_tree::{Element, NodeNo, Tree};
use std::alloc::{AllocError, Global};

/// The scopes of the nodes of a tree.
#[derive(Debug, Drop)]
pub(crate) enum TreeScopes {
    /// All nodes stand in it.
    One(Option<ScopeId>),
    /// That of each node.
    Each(Vec<ScopeId>),
}

/// The scopes of the nodes of all trees.
#[derive(Debug, Drop)]
pub(crate) struct Scopes {
    trees: Vec<TreeScopes>,
}

/// A block or a module that stands in an expansion.
#[derive(Clone, Copy, Debug, PartialEq, Eq, PartialOrd, Ord)]
struct Inner {
    tree: u32,
    module: ModuleNo,
}

/// The blocks and modules that stand in expansions, by these, those around in front of those inside.
fn inner_modules(alloc: Global, table: &Table, files: u32) -> Result<Vec<Inner>, AllocError> {
    let mut inner = Vec::new(alloc);
    for (number, module) in table.modules.iter().enumerate() {
        if module.node.tree >= files && number <= u32::MAX as usize {
            inner.push(Inner {
                tree: module.node.tree,
                module: ModuleNo(number as u32),
            })?;
        }
    }
    inner.sort()?;
    Ok(inner)
}

impl TreeScopes {
    /// The scope of a node.
    fn of(&self, node: u32) -> Option<ScopeId>
        ensures { result ≡ scope_at self.now node }
    {
        match self {
            TreeScopes::One(scope) => *scope,
            TreeScopes::Each(scopes) => scopes.get(node as usize).copied(),
        }
    }
}

/// Sets the scope of the nodes from one on to before another one.
fn cover(scopes: &mut Vec<ScopeId>, first: u32, past: u32, scope: ScopeId) {
    for place in first as usize..past as usize {
        if let Some(held) = scopes.get_mut(place) {
            *held = scope;
        }
    }
}

/// The scopes of a tree, where the nodes from one on stand in an inner module.
fn with_inner(
    alloc: Global,
    tree: &Tree,
    node: NodeNo,
    scope: ScopeId,
    had: TreeScopes,
) -> Result<TreeScopes, AllocError> {
    if !tree.has(Element::Node(node)) {
        return Ok(had);
    }
    let mut each = match had {
        TreeScopes::Each(scopes) => scopes,
        TreeScopes::One(None) => return Ok(TreeScopes::One(Some(scope))),
        TreeScopes::One(Some(_)) if node.0 == 0 => return Ok(had),
        TreeScopes::One(Some(outer)) => vec![in alloc; outer; tree.node_count() as usize]?,
    };
    if node.0 > 0 {
        cover(&mut each, node.0, tree.nodes_below(node).end, scope);
    }
    Ok(TreeScopes::Each(each))
}

impl Scopes {
    /// The scopes of a run: those of files by their modules, and those of expansions by their calls.
    pub(crate) fn new(alloc: Global, table: &Table, trees: &Trees) -> Result<Scopes, AllocError> {
        let mut scopes = Scopes {
            trees: Vec::with_capacity(alloc, trees.file_count() as usize)?,
        };
        for _ in 0..trees.file_count() {
            scopes.trees.push(TreeScopes::One(None))?;
        }
        for (number, module) in table.modules.iter().enumerate() {
            scopes.add_module(alloc, trees, module, number)?;
        }
        scopes.add_expansions(alloc, table, trees)?;
        Ok(scopes)
    }

    /// Adds the scope of a module, behind those around it.
    fn add_module(
        &mut self,
        alloc: Global,
        trees: &Trees,
        module: &Module,
        number: usize,
    ) -> Result<(), AllocError> {
        if number > u32::MAX as usize {
            return Ok(());
        }
        let scope = ScopeId(number as u32);
        let Some(tree) = trees.tree(module.node.tree) else {
            return Ok(());
        };
        let Some(held) = self.trees.get_mut(module.node.tree as usize) else {
            return Ok(());
        };
        let had = std::mem::replace(held, TreeScopes::One(None));
        *held = with_inner(alloc, tree, module.node.node, scope, had)?;
        Ok(())
    }

    /// Adds the scopes of expansions: one stands in that of its call, but for what stands in its own blocks.
    fn add_expansions(
        &mut self,
        alloc: Global,
        table: &Table,
        trees: &Trees,
    ) -> Result<(), AllocError> {
        let files = trees.file_count();
        let inner = inner_modules(alloc, table, files)?;
        for place in 0..trees.expansion_count() {
            let root = NodeId {
                tree: files.saturating_add(place),
                node: NodeNo(0),
            };
            let scope = match trees.above(root) {
                Some(call) => self.scope(call),
                None => None,
            };
            self.trees.push(TreeScopes::One(scope))?;
            if scope.is_some() {
                self.add_inner(alloc, table, trees, root.tree, &inner)?;
            }
        }
        Ok(())
    }

    /// Adds the scopes of the blocks and modules that stand in an expansion.
    fn add_inner(
        &mut self,
        alloc: Global,
        table: &Table,
        trees: &Trees,
        tree: u32,
        inner: &[Inner],
    ) -> Result<(), AllocError> {
        let first = inner.partition_point(|row| row.tree < tree);
        let past = inner.partition_point(|row| row.tree <= tree);
        for row in between(inner, first, past) {
            let number = row.module.0 as usize;
            if let Some(module) = table.modules.get(number) {
                self.add_module(alloc, trees, module, number)?;
            }
        }
        Ok(())
    }

    /// The scope that a node stands in.
    pub(crate) fn scope(&self, node: NodeId) -> Option<ScopeId>
        ensures { result ≡ scope_in self.now.trees.items node }
    {
        match self.trees.get(node.tree as usize) {
            Some(scopes) => scopes.of(node.node.0),
            None => None,
        }
    }
}
