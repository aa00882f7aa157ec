//! A rule and the code that it is matched with.

ghost use Rattle.std.specs.Prelude.{◌≡◌, IfOk};
ghost use Rattle.ssr_base_trees.specs.Workspace.{node_id};
ghost use Rattle.ide_ssr_matching.specs.Bindings.{stands_for, stands_if};

use ide_ssr_resolved_rule::ResolvedRule;
use ssr_base_trees::{NodeId, Res, Semantics};
use ssr_syntax_tree::{NodeNo, Tree};
use std::alloc::{AllocError, Global};

/// A rule, a tree of the code whose nodes it is matched with, and what is asked of them.
#[derive(Clone, Copy)]
pub(crate) struct Matcher<'a, S: Semantics> {
    pub(crate) alloc: Global,
    pub(crate) semantics: &'a S,
    pub(crate) rule: &'a ResolvedRule,
    /// The number of the tree.
    pub(crate) number: u32,
    pub(crate) code: &'a Tree,
    /// Whether used paths have to stand for the same thing: in the first phase all do.
    pub(crate) names: bool,
}

impl<'a, S: Semantics> Matcher<'a, S> {
    /// A node of the code among those of the workspace.
    pub(crate) fn place(&self, node: NodeNo) -> NodeId
        ensures { result ≡ node_id self.now.number node.0 }
    {
        NodeId {
            tree: self.number,
            node,
        }
    }

    /// Whether the node `c` of the code stands for what a used path does.
    fn stands_for(&self, res: Res, c: NodeNo) -> Result<bool, AllocError>
        ensures { IfOk result (λ answer. answer ≡ stands_for res ((S.meanings self.now.semantics.now).path (node_id self.now.number c.0))) }
    {
        match self.semantics.resolve_path(self.alloc, self.place(c))? {
            Some(told) => Ok(res == told),
            None => Ok(false),
        }
    }

    /// Whether it does, where names are asked.
    pub(crate) fn stands_if(&self, res: Res, c: NodeNo) -> Result<bool, AllocError>
        ensures { IfOk result (λ answer. answer ≡ stands_if self.now.names res ((S.meanings self.now.semantics.now).path (node_id self.now.number c.0))) }
    {
        if !self.names {
            return Ok(true);
        }
        self.stands_for(res, c)
    }
}
