//! The used paths of a tree, and what its nodes stand for by them.
ghost use Rattle.std.specs.Prelude.{IfOk};
ghost use Rattle.ide_ssr_resolved_rule.specs.UsedPaths.{HasPaths};
ghost use Rattle.ide_ssr_resolved_rule.specs.Private.Marks.{TellsRes};

use ssr_base_trees::Res;
use ssr_syntax_tree::{NodeNo, Tree};
use std::alloc::{AllocError, Global};

/// A path that is used, and what it resolves to.
#[derive(Clone, Copy, Debug, PartialEq, Eq)]
pub struct UsedPath {
    pub node: NodeNo,
    pub res: Res,
}

/// For each node of a tree what it stands for, if it is one of the used paths.
pub(crate) fn res_by_node(
    alloc: Global,
    tree: &Tree,
    paths: &[UsedPath],
) -> Result<Vec<Option<Res>>, AllocError>
    requires { HasPaths tree.now paths.now }
    ensures { IfOk result (λ table. TellsRes paths.now table.items) }
{
    let mut table = vec![in alloc; None; tree.node_count() as usize]?;
    for path in paths {
        let place = path.node.0 as usize;
        if table[place].is_none() {
            table[place] = Some(path.res);
        }
    }
    Ok(table)
}
