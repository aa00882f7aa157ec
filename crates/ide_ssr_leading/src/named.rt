//! That a program can name each node of a workspace: numbers of trees and of nodes fit 32 bits.
ghost use Rattle.ssr_base_trees.specs.Workspace.{trees};
ghost use Rattle.ssr_base_trees.specs.Built.{IsBuilt};
ghost use Rattle.ide_ssr_leading.specs.Found.{AreNamed};

use ssr_base_trees::Trees;

/// Asks each tree for the number of its nodes, which has 32 bits. What the counts are doesn't matter: that they are there says
/// that each node has a number.
pub(crate) fn are_named(workspace: &Trees)
    ensures named { AreNamed (trees workspace.now) }
    ensures built { IsBuilt workspace.now }
{
    for number in 0..workspace.file_count() + workspace.expansion_count() {
        let Some(tree) = workspace.tree(number) else {
            continue;
        };
        tree.node_count();
    }
}
