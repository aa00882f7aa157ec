//! Whether a tree is another one with trees in the places of its nodes.
ghost use Rattle.std.specs.Prelude.{◌≡◌, ◌↔◌, ◌++◌, ◌+◌, IfOk, IsTrue, OnOk, map};
ghost use Rattle.std.specs.Option.{option_copied, option_map};
ghost use Rattle.ssr_syntax_tree.specs.Places.{HasNode, nodes_of};
ghost use Rattle.ssr_syntax_tree.specs.Syntax.{node_count};
ghost use Rattle.ssr_swaps.specs.Swapped.{AreAlike, swap_at, with_swaps};
ghost use Rattle.ssr_swaps.specs.Private.Marks.{marks_of, shown};
ghost use Rattle.ssr_swaps.specs.Private.Swapping.{Goes, Tells};

use crate::marks::{Mark, are_same, push_node, push_tree};
use crate::swap::Swap;
use ssr_syntax_tree::{NodeNo, Tree};
use std::alloc::{AllocError, Global};

/// A tree, what stands in the places of its nodes, and for each number of a node the place in that list of what stands there.
#[derive(Drop)]
struct Swapping<'a> {
    tree: &'a Tree,
    swaps: &'a [Swap],
    table: Vec<Option<usize>>,
    ghost tells: { Tells table.items swaps.now swaps.now (1 + node_count tree.now.children) },
}

/// For each node of a tree the place of what stands in its place.
fn places(alloc: Global, tree: &Tree, swaps: &[Swap]) -> Result<Vec<Option<usize>>, AllocError>
    ensures { IfOk result (λ table. Tells table.items swaps.now swaps.now (1 + node_count tree.now.children)) }
{
    let mut table = vec![in alloc; None; tree.node_count() as usize]?;
    for place in (0..swaps.len()).rev() {
        let node = swaps[place].node.0 as usize;
        if node < table.len() {
            table[node] = Some(place);
        }
    }
    Ok(table)
}

impl<'a> Swapping<'a> {
    /// What stands in the place of a node, if something does.
    fn swap_at(&self, number: u32) -> Option<&'a Swap>
        requires { HasNode self.now.tree.now number }
        ensures { option_map (λ swap. swap.tree) (option_copied result) ≡ swap_at self.now.swaps.now number }
    {
        let place = self.table[number as usize]?;
        self.swaps.get(place)
    }

    /// Adds the marks of what stands in the place of a node, or of the node and its children. The number of the last node that these
    /// are for.
    fn push_at(&self, number: u32, marks: &mut Vec<Mark<'a>>) -> Result<u32, AllocError>
        requires { HasNode self.now.tree.now number }
        ensures { IfOk result (λ last. Goes (swap_at self.now.swaps.now) (nodes_of self.now.tree.now) number last (map shown marks.old.items) (map shown marks.new.items)) }
    {
        match self.swap_at(number) {
            Some(swap) => {
                push_tree(&swap.tree, marks)?;
                Ok(self.tree.nodes_below(NodeNo(number)).end - 1)
            }
            None => {
                push_node(self.tree, NodeNo(number), marks)?;
                Ok(number)
            }
        }
    }

    /// Adds the marks of the tree with what stands in the places of its nodes.
    fn push_all(&self, marks: &mut Vec<Mark<'a>>) -> Result<(), AllocError>
        ensures { OnOk result (map shown marks.new.items ≡ map shown marks.old.items ++ marks_of (with_swaps self.now.swaps.now self.now.tree.now)) }
    {
        push_node(self.tree, NodeNo(0), marks)?;
        let mut done = 0;
        for number in 1..self.tree.node_count() {
            if number <= done {
                continue;
            }
            done = self.push_at(number, marks)?;
        }
        Ok(())
    }
}

/// Whether a tree is another one with these trees in the places of its nodes, white space and comments aside. What lies below such a
/// node is gone, and of several for one node the first counts. The root stays.
pub fn is_swapped(
    alloc: Global,
    tree: &Tree,
    swaps: &[Swap],
    new: &Tree,
) -> Result<bool, AllocError>
    ensures { IfOk result (λ answer. IsTrue answer ↔ AreAlike (with_swaps swaps.now tree.now) new.now) }
{
    let table = places(alloc, tree, swaps)?;
    let swapping = Swapping { tree, swaps, table };
    let mut expected = Vec::new(alloc);
    swapping.push_all(&mut expected)?;
    let mut marks = Vec::new(alloc);
    push_tree(new, &mut marks)?;
    Ok(are_same(&expected, &marks))
}
