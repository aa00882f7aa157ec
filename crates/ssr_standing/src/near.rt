//! Whether a change stands by the nearest block around it.
ghost use Rattle.std.specs.Prelude.{◌≡◌, if◌then◌else◌, IfOk, IfSome, IsTrue, Some};
ghost use Rattle.std.specs.Option.{option_map};
ghost use Rattle.ssr_syntax_tree.specs.Syntax.{source_of};
ghost use Rattle.ssr_syntax_tree.specs.Places.{HasNode, node_of};
ghost use Rattle.ssr_base_trees.specs.Changes.{FitsText};
ghost use Rattle.ssr_base_trees.specs.Origins.{span_of};
ghost use Rattle.ssr_standing.specs.Fitted.{change_with};
ghost use Rattle.ssr_standing.specs.Near.{is_around, nearest_block, stands_in_block, stands_near, text_stands_near};

use crate::expansions::SearchedFile;
use crate::fitted::single;
use crate::parts::{Part, between, expression_behind};
use crate::passing::{has, is_inside};
use crate::standing::stands_of;
use ssr_syntax_kinds::{SyntaxKind, TextRange};
use ssr_syntax_tree::{NodeNo, Tree};
use std::alloc::{AllocError, Global};

/// Whether a node is a block that has the bytes of a range, and more.
fn is_around(tree: &Tree, node: NodeNo, range: TextRange) -> bool
    requires { HasNode tree.now node.0 }
    ensures { result ≡ is_around tree.now (span_of range) (node_of tree.now node.0) }
{
    tree.kind(node).is(SyntaxKind::BLOCK_EXPR) && is_inside(tree.range(node), range)
}

/// A node, if it is such a block; else what was found.
fn nearer(tree: &Tree, node: NodeNo, range: TextRange, found: Option<NodeNo>) -> Option<NodeNo>
    requires { HasNode tree.now node.0 }
    ensures { result ≡ (if is_around tree.now (span_of range) (node_of tree.now node.0) then Some node else found) }
{
    if is_around(tree, node, range) {
        Some(node)
    } else {
        found
    }
}

/// The nearest block around a range.
fn nearest_block(tree: &Tree, range: TextRange) -> Option<NodeNo>
    ensures block { option_map (λ node. node_of tree.now node.0) result ≡ nearest_block tree.now (span_of range) }
    ensures has { IfSome result (λ node. HasNode tree.now node.0) }
    ensures around { IfSome result (λ node. IsTrue (is_around tree.now (span_of range) (node_of tree.now node.0))) }
{
    let mut found = None;
    let mut next = 0;
    while next < tree.node_count() {
        let node = NodeNo(next);
        found = nearer(tree, node, range, found);
        if has(tree.range(node), range) {
            next += 1;
        } else {
            // What doesn't have the range has no node below it that does.
            next = tree.nodes_below(node).end;
        }
    }
    found
}

impl<'a> SearchedFile<'a> {
    /// Whether the text of a block around a change groups as before with the change made.
    fn stands_in_block(
        &self,
        alloc: Global,
        block: NodeNo,
        range: TextRange,
        text: &str,
    ) -> Result<bool, AllocError>
        requires has { HasNode self.now.tree.now block.0 }
        requires around { IsTrue (is_around self.now.tree.now (span_of range) (node_of self.now.tree.now block.0)) }
        requires fits { FitsText (source_of self.now.tree.now) (change_with range text.now) }
        ensures { IfOk result (λ answer. answer ≡ stands_in_block self.now.trees.now.reach self.now.tree.now (change_with range text.now) (node_of self.now.tree.now block.0)) }
    {
        let reach = self.trees.reach();
        let source = self.tree.source();
        let own = self.tree.range(block);
        let read = expression_behind(alloc, reach, "", between(source, own.start, own.end))?;
        let Some(tree) = read else {
            return Ok(false);
        };
        let part = Part {
            reach,
            front: "",
            text: source,
            range: own,
            tree,
        };
        part.stands_with(alloc, range, text)
    }

    /// Whether the text of the nearest block around a change groups as before with the change made; that of the file, where no block
    /// is around it.
    fn text_stands_near(
        &self,
        alloc: Global,
        range: TextRange,
        text: &str,
    ) -> Result<bool, AllocError>
        requires { FitsText (source_of self.now.tree.now) (change_with range text.now) }
        ensures { IfOk result (λ answer. answer ≡ text_stands_near self.now.trees.now.reach self.now.tree.now (change_with range text.now)) }
    {
        match nearest_block(self.tree, range) {
            Some(block) => self.stands_in_block(alloc, block, range, text),
            None => {
                let edit = single(alloc, range, text)?;
                stands_of(alloc, self.trees.reach(), self.tree, &edit)
            }
        }
    }

    /// Whether a change stands near: the nearest block around it groups as before with the change made, and so does what each call of
    /// a macro in the file stands for. A block is read in place of the file.
    pub(crate) fn stands_near(
        &self,
        alloc: Global,
        range: TextRange,
        text: &str,
    ) -> Result<bool, AllocError>
        requires { FitsText (source_of self.now.tree.now) (change_with range text.now) }
        ensures { IfOk result (λ answer. answer ≡ stands_near self.now.trees.now self.now.number (change_with range text.now)) }
    {
        let text_stands = self.text_stands_near(alloc, range, text)?;
        if !text_stands {
            return Ok(false);
        }
        self.calls_stand(alloc, &single(alloc, range, text)?)
    }
}
