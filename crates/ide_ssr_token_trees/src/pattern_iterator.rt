//! A node's children without white space and comments.

ghost use Rattle.std.specs.Prelude.{◌≡◌, All};
ghost use Rattle.std.specs.Iterator.{YieldsFirst};
ghost use Rattle.ssr_syntax_tree.specs.Places.{HasNode, HasElement, node_of, elements_of};
ghost use Rattle.ide_ssr_token_trees.specs.PatternIterator.{without_trivia};

use crate::elements::is_trivia;
use ssr_syntax_tree::{Children, Element, NodeNo, Tree};
use std::fmt;
use std::marker::Model;

/// The children of a node that are neither white space nor comments, from the left.
#[derive(Drop)]
pub struct PatternIterator<'a> {
    tree: &'a Tree,
    left: Children<'a>,
}

impl<'a> Model for PatternIterator<'a> {
    ghost use Rattle.std.specs.Prelude.{List, All};
    ghost use Rattle.ssr_syntax_tree.specs.declared.number.Element.{Element};
    ghost use Rattle.ssr_syntax_tree.specs.Places.{HasElement};
    ghost use Rattle.ide_ssr_token_trees.specs.PatternIterator.{without_trivia};

    ghost Value = { List Element };

    ghost view = { λ iterator. without_trivia iterator.tree.now iterator.left };

    ghost invariant = { λ iterator. All (HasElement iterator.tree.now) iterator.left };
}

/// Tells its name alone, a text without a promise.
impl fmt::Debug for PatternIterator<'_> {
    fn fmt<W: fmt::Write>(&self, f: &mut fmt::Formatter<W>) -> fmt::Result {
        f.debug_struct("PatternIterator").finish_non_exhaustive()
    }
}

impl<'a> PatternIterator<'a> {
    /// The children of a node that are neither white space nor comments.
    pub fn new(tree: &'a Tree, node: NodeNo) -> PatternIterator<'a>
        requires { HasNode tree.now node.0 }
        ensures { result ≡ without_trivia tree.now (elements_of (node_of tree.now node.0)) }
    {
        PatternIterator {
            tree,
            left: tree.children(node),
        }
    }
}

/// The next of the children that are left that is no trivia.
fn next_solid(tree: &Tree, left: &mut Children<'_>) -> Option<Element>
    requires { All (HasElement tree.now) left.old }
    ensures gives { YieldsFirst (without_trivia tree.now) left.old result left.new }
    ensures has { All (HasElement tree.now) left.new }
{
    while let Some(child) = left.next() {
        if !is_trivia(tree, child) {
            return Some(child);
        }
    }
    None
}

impl<'a> Iterator for PatternIterator<'a> {
    type Item = Element;

    ghost use Rattle.std.specs.Iterator.{YieldsFirst, item_count};

    ghost next_gives = { YieldsFirst (λ left. left) };

    ghost remaining = { item_count (λ left. left) };

    fn next(&mut self) -> Option<Element> {
        next_solid(self.tree, &mut self.left)
    }
}
