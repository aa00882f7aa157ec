//! In which reach a file is read.

use ssr_syntax::{Reach, parse_file_of};
use ssr_syntax_tree::{NodeNo, Tree};
use std::alloc::Global;

/// Whether two trees have the same nodes at the same places.
fn are_same(one: &Tree, other: &Tree) -> bool {
    let count = one.node_count();
    if other.node_count() != count {
        return false;
    }
    for number in 0..count {
        let node = NodeNo(number);
        if one.kind(node) != other.kind(node)
            || one.range(node) != other.range(node)
            || one.parent(node) != other.parent(node)
        {
            return false;
        }
    }
    true
}

/// The tree of a text that is read as a file in a reach.
fn tree_in(alloc: Global, reach: Reach, text: &str) -> Option<Tree> {
    match parse_file_of(alloc, reach, text) {
        Ok(tree) => Some(tree),
        Err(_) => None,
    }
}

/// What is told of a text with these trees.
fn told(stated: Option<&Tree>, whole: Option<&Tree>) -> &'static str {
    match (stated, whole) {
        (Some(stated), Some(whole)) => {
            if are_same(stated, whole) {
                "stated"
            } else {
                "another"
            }
        }
        (Some(_), None) => "another",
        (None, Some(_)) => "whole",
        (None, None) => "none",
    }
}

/// In which reach a text is read as a file: `stated` where the stated language reads it, and the whole reach to the same tree.
pub(crate) fn reading(alloc: Global, text: &str) -> &'static str {
    let stated = tree_in(alloc, Reach::Stated, text);
    let whole = tree_in(alloc, Reach::Whole, text);
    told(stated.as_ref(), whole.as_ref())
}
