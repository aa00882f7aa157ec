//! Crates without the standard library: its prelude has no names there that allocate.

use ssr_base_trees::Trees;
use ssr_names_items::{ModuleNo, Table};
use ssr_syntax_kinds::SyntaxKind;
use ssr_syntax_tree::{Element, TokenNo, Tree};
use std::alloc::{AllocError, Global};

/// Whether a tree has the attribute `no_std`, perhaps under a condition, at its beginning.
fn is_without_std(tree: &Tree) -> bool {
    for number in 0..tree.token_count() {
        let token = TokenNo(number);
        if tree.token_kind(token).is(SyntaxKind::IDENT) && tree.token_text(token) == "no_std" {
            return true;
        }
    }
    false
}

/// The roots of crates that have the attribute `no_std`, perhaps under a condition, sorted.
pub(crate) fn roots_without_std(
    alloc: Global,
    table: &Table,
    trees: &Trees,
) -> Result<Vec<ModuleNo>, AllocError> {
    let mut roots = Vec::new(alloc);
    for own in &table.crates {
        if let Some(module) = table.modules.get(own.root.0 as usize)
            && let Some(tree) = trees.tree(module.node.tree)
            && is_without_std(tree)
        {
            roots.push(own.root)?;
        }
    }
    roots.sort()?;
    Ok(roots)
}
