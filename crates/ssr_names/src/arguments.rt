//! Names of arguments where no code has them: those of functions without a body.
ghost use Rattle.std.specs.Prelude.{◌≡◌, is_some};
ghost use Rattle.ssr_syntax_tree.specs.Places.{HasNode};
ghost use Rattle.ssr_names.specs.Locals.{is_argument, is_bodiless, lacks_body, lists_arguments, names_argument};

use ide_ssr_resolved_rule::first_child;
use ssr_syntax_kinds::SyntaxKind;
use ssr_syntax_tree::{NodeNo, Tree};

/// Whether a node of a kind, that has a block or none, is a function without a body: the type of a pointer, one that a trait requires,
/// or a foreign one.
fn is_bodiless(kind: SyntaxKind, has_block: bool) -> bool
    ensures { result ≡ is_bodiless kind has_block }
{
    match kind {
        SyntaxKind::FN_PTR_TYPE => true,
        SyntaxKind::FN => !has_block,
        _ => false,
    }
}

/// Whether a node is a function without a body.
fn lacks_body(tree: &Tree, node: NodeNo) -> bool
    requires { HasNode tree.now node.0 }
    ensures { result ≡ lacks_body tree.now node.0 }
{
    let block = first_child(tree, node, SyntaxKind::BLOCK_EXPR);
    is_bodiless(tree.kind(node), block.is_some())
}

/// Whether a node is the list of such a function's parameters.
fn lists_arguments(tree: &Tree, list: NodeNo) -> bool
    requires { HasNode tree.now list.0 }
    ensures { result ≡ lists_arguments tree.now list.0 }
{
    match tree.parent(list) {
        Some(parent) => lacks_body(tree, parent),
        None => false,
    }
}

/// Whether a node is one of these parameters.
fn is_argument(tree: &Tree, parameter: NodeNo) -> bool
    requires { HasNode tree.now parameter.0 }
    ensures { result ≡ is_argument tree.now parameter.0 }
{
    match tree.parent(parameter) {
        Some(parent) => lists_arguments(tree, parent),
        None => false,
    }
}

/// Whether a pattern is that of such a parameter: it tells what the argument is, and no code has the name.
pub(crate) fn names_argument(tree: &Tree, pattern: NodeNo) -> bool
    requires { HasNode tree.now pattern.0 }
    ensures { result ≡ names_argument tree.now pattern.0 }
{
    match tree.parent(pattern) {
        Some(parent) => is_argument(tree, parent),
        None => false,
    }
}
