//! Which nodes of a file a provider is asked about.

ghost use Rattle.ssr_syntax_tree.specs.Places.{HasNode};

use ide_ssr_resolved_rule::first_child;
use ssr_syntax_kinds::SyntaxKind;
use ssr_syntax_tree::{NodeNo, Tree};
use std::alloc::AllocError;
use std::fmt::Write;

/// The name of the method that a method call calls.
fn method(tree: &Tree, call: NodeNo) -> &str
    requires { HasNode tree.now call.0 }
{
    match first_child(tree, call, SyntaxKind::NAME_REF) {
        Some(name) => tree.text(name),
        None => "",
    }
}

/// A line for each path, each expression that is one and each method call: the name of its kind, the number of the file, its
/// range, and what the method is called.
pub(crate) fn write_asked(out: &mut String, tree: &Tree, file: u32) -> Result<(), AllocError> {
    for number in 0..tree.node_count() {
        let node = NodeNo(number);
        let (kind, range) = (tree.kind(node), tree.range(node));
        let (name, start, end) = (kind.name(), range.start(), range.end());
        match kind {
            SyntaxKind::PATH | SyntaxKind::PATH_EXPR => {
                writeln!(out, "{name} {file} {start} {end}")?;
            }
            SyntaxKind::METHOD_CALL_EXPR => {
                let method = method(tree, node);
                writeln!(out, "{name} {file} {start} {end} {method}")?;
            }
            _ => {}
        }
    }
    Ok(())
}
