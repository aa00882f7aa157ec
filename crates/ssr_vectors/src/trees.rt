//! What a tree tells of ranges.

use ssr_syntax::parse_file;
use ssr_syntax_kinds::SyntaxKind::*;
use ssr_syntax_kinds::{SyntaxKind, TextRange};
use ssr_syntax_tree::Tree;
use std::test::Fail;

/// The kind of the deepest node around a range.
fn kind_around(tree: &Tree, range: TextRange) -> Option<SyntaxKind> {
    let node = tree.covering(range)?;
    Some(tree.kind(node))
}

#[test]
fn the_deepest_node_around_a_range_is_told(rt: HostRuntime) -> Result<(), Fail> {
    let tree = parse_file(rt.alloc(), "fn f() {g(1)}")?;
    for (start, end, kind) in [
        (10, 11, Some(LITERAL)),
        (9, 12, Some(ARG_LIST)),
        (8, 10, Some(CALL_EXPR)),
        // of a list of statements and the block around it
        (7, 13, Some(STMT_LIST)),
        (5, 8, Some(FN)),
        (12, 14, None),
    ] {
        assert_eq!(rt;
            kind_around(&tree, TextRange::new(start, end)),
            kind,
            "{start}..{end}"
        );
    }
    Ok(())
}
