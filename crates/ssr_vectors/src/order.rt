//! The order of the nodes of a workspace with an expansion.

use crate::workspaces::node;
use ide_ssr_nesting::{is_above, precedes};
use ssr_base::{NodeId, Workspace};
use ssr_facts::read;
use ssr_syntax_tree::Element;
use std::test::Fail;

/// Whether the first node comes before the second, and whether it stands above it, where there are both.
fn compared(workspace: &Workspace, a: NodeId, b: NodeId) -> Option<(bool, bool)> {
    let one = workspace.tree(a.tree)?;
    let other = workspace.tree(b.tree)?;
    if !one.has(Element::Node(a.node)) || !other.has(Element::Node(b.node)) {
        return None;
    }
    let trees = workspace.trees();
    Some((precedes(trees, a, b), is_above(trees, a, b)))
}

#[test]
fn an_expansion_comes_behind_its_call_and_before_its_arguments(
    rt: HostRuntime,
) -> Result<(), Fail> {
    let facts = read(
        rt.alloc(),
        r#"{"files":[{"name":"a.rs","text":"fn f() { m!(1) }"},{"name":"b.rs","text":"struct S;"}],
"expansions":[{"call":[0,9,14],"kind":"expr","tokens":[["1",false,12,13]]}]}"#
            .as_bytes(),
    )?;
    let workspace = &facts.workspace;
    // SOURCE_FILE, FN, NAME, PARAM_LIST, BLOCK_EXPR, STMT_LIST, MACRO_EXPR, MACRO_CALL, and below that PATH and TOKEN_TREE.
    let call = node(0, 7);
    let arguments = node(0, 8);
    let root = node(2, 0);
    for (a, b, wanted) in [
        (call, root, Some((true, true))),
        (root, arguments, Some((true, false))),
        (arguments, root, Some((false, false))),
        (node(0, 0), root, Some((true, true))),
        (root, node(1, 0), Some((true, false))),
        (node(1, 0), root, Some((false, false))),
        (root, root, Some((false, false))),
        (node(3, 0), root, None),
    ] {
        assert_eq!(rt; compared(workspace, a, b), wanted, "of {a:?} and {b:?}");
    }
    Ok(())
}
