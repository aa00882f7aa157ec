//! What a facts file is read to.

use crate::workspaces::{node, range};
use ssr_base::{DefId, FileId, FilePosition, NodeId, Res, ScopeId, Semantics, Workspace};
use ssr_facts::{FactsError, read};
use ssr_syntax_kinds::SyntaxKind;
use ssr_syntax_tree::Element;
use std::test::Fail;

const EXAMPLE: &str =
    r#"{"files":[{"name":"a.rs","text":"fn foo() {} fn bar() {} fn main() { foo(1+2); }"}],
"defs":[{"kind":"function"},{"kind":"function"}],"scopes":[[0,0,47]],
"names":[[0,["foo"],["def",0]],[0,["bar"],["def",1]]],
"paths":[[0,36,39,["def",0]]],"printed":[[0,1,"bar"]]}"#;

/// The kind of a node, if there is such a node.
fn kind(workspace: &Workspace, node: NodeId) -> Option<SyntaxKind> {
    let tree = workspace.tree(node.tree)?;
    if tree.has(Element::Node(node.node)) {
        Some(tree.kind(node.node))
    } else {
        None
    }
}

#[test]
fn the_example_is_read(rt: HostRuntime) -> Result<(), Fail> {
    let alloc = rt.alloc();
    let facts = read(alloc, EXAMPLE.as_bytes())?;
    // Two functions with five nodes each stand in front, then FN, NAME, PARAM_LIST, BLOCK_EXPR, STMT_LIST, EXPR_STMT, CALL_EXPR,
    // PATH_EXPR and PATH.
    let path = node(0, 19);
    assert_eq!(rt; kind(&facts.workspace, path), Some(SyntaxKind::PATH));
    assert_eq!(rt; facts.workspace.original_range(path), Some(range(0, 36, 3)));
    let usages = facts.semantics.usages(alloc, Res::Def(DefId(0)))?;
    assert_eq!(rt; usages, vec![in alloc; path]?);
    let printed = facts.semantics.path_from(alloc, ScopeId(0), DefId(1))?;
    assert_eq!(rt; printed, Some(String::from_str(alloc, "bar")?));
    assert_eq!(rt; facts.names.len(), 1);
    let start = FilePosition {
        file_id: FileId(0),
        offset: 0,
    };
    assert_eq!(rt; facts.position, start);
    Ok(())
}

#[test]
fn each_front_is_no_json(rt: HostRuntime) -> Result<(), Fail> {
    let alloc = rt.alloc();
    let bytes = r#"{"files":[{"name":"é.rs","text":"fn é() {}"}],"scopes":[[0,0,10]]}"#.as_bytes();
    for end in 0..bytes.len() {
        let told = read(alloc, &bytes[..end]).err();
        assert_eq!(rt; told, Some(FactsError::NotJson), "of {end} bytes");
    }
    let whole = read(alloc, bytes)?;
    assert_eq!(rt; whole.workspace.text(range(0, 3, 2)), Some("é"));
    Ok(())
}
