//! What workspaces tell of nodes and ranges that there aren't.

use ssr_base::{FileId, FileRange, NodeId, Workspace};
use ssr_syntax_kinds::TextRange;
use ssr_syntax_tree::NodeNo;
use std::test::Fail;

pub(crate) fn node(tree: u32, node: u32) -> NodeId {
    NodeId {
        tree,
        node: NodeNo(node),
    }
}

pub(crate) fn range(file: u32, start: u32, len: u32) -> FileRange {
    FileRange {
        file_id: FileId(file),
        range: TextRange::new(start, start.saturating_add(len)),
    }
}

#[test]
fn what_is_not_there_is_told(rt: HostRuntime) -> Result<(), Fail> {
    let alloc = rt.alloc();
    let files = vec![in alloc; String::from_str(alloc, "fn f() {\"é\" + x}")?]?;
    let workspace = Workspace::build(alloc, files, Vec::new(alloc))?;
    assert!(rt; workspace.tree(1).is_none());
    for none in [node(0, 12), node(1, 0)] {
        assert_eq!(rt; workspace.original_range(none), None);
        assert_eq!(rt; workspace.above(none), None);
        assert_eq!(rt; workspace.expansion_of(none), None);
    }
    assert_eq!(rt; workspace.text(range(0, 9, 2)), Some("é"));
    assert_eq!(rt; workspace.text(range(0, 10, 2)), None);
    assert_eq!(rt; workspace.text(range(1, 9, 2)), None);
    Ok(())
}
