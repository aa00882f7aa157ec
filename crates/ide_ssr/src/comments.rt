//! Where the comments stand that a match keeps.

ghost use Rattle.std.specs.Prelude.{◌≡◌, All, IfOk, map};
ghost use Rattle.ssr_base_trees.specs.Laws.{LiesInFile};
ghost use Rattle.ssr_base_trees.specs.Workspace.{file_span_of, trees};
ghost use Rattle.ide_ssr_bindings.specs.Found.{IsMatch};
ghost use Rattle.ide_ssr.specs.Comments.{comment_spans};

use ide_ssr_bindings::FoundMatch;
use ide_ssr_rewriting::kept_comments;
use ssr_base_trees::{FileId, FileRange, NodeId, Trees};
use std::alloc::{AllocError, Global};

/// Where the comments stand that a match keeps: in its file, if it is none in what a macro call stands for.
pub(crate) fn comment_ranges(
    alloc: Global,
    workspace: &Trees,
    m: &FoundMatch,
) -> Result<Vec<FileRange>, AllocError>
    requires { IsMatch (trees workspace.now) m.now }
    ensures ranges { IfOk result (λ ranges. map file_span_of ranges.items ≡ comment_spans workspace.now m.now) }
    ensures in_file { IfOk result (λ ranges. All (λ range. LiesInFile workspace.now (file_span_of range)) ranges.items) }
{
    let mut ranges = Vec::new(alloc);
    let NodeId { tree: file, node } = m.node();
    if file >= workspace.file_count() {
        return Ok(ranges);
    }
    let Some(tree) = workspace.tree(file) else {
        return Ok(ranges);
    };
    for comment in &kept_comments(alloc, tree, node, m.bindings())? {
        ranges.push(FileRange {
            file_id: FileId(file),
            range: tree.token_range(*comment),
        })?;
    }
    Ok(ranges)
}
