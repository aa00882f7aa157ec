//! What holds of workspaces, whatever the code: each function here does nothing, and what it ensures is a law.
ghost use Rattle.std.specs.Prelude.{◌≡◌, ℕ, Some, IsSome};
ghost use Rattle.ssr_base_trees.specs.declared.ids.FileRange.{FileRange};
ghost use Rattle.ssr_base_trees.specs.declared.ids.NodeId.{NodeId};
ghost use Rattle.ssr_base_trees.specs.declared.ids.TokenRun.{TokenRun};
ghost use Rattle.ssr_base_trees.specs.Workspace.{Workspace as WorkspaceValue, FileSpan, trees, above, expansion_of, text_of, original_range, run_range, file_span_of};
ghost use Rattle.ssr_base_trees.specs.Built.{IsNodeOf, IsBuilt};
ghost use Rattle.ssr_base_trees.specs.Laws.{IsEarlier, ReachesItsFile, RangesNest, RunsNest, LiesInFile};

/// An original range lies in one of the files, between characters, so it has a text. In one tree, that of a node below another
/// one lies in that one's.
pub fn original_ranges()
    ensures in_file { (w : WorkspaceValue) (x : NodeId) (range : FileSpan) → IsBuilt w → original_range (trees w) x ≡ Some range → LiesInFile w range }
    ensures text { (w : WorkspaceValue) (x : NodeId) (range : FileRange) → IsBuilt w → original_range (trees w) x ≡ Some (file_span_of range) → IsSome (text_of w range) }
    ensures nested { (w : WorkspaceValue) → IsBuilt w → RangesNest (trees w) }
{}

/// Where tokens that follow each other come from lies in one of the files, between characters, so it has a text. Where those of
/// a node come from lies where the node does.
pub fn original_ranges_of_tokens()
    ensures in_file { (w : WorkspaceValue) (tree : ℕ) (run : TokenRun) (range : FileSpan) → IsBuilt w → run_range (trees w) tree run ≡ Some range → LiesInFile w range }
    ensures text { (w : WorkspaceValue) (tree : ℕ) (run : TokenRun) (range : FileRange) → IsBuilt w → run_range (trees w) tree run ≡ Some (file_span_of range) → IsSome (text_of w range) }
    ensures nested { (w : WorkspaceValue) → RunsNest (trees w) }
{}

/// What stands above a node is an earlier node, so the way up ends: at the root of the file at the top. A call stands directly
/// above the root of what it stands for, and that root is found by the call.
pub fn climbing()
    ensures node { (w : WorkspaceValue) (x up : NodeId) → IsBuilt w → above (trees w) x ≡ Some up → IsNodeOf (trees w) up }
    ensures earlier { (w : WorkspaceValue) (x up : NodeId) → IsBuilt w → above (trees w) x ≡ Some up → IsEarlier up x }
    ensures ends { (w : WorkspaceValue) (x : NodeId) → IsBuilt w → IsNodeOf (trees w) x → ReachesItsFile w x }
    ensures call { (w : WorkspaceValue) (call root : NodeId) → expansion_of w call ≡ Some root → above (trees w) root ≡ Some call }
    ensures root { (w : WorkspaceValue) (call root : NodeId) → IsBuilt w → root.node.0 ≡ 0 → above (trees w) root ≡ Some call → expansion_of w call ≡ Some root }
{}
