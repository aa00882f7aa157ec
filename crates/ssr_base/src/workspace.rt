//! The workspace of a search.
ghost use Rattle.std.specs.Prelude.{◌≡◌, length};
ghost use Rattle.std.specs.Option.{option_copied, option_map};
ghost use Rattle.ssr_base_trees.specs.Workspace.{trees, tree_of, text_of, above, expansion_of, original_range, run_range, file_span_of};
ghost use Rattle.ssr_base_trees.specs.Built.{IsBuilt};
ghost use Rattle.ssr_base.specs.Building.{AreRead};

use ssr_base_trees::{FileRange, NodeId, TokenRun, Trees};
use ssr_syntax_tree::Tree;
use std::marker::Model;

/// The trees of files, and of what macro calls in them stand for. File number i has tree i, expansion number j the tree
/// behind those of all files and of j expansions.
#[derive(Drop)]
pub struct Workspace {
    pub(crate) trees: Trees,
}

impl Model for Workspace {
    ghost use Rattle.ssr_base_trees.specs.Workspace.{Workspace as WorkspaceValue};
    ghost use Rattle.ssr_base_trees.specs.WorkspaceCode.{workspace_code};

    ghost Value = { WorkspaceValue };

    ghost coded = { workspace_code };

    ghost view = { λ w. w.trees };

    ghost use Rattle.ssr_base.specs.Building.{AreRead};

    ghost invariant = { λ w. AreRead w.trees };
}

impl Workspace {
    /// The same, as the crates of the search take it. The tree of each file is the reading of the file's text.
    pub fn trees(&self) -> &Trees
        ensures same { result.now ≡ self.now }
        ensures read { AreRead self.now }
    {
        &self.trees
    }

    /// How many files there are.
    pub fn file_count(&self) -> u32
        ensures count { result ≡ length self.now.files }
        ensures built { IsBuilt self.now }
    {
        self.trees.file_count()
    }

    /// The tree of a number.
    pub fn tree(&self, tree: u32) -> Option<&Tree>
        ensures { option_copied result ≡ tree_of self.now tree }
    {
        self.trees.tree(tree)
    }

    /// Where a node comes from: of a node of a file its own range; of one of an expansion the least range that covers the
    /// origins of its tokens, if there is a token and all have one. It lies in the file at the top, between characters.
    pub fn original_range(&self, node: NodeId) -> Option<FileRange>
        ensures { option_map file_span_of result ≡ original_range (trees self.now) node }
    {
        self.trees.original_range(node)
    }

    /// Where tokens of a tree come from that follow each other: those of a file have their own range, of others it is the
    /// least one that covers their origins, if all have one. There has to be a token, and the tree has to have them all.
    pub fn original_range_of_tokens(&self, tree: u32, run: TokenRun) -> Option<FileRange>
        ensures { option_map file_span_of result ≡ run_range (trees self.now) tree run }
    {
        self.trees.original_range_of_tokens(tree, run)
    }

    /// What stands directly above a node: its parent, or, above the root of an expansion, the call.
    pub fn above(&self, node: NodeId) -> Option<NodeId>
        ensures { result ≡ above (trees self.now) node }
    {
        self.trees.above(node)
    }

    /// The root of what a call stands for.
    pub fn expansion_of(&self, call: NodeId) -> Option<NodeId>
        ensures { result ≡ expansion_of self.now call }
    {
        self.trees.expansion_of(call)
    }

    /// The text of a range of a file, if the range lies between characters of it.
    pub fn text(&self, range: FileRange) -> Option<&str>
        ensures { option_copied result ≡ text_of self.now range }
    {
        self.trees.text(range)
    }
}
