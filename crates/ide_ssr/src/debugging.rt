//! The debug list of a finder.

ghost use Rattle.std.specs.Prelude.{IfOk};
ghost use Rattle.ide_ssr_debugging.specs.Debugging.{AreEntries};

use crate::finder::MatchFinder;
use ide_ssr_debugging::MatchDebugInfo;
use ssr_base_trees::{FileId, Semantics};
use std::alloc::AllocError;

impl<'a, S: Semantics> MatchFinder<'a, S> {
    /// For each occurrence of a snippet in a file, also of those that overlap, each node other than a root whose original range
    /// is that occurrence, in preorder with what a call stands for before the call's children; for each such node each rule
    /// whose pattern's root has the node's kind or, like the node, is an expression, with whether it matches there. There is
    /// nothing to tell for an empty snippet, or where there is no such file.
    pub fn debug_where_text_equal(
        &self,
        file: FileId,
        snippet: &str,
    ) -> Result<Vec<MatchDebugInfo>, AllocError>
        ensures { IfOk result (λ told. AreEntries self.now.workspace (S.meanings self.now.semantics) self.now.rules file snippet.now told.items) }
    {
        ide_ssr_debugging::debug_where_text_equal(
            self.alloc,
            self.workspace,
            self.semantics,
            &self.rules,
            file,
            snippet,
        )
    }
}
