//! What stands in the places of the outermost matches of a file.
ghost use Rattle.std.specs.Prelude.{◌≡◌, ◌<◌, All, IfOk, None, length};
ghost use Rattle.std.specs.Option.{option_copied, option_map};
ghost use Rattle.ssr_base_trees.specs.Applied.{changes_of};
ghost use Rattle.ssr_base_trees.specs.Workspace.{trees};
ghost use Rattle.ide_ssr_bindings.specs.Found.{IsMatch};
ghost use Rattle.ide_ssr_nesting.specs.Lists.{listed};
ghost use Rattle.ssr_standing.specs.Fitted.{change_with};
ghost use Rattle.ide_ssr_edited.specs.Expected.{becomes_expression, comes_from, in_front_of, is_expr, is_of_expressions, places_in, swap_of, swaps_for, written};

use ide_ssr_bindings::FoundMatch;
use ide_ssr_debugging::is_expression;
use ide_ssr_nesting::{KeptMatches, Lists};
use ide_ssr_resolved_rule::ResolvedRule;
use ide_ssr_rewriting::push_kept;
use ssr_base_trees::{FileId, Trees};
use ssr_standing::expression;
use ssr_swaps::Swap;
use ssr_syntax::Fragment;
use ssr_syntax_kinds::TextRange;
use ssr_syntax_tree::Tree;
use std::alloc::{AllocError, Global};

/// Whether a match comes from a file.
fn comes_from(workspace: &Trees, file: FileId, m: &FoundMatch) -> bool
    ensures { result ≡ comes_from workspace.now file.0 m.now }
{
    match workspace.original_range(m.node()) {
        Some(range) => range.file_id.0 == file.0,
        None => false,
    }
}

/// The places of the outermost matches of a file.
pub(crate) fn places_in(
    alloc: Global,
    kept: &KeptMatches<'_>,
    lists: &Lists,
    file: FileId,
) -> Result<Vec<usize>, AllocError>
    requires { All (λ n. n < length kept.now.matches) (listed lists.now None) }
    ensures places { IfOk result (λ places. places.items ≡ places_in kept.now lists.now file.0) }
    ensures within { IfOk result (λ places. All (λ n. n < length kept.now.matches) places.items) }
{
    let mut places = Vec::new(alloc);
    for place in lists.outermost() {
        if comes_from(kept.workspace(), file, kept.get(*place)) {
            places.push(*place)?;
        }
    }
    Ok(places)
}

/// Whether a template of a rule is an expression.
fn is_expr(category: Fragment) -> bool
    ensures { result ≡ is_expr category }
{
    matches!(category, Fragment::Expr)
}

/// What a text has in front of its end, if it ends so.
fn in_front_of<'a>(end: &str, text: &'a str) -> Option<&'a str>
    ensures { option_copied result ≡ in_front_of end.now text.now }
{
    if !text.as_bytes().ends_with(end.as_bytes()) {
        return None;
    }
    Some(&text[..text.len() - end.len()])
}

/// What a text that is written for a match is read as, the comments aside that the match keeps.
fn written(
    alloc: Global,
    workspace: &Trees,
    m: &FoundMatch,
    range: TextRange,
    text: &str,
) -> Result<Option<Tree>, AllocError>
    requires { IsMatch (trees workspace.now) m.now }
    ensures { IfOk result (λ tree. tree ≡ written workspace.now m.now (change_with range text.now)) }
{
    let mut comments = String::new(alloc);
    push_kept(alloc, workspace, m, &mut comments)?;
    match in_front_of(comments.as_str(), text) {
        Some(front) => expression(alloc, workspace.reach(), front),
        None => Ok(None),
    }
}

/// A file whose matches are rewritten by rules.
#[derive(Drop)]
pub(crate) struct RewrittenFile<'e> {
    pub(crate) alloc: Global,
    pub(crate) workspace: &'e Trees,
    pub(crate) rules: &'e [ResolvedRule],
    pub(crate) file: FileId,
}

impl<'e> RewrittenFile<'e> {
    /// Whether the template of a match's rule is an expression.
    fn becomes_expression(&self, m: &FoundMatch) -> bool
        ensures { result ≡ becomes_expression self.now.rules.now m.now }
    {
        match self.rules.get(m.rule()) {
            Some(rule) => is_expr(rule.category()),
            None => false,
        }
    }

    /// Whether a match is an expression of the file's own tree, which is rewritten to an expression.
    fn is_of_expressions(&self, m: &FoundMatch) -> bool
        requires { IsMatch (trees self.now.workspace.now) m.now }
        ensures { result ≡ is_of_expressions self.now.workspace.now self.now.rules.now self.now.file.0 m.now }
    {
        if m.node().tree != self.file.0 {
            return false;
        }
        let Some(tree) = self.workspace.tree(m.node().tree) else {
            return false;
        };
        is_expression(tree.kind(m.node().node)) && self.becomes_expression(m)
    }

    /// What stands in the place of a match's node, for which this is written.
    fn swap_of(
        &self,
        m: &FoundMatch,
        range: TextRange,
        text: &str,
    ) -> Result<Option<Swap>, AllocError>
        requires { IsMatch (trees self.now.workspace.now) m.now }
        ensures { IfOk result (λ swap. swap ≡ swap_of self.now.workspace.now self.now.rules.now self.now.file.0 (change_with range text.now) m.now) }
    {
        if !self.is_of_expressions(m) {
            return Ok(None);
        }
        match written(self.alloc, self.workspace, m, range, text)? {
            Some(tree) => Ok(Some(Swap {
                node: m.node().node,
                tree,
            })),
            None => Ok(None),
        }
    }

    /// For each of the matches of these places what stands in its node's place, if each has its change, which writes an expression.
    pub(crate) fn swaps(
        &self,
        kept: &KeptMatches<'_>,
        places: &[usize],
        changes: &[(TextRange, String)],
    ) -> Result<Option<Vec<Swap>>, AllocError>
        requires workspace { kept.now.workspace ≡ self.now.workspace.now }
        requires within { All (λ n. n < length kept.now.matches) places.now }
        requires matches { All (IsMatch (trees self.now.workspace.now)) kept.now.matches }
        ensures { IfOk result (λ swaps. option_map (λ swaps. swaps.items) swaps ≡ swaps_for kept.now self.now.rules.now self.now.file.0 places.now (changes_of changes.now)) }
    {
        if places.len() != changes.len() {
            return Ok(None);
        }
        let mut swaps = Vec::with_capacity(self.alloc, places.len())?;
        for number in 0..places.len() {
            let (range, text) = &changes[number];
            match self.swap_of(kept.get(places[number]), *range, text.as_str())? {
                Some(swap) => swaps.push(swap)?,
                None => return Ok(None),
            }
        }
        Ok(Some(swaps))
    }
}
