//! The kept matches of a workspace.

ghost use Rattle.std.specs.Prelude.{◌≡◌, ◌<◌, IfOk, Some, length, slice_get};
ghost use Rattle.ssr_base_trees.specs.Workspace.{trees};
ghost use Rattle.ide_ssr_bindings.specs.Found.{AreMatches};
ghost use Rattle.ide_ssr_nesting.specs.Kept.{AreKept};
ghost use Rattle.ide_ssr_nesting.specs.Holding.{IsKept};

use crate::holders::Holder;
use crate::kept::keep_in_order;
use crate::order::is_built;
use crate::sorting::put_in_order;
use ide_ssr_bindings::FoundMatch;
use ssr_base_trees::Trees;
use std::alloc::{AllocError, Global};
use std::marker::Model;

/// The kept matches of a workspace, in the order of its nodes, at a node in that of rules, and what holds each of them.
#[derive(Drop)]
pub struct KeptMatches<'a> {
    workspace: &'a Trees,
    matches: Vec<FoundMatch>,
    holders: Vec<Option<Holder>>,
}

impl<'a> Model for KeptMatches<'a> {
    ghost use Rattle.ide_ssr_nesting.specs.Holding.{Kept, IsKept};
    ghost use Rattle.ide_ssr_nesting.specs.KeptCode.{kept_code};

    ghost Value = { Kept };

    ghost coded = { kept_code };

    ghost view = { λ kept. record { workspace = kept.workspace.now; matches = kept.matches.items; holders = kept.holders.items } };

    ghost invariant = { λ kept. IsKept (record { workspace = kept.workspace.now; matches = kept.matches.items; holders = kept.holders.items }) };
}

/// The kept ones among the matches that are found, which may come in any order, and more than once.
pub fn keep<'a>(
    alloc: Global,
    workspace: &'a Trees,
    mut found: Vec<FoundMatch>,
) -> Result<KeptMatches<'a>, AllocError>
    requires matches { AreMatches (trees workspace.now) found.items }
    ensures workspace { IfOk result (λ kept. kept.workspace ≡ workspace.now) }
    ensures kept { IfOk result (λ kept. AreKept (trees workspace.now) found.items kept.matches) }
    ensures held { IfOk result (λ kept. IsKept kept) }
{
    is_built(workspace);
    put_in_order(workspace, &mut found);
    let nest = keep_in_order(alloc, workspace, found)?;
    Ok(KeptMatches {
        workspace,
        matches: nest.matches,
        holders: nest.holders,
    })
}

impl<'a> KeptMatches<'a> {
    /// The workspace that the matches are of.
    pub fn workspace(&self) -> &'a Trees
        ensures { result.now ≡ self.now.workspace }
    {
        self.workspace
    }

    /// How many kept matches there are.
    pub fn len(&self) -> usize
        ensures count { result ≡ length self.now.matches }
        ensures kept { IsKept self.now }
    {
        self.matches.len()
    }

    /// The match at a place, counted from 0.
    pub fn get(&self, place: usize) -> &FoundMatch
        requires { place < length self.now.matches }
        ensures { slice_get self.now.matches place ≡ Some result.now }
    {
        &self.matches[place]
    }

    /// What holds the match at a place: nothing, if it is outermost.
    pub fn holder(&self, place: usize) -> Option<Holder>
        requires { place < length self.now.matches }
        ensures { slice_get self.now.holders place ≡ Some result }
    {
        self.holders[place]
    }
}
