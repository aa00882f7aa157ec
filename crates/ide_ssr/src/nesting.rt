//! Nesting the kept matches.

ghost use Rattle.std.specs.Prelude.{◌≡◌, ◌<◌, ◌+◌, ℕ, None, Some, IfOk, OnOk, length, slice_get, slice_index_or};
ghost use Rattle.ide_ssr_bindings.specs.Found.{FoundMatch};
ghost use Rattle.ide_ssr_nesting.specs.Holding.{IsKept};
ghost use Rattle.ide_ssr_nesting.specs.Lists.{AreLists, listed};
ghost use Rattle.ide_ssr.specs.Nesting.{Show, Shows};
ghost use Rattle.ide_ssr.specs.Private.Made.{AreMade, IsNotHeldBy, ShowPlaceholders};

use crate::comments::comment_ranges;
use crate::made::{none_made, take_list};
use crate::matches::{Match, PlaceholderMatch};
use crate::parts::{nested_placeholder, placeholder_name, range_at, text_at};
use crate::starts::by_start;
use ide_ssr_bindings::{Binding, FoundMatch};
use ide_ssr_nesting::{KeptMatches, Lists};
use ide_ssr_resolved_rule::ResolvedRule;
use std::alloc::{AllocError, Global};

/// The binding of a match at a place, counted from 0.
fn binding_at(m: &FoundMatch, place: usize) -> Binding
    requires { place < length m.now.bindings }
    ensures { slice_get m.now.bindings place ≡ Some result }
{
    m.bindings()[place]
}

/// What nested matches are made of: the kept matches, which of them hold which, and the rules that they are of.
#[derive(Clone, Copy)]
struct Nesting<'n, 'a> {
    kept: &'n KeptMatches<'a>,
    lists: &'n Lists,
    rules: &'n [ResolvedRule],
}

impl<'n, 'a> Nesting<'n, 'a> {
    /// What the placeholders of the kept match of a place hold, with the matches in them, which are taken from the made ones.
    fn placeholders(
        &self,
        alloc: Global,
        place: usize,
        made: &mut Vec<Option<Match<'a>>>,
    ) -> Result<Vec<PlaceholderMatch<'a>>, AllocError>
        requires kept { IsKept self.now.kept.now }
        requires lists { AreLists self.now.kept.now self.now.lists.now }
        requires place { place < length self.now.kept.now.matches }
        requires made { AreMade self.now.rules.now self.now.kept.now self.now.lists.now (place + 1) made.old.items }
        ensures shown { IfOk result (λ placeholders. (m : FoundMatch) → slice_get self.now.kept.now.matches place ≡ Some m → ShowPlaceholders self.now.rules.now self.now.kept.now self.now.lists.now place m placeholders.items) }
        ensures others { OnOk result ((j : ℕ) → IsNotHeldBy self.now.kept.now place j → slice_index_or made.new.items j None ≡ slice_index_or made.old.items j None) }
        ensures counted { OnOk result (length made.new.items ≡ length made.old.items) }
    {
        let workspace = self.kept.workspace();
        let m = self.kept.get(place);
        let order = by_start(alloc, workspace, m)?;
        let mut placeholders = Vec::new(alloc);
        for index in &order {
            let binding = binding_at(m, *index);
            let inner = take_list(alloc, self.lists.under(place, *index), made)?;
            let name = placeholder_name(self.rules, m.rule(), binding.placeholder);
            let tree = m.node().tree;
            placeholders.push(nested_placeholder(alloc, workspace, name, tree, binding, inner)?)?;
        }
        Ok(placeholders)
    }

    /// The kept match of the place with those that it holds, which are taken from the made ones.
    fn nested(
        &self,
        alloc: Global,
        place: usize,
        made: &mut Vec<Option<Match<'a>>>,
    ) -> Result<Match<'a>, AllocError>
        requires kept { IsKept self.now.kept.now }
        requires lists { AreLists self.now.kept.now self.now.lists.now }
        requires place { place < length self.now.kept.now.matches }
        requires made { AreMade self.now.rules.now self.now.kept.now self.now.lists.now (place + 1) made.old.items }
        ensures shown { IfOk result (λ v. Shows self.now.rules.now self.now.kept.now self.now.lists.now place v) }
        ensures others { OnOk result ((j : ℕ) → IsNotHeldBy self.now.kept.now place j → slice_index_or made.new.items j None ≡ slice_index_or made.old.items j None) }
        ensures counted { OnOk result (length made.new.items ≡ length made.old.items) }
    {
        let workspace = self.kept.workspace();
        let m = self.kept.get(place);
        let placeholders = self.placeholders(alloc, place, made)?;
        Ok(Match {
            text: text_at(workspace, m.node()),
            range: range_at(workspace, m.node()),
            node: m.node(),
            rule_index: m.rule(),
            placeholders,
            comments: comment_ranges(alloc, workspace, m)?,
        })
    }

    /// Makes the match of the place, where those behind it are made.
    fn make(
        &self,
        alloc: Global,
        place: usize,
        made: &mut Vec<Option<Match<'a>>>,
    ) -> Result<(), AllocError>
        requires kept { IsKept self.now.kept.now }
        requires lists { AreLists self.now.kept.now self.now.lists.now }
        requires place { place < length self.now.kept.now.matches }
        requires made { AreMade self.now.rules.now self.now.kept.now self.now.lists.now (place + 1) made.old.items }
        ensures { OnOk result (AreMade self.now.rules.now self.now.kept.now self.now.lists.now place made.new.items) }
    {
        let m = self.nested(alloc, place, made)?;
        made[place] = Some(m);
        Ok(())
    }
}

/// The outermost kept matches, with those that they hold. They are made from the last to the first: what a match
/// holds comes behind it.
pub(crate) fn nested_matches<'a>(
    alloc: Global,
    kept: &KeptMatches<'a>,
    lists: &Lists,
    rules: &[ResolvedRule],
) -> Result<Vec<Match<'a>>, AllocError>
    requires { AreLists kept.now lists.now }
    ensures { IfOk result (λ answer. Show rules.now kept.now lists.now (listed lists.now None) answer.items) }
{
    let count = kept.len();
    let nesting = Nesting { kept, lists, rules };
    let mut made = none_made(alloc, count)?;
    for place in (0..count).rev() {
        nesting.make(alloc, place, &mut made)?;
    }
    take_list(alloc, lists.outermost(), &mut made)
}
