//! What a caller sees of kept matches: those in no other one, with the others nested in their placeholders.

ghost use Rattle.std.specs.Prelude.{◌≡◌, All, IfOk, string_bytes};
ghost use Rattle.ide_ssr.specs.Finder.{Finder};
ghost use Rattle.ide_ssr.specs.Flattened.{Flattens, HasNoneInside, ShowEachOnce};
ghost use Rattle.ide_ssr.specs.Matches.{text_of, range_of, node_of, rule_of, placeholders_of, name_of, place_of, deref_count_of, self_kind_of, inner_of, comments_of};
ghost use Rattle.ide_ssr.specs.Nesting.{ShowKept};

use crate::flattened::flatten_last;
use ide_ssr_matching::Tries;
use ide_ssr_rules::Var;
use ssr_base_trees::{FileRange, NodeId, SelfKind};
use std::alloc::{AllocError, Global};
use std::mem;

/// The matches of a search: those that stand in no placeholder of another one, by file, start and end, rule, tree and node. The
/// others stand below them.
pub struct SsrMatches<'a> {
    pub matches: Vec<Match<'a>>,
    /// How often rules were tried at nodes, in what `MatchFinder::matches` and `scan_matches` answer. It is for contracts alone and
    /// has no bytes.
    pub tries: Tries,
}

impl<'a> SsrMatches<'a> {
    /// The same matches in one list, none with others in its placeholders: those that stood in a match come before it, by the
    /// places of its placeholders. It goes through them in a loop, since they can nest deeper than the stack.
    pub fn flattened(self, alloc: Global) -> Result<SsrMatches<'a>, AllocError>
        ensures flattens { IfOk result (λ flat. Flattens self.entry.matches.items flat.matches.items) }
        ensures none_inside { IfOk result (λ flat. All HasNoneInside flat.matches.items) }

        // Of what a finder finds each kept match is there once.
        ensures each_once { IfOk result (λ flat. (finder : Finder) → ShowKept finder self.entry.matches.items → ShowEachOnce finder flat.matches.items) }
    {
        let mut left = self;
        let mut flat = SsrMatches {
            matches: Vec::new(alloc),
            tries: mem::replace(&mut left.tries, Tries::none()),
        };
        while flatten_last(&mut left.matches, &mut flat.matches)? {}
        flat.matches.reverse();
        Ok(flat)
    }
}

/// Moves the matches in the placeholders of a match to those that are left, as far as there is memory for them.
fn leave_inner<'a>(m: &mut Match<'a>, left: &mut Vec<Match<'a>>) {
    for placeholder in m.placeholders.iter_mut() {
        let _ = left.append(&mut placeholder.inner);
    }
}

/// Exchanges the matches in the first placeholder of a match that has some with those that are left. Says whether there is one.
fn exchange_inner<'a>(m: &mut Match<'a>, left: &mut Vec<Match<'a>>) -> bool {
    for placeholder in m.placeholders.iter_mut() {
        if !placeholder.inner.is_empty() {
            mem::swap(&mut placeholder.inner, left);
            return true;
        }
    }
    false
}

/// Drops the matches one by one, and those in them. Where there is no memory for the list of those that are left, a match
/// waits among the ones in it, in the place of the last of them, and has what was left in their place.
fn drop_nested(matches: Vec<Match<'_>>) {
    let mut left = matches;
    let Some(mut m) = left.pop() else {
        return;
    };
    // There are no more than memory holds.
    for _ in 0..u64::MAX {
        leave_inner(&mut m, &mut left);
        let waits = exchange_inner(&mut m, &mut left);
        let Some(last) = left.pop() else {
            return;
        };
        let first = mem::replace(&mut m, last);
        if waits {
            let _ = left.push(first);
        }
    }
}

impl Drop for SsrMatches<'_> {
    /// A loop: matches nest as deep as the tree times the number of rules, which can be more than the stack holds.
    fn drop(self) {
        let SsrMatches { matches, tries: _ } = self;
        drop_nested(matches);
    }
}

/// A match of a rule.
#[cycle(nested)]
#[derive(Drop)]
pub struct Match<'a> {
    pub(crate) text: &'a str,
    pub(crate) range: FileRange,
    pub(crate) node: NodeId,
    pub(crate) rule_index: usize,
    pub(crate) placeholders: Vec<PlaceholderMatch<'a>>,
    pub(crate) comments: Vec<FileRange>,
}

/// What a placeholder holds, and the matches in it.
#[cycle(nested)]
#[derive(Drop)]
pub struct PlaceholderMatch<'a> {
    pub(crate) var: Var,
    pub(crate) range: FileRange,
    pub(crate) deref_count: usize,
    pub(crate) self_kind: SelfKind,
    pub(crate) inner: Vec<Match<'a>>,
}

impl<'a> Match<'a> {
    /// The text of the node that matches, as a string of its own.
    pub fn matched_text(&self, alloc: Global) -> Result<String, AllocError>
        ensures { IfOk result (λ text. string_bytes text ≡ text_of self.now) }
    {
        String::from_str(alloc, self.text)
    }

    /// The text of the node that matches, in the source of its tree.
    pub fn matched_str(&self) -> &'a str
        ensures { result.now ≡ text_of self.now }
    {
        self.text
    }

    /// The bytes of a file that match: of a match in what a macro call stands for, those that its tokens come from, and what
    /// lies between them.
    pub fn range(&self) -> FileRange
        ensures { result ≡ range_of self.now }
    {
        self.range
    }

    /// The node that matches.
    pub fn node(&self) -> NodeId
        ensures { result ≡ node_of self.now }
    {
        self.node
    }

    /// The place of the rule among the rules of the search.
    pub fn rule_index(&self) -> usize
        ensures { result ≡ rule_of self.now }
    {
        self.rule_index
    }

    /// What the placeholders hold, by where it begins in its file.
    pub fn placeholders(&self) -> &[PlaceholderMatch<'a>]
        ensures { result.now ≡ placeholders_of self.now }
    {
        &self.placeholders
    }

    /// Where the comments stand that the match keeps: those below its node that no placeholder holds, in order.
    pub fn comments(&self) -> &[FileRange]
        ensures { result.now ≡ comments_of self.now }
    {
        &self.comments
    }
}

impl<'a> PlaceholderMatch<'a> {
    /// The placeholder.
    pub fn var(&self) -> &Var
        ensures { string_bytes result.now.0 ≡ name_of self.now }
    {
        &self.var
    }

    /// The bytes of a file that what the placeholder holds comes from.
    pub fn range(&self) -> FileRange
        ensures { result ≡ place_of self.now }
    {
        self.range
    }

    /// How often what the placeholder holds is dereferenced to be the first argument of the qualified call that matched a
    /// method call, where it holds that call's receiver; else 0.
    pub fn deref_count(&self) -> usize
        ensures { result ≡ deref_count_of self.now }
    {
        self.deref_count
    }

    /// How the method of a method call takes the receiver that the placeholder holds; `Owned` where it holds something else.
    pub fn self_kind(&self) -> SelfKind
        ensures { result ≡ self_kind_of self.now }
    {
        self.self_kind
    }

    /// The matches in the placeholder that stand in no placeholder of another one in it, by file, start and end, rule, tree and
    /// node.
    pub fn inner(&self) -> &[Match<'a>]
        ensures { result.now ≡ inner_of self.now }
    {
        &self.inner
    }
}
