//! What stands for the matches of one list, its first clash, and the changes that it makes.

ghost use Rattle.std.specs.Prelude.{◌≡◌, [], ◌∷◌, IfErr, IfOk, Some, false, is_some, option_map, string_bytes, unwrap_or};
ghost use Rattle.std.specs.Option.{option_map_or};
ghost use Rattle.ssr_base_trees.specs.Applied.{changes_of};
ghost use Rattle.ssr_base_trees.specs.Workspace.{file_span_of};
ghost use Rattle.ide_ssr_rewriting.specs.Clashes.{IsFirst, Rewrite as RewriteValue, changes_made, clash_of, clashes, differ, is_clash, same_range, share_byte};
ghost use Rattle.ide_ssr_rewriting.specs.Private.Clashes.{AreInOrder, first_behind, is_whole, stands_for};

use ssr_base_trees::FileRange;
use ssr_syntax_kinds::TextRange;
use ssr_syntax_shorts::MadeText;
use std::alloc::{AllocError, Global};
use std::marker::Model;

/// What stands for the bytes of a range: a text, or none where something below it clashes.
#[derive(Drop)]
pub(crate) struct Rewrite {
    range: FileRange,
    text: Option<MadeText>,
}

impl Model for Rewrite {
    ghost use Rattle.ssr_base_trees.specs.Workspace.{file_span_of};
    ghost use Rattle.ide_ssr_rewriting.specs.Clashes.{Rewrite as RewriteValue};

    ghost Value = { RewriteValue };

    ghost view = { λ r. record { range = file_span_of r.range; text = r.text } };
}

/// Whether two ranges are one.
fn same_range(a: FileRange, b: FileRange) -> bool
    ensures { result ≡ same_range (file_span_of a) (file_span_of b) }
{
    a.file_id.0 == b.file_id.0 && a.range.start == b.range.start && a.range.end == b.range.end
}

/// Whether two ranges are of one file and have a byte in common.
fn share_byte(a: FileRange, b: FileRange) -> bool
    ensures { result ≡ share_byte (file_span_of a) (file_span_of b) }
{
    a.file_id.0 == b.file_id.0 && a.range.start.max(b.range.start) < a.range.end.min(b.range.end)
}

impl Rewrite {
    pub(crate) fn new(range: FileRange, text: Option<MadeText>) -> Rewrite
        ensures range { result.range ≡ file_span_of range }
        ensures text { result.text ≡ text }
    {
        Rewrite { range, text }
    }

    pub(crate) fn range(&self) -> FileRange
        ensures { file_span_of result ≡ self.now.range }
    {
        self.range
    }

    /// The text, if one is known.
    fn into_text(self) -> Option<MadeText>
        ensures { result ≡ self.text }
    {
        let Rewrite { text, .. } = self;
        text
    }

    /// Whether a text is known.
    pub(crate) fn is_known(&self) -> bool
        ensures { result ≡ is_some self.now.text }
    {
        self.text.is_some()
    }

    /// Whether the texts of both are known and differ.
    fn differs(&self, other: &Rewrite) -> bool
        ensures { result ≡ differ self.now.text other.now.text }
    {
        match (&self.text, &other.text) {
            (Some(text), Some(other)) => text.as_str() != other.as_str(),
            _ => false,
        }
    }

    /// Whether this one and one behind it clash.
    #[tactic(auto, unfolding(crate::specs::Clashes::is_clash))]
    fn clashes_with(&self, other: &Rewrite) -> bool
        ensures { result ≡ is_clash self.now other.now }
    {
        share_byte(self.range(), other.range())
            && (!same_range(self.range(), other.range()) || self.differs(other))
    }

    /// Whether this one clashes with all that the other one, which has its range and doesn't clash with it, clashes
    /// with.
    #[tactic(auto, unfolding(crate::specs::Private::Clashes::stands_for))]
    fn stands_for(&self, other: &Rewrite) -> bool
        ensures { result ≡ stands_for self.now other.now }
    {
        same_range(self.range(), other.range()) && self.is_known()
    }
}

/// The first clash of those behind `first`, which stands for those of its range before them.
fn first_behind(first: &Rewrite, behind: &[Rewrite]) -> Option<(FileRange, FileRange)>
    ensures { option_map clash_of result ≡ first_behind first.now behind.now }
{
    let mut known = first;
    for next in behind {
        if known.clashes_with(next) {
            return Some((known.range(), next.range()));
        }
        if !known.stands_for(next) {
            known = next;
        }
    }
    None
}

/// The first clash of a list.
pub(crate) fn first_clash(list: &[Rewrite]) -> Option<(FileRange, FileRange)>
    requires { AreInOrder list.now }
    ensures { IsFirst (clashes list.now) (option_map clash_of result) }
{
    let (first, behind) = list.split_first()?;
    first_behind(first, behind)
}

/// Whether there is a last range, which is this one.
fn is_last(last: Option<FileRange>, range: FileRange) -> bool
    ensures { result ≡ option_map_or (λ last. same_range (file_span_of range) (file_span_of last)) last false }
{
    match last {
        Some(last) => same_range(range, last),
        None => false,
    }
}

/// The text that stands for a range; nothing, where none is known.
fn spelled(alloc: Global, text: Option<MadeText>) -> String
    ensures { string_bytes result ≡ unwrap_or text [] }
{
    match text {
        Some(text) => text.into_string(),
        None => String::new(alloc),
    }
}

/// The changes that a list makes; those of one range count once.
pub(crate) fn changes_made(
    alloc: Global,
    list: Vec<Rewrite>,
) -> Result<Vec<(TextRange, String)>, AllocError>
    ensures { IfOk result (λ v. changes_of v.items ≡ changes_made list.items) }
{
    let mut changes = Vec::with_capacity(alloc, list.len())?;
    let mut last = None;
    for rewrite in list {
        let Rewrite { range, text } = rewrite;
        if is_last(last, range) {
            continue;
        }
        changes.push((range.range, spelled(alloc, text)))?;
        last = Some(range);
    }
    Ok(changes)
}

/// Whether a list has one rewrite alone, of this range and with a text that is known.
fn is_whole(range: FileRange, list: &[Rewrite]) -> bool
    ensures { result ≡ is_whole (file_span_of range) list.now }
{
    match list {
        [only] => only.is_known() && same_range(only.range(), range),
        _ => false,
    }
}

/// Takes the last one off a list; answers its text, if one is known.
fn pop_text(list: &mut Vec<Rewrite>) -> Option<MadeText>
    ensures { (r : RewriteValue) → list.old.items ≡ r ∷ [] → result ≡ r.text }
{
    list.pop()?.into_text()
}

/// The text of a list's only rewrite, if it has the whole range and no text stands in front; else the list.
pub(crate) fn try_whole(
    front: &str,
    range: FileRange,
    mut list: Vec<Rewrite>,
) -> Result<MadeText, Vec<Rewrite>>
    ensures whole { IfOk result (λ text. (front.now ≡ []) × (list.items ≡ record { range = file_span_of range; text = Some text } ∷ [])) }
    ensures list { IfErr result (λ left. left.items ≡ list.items) }
    ensures part { IfErr result (λ _. front.now ≡ [] → is_whole (file_span_of range) list.items ≡ false) }
{
    if !front.is_empty() || !is_whole(range, &list) {
        return Err(list);
    }
    match pop_text(&mut list) {
        Some(text) => Ok(text),
        None => Err(list),
    }
}
