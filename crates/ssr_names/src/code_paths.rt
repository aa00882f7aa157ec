//! Paths of the code as they are spelled.
ghost use Rattle.std.specs.Prelude.{◌≡◌, ◌⊎◌, [], reverse, IfOk, IfSome};
ghost use Rattle.std.specs.Option.{option_map};
ghost use Rattle.ssr_syntax_tree.specs.Places.{HasNode, node_of};
ghost use Rattle.ide_ssr_resolved_rule.specs.Paths.{last_name};
ghost use Rattle.ssr_names.specs.Locals.{begins_with_colons, is_alone, text_of_first};
ghost use Rattle.ssr_names.specs.CodePaths.{AreRead, AreSegments, IsSegment, IsSpelledAs, continued};

use ide_ssr_resolved_rule::{first_child, last_segment};
use ssr_names_items::{Name, Names, Start};
use ssr_syntax_kinds::SyntaxKind;
use ssr_syntax_tree::{NodeNo, TokenNo, Tree};
use std::alloc::{AllocError, Global};

/// How deep paths are read.
const MOST_SEGMENTS: u32 = 1024;

/// What a segment of a path is.
#[derive(Clone, Copy, PartialEq, Eq)]
enum Segment {
    Name(Name),
    Crate,
    SelfWord,
    Super,
    /// A type in angle brackets, or what can't stand there.
    Other,
}

/// A path as it is spelled: how it begins, and the names behind that.
#[derive(Debug, Drop)]
pub(crate) struct CodePath {
    pub(crate) start: Start,
    pub(crate) names: Vec<Name>,
}

/// The text of the first child of a kind.
pub(crate) fn text_of_first(tree: &Tree, node: NodeNo, kind: SyntaxKind) -> Option<&str>
    requires { HasNode tree.now node.0 }
    ensures { option_map (λ text. text.now) result ≡ text_of_first kind (node_of tree.now node.0).children }
{
    let child = first_child(tree, node, kind)?;
    Some(tree.text(child))
}

/// The name of a path's last segment.
pub(crate) fn last_text(tree: &Tree, path: NodeNo) -> Option<&str>
    requires { HasNode tree.now path.0 }
    ensures { option_map (λ text. text.now) result ≡ last_name (node_of tree.now path.0).children }
{
    let segment = last_segment(tree, path)?;
    text_of_first(tree, segment, SyntaxKind::NAME_REF)
}

/// What a path's last segment is. A name that nothing of the run has is as good as any other such name.
fn segment_of(tree: &Tree, path: NodeNo, names: &Names, stranger: Name) -> Segment
    requires { HasNode tree.now path.0 }
    ensures { IsSegment names.now stranger (last_name (node_of tree.now path.0).children) result }
{
    match last_text(tree, path) {
        Some("crate") => Segment::Crate,
        Some("self") => Segment::SelfWord,
        Some("super") => Segment::Super,
        Some(text) => Segment::Name(names.number(text).unwrap_or(stranger)),
        None => Segment::Other,
    }
}

/// Whether `::` stands at the beginning of a segment.
fn begins_with_colons(tree: &Tree, path: NodeNo) -> bool
    requires { HasNode tree.now path.0 }
    ensures { result ≡ begins_with_colons tree.now (node_of tree.now path.0) }
{
    let tokens = tree.tokens_below(path);
    tokens.start < tokens.end
        && tree
            .token_kind(TokenNo(tokens.start))
            .is(SyntaxKind::COLON2)
}

/// Whether a path has one segment, with no `::` in front.
pub(crate) fn is_alone(tree: &Tree, path: NodeNo) -> bool
    requires { HasNode tree.now path.0 }
    ensures { result ≡ is_alone tree.now (node_of tree.now path.0) }
{
    first_child(tree, path, SyntaxKind::PATH).is_none() && !begins_with_colons(tree, path)
}

/// The segments of a path from the last one on, and whether `::` stands in front of the first.
fn segments(
    alloc: Global,
    tree: &Tree,
    path: NodeNo,
    names: &Names,
    stranger: Name,
) -> Result<Vec<Segment>, AllocError>
    requires { HasNode tree.now path.0 }
    ensures { IfOk result (λ found. (found.items ≡ []) ⊎ AreSegments names.now stranger tree.now (node_of tree.now path.0) (reverse found.items)) }
{
    let mut found = Vec::new(alloc);
    let mut at = path;
    for _ in 0..MOST_SEGMENTS {
        let segment = segment_of(tree, at, names, stranger);
        found.push(segment)?;
        match first_child(tree, at, SyntaxKind::PATH) {
            Some(front) => at = front,
            None => return Ok(found),
        }
    }
    found.clear();
    Ok(found)
}

/// How a path begins, where one more segment follows; none, where that can't be.
fn continued(start: Start, segment: Segment) -> Option<Start>
    ensures { result ≡ continued start segment }
{
    match (start, segment) {
        (Start::Plain, Segment::Crate) => Some(Start::Crate),
        (Start::Plain, Segment::SelfWord) => Some(Start::SelfModule),
        (Start::Plain | Start::SelfModule, Segment::Super) => Some(Start::Super(1)),
        (Start::Super(count), Segment::Super) => Some(Start::Super(count.saturating_add(1))),
        _ => None,
    }
}

/// A path as it is spelled; none, where it has a type in angle brackets.
pub(crate) fn code_path(
    alloc: Global,
    tree: &Tree,
    path: NodeNo,
    names: &Names,
    stranger: Name,
) -> Result<Option<CodePath>, AllocError>
    requires { HasNode tree.now path.0 }
    ensures { IfOk result (λ read. IfSome read (λ read. IsSpelledAs names.now stranger tree.now path.0 read.start read.names.items)) }
{
    let mut spelled = segments(alloc, tree, path, names, stranger)?;
    if spelled.is_empty() {
        return Ok(None);
    }
    spelled.reverse();
    let start = if begins_with_colons(tree, path) {
        Start::Global
    } else {
        Start::Plain
    };
    read_segments(alloc, start, &spelled)
}

/// The path whose segments are these.
fn read_segments(
    alloc: Global,
    start: Start,
    segments: &[Segment],
) -> Result<Option<CodePath>, AllocError>
    ensures { IfOk result (λ read. IfSome read (λ read. AreRead start segments.now read.start read.names.items)) }
{
    let mut read = CodePath {
        start,
        names: Vec::with_capacity(alloc, segments.len())?,
    };
    for segment in segments {
        if let Segment::Name(name) = segment {
            read.names.push(*name)?;
            continue;
        }
        if !read.names.is_empty() {
            return Ok(None);
        }
        let Some(start) = continued(read.start, *segment) else {
            return Ok(None);
        };
        read.start = start;
    }
    Ok(Some(read))
}
