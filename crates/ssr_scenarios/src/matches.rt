//! What is told of matches.

use crate::told::Told;
use ide_ssr::{Match, MatchDebugInfo, PlaceholderMatch};
use ssr_base::{FileRange, Workspace};
use std::alloc::Global;

/// The texts of matches, a line each.
pub(crate) fn write_texts(alloc: Global, out: &mut Told, matches: &[Match<'_>]) {
    for m in matches {
        if let Some(text) = out.got(m.matched_text(alloc)) {
            out.line(text.as_str());
        }
    }
}

/// The texts of matches, a line each, with what each placeholder holds.
pub(crate) fn write_held(out: &mut Told, workspace: &Workspace, matches: &[Match<'_>]) {
    for m in matches {
        out.text(m.matched_str());
        write_placeholders(out, workspace, m.placeholders());
        out.text("\n");
    }
}

/// What placeholders hold.
fn write_placeholders(
    out: &mut Told,
    workspace: &Workspace,
    placeholders: &[PlaceholderMatch<'_>],
) {
    for placeholder in placeholders {
        write_placeholder(out, workspace, placeholder);
    }
}

/// What a placeholder holds, how often that is dereferenced and how it is taken, and the matches in it.
fn write_placeholder(out: &mut Told, workspace: &Workspace, placeholder: &PlaceholderMatch<'_>) {
    out.text(" ");
    out.shown(placeholder.var());
    out.text("=");
    out.text(workspace.text(placeholder.range()).unwrap_or(""));
    out.text("/");
    out.shown(&placeholder.deref_count());
    out.text("/");
    out.debug(&placeholder.self_kind());
    for m in placeholder.inner() {
        out.text(" [");
        out.text(m.matched_str());
        out.text("]");
    }
}

/// Where matches stand, a line each: the range, the kind of a rule by its number, the node by its tree and number, and the
/// ranges of comments and of what placeholders hold.
pub(crate) fn write_places(out: &mut Told, matches: &[Match<'_>]) {
    for m in matches {
        write_place(out, m);
        write_comments(out, m.comments());
        write_ranges(out, m.placeholders());
        out.text("\n");
    }
}

/// The ranges of comments.
fn write_comments(out: &mut Told, comments: &[FileRange]) {
    for comment in comments {
        out.text(" comment ");
        write_range(out, *comment);
    }
}

/// The ranges of what placeholders hold.
fn write_ranges(out: &mut Told, placeholders: &[PlaceholderMatch<'_>]) {
    for placeholder in placeholders {
        out.text(" ");
        out.shown(placeholder.var());
        out.text(" ");
        write_range(out, placeholder.range());
    }
}

/// The range of a match, its rule and its node.
fn write_place(out: &mut Told, m: &Match<'_>) {
    write_range(out, m.range());
    out.text(" rule ");
    out.shown(&m.rule_index());
    let node = m.node();
    out.text(" node ");
    out.shown(&node.tree);
    out.text(":");
    out.shown(&node.node.0);
}

pub(crate) fn write_range(out: &mut Told, range: FileRange) {
    out.shown(&range.file_id.0);
    out.text(":");
    out.shown(&range.range.start());
    out.text("..");
    out.shown(&range.range.end());
}

/// What is told of a rule at a node: the range, the node, the rule, and why it doesn't match, or that it does.
pub(crate) fn write_debug_info(out: &mut Told, workspace: &Workspace, info: &MatchDebugInfo) {
    let node = info.node();
    if let Some(range) = workspace.original_range(node) {
        write_range(out, range);
    }
    out.text(" node ");
    out.shown(&node.tree);
    out.text(":");
    out.shown(&node.node.0);
    out.text(" rule ");
    out.shown(&info.rule_index());
    out.text(" ");
    out.line(info.match_failure_reason().unwrap_or("matched"));
}
