//! The paths of trees, and what they stand for.

use crate::lists::separator;
use crate::told::Told;
use ide_ssr_resolved_rule::{Names, QualifiedCall, UsedPath};
use ide_ssr_resolving::{Unresolved, key_of, used_paths};
use ssr_base::{DefId, Res, ScopeId};
use ssr_facts::TableSemantics;
use ssr_syntax_kinds::SyntaxKind;
use ssr_syntax_tree::{Element, NodeNo, Tree};
use std::alloc::{AllocError, Global};

/// The used paths of a tree, in which the placeholders `a` and `b` may stand, or the path that doesn't resolve.
pub(crate) fn write_used(alloc: Global, out: &mut Told, semantics: &TableSemantics, tree: &Tree) {
    let Some(texts) = out.got(placeholders(alloc)) else {
        return;
    };
    let Some(names) = out.got(Names::of(alloc, &texts)) else {
        return;
    };
    match used_paths(alloc, semantics, ScopeId(0), &names, tree) {
        Ok(paths) => write_paths(out, tree, &paths),
        Err(Unresolved::Path(node)) => {
            out.text("unresolved ");
            out.line(text_at(tree, node));
        }
        Err(Unresolved::Memory) => out.lose(),
    }
}

fn placeholders(alloc: Global) -> Result<Vec<String>, AllocError> {
    let mut names = Vec::new(alloc);
    for name in ["a", "b"] {
        names.push(String::from_str(alloc, name)?)?;
    }
    Ok(names)
}

/// The text of a node.
pub(crate) fn text_at(tree: &Tree, node: NodeNo) -> &str {
    if tree.has(Element::Node(node)) {
        tree.text(node)
    } else {
        ""
    }
}

/// Paths, each with what it stands for.
pub(crate) fn write_paths(out: &mut Told, tree: &Tree, paths: &[UsedPath]) {
    if paths.is_empty() {
        return out.line("nothing");
    }
    for (number, path) in paths.iter().enumerate() {
        out.text(separator(number, ", "));
        out.text(text_at(tree, path.node));
        out.text(" ");
        write_res(out, path.res);
    }
    out.text("\n");
}

/// What a path stands for.
pub(crate) fn write_res(out: &mut Told, res: Res) {
    match res {
        Res::Def(DefId(number)) => {
            out.text("def ");
            out.shown(&number);
        }
        Res::Local(number) => {
            out.text("local ");
            out.shown(&number);
        }
        other => out.debug(&other),
    }
}

/// Qualified calls, each with its function and the type of its qualifier.
pub(crate) fn write_calls(out: &mut Told, tree: &Tree, calls: &[QualifiedCall]) {
    if calls.is_empty() {
        return out.line("nothing");
    }
    for (number, call) in calls.iter().enumerate() {
        out.text(separator(number, ", "));
        out.text(text_at(tree, call.node));
        out.text(" def ");
        out.shown(&call.function.0);
        if let Some(ty) = call.qualifier_type {
            out.text(" type ");
            out.shown(&ty.0);
        }
    }
    out.text("\n");
}

/// The key of the first path of a tree.
pub(crate) fn write_first_key(alloc: Global, out: &mut Told, tree: &Tree) {
    for number in 0..tree.node_count() {
        let node = NodeNo(number);
        if tree.kind(node).is(SyntaxKind::PATH) {
            if let Some(key) = out.got(key_of(alloc, tree, node)) {
                write_key(out, &key);
            }
            return;
        }
    }
}

/// The texts of a key, with a stroke between each two.
fn write_key(out: &mut Told, key: &[String]) {
    for (number, text) in key.iter().enumerate() {
        out.text(separator(number, "|"));
        out.text(text.as_str());
    }
    out.text("\n");
}
