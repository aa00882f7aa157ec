//! The trees that are read of texts.

use crate::lists::separator;
use crate::paths::{write_first_key, write_used};
use crate::tokens::{solid_tokens, told_tokens};
use crate::told::Told;
use anyhow::Result;
use ssr_facts::TableSemantics;
use ssr_syntax::{
    ExpToken, ExpansionKind, Fragment, Reach, SyntaxError, fits_file_of, fits_fragment_of,
    fragment_of, parse_file_of, parse_tokens_of,
};
use ssr_syntax_tree::{NodeNo, TokenNo, Tree};
use std::alloc::{AllocError, Global};

/// What a text is read as, and how much of Rust is read.
#[derive(Clone, Copy)]
pub(crate) struct Goal {
    reach: Reach,
    kind: Kind,
}

/// What a text is read as.
#[derive(Clone, Copy)]
enum Kind {
    File,
    Fragment(Fragment),
    /// What a macro call stands for, by the tokens of the text but for white space and comments.
    Call(ExpansionKind),
    /// What a macro call stands for, by tokens as facts tell them.
    Told(ExpansionKind),
}

/// The fragments, by their words.
const FRAGMENTS: [(&str, Fragment); 5] = [
    ("expr", Fragment::Expr),
    ("type", Fragment::Ty),
    ("item", Fragment::Item),
    ("pat", Fragment::Pat),
    ("stmt", Fragment::Stmt),
];

/// What a question's word asks to read a text as, if it asks that.
pub(crate) fn goal_of(word: &str) -> Option<Goal> {
    let (reach, word) = match word.strip_prefix("rust-") {
        Some(rest) => (Reach::Whole, rest),
        None => (Reach::Stated, word),
    };
    let kind = kind_of(word)?;
    Some(Goal { reach, kind })
}

fn kind_of(word: &str) -> Option<Kind> {
    match word {
        "whole" => Some(Kind::File),
        "call-expr" => Some(Kind::Call(ExpansionKind::Expr)),
        "call-items" => Some(Kind::Call(ExpansionKind::Items)),
        "call-stmts" => Some(Kind::Call(ExpansionKind::Stmts)),
        "told-expr" => Some(Kind::Told(ExpansionKind::Expr)),
        "told-items" => Some(Kind::Told(ExpansionKind::Items)),
        "told-stmts" => Some(Kind::Told(ExpansionKind::Stmts)),
        _ => fragment_named(word).map(Kind::Fragment),
    }
}

fn fragment_named(word: &str) -> Option<Fragment> {
    for (name, fragment) in FRAGMENTS {
        if name == word {
            return Some(fragment);
        }
    }
    None
}

/// What is read of a text: a tree and how many bytes of white space stand in front of it, or why there is none.
type Read = Result<(Tree, u32), SyntaxError>;

fn read(alloc: Global, goal: Goal, text: &str) -> Result<Read> {
    let reach = goal.reach;
    match goal.kind {
        Kind::Fragment(kind) => Ok(fragment_of(alloc, reach, kind, text)),
        Kind::File => Ok(in_front(parse_file_of(alloc, reach, text))),
        Kind::Call(kind) => Ok(read_tokens(alloc, reach, kind, solid_tokens(alloc, text)?)),
        Kind::Told(kind) => Ok(read_tokens(alloc, reach, kind, told_tokens(alloc, text)?)),
    }
}

fn read_tokens(alloc: Global, reach: Reach, kind: ExpansionKind, tokens: Vec<ExpToken>) -> Read {
    in_front(parse_tokens_of(alloc, reach, kind, &tokens))
}

/// A tree that stands in front.
fn in_front(tree: Result<Tree, SyntaxError>) -> Read {
    Ok((tree?, 0))
}

/// Whether a text is read, or why not.
pub(crate) fn write_reading(alloc: Global, out: &mut Told, goal: Goal, text: &str) -> Result<()> {
    match read(alloc, goal, text)? {
        Ok(_) => out.text("read"),
        Err(error) => out.debug(&error),
    }
    Ok(())
}

/// What is asked of the tree of a text, in the way that a word says, or why there is none.
pub(crate) fn write_tree(
    alloc: Global,
    out: &mut Told,
    semantics: &TableSemantics,
    goal: Goal,
    way: &str,
    text: &str,
) -> Result<()> {
    match read(alloc, goal, text)? {
        Ok((tree, front)) if way == "source" => write_source(out, &tree, front),
        Ok((tree, _)) => write_way(alloc, out, semantics, goal.reach, way, &tree),
        Err(error) => {
            out.debug(&error);
            out.text("\n");
        }
    }
    Ok(())
}

fn write_way(
    alloc: Global,
    out: &mut Told,
    semantics: &TableSemantics,
    reach: Reach,
    way: &str,
    tree: &Tree,
) {
    match way {
        "tokens" => write_leaves(out, tree),
        "ranges" => write_ranges(out, tree),
        "depth" => write_depth(alloc, out, tree),
        "fits" => write_fitting(alloc, out, reach, tree),
        "paths" => write_used(alloc, out, semantics, tree),
        "key" => write_first_key(alloc, out, tree),
        _ => write_outline(alloc, out, tree),
    }
}

/// The source of a tree, and how many bytes of white space stand in front of it.
fn write_source(out: &mut Told, tree: &Tree, front: u32) {
    out.quoted(tree.source());
    out.text(" behind ");
    out.shown(&front);
    out.text("\n");
}

/// How many nodes stand above each node of a tree.
fn depths_of(alloc: Global, tree: &Tree) -> Result<Vec<usize>, AllocError> {
    let mut depths: Vec<usize> = Vec::new(alloc);
    for number in 0..tree.node_count() {
        let depth = match tree.parent(NodeNo(number)) {
            Some(parent) => {
                let above = depths.get(parent.0 as usize).copied().unwrap_or(0);
                above.saturating_add(1)
            }
            None => 0,
        };
        depths.push(depth)?;
    }
    Ok(depths)
}

/// So many dots.
fn write_dots(out: &mut Told, count: usize) {
    for _ in 0..count {
        out.text(".");
    }
}

/// The nodes of a tree in preorder, each with a dot for each node above it.
fn write_outline(alloc: Global, out: &mut Told, tree: &Tree) {
    let Some(depths) = out.got(depths_of(alloc, tree)) else {
        return;
    };
    for number in 0..tree.node_count() {
        out.text(separator(number as usize, " "));
        write_dots(out, depths.get(number as usize).copied().unwrap_or(0));
        out.text(tree.kind(NodeNo(number)).name());
    }
    out.text("\n");
}

/// How many nodes stand above the deepest one.
fn write_depth(alloc: Global, out: &mut Told, tree: &Tree) {
    if let Some(depths) = out.got(depths_of(alloc, tree)) {
        out.shown(&depths.iter().copied().max().unwrap_or(0));
        out.text("\n");
    }
}

/// The nodes of a tree in preorder, each with its range, a line each.
fn write_ranges(out: &mut Told, tree: &Tree) {
    for number in 0..tree.node_count() {
        let node = NodeNo(number);
        out.text(tree.kind(node).name());
        let range = tree.range(node);
        out.text(" ");
        out.shown(&range.start());
        out.text("..");
        out.shown(&range.end());
        out.text("\n");
    }
}

/// The kinds of a tree's tokens.
fn write_leaves(out: &mut Told, tree: &Tree) {
    for number in 0..tree.token_count() {
        out.text(separator(number as usize, " "));
        out.text(tree.token_kind(TokenNo(number)).name());
    }
    out.text("\n");
}

/// As what a tree could have been read.
fn write_fitting(alloc: Global, out: &mut Told, reach: Reach, tree: &Tree) {
    if out.got(fits_file_of(alloc, reach, tree)).unwrap_or(false) {
        out.line("whole");
    }
    for (name, fragment) in FRAGMENTS {
        if out
            .got(fits_fragment_of(alloc, reach, fragment, tree))
            .unwrap_or(false)
        {
            out.line(name);
        }
    }
}
