//! The kinds of rules.

ghost use Rattle.std.specs.Option.{IsSomeAnd};
ghost use Rattle.ssr_syntax_tree.specs.Places.{HasToken};

use crate::lists::separator;
use crate::paths::{write_calls, write_paths};
use crate::told::Told;
use ide_ssr::{SsrError, SsrPattern, SsrRule};
use ide_ssr_resolved_rule::{ResolvedRule, TemplateToken};
use ide_ssr_rules::{resolve_pattern, resolve_rule};
use ssr_base::ScopeId;
use ssr_facts::TableSemantics;
use ssr_syntax_kinds::SyntaxKind;
use ssr_syntax_tree::{Element, NodeNo, TokenNo, Tree};
use std::alloc::Global;

/// What is asked of the kinds of a rule, or why it is refused; nothing, if the word doesn't ask that.
pub(crate) fn write_rule(
    alloc: Global,
    out: &mut Told,
    semantics: &TableSemantics,
    word: &str,
    text: &str,
) {
    match kinds_of(alloc, semantics, text) {
        Ok(kinds) => write_asked(out, word, &kinds),
        Err(error) => {
            out.shown(&error);
            out.text("\n");
        }
    }
}

/// What a word asks of kinds: all of them, or the first one.
fn write_asked(out: &mut Told, word: &str, kinds: &[ResolvedRule]) {
    if word == "kinds" {
        return write_kinds(out, kinds);
    }
    let Some(kind) = kinds.first() else {
        return;
    };
    match word {
        "calls" => write_calls(out, kind.pattern(), kind.qualified_calls()),
        "eligible" => write_paths(out, kind.pattern(), kind.eligible_paths()),
        "parts" => write_parts(out, kind),
        _ => write_used_paths(out, kind),
    }
}

/// The kinds of a rule in the first scope; without a delimiter the text is a search pattern.
pub(crate) fn kinds_of(
    alloc: Global,
    semantics: &TableSemantics,
    text: &str,
) -> Result<Vec<ResolvedRule>, SsrError> {
    if text.contains("==>>") {
        resolve_rule(alloc, semantics, ScopeId(0), SsrRule::parse(alloc, text)?)
    } else {
        resolve_pattern(
            alloc,
            semantics,
            ScopeId(0),
            SsrPattern::parse(alloc, text)?,
        )
    }
}

/// Of each kind the category, and what the roots of its pattern and of its template are.
fn write_kinds(out: &mut Told, kinds: &[ResolvedRule]) {
    for (number, kind) in kinds.iter().enumerate() {
        out.text(separator(number, ", "));
        out.debug(&kind.category());
        out.text(" ");
        out.text(root(kind.pattern()));
        out.text(" ");
        out.text(kind.template().map_or("-", root));
    }
    out.text("\n");
}

fn root(tree: &Tree) -> &'static str {
    tree.kind(NodeNo(0)).name()
}

/// The used paths of the pattern, and below them those of the template.
fn write_used_paths(out: &mut Told, kind: &ResolvedRule) {
    write_paths(out, kind.pattern(), kind.pattern_paths());
    if let Some(template) = kind.template() {
        write_paths(out, template, kind.template_paths());
    }
}

/// The placeholders, the pattern and the template.
fn write_parts(out: &mut Told, kind: &ResolvedRule) {
    write_names(out, kind);
    write_pattern(out, kind);
    write_template(out, kind);
}

/// The placeholders, each with its name and what it doesn't stand for of literals and paths.
fn write_names(out: &mut Told, kind: &ResolvedRule) {
    for (number, name) in (0..u32::MAX).zip(kind.names()) {
        out.shown(&number);
        out.text(" is $");
        out.shown(name);
        out.text(is_not(kind, number, SyntaxKind::LITERAL, ", no literal"));
        out.text(is_not(kind, number, SyntaxKind::PATH_EXPR, ", no path"));
        out.text("\n");
    }
}

/// The text of the pattern, and which of its nodes are placeholders.
fn write_pattern(out: &mut Told, kind: &ResolvedRule) {
    let pattern = kind.pattern();
    out.text(pattern.source());
    for number in 0..pattern.node_count() {
        let node = NodeNo(number);
        if pattern.has(Element::Node(node)) {
            write_placeholder(out, " node ", number, kind.placeholder(node));
        }
    }
    out.text("\n");
}

/// The text of the template, and which of its tokens are placeholders.
fn write_template(out: &mut Told, kind: &ResolvedRule) {
    let Some(template) = kind.template() else {
        return;
    };
    out.text(template.source());
    for number in 0..template.token_count() {
        let token = TokenNo(number);
        if template.has(Element::Token(token)) {
            write_placeholder(out, " token ", number, placeholder_of(kind, token));
        }
    }
    out.text("\n");
}

/// Which placeholder a token of the template is.
fn placeholder_of(kind: &ResolvedRule, token: TokenNo) -> Option<u32>
    requires { IsSomeAnd kind.now.template (λ template. HasToken template token.0) }
{
    match kind.template_token(token) {
        TemplateToken::Placeholder(placeholder) => Some(placeholder),
        _ => None,
    }
}

/// That the node or token of a number is a placeholder, if it is one.
fn write_placeholder(out: &mut Told, of: &str, number: u32, placeholder: Option<u32>) {
    if let Some(placeholder) = placeholder {
        out.text(of);
        out.shown(&number);
        out.text(" is ");
        out.shown(&placeholder);
    }
}

/// Words that say of a placeholder that it doesn't stand for a node of a kind, if it doesn't.
fn is_not(
    kind: &ResolvedRule,
    placeholder: u32,
    node: SyntaxKind,
    words: &'static str,
) -> &'static str {
    if kind.meets(placeholder, node) {
        ""
    } else {
        words
    }
}
