//! What the attributes of an item say of names.

use crate::code::Code;
use ssr_syntax_kinds::SyntaxKind;
use ssr_syntax_tree::{Element, NodeNo};

/// What the attributes of an item say.
#[derive(Clone, Copy, Debug, PartialEq, Eq)]
pub(crate) struct Attributes {
    /// Whether the item isn't there in each configuration, or not as it stands.
    pub(crate) is_conditional: bool,
    /// Whether macros of a module or a crate are seen in front of its braces too.
    pub(crate) uses_macros: bool,
    /// Whether they may be, in some configuration.
    pub(crate) may_use_macros: bool,
    /// Whether a macro is named by its crate, in some configuration at least.
    pub(crate) exports_macro: bool,
    /// Whether the file of a module may be one that is named here.
    pub(crate) names_file: bool,
}

/// An item without attributes.
const NONE: Attributes = Attributes {
    is_conditional: false,
    uses_macros: false,
    may_use_macros: false,
    exports_macro: false,
    names_file: false,
};

/// Whether an attribute of this name says that an item isn't there in each configuration. A test is part of tests alone.
pub(crate) fn is_condition(name: &str) -> bool {
    matches!(name, "cfg" | "cfg_attr" | "rustversion" | "test" | "bench")
}

/// Whether an attribute has a word.
fn has_word(code: Code<'_>, attribute: NodeNo, word: &str) -> bool {
    let tokens = code.tokens(attribute);
    for token in tokens.start..tokens.end {
        if code.token_text(token) == word {
            return true;
        }
    }
    false
}

/// What an attribute says beside those in front that says it in some configurations alone.
fn with_condition(all: Attributes, code: Code<'_>, attribute: NodeNo) -> Attributes {
    let mut all = all;
    all.is_conditional = true;
    all.may_use_macros |= has_word(code, attribute, "macro_use");
    all.exports_macro |= has_word(code, attribute, "macro_export");
    all.names_file |= has_word(code, attribute, "path");
    all
}

/// What an attribute says beside those in front.
fn with_attribute(all: Attributes, code: Code<'_>, attribute: NodeNo) -> Attributes {
    let Some(token) = code.token(attribute, SyntaxKind::IDENT) else {
        return all;
    };
    let mut all = all;
    match code.token_text(token) {
        "macro_use" => {
            all.uses_macros = true;
            all.may_use_macros = true;
        }
        "macro_export" => all.exports_macro = true,
        "path" => all.names_file = true,
        name if is_condition(name) => return with_condition(all, code, attribute),
        _ => {}
    }
    all
}

/// The braces of an item at whose beginning attributes of the item may stand.
fn body_of(code: Code<'_>, item: NodeNo) -> Option<NodeNo> {
    match code.kind(item) {
        SyntaxKind::MODULE => code.child(item, SyntaxKind::ITEM_LIST),
        SyntaxKind::EXTERN_BLOCK => code.child(item, SyntaxKind::EXTERN_ITEM_LIST),
        SyntaxKind::IMPL | SyntaxKind::TRAIT => code.child(item, SyntaxKind::ASSOC_ITEM_LIST),
        SyntaxKind::FN => {
            code.child(
                code.child(item, SyntaxKind::BLOCK_EXPR)?,
                SyntaxKind::STMT_LIST,
            )
        }
        _ => None,
    }
}

/// What the attributes of an item say, or those at the beginning of a file: those in front of the item, and those at the beginning of
/// its braces.
pub(crate) fn attributes_of(code: Code<'_>, item: NodeNo) -> Attributes {
    let outer = with_first(NONE, code, item);
    match body_of(code, item) {
        Some(body) => with_first(outer, code, body),
        None => outer,
    }
}

/// What the attributes say that a node begins with, beside those in front.
fn with_first(all: Attributes, code: Code<'_>, node: NodeNo) -> Attributes {
    let mut all = all;
    let tree = code.tree;
    if !tree.has(Element::Node(node)) {
        return all;
    }
    for child in tree.children(node) {
        if let Element::Node(attribute) = child {
            if !code.kind(attribute).is(SyntaxKind::ATTR) {
                return all;
            }
            all = with_attribute(all, code, attribute);
        }
    }
    all
}
