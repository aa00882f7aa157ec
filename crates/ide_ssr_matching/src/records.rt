//! Lists of record fields, which match by the names of the fields.

ghost use Rattle.std.specs.Prelude.{[], ◌≡◌, ◌==◌, ◌++◌, IfNone, IfSome, length, option_copied, option_map, option_to_list, take, bytes_eq};
ghost use Rattle.std.specs.Cmp.Lexicographic.{pointwise};
ghost use Rattle.std.specs.List.{find, list_any};
ghost use Rattle.ssr_syntax_tree.specs.Places.{HasNode, node_of};
ghost use Rattle.ide_ssr_matching.specs.Calls.{child_nodes};
ghost use Rattle.ide_ssr_matching.specs.Records.{is_name, name_in, field_name, texts_of, label_of, are_labelled, has_label, have_same_label, are_different, is_open, is_named};
ghost use Rattle.ide_ssr_matching.specs.Private.Records.{HasTokens, label_texts};

use crate::child_nodes::{ChildNodes, first_child_node, only_child_node};
use crate::children::lacks_arguments;
use ide_ssr_resolved_rule::{ResolvedRule, first_child};
use ssr_syntax_kinds::SyntaxKind;
use ssr_syntax_tree::{NodeNo, TokenNo, Tree};

/// The tokens that name a field, from the number `first` up to before `past`; a record's base has none.
#[derive(Clone, Copy)]
pub(crate) struct Label {
    first: u32,
    past: u32,
}

impl Label {
    /// The tokens of a node.
    fn of_node(tree: &Tree, node: NodeNo) -> Label
        requires { HasNode tree.now node.0 }
        ensures texts { label_texts tree.now result ≡ texts_of (node_of tree.now node.0) }
        ensures has { HasTokens tree.now result }
    {
        let tokens = tree.tokens_below(node);
        Label {
            first: tokens.start,
            past: tokens.end,
        }
    }

    /// The next text that is no trivia.
    fn next_text<'t>(&mut self, tree: &'t Tree) -> Option<&'t str>
        requires { HasTokens tree.now self.old }
        ensures gives { label_texts tree.now self.old ≡ option_to_list (option_copied result) ++ label_texts tree.now self.new }
        ensures none { IfNone result (label_texts tree.now self.new ≡ []) }
        ensures has { HasTokens tree.now self.new }
    {
        while self.first < self.past {
            let token = TokenNo(self.first);
            self.first += 1;
            if !tree.token_kind(token).is_trivia() {
                return Some(tree.token_text(token));
            }
        }
        None
    }
}

/// Whether two labels have the same texts.
fn same_texts(a_tree: &Tree, a: Label, b_tree: &Tree, b: Label) -> bool
    requires has_a { HasTokens a_tree.now a }
    requires has_b { HasTokens b_tree.now b }
    ensures { result ≡ pointwise bytes_eq (label_texts a_tree.now a) (label_texts b_tree.now b) }
{
    let mut a = a;
    let mut b = b;
    while let Some(text) = a.next_text(a_tree) {
        let Some(other) = b.next_text(b_tree) else {
            return false;
        };
        if text != other {
            return false;
        }
    }
    b.next_text(b_tree).is_none()
}

/// Whether a path is a name: one segment without arguments.
#[tactic(auto, using(crate::proofs::CallParts::first_among_nodes))]
fn is_name(tree: &Tree, path: NodeNo) -> bool
    requires { HasNode tree.now path.0 }
    ensures { result ≡ is_name (node_of tree.now path.0) }
{
    first_child(tree, path, SyntaxKind::PATH).is_none() && lacks_arguments(tree, path)
}

/// The name that an expression is, if it is only one.
fn name_in(tree: &Tree, expr: NodeNo) -> Option<NodeNo>
    requires { HasNode tree.now expr.0 }
    ensures node { option_map (λ name. node_of tree.now name.0) result ≡ name_in (node_of tree.now expr.0) }
    ensures has { IfSome result (λ name. HasNode tree.now name.0) }
{
    if !tree.kind(expr).is(SyntaxKind::PATH_EXPR) {
        return None;
    }
    let path = only_child_node(tree, expr)?;
    if is_name(tree, path) {
        Some(path)
    } else {
        None
    }
}

/// What names a field.
#[tactic(auto, using(crate::proofs::CallParts::first_among_nodes))]
fn field_name(tree: &Tree, field: NodeNo) -> Option<NodeNo>
    requires { HasNode tree.now field.0 }
    ensures node { option_map (λ name. node_of tree.now name.0) result ≡ field_name (node_of tree.now field.0) }
    ensures has { IfSome result (λ name. HasNode tree.now name.0) }
{
    if let Some(name) = first_child(tree, field, SyntaxKind::NAME_REF) {
        return Some(name);
    }
    let expr = first_child_node(tree, field)?;
    name_in(tree, expr)
}

/// The label of a node in a list of fields.
fn label_of(tree: &Tree, node: NodeNo) -> Option<Label>
    requires { HasNode tree.now node.0 }
    ensures label { option_map (label_texts tree.now) result ≡ label_of (node_of tree.now node.0) }
    ensures has { IfSome result (HasTokens tree.now) }
{
    if !tree.kind(node).is(SyntaxKind::RECORD_EXPR_FIELD) {
        return Some(Label { first: 0, past: 0 });
    }
    let name = field_name(tree, node)?;
    Some(Label::of_node(tree, name))
}

/// Whether a node of the code has a label.
fn has_label(tree: &Tree, label: Label, code: &Tree, node: NodeNo) -> bool
    requires label { HasTokens tree.now label }
    requires node { HasNode code.now node.0 }
    ensures { result ≡ has_label (label_texts tree.now label) (node_of code.now node.0) }
{
    match label_of(code, node) {
        Some(other) => same_texts(tree, label, code, other),
        None => false,
    }
}

/// The first node of a list of the code that has a label.
fn with_label(tree: &Tree, label: Label, code: &Tree, list: NodeNo) -> Option<NodeNo>
    requires label { HasTokens tree.now label }
    requires list { HasNode code.now list.0 }
    ensures node { option_map (λ node. node_of code.now node.0) result ≡ find (has_label (label_texts tree.now label)) (child_nodes (node_of code.now list.0)) }
    ensures has { IfSome result (λ node. HasNode code.now node.0) }
{
    for node in ChildNodes::of(code, list) {
        if has_label(tree, label, code, node) {
            return Some(node);
        }
    }
    None
}

/// The first node of a list of the code that has the label of a node of the pattern.
pub(crate) fn counterpart(pattern: &Tree, node: NodeNo, code: &Tree, list: NodeNo) -> Option<NodeNo>
    requires node { HasNode pattern.now node.0 }
    requires list { HasNode code.now list.0 }
    ensures node { option_map (λ node. node_of code.now node.0) result ≡ find (have_same_label (node_of pattern.now node.0)) (child_nodes (node_of code.now list.0)) }
    ensures has { IfSome result (λ node. HasNode code.now node.0) }
{
    match label_of(pattern, node) {
        Some(label) => with_label(pattern, label, code, list),
        None => None,
    }
}

/// Whether all nodes of a list have labels.
fn are_labelled(tree: &Tree, list: NodeNo) -> bool
    requires { HasNode tree.now list.0 }
    ensures { result ≡ are_labelled (child_nodes (node_of tree.now list.0)) }
{
    for node in ChildNodes::of(tree, list) {
        if label_of(tree, node).is_none() {
            return false;
        }
    }
    true
}

/// Whether one of the first nodes of a list, `count` of them, has the label of a node of the same tree.
fn is_repeated(tree: &Tree, list: NodeNo, count: usize, node: NodeNo) -> bool
    requires list { HasNode tree.now list.0 }
    requires node { HasNode tree.now node.0 }
    ensures { result ≡ list_any (have_same_label (node_of tree.now node.0)) (take count (child_nodes (node_of tree.now list.0))) }
{
    let Some(label) = label_of(tree, node) else {
        return false;
    };
    let mut nodes = ChildNodes::of(tree, list);
    for _ in 0..count {
        let Some(other) = nodes.next() else {
            return false;
        };
        if has_label(tree, label, tree, other) {
            return true;
        }
    }
    false
}

/// Whether no two nodes of a list have the same label.
pub(crate) fn are_different(tree: &Tree, list: NodeNo) -> bool
    requires { HasNode tree.now list.0 }
    ensures { result ≡ are_different (child_nodes (node_of tree.now list.0)) }
{
    let mut count = 0;
    for node in ChildNodes::of(tree, list) {
        if is_repeated(tree, list, count, node) {
            return false;
        }
        count += 1;
    }
    true
}

/// Whether the lists `p` of the pattern and `c` of the code have as many nodes.
pub(crate) fn are_as_many(pattern: &Tree, p: NodeNo, code: &Tree, c: NodeNo) -> bool
    requires p_in { HasNode pattern.now p.0 }
    requires c_in { HasNode code.now c.0 }
    ensures { result ≡ (length (child_nodes (node_of pattern.now p.0)) == length (child_nodes (node_of code.now c.0))) }
{
    let mut others = ChildNodes::of(code, c);
    for _node in ChildNodes::of(pattern, p) {
        if others.next().is_none() {
            return false;
        }
    }
    others.next().is_none()
}

/// Whether a node of the pattern is a field that is named by a placeholder.
#[tactic(auto, using(crate::proofs::CallParts::first_among_nodes))]
fn is_open(rule: &ResolvedRule, pattern: &Tree, node: NodeNo) -> bool
    requires lent { pattern.now ≡ rule.now.pattern }
    requires has { HasNode pattern.now node.0 }
    ensures { result ≡ is_open rule.now (node_of pattern.now node.0) }
{
    if !pattern.kind(node).is(SyntaxKind::RECORD_EXPR_FIELD) {
        return false;
    }
    if let Some(name) = first_child(pattern, node, SyntaxKind::NAME_REF) {
        return rule.placeholder(name).is_some();
    }
    match first_child_node(pattern, node) {
        Some(expr) => rule.placeholder(expr).is_some(),
        None => false,
    }
}

/// Whether a list of the pattern has a field that is named by a placeholder.
fn has_open(rule: &ResolvedRule, pattern: &Tree, list: NodeNo) -> bool
    requires lent { pattern.now ≡ rule.now.pattern }
    requires has { HasNode pattern.now list.0 }
    ensures { result ≡ list_any (is_open rule.now) (child_nodes (node_of pattern.now list.0)) }
{
    for node in ChildNodes::of(pattern, list) {
        if is_open(rule, pattern, node) {
            return true;
        }
    }
    false
}

/// Whether the list `p` of the pattern and the list `c` of the code match by the names of their fields: where all have some,
/// those of the pattern other ones than placeholders.
pub(crate) fn is_named(rule: &ResolvedRule, code: &Tree, p: NodeNo, c: NodeNo) -> bool
    requires p_in { HasNode rule.now.pattern p.0 }
    requires c_in { HasNode code.now c.0 }
    ensures { result ≡ is_named rule.now (node_of rule.now.pattern p.0) (node_of code.now c.0) }
{
    let pattern = rule.pattern();
    pattern.kind(p).is(SyntaxKind::RECORD_EXPR_FIELD_LIST)
        && !has_open(rule, pattern, p)
        && are_labelled(pattern, p)
        && are_labelled(code, c)
}
