//! Where a path of the code stands.
ghost use Rattle.std.specs.Prelude.{◌≡◌, false, Contains};
ghost use Rattle.ssr_syntax_tree.specs.declared.number.Element.{Element};
ghost use Rattle.std.specs.Option.{option_map};
ghost use Rattle.ssr_syntax_tree.specs.Places.{HasElement, HasNode, elements_of, node_of};
ghost use Rattle.ssr_base_trees.specs.Workspace.{trees as placed};
ghost use Rattle.ssr_names.specs.Told.{namespace_of};
ghost use Rattle.ssr_names.specs.Locals.{is_in_call, is_in_value, is_value, is_parameter, kind_at, lone_name, plain_name, value_name, HasParameter, HasParameterAt, IsParameter};

use crate::code_paths::{is_alone, last_text, text_of_first};
use ide_ssr_resolved_rule::first_child;
use ssr_base_trees::{NodeId, Trees};
use ssr_names_items::{Namespace, bare};
use ssr_syntax_kinds::SyntaxKind;
use ssr_syntax_tree::{Element, NodeNo, Tree};

/// How many nodes are above one at most: 1,024 in each tree, of which 32 stand in each other.
const MOST_ABOVE: u32 = 65_536;

/// What stands around a node of the code.
#[derive(Clone, Copy)]
pub(crate) struct Place {
    /// The innermost `impl` around, or the innermost item with a `Self` of its own.
    pub(crate) within_impl: Option<NodeId>,
    /// Whether an item around has a generic parameter of the name that was asked for.
    pub(crate) is_generic: bool,
    /// Whether it is a part of a `use` item, of a visibility, or of an attribute.
    pub(crate) is_aside: bool,
}

/// The kind of a node, if there is one of this number.
pub(crate) fn kind_at(trees: &Trees, node: NodeId) -> Option<SyntaxKind>
    ensures { result ≡ kind_at (placed trees.now) node }
{
    let tree = trees.tree(node.tree)?;
    if tree.has(Element::Node(node.node)) {
        Some(tree.kind(node.node))
    } else {
        None
    }
}

/// Whether a node of this kind is a generic parameter that is no lifetime.
fn is_parameter_kind(kind: SyntaxKind) -> bool
    ensures { result ≡ is_parameter kind }
{
    matches!(kind, SyntaxKind::TYPE_PARAM | SyntaxKind::CONST_PARAM)
}

/// Whether a child of a list is a generic parameter of this name.
fn is_parameter(tree: &Tree, child: Element, name: &str) -> bool
    requires { HasElement tree.now child }
    ensures { result ≡ false → ¬ IsParameter tree.now child name.now }
{
    let Element::Node(node) = child else {
        return false;
    };
    if !is_parameter_kind(tree.kind(node)) {
        return false;
    }
    match text_of_first(tree, node, SyntaxKind::NAME) {
        Some(text) => bare(text) == name,
        None => false,
    }
}

/// Whether a list has a generic parameter of this name.
fn lists_parameter(tree: &Tree, list: NodeNo, name: &str) -> bool
    requires { HasNode tree.now list.0 }
    ensures { result ≡ false → (child : Element) → Contains (elements_of (node_of tree.now list.0)) child → ¬ IsParameter tree.now child name.now }
{
    for place in 0..tree.child_count(list) {
        if is_parameter(tree, tree.child(list, place), name) {
            return true;
        }
    }
    false
}

/// Whether a node has a generic parameter of this name.
fn has_parameter(tree: &Tree, node: NodeNo, name: &str) -> bool
    requires { HasNode tree.now node.0 }
    ensures { result ≡ false → ¬ HasParameter tree.now node.0 name.now }
{
    match first_child(tree, node, SyntaxKind::GENERIC_PARAM_LIST) {
        Some(list) => lists_parameter(tree, list, name),
        None => false,
    }
}

/// Whether the item that a node is has a generic parameter of this name.
pub(crate) fn is_generic_at(trees: &Trees, node: NodeId, name: &str) -> bool
    ensures { result ≡ false → ¬ HasParameterAt (placed trees.now) node name.now }
{
    let Some(tree) = trees.tree(node.tree) else {
        return false;
    };
    tree.has(Element::Node(node.node)) && has_parameter(tree, node.node, name)
}

/// What a node adds to what stands around those below it.
fn around(trees: &Trees, place: Place, node: NodeId, kind: SyntaxKind, name: &str) -> Place {
    let mut wider = place;
    match kind {
        SyntaxKind::IMPL
        | SyntaxKind::TRAIT
        | SyntaxKind::STRUCT
        | SyntaxKind::ENUM
        | SyntaxKind::UNION => {
            wider.within_impl = place.within_impl.or(Some(node));
            wider.is_generic = place.is_generic || is_generic_at(trees, node, name);
        }
        SyntaxKind::FN | SyntaxKind::TYPE_ALIAS => {
            wider.is_generic = place.is_generic || is_generic_at(trees, node, name);
        }
        SyntaxKind::USE | SyntaxKind::VISIBILITY | SyntaxKind::ATTR => wider.is_aside = true,
        _ => {}
    }
    wider
}

/// What stands around a node, where a generic parameter of this name counts.
pub(crate) fn place_of(trees: &Trees, node: NodeId, name: &str) -> Place {
    let mut place = Place {
        within_impl: None,
        is_generic: false,
        is_aside: false,
    };
    let mut at = node;
    for _ in 0..MOST_ABOVE {
        let Some(above) = trees.above(at) else {
            break;
        };
        if let Some(kind) = kind_at(trees, above) {
            place = around(trees, place, above, kind, name);
        }
        at = above;
    }
    place
}

/// Whether a path is a field of a record expression alone, which names the field too.
pub(crate) fn is_shorthand(tree: &Tree, path: NodeNo) -> bool
    requires { HasNode tree.now path.0 }
{
    let Some(expr) = tree.parent(path) else {
        return false;
    };
    let Some(field) = tree.parent(expr) else {
        return false;
    };
    if !tree.kind(field).is(SyntaxKind::RECORD_EXPR_FIELD) {
        return false;
    }
    for child in tree.children(field) {
        if let Element::Token(token) = child
            && tree.has(child)
            && tree.token_kind(token).is(SyntaxKind::COLON)
        {
            return false;
        }
    }
    true
}

/// Whether a path that stands in a node of this kind is a value.
fn is_value(kind: SyntaxKind) -> bool
    ensures { result ≡ is_value kind }
{
    matches!(
        kind,
        SyntaxKind::PATH_EXPR | SyntaxKind::PATH_PAT | SyntaxKind::TUPLE_STRUCT_PAT
    )
}

/// Whether a path stands in a value.
fn is_in_value(tree: &Tree, path: NodeNo) -> bool
    requires { HasNode tree.now path.0 }
    ensures { result ≡ is_in_value tree.now path.0 }
{
    match tree.parent(path) {
        Some(parent) => is_value(tree.kind(parent)),
        None => false,
    }
}

/// The namespace of a path's last name, by what the path stands in.
pub(crate) fn namespace_of(tree: &Tree, path: NodeNo) -> Namespace
    requires { HasNode tree.now path.0 }
    ensures { result ≡ namespace_of tree.now path.0 }
{
    let Some(parent) = tree.parent(path) else {
        return Namespace::Type;
    };
    match tree.kind(parent) {
        kind if is_value(kind) => Namespace::Value,
        SyntaxKind::MACRO_CALL => Namespace::Macro,
        _ => Namespace::Type,
    }
}

/// Whether a path stands in the call of a macro, as the macro's name does.
fn is_in_call(tree: &Tree, path: NodeNo) -> bool
    requires { HasNode tree.now path.0 }
    ensures { result ≡ is_in_call tree.now path.0 }
{
    match tree.parent(path) {
        Some(parent) => tree.kind(parent).is(SyntaxKind::MACRO_CALL),
        None => false,
    }
}

/// The name that a path is alone.
fn lone_name(tree: &Tree, path: NodeNo) -> Option<&str>
    requires { HasNode tree.now path.0 }
    ensures { option_map (λ name. name.now) result ≡ lone_name tree.now path.0 }
{
    if !is_alone(tree, path) {
        return None;
    }
    let text = last_text(tree, path)?;
    Some(bare(text))
}

/// The name that a path is alone in the place of a value.
pub(crate) fn value_name(tree: &Tree, path: NodeNo) -> Option<&str>
    requires { HasNode tree.now path.0 }
    ensures { option_map (λ name. name.now) result ≡ value_name tree.now path.0 }
{
    if is_in_value(tree, path) {
        lone_name(tree, path)
    } else {
        None
    }
}

/// The name that a path is alone, but for that of a macro.
pub(crate) fn plain_name(tree: &Tree, path: NodeNo) -> Option<&str>
    requires { HasNode tree.now path.0 }
    ensures { option_map (λ name. name.now) result ≡ plain_name tree.now path.0 }
{
    if is_in_call(tree, path) {
        None
    } else {
        lone_name(tree, path)
    }
}
