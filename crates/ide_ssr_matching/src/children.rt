//! A node's children, without those that do not count for a match.

ghost use Rattle.std.specs.Prelude.{◌≡◌, ◌==◌, ◌∷◌, ◌++◌, [], true, false, All, IfNone, None, length, map, option_to_list};
ghost use Rattle.ssr_syntax_tree.specs.Places.{HasNode, HasElement, node_of, part_of, parts_of, elements_of};
ghost use Rattle.ide_ssr_matching.specs.Bindings.{counted};
ghost use Rattle.ide_ssr_token_trees.specs.Elements.{is_trivia_part};
ghost use Rattle.ide_ssr_matching.specs.Children.{bare};
ghost use Rattle.ide_ssr_matching.specs.UsedPaths.{holds_arguments, from_arguments, arguments_of};
ghost use Rattle.ide_ssr_matching.specs.Private.Children.{has_kind, solid, siblings_left, IsElementBelow, AreKept};

use ide_ssr_resolved_rule::{is_arguments, last_segment};
use ide_ssr_token_trees::{closes, is_trivia};
use ssr_base_trees::Res;
use ssr_syntax_kinds::SyntaxKind;
use ssr_syntax_tree::{Children, Element, NodeNo, Tree};

/// The children of a node that are left, while they are gone over.
#[derive(Drop)]
pub(crate) struct Siblings<'a> {
    /// A child that was looked at, in front of the others.
    held: Option<Element>,
    left: Children<'a>,
}

/// Whether a child is a comma.
fn is_comma(tree: &Tree, child: Element) -> bool
    requires { HasElement tree.now child }
    ensures { result ≡ has_kind SyntaxKind.COMMA (part_of tree.now child) }
{
    match child {
        Element::Token(token) => tree.token_kind(token).is(SyntaxKind::COMMA),
        Element::Node(_) => false,
    }
}

/// Whether a child of a segment is generic arguments, arguments in parentheses or a return type.
fn holds_arguments(tree: &Tree, child: Element) -> bool
    requires { HasElement tree.now child }
    ensures { result ≡ holds_arguments (part_of tree.now child) }
{
    match child {
        Element::Token(_) => false,
        Element::Node(node) => is_arguments(tree.kind(node)),
    }
}

impl<'a> Siblings<'a> {
    /// The children of a node.
    fn of(tree: &'a Tree, node: NodeNo) -> Siblings<'a>
        requires { HasNode tree.now node.0 }
        ensures { siblings_left result ≡ elements_of (node_of tree.now node.0) }
    {
        Siblings {
            held: None,
            left: tree.children(node),
        }
    }

    /// The next child.
    fn advance(&mut self) -> Option<Element>
        ensures gives { siblings_left self.old ≡ option_to_list result ++ siblings_left self.new }
        ensures none { IfNone result (siblings_left self.new ≡ []) }
        ensures held { self.new.held ≡ None }
    {
        match self.held.take() {
            Some(held) => Some(held),
            None => self.left.next(),
        }
    }

    /// Passes all children that are left.
    fn pass_all(&mut self)
        ensures { siblings_left self.new ≡ [] }
    {
        while let Some(_child) = self.advance() {}
    }

    /// Passes the children in front of the first one that holds arguments.
    fn pass_to_arguments(&mut self, tree: &Tree)
        requires { All (HasElement tree.now) (siblings_left self.old) }
        ensures gives { map (part_of tree.now) (siblings_left self.new) ≡ from_arguments (map (part_of tree.now) (siblings_left self.old)) }
        ensures kept { AreKept (siblings_left self.old) (siblings_left self.new) }
    {
        while let Some(child) = self.advance() {
            if holds_arguments(tree, child) {
                self.held = Some(child);
                return;
            }
        }
    }

    /// The arguments of a path's last segment.
    pub(crate) fn arguments(tree: &'a Tree, path: NodeNo) -> Siblings<'a>
        requires { HasNode tree.now path.0 }
        ensures gives { map (part_of tree.now) (siblings_left result) ≡ arguments_of (node_of tree.now path.0) }
        ensures below { All (IsElementBelow tree.now path.0) (siblings_left result) }
    {
        let Some(segment) = last_segment(tree, path) else {
            let mut none = Siblings::of(tree, path);
            none.pass_all();
            return none;
        };
        let mut siblings = Siblings::of(tree, segment);
        siblings.pass_to_arguments(tree);
        siblings
    }

    /// What counts of a node: of a used path the arguments of its last segment, else the children.
    pub(crate) fn counted(tree: &'a Tree, node: NodeNo, used: Option<Res>) -> Siblings<'a>
        requires { HasNode tree.now node.0 }
        ensures gives { map (part_of tree.now) (siblings_left result) ≡ counted used (arguments_of (node_of tree.now node.0)) (parts_of (node_of tree.now node.0)) }
        ensures below { All (IsElementBelow tree.now node.0) (siblings_left result) }
    {
        match used {
            Some(_) => Siblings::arguments(tree, node),
            None => Siblings::of(tree, node),
        }
    }

    /// The next child that is no trivia.
    fn next_solid(&mut self, tree: &Tree) -> Option<Element>
        requires { All (HasElement tree.now) (siblings_left self.old) }
        ensures gives { solid (map (part_of tree.now) (siblings_left self.old)) ≡ map (part_of tree.now) (option_to_list result ++ siblings_left self.new) }
        ensures kept { AreKept (siblings_left self.old) (option_to_list result ++ siblings_left self.new) }
        ensures none { IfNone result (siblings_left self.new ≡ []) }
        ensures held { self.new.held ≡ None }
    {
        while let Some(child) = self.advance() {
            if !is_trivia(tree, child) {
                return Some(child);
            }
        }
        None
    }

    /// What counts next for a match where a comma has come: the comma, but directly, trivia aside, before a closing
    /// bracket that bracket.
    fn behind_comma(&mut self, tree: &Tree, comma: Element) -> Element
        requires has { All (HasElement tree.now) (siblings_left self.old) }
        requires comma { has_kind SyntaxKind.COMMA (part_of tree.now comma) ≡ true }
        requires no_trivia { is_trivia_part (part_of tree.now comma) ≡ false }
        ensures gives { bare (part_of tree.now comma ∷ map (part_of tree.now) (siblings_left self.old)) ≡ part_of tree.now result ∷ bare (map (part_of tree.now) (siblings_left self.new)) }
        ensures kept { AreKept (comma ∷ siblings_left self.old) (result ∷ siblings_left self.new) }
    {
        let Some(behind) = self.next_solid(tree) else {
            return comma;
        };
        if closes(tree, behind) {
            return behind;
        }
        self.held = Some(behind);
        comma
    }

    /// The next child that counts for a match: no trivia, and no comma directly, trivia aside, before a closing bracket.
    pub(crate) fn next_bare(&mut self, tree: &Tree) -> Option<Element>
        requires { All (HasElement tree.now) (siblings_left self.old) }
        ensures gives { bare (map (part_of tree.now) (siblings_left self.old)) ≡ (map (part_of tree.now) (option_to_list result) ++ bare (map (part_of tree.now) (siblings_left self.new))) }
        ensures none { IfNone result (siblings_left self.new ≡ []) }
        ensures kept { AreKept (siblings_left self.old) (option_to_list result ++ siblings_left self.new) }
    {
        let first = self.next_solid(tree)?;
        if !is_comma(tree, first) {
            return Some(first);
        }
        Some(self.behind_comma(tree, first))
    }
}

/// Whether a path's last segment has no bare arguments.
pub(crate) fn lacks_arguments(tree: &Tree, path: NodeNo) -> bool
    requires { HasNode tree.now path.0 }
    ensures { result ≡ (length (bare (arguments_of (node_of tree.now path.0))) == 0) }
{
    let mut siblings = Siblings::arguments(tree, path);
    siblings.next_bare(tree).is_none()
}
