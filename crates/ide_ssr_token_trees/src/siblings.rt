//! The elements of a token tree, one after the other.

ghost use Rattle.std.specs.Prelude.{◌≡◌, ◌&&◌, is_some, ◌++◌, ◌<◌, ◌^◌, [], All, IfNone, None, false, map, option_to_list};
ghost use Rattle.std.specs.Option.{IfSome, option_copied};
ghost use Rattle.ssr_syntax_tree.specs.Places.{HasNode, HasElement, node_of, part_of, parts_of, elements_of};
ghost use Rattle.ssr_syntax_tree.specs.Syntax.{token_count};
ghost use Rattle.ide_ssr_token_trees.specs.Bindings.{passed};
ghost use Rattle.ide_ssr_token_trees.specs.Elements.{closes_part, last_comma, is_number, is_trivia_part, without_trivia, first_text, first_token, tokens_at, tokens_among, next_text, same_text, up_to, from};
ghost use Rattle.ide_ssr_token_trees.specs.Private.Siblings.{siblings_left, parts_left, number_of, comma_at, run_by, behind_run, IsRest};
ghost use Rattle.ide_ssr_token_trees.specs.TokenTrees.{is_passed};

use crate::elements::{closes, is_trivia};
use ssr_base_trees::TokenRun;
use ssr_syntax_kinds::SyntaxKind;
use ssr_syntax_tree::{Children, Element, NodeNo, TokenNo, Tree};

/// The elements of a token tree that are left, while they are gone over.
#[derive(Drop)]
pub(crate) struct Siblings<'a> {
    /// The comma directly, trivia aside, before the closing bracket.
    comma: Option<TokenNo>,
    /// An element that was looked at, in front of the others.
    held: Option<Element>,
    left: Children<'a>,
}

/// The tokens of an element.
fn tokens_of(tree: &Tree, element: Element) -> TokenRun
    requires { HasElement tree.now element }
    ensures first { result.first ≡ first_token (part_of tree.now element) }
    ensures count { result.count ≡ tokens_at (part_of tree.now element) }
{
    match element {
        Element::Token(token) => TokenRun {
            first: token.0,
            count: 1,
        },
        Element::Node(node) => {
            let tokens = tree.tokens_below(node);
            TokenRun {
                first: tokens.start,
                count: tokens.end - tokens.start,
            }
        }
    }
}

/// The text of an element's first token.
fn first_text(tree: &Tree, element: Element) -> Option<&str>
    requires { HasElement tree.now element }
    ensures { option_copied result ≡ first_text (part_of tree.now element) }
{
    let tokens = tokens_of(tree, element);
    if tokens.count == 0 {
        return None;
    }
    Some(tree.token_text(TokenNo(tokens.first)))
}

/// Whether an element's first token has the text, if there is one.
fn begins_with(tree: &Tree, element: Element, text: Option<&str>) -> bool
    requires { HasElement tree.now element }
    ensures { result ≡ same_text (first_text (part_of tree.now element)) (option_copied text.entry) }
{
    match (first_text(tree, element), text) {
        (Some(first), Some(text)) => first == text,
        _ => false,
    }
}

/// Whether an element is the closing bracket that comes behind a comma, if there is one.
fn closes_behind(tree: &Tree, comma: Option<TokenNo>, element: Element) -> bool
    requires { HasElement tree.now element }
    ensures { result ≡ (is_some (number_of comma) && closes_part (part_of tree.now element)) }
{
    comma.is_some() && closes(tree, element)
}

/// The last comma, trivia aside, up to an element, where `before` is the one before it.
fn comma_at(tree: &Tree, before: Option<TokenNo>, element: Element) -> Option<TokenNo>
    requires { HasElement tree.now element }
    ensures { number_of result ≡ comma_at (number_of before) (part_of tree.now element) }
{
    let Element::Token(token) = element else {
        return None;
    };
    let kind = tree.token_kind(token);
    if kind.is_trivia() {
        return before;
    }
    if kind.is(SyntaxKind::COMMA) {
        Some(token)
    } else {
        None
    }
}

/// The comma directly, trivia aside, before the closing bracket of a token tree.
fn last_comma(tree: &Tree, node: NodeNo) -> Option<TokenNo>
    requires { HasNode tree.now node.0 }
    ensures { number_of result ≡ last_comma (parts_of (node_of tree.now node.0)) }
{
    let mut comma = None;
    for element in tree.children(node) {
        if closes_behind(tree, comma, element) {
            return comma;
        }
        comma = comma_at(tree, comma, element);
    }
    None
}

impl<'a> Siblings<'a> {
    /// The elements of a token tree.
    pub(crate) fn of(tree: &'a Tree, node: NodeNo) -> Siblings<'a>
        requires { HasNode tree.now node.0 }
        ensures left { siblings_left result ≡ elements_of (node_of tree.now node.0) }
        ensures comma { number_of result.comma ≡ last_comma (parts_of (node_of tree.now node.0)) }
        ensures few { token_count (node_of tree.now node.0).children < 2 ^ 32 }
    {
        // 32 bits count its tokens.
        let _tokens = tree.tokens_below(node);
        Siblings {
            comma: last_comma(tree, node),
            held: None,
            left: tree.children(node),
        }
    }

    /// Whether a token is the comma before the closing bracket.
    pub(crate) fn is_comma(&self, token: TokenNo) -> bool
        ensures { result ≡ is_number (number_of self.now.comma) token.0 }
    {
        match self.comma {
            Some(comma) => comma.0 == token.0,
            None => false,
        }
    }

    /// Whether an element is passed over, where no placeholder takes it.
    fn passes(&self, tree: &Tree, element: Element) -> bool
        requires { HasElement tree.now element }
        ensures { result ≡ is_passed (number_of self.now.comma) (part_of tree.now element) }
    {
        match element {
            Element::Token(token) => tree.token_kind(token).is_trivia() || self.is_comma(token),
            Element::Node(_) => false,
        }
    }

    /// The next element.
    fn advance(&mut self) -> Option<Element>
        ensures gives { siblings_left self.old ≡ option_to_list result ++ siblings_left self.new }
        ensures none { IfNone result (siblings_left self.new ≡ []) }
        ensures held { self.new.held ≡ None }
        ensures comma { self.new.comma ≡ self.old.comma }
    {
        match self.held.take() {
            Some(held) => Some(held),
            None => self.left.next(),
        }
    }

    /// The next element that is no trivia.
    pub(crate) fn next_solid(&mut self, tree: &Tree) -> Option<Element>
        requires { All (HasElement tree.now) (siblings_left self.old) }
        ensures gives { without_trivia (parts_left tree.now self.old) ≡ map (part_of tree.now) (option_to_list result) ++ without_trivia (parts_left tree.now self.new) }
        ensures rest { IsRest self.old (option_to_list result) self.new }
        ensures solid { IfSome result (λ element. is_trivia_part (part_of tree.now element) ≡ false) }
        ensures none { IfNone result (siblings_left self.new ≡ []) }
        ensures held { self.new.held ≡ None }
    {
        while let Some(element) = self.advance() {
            if !is_trivia(tree, element) {
                return Some(element);
            }
        }
        None
    }

    /// The next element that is not passed over.
    pub(crate) fn next_counted(&mut self, tree: &Tree) -> Option<Element>
        requires { All (HasElement tree.now) (siblings_left self.old) }
        ensures gives { passed (number_of self.old.comma) (parts_left tree.now self.old) ≡ map (part_of tree.now) (option_to_list result ++ siblings_left self.new) }
        ensures rest { IsRest self.old (option_to_list result) self.new }
        ensures none { IfNone result (siblings_left self.new ≡ []) }
        ensures held { self.new.held ≡ None }
    {
        while let Some(element) = self.advance() {
            if !self.passes(tree, element) {
                return Some(element);
            }
        }
        None
    }

    /// Passes the next elements, as long as they are passed over where no placeholder takes them.
    pub(crate) fn pass(&mut self, tree: &Tree)
        requires { All (HasElement tree.now) (siblings_left self.old) }
        ensures gives { parts_left tree.now self.new ≡ passed (number_of self.old.comma) (parts_left tree.now self.old) }
        ensures rest { IsRest self.old [] self.new }
    {
        self.held = self.next_counted(tree);
    }

    /// The text of the next element's first token, where trivia don't count.
    pub(crate) fn next_text<'t>(&mut self, tree: &'t Tree) -> Option<&'t str>
        requires { All (HasElement tree.now) (siblings_left self.old) }
        ensures text { option_copied result ≡ next_text (without_trivia (parts_left tree.now self.old)) }
        ensures same { without_trivia (parts_left tree.now self.new) ≡ without_trivia (parts_left tree.now self.old) }
        ensures rest { IsRest self.old [] self.new }
    {
        let Some(next) = self.next_solid(tree) else {
            return None;
        };
        self.held = Some(next);
        first_text(tree, next)
    }

    /// Passes the elements up to the first whose first token has the text, and counts their tokens.
    fn count_up_to(&mut self, tree: &Tree, text: Option<&str>) -> u32
        requires has { All (HasElement tree.now) (siblings_left self.old) }
        requires few { tokens_among (parts_left tree.now self.old) < 2 ^ 32 }
        ensures count { result ≡ tokens_among (up_to (option_copied text.entry) (parts_left tree.now self.old)) }
        ensures gives { parts_left tree.now self.new ≡ from (option_copied text.entry) (parts_left tree.now self.old) }
        ensures rest { IsRest self.old [] self.new }
    {
        let mut count = 0;
        while let Some(element) = self.advance() {
            if begins_with(tree, element, text) {
                self.held = Some(element);
                return count;
            }
            count += tokens_of(tree, element).count;
        }
        count
    }

    /// The tokens of the next element, whatever that is, and of those behind it up to the first whose first token has the text;
    /// none where there is no next one.
    pub(crate) fn take_run(&mut self, tree: &Tree, text: Option<&str>) -> Option<TokenRun>
        requires has { All (HasElement tree.now) (siblings_left self.old) }
        requires few { tokens_among (parts_left tree.now self.old) < 2 ^ 32 }
        ensures run { result ≡ run_by (option_copied text.entry) (parts_left tree.now self.old) }
        ensures gives { parts_left tree.now self.new ≡ behind_run (option_copied text.entry) (parts_left tree.now self.old) }
        ensures rest { IsRest self.old [] self.new }
    {
        let first = self.advance()?;
        let tokens = tokens_of(tree, first);
        let count = tokens.count + self.count_up_to(tree, text);
        if count == 0 {
            return None;
        }
        Some(TokenRun {
            first: tokens.first,
            count,
        })
    }
}
