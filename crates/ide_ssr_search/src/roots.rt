//! What rules ask of a node, before it is asked whether it matches: most nodes lack it.
ghost use Rattle.std.specs.Prelude.{◌≡◌, ℕ, ◌&&◌, ◌∷◌, ◌↔◌, ◌⊎◌, [], true, false, is_some, IfOk, IsTrue};
ghost use Rattle.std.specs.Option.{option_copied, option_map_or};
ghost use Rattle.ssr_syntax_kinds.specs.declared.kinds.SyntaxKind.{SyntaxKind as Kind};
ghost use Rattle.ssr_syntax_tree.specs.Syntax.{Syntax};
ghost use Rattle.ssr_syntax_tree.specs.Places.{Node, HasNode, HasElement, node_of, part_of, parts_of};
ghost use Rattle.ide_ssr_search.specs.Found.{IsWanted};
ghost use Rattle.ide_ssr_search.specs.Private.Words.{LacksWord};
ghost use Rattle.ide_ssr_search.specs.Private.Roots.{first_counted, counts_first, has_asked, token_asked, has_kind, AreTokenKinds, IsRootOf, IsAskedBy, AreRules, AreKindsIn};

use crate::permitted::names_self;
use crate::words::{counts, pairs_otherwise, word_asked};
use ide_ssr_resolved_rule::ResolvedRule;
use ssr_syntax_kinds::SyntaxKind;
use ssr_syntax_tree::{Element, NodeNo, TokenNo, Tree};
use std::alloc::{AllocError, Global};

/// What the root of a rule's pattern asks of each node that matches it.
#[derive(Clone, Copy)]
pub(crate) enum Root {
    /// A placeholder asks for nothing.
    Placeholder,
    /// A qualified call asks for its kind, or for a method call.
    Call(SyntaxKind),
    /// Any other node asks for its kind, and, if a token directly below it counts for each match, that the first such token
    /// has the kind of its own first one. Of a used path and of a node that matches by other things than its children none
    /// counts.
    Node(SyntaxKind, Option<SyntaxKind>),
}

/// The kind of a child, if it is a token that counts for each match.
fn counted_token(tree: &Tree, child: Element) -> Option<SyntaxKind>
    requires { HasElement tree.now child }
    ensures { result ≡ first_counted (part_of tree.now child ∷ []) }
{
    let Element::Token(token) = child else {
        return None;
    };
    let kind = tree.token_kind(token);
    if counts(kind) { Some(kind) } else { None }
}

/// The kind of the first child of a node that is a token that counts for each match.
fn first_counted(tree: &Tree, node: NodeNo) -> Option<SyntaxKind>
    requires { HasNode tree.now node.0 }
    ensures { result ≡ first_counted (parts_of (node_of tree.now node.0)) }
{
    for child in tree.children(node) {
        if let Some(kind) = counted_token(tree, child) {
            return Some(kind);
        }
    }
    None
}

/// Whether the first child of a node that is a token that counts for each match has a kind, where one is asked for.
fn counts_first(tree: &Tree, kind: Option<SyntaxKind>, node: NodeNo) -> bool
    requires { HasNode tree.now node.0 }
    ensures { result ≡ option_map_or (λ kind. counts_first kind (parts_of (node_of tree.now node.0))) kind true }
{
    match kind {
        Some(kind) => first_counted(tree, node).is_some_and(|own| own.is(kind)),
        None => true,
    }
}

impl Root {
    /// What the root of a rule's pattern asks.
    fn of(rule: &ResolvedRule) -> Root
        ensures { IsRootOf rule.now result }
    {
        let root = NodeNo(0);
        if rule.placeholder(root).is_some() {
            return Root::Placeholder;
        }
        let pattern = rule.pattern();
        let kind = pattern.kind(root);
        if rule.qualified_call(root).is_some() {
            return Root::Call(kind);
        }
        if rule.pattern_res(root).is_some() || pairs_otherwise(kind) {
            return Root::Node(kind, None);
        }
        Root::Node(kind, first_counted(pattern, root))
    }

    /// Whether a node has what is asked.
    pub(crate) fn is_met(self, tree: &Tree, node: NodeNo) -> bool
        requires { HasNode tree.now node.0 }
        ensures { result ≡ has_asked self (node_of tree.now node.0) }
    {
        match self {
            Root::Placeholder => true,
            Root::Call(kind) => {
                let own = tree.kind(node);
                own.is(kind) || own.is(SyntaxKind::METHOD_CALL_EXPR)
            }
            Root::Node(kind, token) => {
                tree.kind(node).is(kind) && counts_first(tree, token, node)
            }
        }
    }

    /// The kind of the token that is asked for, if one is.
    fn token(self) -> Option<SyntaxKind>
        ensures { result ≡ token_asked self }
    {
        match self {
            Root::Node(_, token) => token,
            _ => None,
        }
    }

    /// Whether a tree whose tokens all have kinds of a set may have a node with what is asked.
    fn may_be_met(self, tokens: &KindSet) -> bool
        ensures { (tree : Syntax) (n : ℕ) → HasNode tree n → AreTokenKinds tree tokens.now → has_asked self (node_of tree n) ≡ true → result ≡ true }
    {
        match self.token() {
            Some(token) => tokens.has(token),
            None => true,
        }
    }
}

/// What a rule asks of each node at which it is tried.
#[derive(Clone, Copy)]
pub(crate) struct Asked<'a> {
    pub(crate) root: Root,
    /// The word of each node that matches, if it is known.
    pub(crate) word: Option<&'a str>,
    /// Whether the rule asks that the node stands in the function around the position, since its pattern names the own `self`.
    pub(crate) in_function: bool,
}

impl<'a> Asked<'a> {
    fn by(rule: &'a ResolvedRule) -> Asked<'a>
        ensures { IsAskedBy rule.now result }
    {
        Asked {
            root: Root::of(rule),
            word: word_asked(rule),
            in_function: names_self(rule.pattern()),
        }
    }

    /// Whether a node of this word has the one that is asked for, if one is.
    pub(crate) fn allows(self, word: Option<&str>) -> bool
        ensures { IsTrue result ⊎ LacksWord (option_copied self.entry.word) (option_copied word.entry) }
    {
        let Some(asked) = self.word else {
            return true;
        };
        match word {
            Some(own) => asked == own,
            None => false,
        }
    }
}

/// A set of kinds.
#[derive(Clone, Copy)]
pub(crate) struct KindSet {
    every: bool,
    /// By the number of a kind whether it is one of them.
    listed: [bool; 256],
}

impl KindSet {
    fn none() -> KindSet {
        KindSet {
            every: false,
            listed: [false; 256],
        }
    }

    /// The kinds of a tree's tokens.
    fn of_tokens(tree: &Tree) -> KindSet
        ensures { AreTokenKinds tree.now result }
    {
        let mut kinds = KindSet::none();
        for token in 0..tree.token_count() {
            kinds.add(tree.token_kind(TokenNo(token)));
        }
        kinds
    }

    /// The kinds of nodes that may shut in what is below them.
    fn shutting() -> KindSet
        ensures uses { has_kind result SyntaxKind.USE ≡ true }
        ensures calls { has_kind result SyntaxKind.MACRO_CALL ≡ true }
    {
        let mut kinds = KindSet::none();
        kinds.add(SyntaxKind::USE);
        kinds.add(SyntaxKind::MACRO_CALL);
        kinds
    }

    /// Adds a kind.
    fn add(&mut self, kind: SyntaxKind)
        ensures added { has_kind self.new kind ≡ true }
        ensures kept { (other : Kind) → has_kind self.old other ≡ true → has_kind self.new other ≡ true }
    {
        self.listed[kind as usize] = true;
    }

    /// Adds the kinds of all nodes that have what a root asks for.
    fn add_asked(&mut self, root: Root)
        ensures added { (c : Node) → has_asked root c ≡ true → has_kind self.new c.kind ≡ true }
        ensures kept { (kind : Kind) → has_kind self.old kind ≡ true → has_kind self.new kind ≡ true }
    {
        match root {
            Root::Placeholder => self.every = true,
            Root::Call(kind) => {
                self.add(kind);
                self.add(SyntaxKind::METHOD_CALL_EXPR);
            }
            Root::Node(kind, _) => self.add(kind),
        }
    }

    /// Adds the kinds of all nodes of a tree that have what a root asks for, where the tree's tokens have these kinds.
    fn add_asked_in(&mut self, tokens: &KindSet, root: Root)
        ensures added { (tree : Syntax) (n : ℕ) → HasNode tree n → AreTokenKinds tree tokens.now → has_asked root (node_of tree n) ≡ true → has_kind self.new (node_of tree n).kind ≡ true }
        ensures kept { (kind : Kind) → has_kind self.old kind ≡ true → has_kind self.new kind ≡ true }
    {
        if root.may_be_met(tokens) {
            self.add_asked(root);
        }
    }

    pub(crate) fn has(&self, kind: SyntaxKind) -> bool
        ensures { result ≡ has_kind self.now kind }
    {
        self.every || self.listed[kind as usize]
    }
}

/// The rules of a search, and what they ask.
#[derive(Drop)]
pub(crate) struct Rules<'a, 'f> {
    pub(crate) rules: &'a [ResolvedRule],
    /// Which of the rules are wanted, by their places. The others are passed over.
    pub(crate) wanted: &'f [bool],
    /// What each of the rules asks.
    pub(crate) asked: Vec<Asked<'a>>,
}

impl<'a, 'f> Rules<'a, 'f> {
    /// What rules ask.
    pub(crate) fn new(
        alloc: Global,
        rules: &'a [ResolvedRule],
        wanted: &'f [bool],
    ) -> Result<Rules<'a, 'f>, AllocError>
        ensures rules { IfOk result (λ made. made.rules.now ≡ rules.now) }
        ensures wanted { IfOk result (λ made. made.wanted.now ≡ wanted.now) }
        ensures are { IfOk result AreRules }
    {
        let mut asked = Vec::new(alloc);
        for rule in rules {
            asked.push(Asked::by(rule))?;
        }
        Ok(Rules {
            rules,
            wanted,
            asked,
        })
    }

    /// Whether the rule that has this place among the rules is wanted.
    pub(crate) fn wants(&self, place: usize) -> bool
        ensures { IsTrue result ↔ IsWanted self.now.wanted.now place }
    {
        match self.wanted.get(place) {
            Some(wanted) => *wanted,
            None => false,
        }
    }

    /// The kinds of a tree's nodes that one of the wanted rules may match, and of those that may shut in what is below them. A
    /// rule that asks for a token of a kind that the tree doesn't have matches none.
    pub(crate) fn kinds_in(&self, tree: &Tree) -> KindSet
        requires { AreRules self.now }
        ensures { AreKindsIn self.now tree.now result }
    {
        let tokens = KindSet::of_tokens(tree);
        let mut kinds = KindSet::shutting();
        for (place, asked) in self.asked.iter().enumerate() {
            if !self.wants(place) {
                continue;
            }
            kinds.add_asked_in(&tokens, asked.root);
        }
        kinds
    }
}
