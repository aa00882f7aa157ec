//! The matches that a search finds.

ghost use Rattle.std.specs.Prelude.{◌≡◌};

use crate::bindings::Binding;
use ssr_base_trees::NodeId;
use std::marker::Model;

/// A match: the place (index) of its rule among the rules, its node, and what the placeholders hold, in the order in
/// which they stand in the pattern.
#[derive(Drop)]
pub struct FoundMatch {
    rule: usize,
    node: NodeId,
    bindings: Vec<Binding>,
}

impl Model for FoundMatch {
    ghost use Rattle.ide_ssr_bindings.specs.Found.{FoundMatch as MatchValue};

    ghost Value = { MatchValue };

    ghost view = { λ m. record { rule = m.rule; node = m.node; bindings = m.bindings.items } };
}

impl FoundMatch {
    pub fn new(rule: usize, node: NodeId, bindings: Vec<Binding>) -> FoundMatch
        ensures { result ≡ record { rule = rule; node = node; bindings = bindings.items } }
    {
        FoundMatch {
            rule,
            node,
            bindings,
        }
    }

    /// The place of the rule among the rules of the search.
    pub fn rule(&self) -> usize
        ensures { result ≡ self.now.rule }
    {
        self.rule
    }

    pub fn node(&self) -> NodeId
        ensures { result ≡ self.now.node }
    {
        self.node
    }

    pub fn bindings(&self) -> &[Binding]
        ensures { result.now ≡ self.now.bindings }
    {
        &self.bindings
    }
}
