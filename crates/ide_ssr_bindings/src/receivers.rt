//! The receiver of a method call that a qualified call matches.

ghost use Rattle.std.specs.Prelude.{◌≡◌};
ghost use Rattle.ide_ssr_bindings.specs.Receivers.{is_node, received};

use crate::bindings::{Binding, Held};
use ssr_base_trees::SelfKind;
use ssr_syntax_tree::NodeNo;

/// The receiver of a method call: its node, how often that is dereferenced to be what the qualified call takes, and how the
/// method takes it.
#[derive(Clone, Copy)]
pub struct Receiver {
    pub node: NodeNo,
    pub deref_count: usize,
    pub self_kind: SelfKind,
}

/// Whether what is held is this node.
fn is_node(node: NodeNo, held: Held) -> bool
    ensures { result ≡ is_node node.0 held }
{
    match held {
        Held::Node(other) => other == node,
        Held::Tokens(_) => false,
    }
}

impl Receiver {
    /// A binding of the match: one that holds the receiver keeps how it is taken.
    pub fn received(self, binding: Binding) -> Binding
        ensures { result ≡ received self binding }
    {
        if !is_node(self.node, binding.held) {
            return binding;
        }
        Binding {
            deref_count: self.deref_count,
            self_kind: self.self_kind,
            ..binding
        }
    }
}
