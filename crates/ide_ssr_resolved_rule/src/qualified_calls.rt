//! Qualified calls: calls whose callee names an associated function that takes `self`.
ghost use Rattle.std.specs.Prelude.{◌≡◌};
ghost use Rattle.std.specs.Option.{option_copied};
ghost use Rattle.ide_ssr_resolved_rule.specs.QualifiedCalls.{call_at};

use ssr_base_trees::{DefId, TypeId};
use ssr_syntax_tree::NodeNo;

/// A call of an associated function that takes `self`, with the type of the qualifier in front of its name, if that is one.
#[derive(Clone, Copy, Debug, PartialEq, Eq)]
pub struct QualifiedCall {
    pub node: NodeNo,
    pub function: DefId,
    pub qualifier_type: Option<TypeId>,
}

/// The qualified call that a node is, if it is one of these.
pub(crate) fn call_at(calls: &[QualifiedCall], node: NodeNo) -> Option<&QualifiedCall>
    ensures { option_copied result ≡ call_at calls.now node }
{
    calls.iter().find(|call| call.node == node)
}
