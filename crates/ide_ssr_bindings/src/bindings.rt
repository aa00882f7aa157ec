//! What a placeholder holds in a match.

ghost use Rattle.std.specs.Prelude.{◌≡◌, option_map};
ghost use Rattle.ssr_base_trees.specs.Workspace.{trees, file_span_of};
ghost use Rattle.ide_ssr_bindings.specs.Found.{held_range, node_binding, tokens_binding};

use ssr_base_trees::{FileRange, NodeId, SelfKind, TokenRun, Trees};
use ssr_syntax_tree::NodeNo;

/// What a placeholder holds in the tree of the match.
#[derive(Clone, Copy, PartialEq, Eq)]
pub enum Held {
    Node(NodeNo),
    /// Elements of a token tree that follow each other: all their tokens.
    Tokens(TokenRun),
}

/// What a placeholder of a rule's pattern holds.
#[derive(Clone, Copy, PartialEq, Eq)]
pub struct Binding {
    /// The place of the placeholder's name in the rule's list of names.
    pub placeholder: u32,
    pub held: Held,
    /// How often the receiver of a method call is dereferenced to be the first argument of the qualified call that it
    /// matched; 0 for whatever else is held.
    pub deref_count: usize,
    /// How the method of a method call takes the receiver that is held; `Owned` for whatever else is held.
    pub self_kind: SelfKind,
}

impl Binding {
    /// A placeholder that holds a node.
    pub fn of_node(placeholder: u32, node: NodeNo) -> Binding
        ensures { result ≡ node_binding placeholder node.0 }
    {
        Binding {
            placeholder,
            held: Held::Node(node),
            deref_count: 0,
            self_kind: SelfKind::Owned,
        }
    }

    /// A placeholder that holds elements of a token tree.
    pub fn of_tokens(placeholder: u32, run: TokenRun) -> Binding
        ensures { result ≡ tokens_binding placeholder run }
    {
        Binding {
            placeholder,
            held: Held::Tokens(run),
            deref_count: 0,
            self_kind: SelfKind::Owned,
        }
    }

    /// Where what is held comes from, in a match in the tree with the number `tree`, if it has an original range.
    pub fn original_range(self, workspace: &Trees, tree: u32) -> Option<FileRange>
        ensures { option_map file_span_of result ≡ held_range (trees workspace.now) tree self }
    {
        match self.held {
            Held::Node(node) => workspace.original_range(NodeId { tree, node }),
            Held::Tokens(run) => workspace.original_range_of_tokens(tree, run),
        }
    }
}
