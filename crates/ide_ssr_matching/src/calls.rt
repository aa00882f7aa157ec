//! Qualified calls of a pattern against calls of the code.

ghost use Rattle.std.specs.Prelude.{◌≡◌, ◌++◌, All, IfOk, IfSome, OnOk, option_map};
ghost use Rattle.std.specs.List.{position};
ghost use Rattle.std.specs.Option.{option_and_then};
ghost use Rattle.ssr_syntax_tree.specs.Places.{HasNode, node_of};
ghost use Rattle.ssr_base_trees.specs.Workspace.{node_id};
ghost use Rattle.ide_ssr_matching.specs.Calls.{child_nodes, first_among, first_node, arguments_among, method_call, are_call, called_with, called, same_type, derefs, calls_same, receiver_by, can_be_call};
ghost use Rattle.ide_ssr_matching.specs.Private.Calls.{behind_first, called_at, AreCalledBelow, method_at, arguments_at, HasMethodNodes, sides_at, AreSidesBelow};
ghost use Rattle.ide_ssr_matching.specs.Private.Matcher.{call_sides};
ghost use Rattle.ide_ssr_matching.specs.Private.ChildNodes.{nodes_at, IsNodeBelow};

use crate::child_nodes::{ChildNodes, first_child_node, only_child_node};
use crate::matcher::Matcher;
use ide_ssr_bindings::Receiver;
use ide_ssr_resolved_rule::{QualifiedCall, first_child, last_segment};
use ssr_base_trees::{Res, Semantics, TypeId};
use ssr_syntax_kinds::SyntaxKind;
use ssr_syntax_tree::{Element, NodeNo, Tree};
use std::alloc::AllocError;
use std::marker::Model;

/// A call of the pattern: the path that is its callee, and the list of its arguments.
#[derive(Clone, Copy)]
pub(crate) struct CalledNodes {
    pub(crate) path: NodeNo,
    pub(crate) list: NodeNo,
}

/// A method call of the code: its receiver, and its generic arguments and the list of its arguments, if these are there.
#[derive(Clone, Copy)]
pub(crate) struct MethodNodes {
    pub(crate) receiver: NodeNo,
    pub(crate) generics: Option<NodeNo>,
    pub(crate) list: Option<NodeNo>,
}

/// A call of the pattern and a method call of the code whose parts have to pair, and how the method call takes its receiver.
#[derive(Clone, Copy)]
pub(crate) struct MethodSides {
    pub(crate) called: CalledNodes,
    pub(crate) method: MethodNodes,
    pub(crate) receiver: Receiver,
}

/// The first node of a kind among those that are left.
fn first_of(tree: &Tree, nodes: ChildNodes<'_>, kind: SyntaxKind) -> Option<NodeNo>
    requires { All (λ node. HasNode tree.now node.0) nodes }
    ensures node { option_map (λ node. node_of tree.now node.0) result ≡ first_node kind (nodes_at tree.now nodes.entry) }
    ensures has { IfSome result (λ node. HasNode tree.now node.0) }
{
    for node in nodes {
        if tree.kind(node).is(kind) {
            return Some(node);
        }
    }
    None
}

/// The first node of a kind behind the first node of a call.
fn behind_receiver(tree: &Tree, call: NodeNo, kind: SyntaxKind) -> Option<NodeNo>
    requires { HasNode tree.now call.0 }
    ensures node { option_map (λ node. node_of tree.now node.0) result ≡ first_node kind (behind_first (child_nodes (node_of tree.now call.0))) }
    ensures has { IfSome result (λ node. HasNode tree.now node.0) }
{
    let mut nodes = ChildNodes::of(tree, call);
    nodes.next()?;
    first_of(tree, nodes, kind)
}

/// A method call of the code.
fn method_call(tree: &Tree, call: NodeNo) -> Option<MethodNodes>
    requires { HasNode tree.now call.0 }
    ensures method { option_map (method_at tree.now) result ≡ method_call (node_of tree.now call.0) }
    ensures has { IfSome result (HasMethodNodes tree.now) }
{
    let receiver = first_child_node(tree, call)?;
    let generics = behind_receiver(tree, call, SyntaxKind::GENERIC_ARG_LIST);
    let list = behind_receiver(tree, call, SyntaxKind::ARG_LIST);
    Some(MethodNodes {
        receiver,
        generics,
        list,
    })
}

/// The receiver of a method call and the arguments behind it that are left, from the left.
#[derive(Drop)]
pub(crate) struct MethodArguments<'a> {
    receiver: Option<NodeNo>,
    behind: Option<ChildNodes<'a>>,
}

impl<'a> Model for MethodArguments<'a> {
    ghost use Rattle.std.specs.Prelude.{List, ◌++◌, [], option_to_list, unwrap_or};
    ghost use Rattle.ssr_syntax_tree.specs.declared.number.NodeNo.{NodeNo};

    ghost Value = { List NodeNo };

    ghost view = { λ arguments. option_to_list arguments.receiver ++ unwrap_or arguments.behind [] };
}

impl<'a> MethodArguments<'a> {
    /// The receiver of a method call and the arguments behind it.
    pub(crate) fn of(tree: &'a Tree, method: MethodNodes) -> MethodArguments<'a>
        requires { HasMethodNodes tree.now method }
        ensures nodes { nodes_at tree.now result ≡ arguments_at tree.now method }
        ensures has { All (λ node. HasNode tree.now node.0) result }
    {
        let behind = match method.list {
            Some(list) => Some(ChildNodes::of(tree, list)),
            None => None,
        };
        MethodArguments {
            receiver: Some(method.receiver),
            behind,
        }
    }
}

impl<'a> Iterator for MethodArguments<'a> {
    type Item = NodeNo;

    ghost use Rattle.std.specs.Iterator.{YieldsFirst, item_count};

    ghost next_gives = { YieldsFirst (λ left. left) };

    ghost remaining = { item_count (λ left. left) };

    fn next(&mut self) -> Option<NodeNo> {
        if let Some(receiver) = self.receiver.take() {
            return Some(receiver);
        }
        match &mut self.behind {
            Some(nodes) => nodes.next(),
            None => None,
        }
    }
}

/// The path that a callee of the pattern is, if it is only a path, and there is an argument in the list.
fn path_of(tree: &Tree, callee: NodeNo, list: NodeNo) -> Option<NodeNo>
    requires callee { HasNode tree.now callee.0 }
    requires list { HasNode tree.now list.0 }
    ensures path { option_map (λ path. called_at tree.now (record { path = path; list = list })) result ≡ called_with (child_nodes (node_of tree.now callee.0)) (child_nodes (node_of tree.now list.0)) }
    ensures below { IfSome result (IsNodeBelow tree.now callee.0) }
{
    let path = only_child_node(tree, callee)?;
    first_child_node(tree, list)?;
    if !tree.kind(path).is(SyntaxKind::PATH) {
        return None;
    }
    last_segment(tree, path)?;
    Some(path)
}

/// Whether two nodes are a path expression and a list of arguments.
fn are_call(tree: &Tree, callee: NodeNo, list: NodeNo) -> bool
    requires callee { HasNode tree.now callee.0 }
    requires list { HasNode tree.now list.0 }
    ensures { result ≡ are_call (node_of tree.now callee.0) (node_of tree.now list.0) }
{
    tree.kind(callee).is(SyntaxKind::PATH_EXPR) && tree.kind(list).is(SyntaxKind::ARG_LIST)
}

/// A call of the pattern, if its callee is only a path and it has an argument.
fn called(tree: &Tree, call: NodeNo) -> Option<CalledNodes>
    requires { HasNode tree.now call.0 }
    ensures called { option_map (called_at tree.now) result ≡ called (node_of tree.now call.0) }
    ensures below { IfSome result (AreCalledBelow tree.now call.0) }
{
    let mut nodes = ChildNodes::of(tree, call);
    let callee = nodes.next()?;
    let list = nodes.next()?;
    if nodes.next().is_some() {
        return None;
    }
    if !are_call(tree, callee, list) {
        return None;
    }
    let path = path_of(tree, callee, list)?;
    Some(CalledNodes { path, list })
}

/// The place of a type among types.
fn place_of(types: &[TypeId], wanted: TypeId) -> Option<usize>
    ensures { result ≡ position (same_type wanted) types.now }
{
    types.iter().position(|ty| *ty == wanted)
}

/// The first argument of a call.
#[tactic(auto, using(crate::proofs::CallParts::first_among_nodes))]
fn first_argument(tree: &Tree, call: NodeNo) -> Option<NodeNo>
    requires { HasNode tree.now call.0 }
    ensures node { option_map (λ argument. node_of tree.now argument.0) result ≡ first_among (arguments_among (child_nodes (node_of tree.now call.0))) }
    ensures has { IfSome result (λ argument. HasNode tree.now argument.0) }
{
    let list = first_child(tree, call, SyntaxKind::ARG_LIST)?;
    first_child_node(tree, list)
}

impl<'a, S: Semantics> Matcher<'a, S> {
    /// How often a node of the code is dereferenced to be of a type, if it can be; without a type, never.
    fn derefs(&self, wanted: Option<TypeId>, node: NodeNo) -> Result<Option<usize>, AllocError>
        ensures { IfOk result (λ count. count ≡ derefs (S.meanings self.now.semantics.now) wanted (node_id self.now.number node.0)) }
    {
        let Some(wanted) = wanted else {
            return Ok(Some(0));
        };
        match self.semantics.types(self.alloc, self.place(node))? {
            Some(types) => Ok(place_of(&types, wanted)),
            None => Ok(None),
        }
    }

    /// Whether the method call `c` of the code calls what a callee stands for.
    fn calls_same(&self, used: Option<Res>, c: NodeNo) -> Result<bool, AllocError>
        ensures { IfOk result (λ same. same ≡ calls_same (S.meanings self.now.semantics.now) used (node_id self.now.number c.0)) }
    {
        let Some(res) = used else {
            return Ok(false);
        };
        match self.semantics.resolve_method(self.alloc, self.place(c))? {
            Some(function) => Ok(res == Res::Def(function)),
            None => Ok(false),
        }
    }

    /// How the method call `c` takes the node `receiver`, if that can be of the qualifier's type.
    fn receiver_by(
        &self,
        wanted: Option<TypeId>,
        c: NodeNo,
        receiver: NodeNo,
    ) -> Result<Option<Receiver>, AllocError>
        ensures { IfOk result (λ found. found ≡ receiver_by (S.meanings self.now.semantics.now) self.now.number wanted c.0 receiver.0) }
    {
        let Some(deref_count) = self.derefs(wanted, receiver)? else {
            return Ok(None);
        };
        Ok(Some(Receiver {
            node: receiver,
            deref_count,
            self_kind: self.semantics.self_kind(self.place(c)),
        }))
    }

    /// The nodes of a qualified call of the pattern and of a method call, whose parts have to pair so that they match; none,
    /// where they cannot.
    pub(crate) fn method_sides(
        &self,
        call: QualifiedCall,
        p: NodeNo,
        c: NodeNo,
    ) -> Result<Option<MethodSides>, AllocError>
        requires p_in { HasNode self.now.rule.now.pattern p.0 }
        requires c_in { HasNode self.now.code.now c.0 }
        ensures sides { IfOk result (λ sides. option_and_then (sides_at self.now.rule.now.pattern self.now.code.now) sides ≡ call_sides S.meanings self.now call p c) }
        ensures below { IfOk result (λ sides. IfSome sides (AreSidesBelow self.now.rule.now.pattern self.now.code.now p.0)) }
    {
        let Some(called) = called(self.rule.pattern(), p) else {
            return Ok(None);
        };
        let used = self.rule.pattern_res(called.path);
        if !self.calls_same(used, c)? {
            return Ok(None);
        }
        let Some(method) = method_call(self.code, c) else {
            return Ok(None);
        };
        let wanted = call.qualifier_type;
        let Some(receiver) = self.receiver_by(wanted, c, method.receiver)? else {
            return Ok(None);
        };
        Ok(Some(MethodSides {
            called,
            method,
            receiver,
        }))
    }

    /// Whether the call `c` of the code can be a qualified call of the pattern: its first argument, if there is one, has to be
    /// of the qualifier's type, maybe after dereferences.
    pub(crate) fn can_be_call(
        &self,
        call: Option<QualifiedCall>,
        c: NodeNo,
    ) -> Result<bool, AllocError>
        requires { HasNode self.now.code.now c.0 }
        ensures { IfOk result (λ can. can ≡ can_be_call (S.meanings self.now.semantics.now) self.now.number call (node_of self.now.code.now c.0)) }
    {
        let Some(call) = call else {
            return Ok(true);
        };
        match first_argument(self.code, c) {
            Some(first) => {
                let count = self.derefs(call.qualifier_type, first)?;
                Ok(count.is_some())
            }
            None => Ok(true),
        }
    }
}
