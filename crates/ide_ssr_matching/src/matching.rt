//! Whether a node of the code matches a node of a pattern.

ghost use Rattle.std.specs.Prelude.{◌≡◌, ◌↔◌, ◌+◌, IfOk, IsTrue, is_some, option_map};
ghost use Rattle.ssr_syntax_tree.specs.Places.{HasNode, HasElement, node_of, root_of};
ghost use Rattle.ide_ssr_matching.specs.Bindings.{placeholder_by, bindings_of};
ghost use Rattle.ide_ssr_matching.specs.Matching.{HasShape};
ghost use Rattle.ide_ssr_token_trees.specs.Bindings.{Answers};
ghost use Rattle.ide_ssr_matching.specs.Private.Calls.{HasMethodNodes};
ghost use Rattle.ide_ssr_matching.specs.Private.Matcher.{HasRootShape, at_root, at_node, at_parts, at_method, at_generics, at_arguments, at_like, can_be_like, at_pairs, at_named, at_fields, at_children, at_elements};

use crate::calls::{CalledNodes, MethodArguments, MethodNodes};
use crate::child_nodes::ChildNodes;
use crate::children::Siblings;
use crate::matcher::Matcher;
use crate::records::{are_as_many, are_different, counterpart, is_named};
use crate::token_trees::{is_plain, is_token_tree, tree_matches};
use crate::tries::Tries;
use ide_ssr_bindings::Binding;
use ide_ssr_resolved_rule::{QualifiedCall, ResolvedRule};
use ide_ssr_token_trees::{Record, tokens_match};
use ssr_base_trees::{NodeId, Res, Semantics};
use ssr_syntax_kinds::SyntaxKind;
use ssr_syntax_tree::{Element, NodeNo, Tree};
use std::alloc::{AllocError, Global};

impl<'a, S: Semantics> Matcher<'a, S> {
    /// Whether a placeholder of the rule matches the node `c` of the code; if so, `out` gets that it binds it.
    fn placeholder_matches(
        &self,
        placeholder: u32,
        c: NodeNo,
        out: &mut Record,
    ) -> Result<bool, AllocError>
        requires { HasNode self.now.code.now c.0 }
        ensures { IfOk result (Answers (placeholder_by self.now.rule.now placeholder (node_of self.now.code.now c.0)) out.old out.new) }
    {
        if !self.rule.meets(placeholder, self.code.kind(c)) {
            return Ok(false);
        }
        out.add(Binding::of_node(placeholder, c))?;
        Ok(true)
    }

    /// Whether the node `c`, which is of the kind of the node `p` of the pattern, can match it: where `p` is a used path, `c`
    /// has to stand for the same thing, if names are asked; where it is a qualified call with a qualifier type, the first
    /// argument has to be of that type.
    fn can_match(&self, used: Option<Res>, p: NodeNo, c: NodeNo) -> Result<bool, AllocError>
        requires p_in { HasNode self.now.rule.now.pattern p.0 }
        requires c_in { HasNode self.now.code.now c.0 }
        ensures { IfOk result (λ answer. answer ≡ can_be_like S.meanings self.now used p c) }
    {
        match used {
            Some(res) => {
                let stands = self.stands_if(res, c)?;
                Ok(stands)
            }
            None => {
                let can = self.can_be_call(self.rule.qualified_call(p), c)?;
                Ok(can)
            }
        }
    }

    /// Whether the node `c` of the code matches the node `p` of the rule's pattern; if so, `out` gets what the placeholders
    /// bind.
    #[cycle(matching)]
    fn node_matches(&self, p: NodeNo, c: NodeNo, out: &mut Record) -> Result<bool, AllocError>
        requires p_in { HasNode self.now.rule.now.pattern p.0 }
        requires c_in { HasNode self.now.code.now c.0 }
        ensures { IfOk result (Answers (at_node S.meanings self.now p c) out.old out.new) }
    {
        if let Some(placeholder) = self.rule.placeholder(p) {
            return self.placeholder_matches(placeholder, c, out);
        }
        if is_token_tree(self.rule.pattern(), p) {
            return tree_matches(self.rule, self.code, p, c, out);
        }
        if !is_plain(self.rule, p) {
            return Ok(false);
        }
        self.parts_match(p, c, out)
    }

    /// Whether the node `c` of the code matches the node `p` of the rule's pattern, which is no placeholder and no token tree;
    /// if so, `out` gets what the placeholders bind.
    #[cycle(matching)]
    fn parts_match(&self, p: NodeNo, c: NodeNo, out: &mut Record) -> Result<bool, AllocError>
        requires p_in { HasNode self.now.rule.now.pattern p.0 }
        requires c_in { HasNode self.now.code.now c.0 }
        ensures { IfOk result (Answers (at_parts S.meanings self.now p c) out.old out.new) }
    {
        if !self.code.kind(c).is(SyntaxKind::METHOD_CALL_EXPR) {
            return self.like_matches(p, c, out);
        }
        match self.rule.qualified_call(p) {
            Some(call) => self.method_matches(call, p, c, out),
            None => self.like_matches(p, c, out),
        }
    }

    /// Whether the method call `c` of the code matches the qualified call `p` of the rule's pattern; if so, `out` gets what the
    /// placeholders bind.
    #[cycle(matching)]
    fn method_matches(
        &self,
        call: QualifiedCall,
        p: NodeNo,
        c: NodeNo,
        out: &mut Record,
    ) -> Result<bool, AllocError>
        requires p_in { HasNode self.now.rule.now.pattern p.0 }
        requires c_in { HasNode self.now.code.now c.0 }
        ensures { IfOk result (Answers (at_method S.meanings self.now call p c) out.old out.new) }
    {
        let Some(sides) = self.method_sides(call, p, c)? else {
            return Ok(false);
        };
        let called = sides.called;
        let method = sides.method;
        let mut held = out.empty(self.alloc);
        if !self.generics_match(called, method, &mut held)? {
            return Ok(false);
        }
        if !self.arguments_match(called, method, &mut held)? {
            return Ok(false);
        }
        out.keep(sides.receiver, &held)?;
        Ok(true)
    }

    /// Whether the generic arguments of a method call of the code match those of the callee of a call of the rule's pattern:
    /// they are there on both sides or on neither. If so, `out` gets what the placeholders bind.
    #[cycle(matching)]
    fn generics_match(
        &self,
        called: CalledNodes,
        method: MethodNodes,
        out: &mut Record,
    ) -> Result<bool, AllocError>
        requires path_in { HasNode self.now.rule.now.pattern called.path.0 }
        requires method_in { HasMethodNodes self.now.code.now method }
        ensures { IfOk result (Answers (at_generics S.meanings self.now called method) out.old out.new) }
    {
        let pattern = self.rule.pattern();
        let mut arguments = Siblings::arguments(pattern, called.path);
        let mut left = method.generics;
        while let Some(first) = arguments.next_bare(pattern) {
            let Some(other) = left.take() else {
                return Ok(false);
            };
            if !self.pair_matches(first, Element::Node(other), out)? {
                return Ok(false);
            }
        }
        Ok(left.is_none())
    }

    /// Whether the receiver of a method call of the code and the arguments behind it match the arguments of a call of the
    /// rule's pattern, one by one, with none left over; if so, `out` gets what the placeholders bind.
    #[cycle(matching)]
    fn arguments_match(
        &self,
        called: CalledNodes,
        method: MethodNodes,
        out: &mut Record,
    ) -> Result<bool, AllocError>
        requires list_in { HasNode self.now.rule.now.pattern called.list.0 }
        requires method_in { HasMethodNodes self.now.code.now method }
        ensures { IfOk result (Answers (at_arguments S.meanings self.now called method) out.old out.new) }
    {
        let mut cs = MethodArguments::of(self.code, method);
        for first in ChildNodes::of(self.rule.pattern(), called.list) {
            let Some(other) = cs.next() else {
                return Ok(false);
            };
            if !self.node_matches(first, other, out)? {
                return Ok(false);
            }
        }
        Ok(cs.next().is_none())
    }

    /// Whether the node `c` of the code is of the kind of the node `p` of the rule's pattern, which is no placeholder, and
    /// matches it; if so, `out` gets what the placeholders bind.
    #[cycle(matching)]
    fn like_matches(&self, p: NodeNo, c: NodeNo, out: &mut Record) -> Result<bool, AllocError>
        requires p_in { HasNode self.now.rule.now.pattern p.0 }
        requires c_in { HasNode self.now.code.now c.0 }
        ensures { IfOk result (Answers (at_like S.meanings self.now p c) out.old out.new) }
    {
        if !self.rule.pattern().kind(p).is(self.code.kind(c)) {
            return Ok(false);
        }
        let used = self.rule.pattern_res(p);
        // what names mean is asked last: most nodes differ before
        if !self.pairs_match(used, p, c, out)? {
            return Ok(false);
        }
        let can = self.can_match(used, p, c)?;
        Ok(can)
    }

    /// Whether the parts of the node `c` of the code match those of the node `p` of the rule's pattern, lists of record fields
    /// by their names, where all fields have some; if so, `out` gets what the placeholders bind.
    #[cycle(matching)]
    fn pairs_match(
        &self,
        used: Option<Res>,
        p: NodeNo,
        c: NodeNo,
        out: &mut Record,
    ) -> Result<bool, AllocError>
        requires p_in { HasNode self.now.rule.now.pattern p.0 }
        requires c_in { HasNode self.now.code.now c.0 }
        ensures { IfOk result (Answers (at_pairs S.meanings self.now used p c) out.old out.new) }
    {
        if let Some(_res) = used {
            return self.children_match(used, p, c, out);
        }
        if is_named(self.rule, self.code, p, c) {
            return self.named_match(p, c, out);
        }
        self.children_match(used, p, c, out)
    }

    /// Whether the list of record fields `c` of the code matches the list `p` of the rule's pattern by the names of the fields;
    /// if so, `out` gets what the placeholders bind.
    #[cycle(matching)]
    fn named_match(&self, p: NodeNo, c: NodeNo, out: &mut Record) -> Result<bool, AllocError>
        requires p_in { HasNode self.now.rule.now.pattern p.0 }
        requires c_in { HasNode self.now.code.now c.0 }
        ensures { IfOk result (Answers (at_named S.meanings self.now p c) out.old out.new) }
    {
        let pattern = self.rule.pattern();
        if !are_as_many(pattern, p, self.code, c) {
            return Ok(false);
        }
        // whether a name is there twice is asked last: most lists differ before
        if !self.fields_match(p, c, out)? {
            return Ok(false);
        }
        Ok(are_different(pattern, p) && are_different(self.code, c))
    }

    /// Whether each node of the list `p` of the rule's pattern matches the first one of the list `c` of the code that has its
    /// label; if so, `out` gets what the placeholders bind.
    #[cycle(matching)]
    fn fields_match(&self, p: NodeNo, c: NodeNo, out: &mut Record) -> Result<bool, AllocError>
        requires p_in { HasNode self.now.rule.now.pattern p.0 }
        requires c_in { HasNode self.now.code.now c.0 }
        ensures { IfOk result (Answers (at_fields S.meanings self.now p c) out.old out.new) }
    {
        let pattern = self.rule.pattern();
        for field in ChildNodes::of(pattern, p) {
            let Some(other) = counterpart(pattern, field, self.code, c) else {
                return Ok(false);
            };
            if !self.node_matches(field, other, out)? {
                return Ok(false);
            }
        }
        Ok(true)
    }

    /// Whether what counts of the node `c` of the code matches what counts of the node `p` of the rule's pattern, one by one:
    /// of a used path the arguments of its last segment, else the children. If so, `out` gets what the placeholders bind.
    #[cycle(matching)]
    fn children_match(
        &self,
        used: Option<Res>,
        p: NodeNo,
        c: NodeNo,
        out: &mut Record,
    ) -> Result<bool, AllocError>
        requires p_in { HasNode self.now.rule.now.pattern p.0 }
        requires c_in { HasNode self.now.code.now c.0 }
        ensures { IfOk result (Answers (at_children S.meanings self.now used p c) out.old out.new) }
    {
        let pattern = self.rule.pattern();
        let code = self.code;
        let mut ps = Siblings::counted(pattern, p, used);
        let mut cs = Siblings::counted(code, c, used);
        while let Some(first) = ps.next_bare(pattern) {
            let Some(other) = cs.next_bare(code) else {
                return Ok(false);
            };
            if !self.pair_matches(first, other, out)? {
                return Ok(false);
            }
        }
        Ok(cs.next_bare(code).is_none())
    }

    /// Whether a child of a node of the code matches one of a node of the rule's pattern, as nodes or as tokens; if so, `out`
    /// gets what the placeholders bind.
    #[cycle(matching)]
    fn pair_matches(&self, p: Element, c: Element, out: &mut Record) -> Result<bool, AllocError>
        requires p_in { HasElement self.now.rule.now.pattern p }
        requires c_in { HasElement self.now.code.now c }
        ensures { IfOk result (Answers (at_elements S.meanings self.now p c) out.old out.new) }
    {
        match (p, c) {
            (Element::Node(p), Element::Node(c)) => self.node_matches(p, c, out),
            (Element::Token(p), Element::Token(c)) => {
                Ok(tokens_match(self.rule.pattern(), p, self.code, c))
            }
            _ => Ok(false),
        }
    }

    /// Whether the node `c` of the code matches the rule's pattern.
    fn accepts(&self, c: NodeNo) -> Result<bool, AllocError>
        requires { HasNode self.now.code.now c.0 }
        ensures { IfOk result (λ accepts. accepts ≡ is_some (at_root S.meanings self.now c)) }
    {
        let mut unrecorded = Record::none();
        let accepts = self.node_matches(NodeNo(0), c, &mut unrecorded)?;
        Ok(accepts)
    }

    /// The first phase: whether the node `c` of the code matches, each two paths taken to stand for the same thing. Nothing is
    /// recorded.
    fn has_shape(&self, c: NodeNo) -> Result<bool, AllocError>
        requires { HasNode self.now.code.now c.0 }
        ensures { IfOk result (λ accepts. IsTrue accepts ↔ HasRootShape S.meanings self.now c) }
    {
        let shapes = Matcher {
            names: false,
            ..*self
        };
        let accepts = shapes.accepts(c)?;
        Ok(accepts)
    }

    /// What the placeholders of the rule's pattern bind where the node `c` of the code matches it.
    fn bind(&self, c: NodeNo) -> Result<Option<Vec<Binding>>, AllocError>
        requires { HasNode self.now.code.now c.0 }
        ensures { IfOk result (λ bindings. option_map (λ bindings. bindings.items) bindings ≡ at_root S.meanings self.now c) }
    {
        let mut record = Record::new(self.alloc);
        if !self.node_matches(NodeNo(0), c, &mut record)? {
            return Ok(None);
        }
        Ok(record.into_bound())
    }
}

/// Whether a provider is asked where a rule is matched.
fn asks_provider(rule: &ResolvedRule) -> bool {
    !rule.pattern_paths().is_empty() || !rule.qualified_calls().is_empty()
}

/// The first phase alone: whether the node, which is one of `tree`, matches the rule's pattern, each two paths taken to stand
/// for the same thing.
pub(crate) fn has_shape<S: Semantics>(
    alloc: Global,
    semantics: &S,
    rule: &ResolvedRule,
    tree: &Tree,
    node: NodeId,
) -> Result<bool, AllocError>
    requires { HasNode tree.now node.node.0 }
    ensures { IfOk result (λ accepts. IsTrue accepts ↔ HasShape (S.meanings semantics.now) node.tree rule.now (root_of rule.now.pattern) (node_of tree.now node.node.0)) }
{
    let matcher = Matcher {
        alloc,
        semantics,
        rule,
        number: node.tree,
        code: tree,
        names: false,
    };
    matcher.has_shape(node.node)
}

/// What the placeholders of the rule's pattern bind where the node matches it, which is one of `tree`. It counts as one try.
pub fn match_node<S: Semantics>(
    alloc: Global,
    semantics: &S,
    rule: &ResolvedRule,
    tree: &Tree,
    node: NodeId,
    tries: &mut Tries,
) -> Result<Option<Vec<Binding>>, AllocError>
    requires { HasNode tree.now node.node.0 }
    ensures count { tries.new ≡ tries.old + 1 }
    ensures bindings { IfOk result (λ bindings. option_map (λ bindings. bindings.items) bindings ≡ bindings_of (S.meanings semantics.now) node.tree rule.now (root_of rule.now.pattern) (node_of tree.now node.node.0)) }
{
    tries.one_more();
    let matcher = Matcher {
        alloc,
        semantics,
        rule,
        number: node.tree,
        code: tree,
        names: true,
    };
    // Where no provider is asked the second phase does what the first one would do, in one walk.
    if asks_provider(rule) && !matcher.has_shape(node.node)? {
        return Ok(None);
    }
    matcher.bind(node.node)
}
