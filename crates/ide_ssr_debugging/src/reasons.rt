//! Why a rule doesn't match at a node, in words for who debugs the rule: a first difference of the pattern and the code. What is
//! said here is without a promise.

use ide_ssr_resolved_rule::ResolvedRule;
use ide_ssr_token_trees::{PatternIterator, closes};
use ssr_base_trees::{NodeId, Res, Semantics};
use ssr_syntax_kinds::SyntaxKind;
use ssr_syntax_tree::{Element, NodeNo, Tree};
use std::alloc::{AllocError, Global};

/// A node of the pattern, and the one of the code that it is compared with.
#[derive(Clone, Copy)]
struct Pair {
    pattern: NodeNo,
    code: NodeNo,
}

/// A tree and an element of it, or of another tree, which is told as nothing.
#[derive(Clone, Copy)]
struct Place<'a> {
    tree: &'a Tree,
    element: Element,
}

impl<'a> Place<'a> {
    fn text(self) -> &'a str {
        if !self.tree.has(self.element) {
            return "";
        }
        match self.element {
            Element::Node(node) => self.tree.text(node),
            Element::Token(token) => self.tree.token_text(token),
        }
    }

    fn kind(self) -> SyntaxKind {
        if !self.tree.has(self.element) {
            return SyntaxKind::WHITESPACE;
        }
        match self.element {
            Element::Node(node) => self.tree.kind(node),
            Element::Token(token) => self.tree.token_kind(token),
        }
    }

    fn is_token(self) -> bool {
        match self.element {
            Element::Node(_) => false,
            Element::Token(_) => true,
        }
    }
}

/// The children of a node that count: no trivia, and no comma in front of a closing token.
fn bare_children(alloc: Global, tree: &Tree, node: NodeNo) -> Result<Vec<Element>, AllocError> {
    let mut children = Vec::new(alloc);
    if !tree.has(Element::Node(node)) {
        return Ok(children);
    }
    let mut has_comma = false;
    for element in PatternIterator::new(tree, node) {
        let kind = Place { tree, element }.kind();
        if has_comma && tree.has(element) && closes(tree, element) {
            children.pop();
        }
        has_comma = kind.is(SyntaxKind::COMMA);
        children.push(element)?;
    }
    Ok(children)
}

/// What differs of two elements, of which not both are nodes.
fn difference(alloc: Global, p: Place<'_>, c: Place<'_>) -> Result<Option<String>, AllocError> {
    let (p_text, c_text) = (p.text(), c.text());
    let (p_kind, c_kind) = (p.kind(), c.kind());
    if !c.is_token() {
        return Ok(Some(format!(in alloc; "Pattern wanted '{p_text}', code has {c_text}")?));
    }
    if !p.is_token() {
        return Ok(Some(format!(in alloc;
            "Pattern wanted {p_text}, but code had token '{c_text}' ({c_kind:?})"
        )?));
    }
    if p_kind.is(c_kind) && p_text == c_text {
        return Ok(None);
    }
    Ok(Some(format!(in alloc;
        "Pattern wanted token '{p_text}' ({p_kind:?}), but code had token '{c_text}' ({c_kind:?})"
    )?))
}

/// A rule and a node of a tree at which it doesn't match.
#[derive(Drop)]
pub(crate) struct Comparison<'a, S: Semantics> {
    pub alloc: Global,
    pub semantics: &'a S,
    pub rule: &'a ResolvedRule,
    pub code: &'a Tree,
    pub node: NodeId,
}

impl<S: Semantics> Comparison<'_, S> {
    fn in_pattern(&self, element: Element) -> Place<'_> {
        Place {
            tree: self.rule.pattern(),
            element,
        }
    }

    fn in_code(&self, element: Element) -> Place<'_> {
        Place {
            tree: self.code,
            element,
        }
    }

    /// Why the rule doesn't match.
    pub(crate) fn reason(&self) -> Result<String, AllocError> {
        match self.first_difference()? {
            Some(reason) => Ok(reason),
            None => String::from_str(self.alloc, "Match failed, but no reason was given"),
        }
    }

    /// A first difference, where there is one of kinds, tokens or used paths. What stands further up is looked at first.
    fn first_difference(&self) -> Result<Option<String>, AllocError> {
        let mut pairs = Vec::new(self.alloc);
        pairs.push(Pair {
            pattern: NodeNo(0),
            code: self.node.node,
        })?;
        for place in 0..self.rule.pattern().node_count() {
            let Some(pair) = pairs.get(place as usize).copied() else {
                return Ok(None);
            };
            if let Some(reason) = self.pair_difference(pair, &mut pairs)? {
                return Ok(Some(reason));
            }
        }
        Ok(None)
    }

    /// What differs of two nodes but for what is below them; the pairs of nodes below them are added to the others.
    fn pair_difference(
        &self,
        pair: Pair,
        pairs: &mut Vec<Pair>,
    ) -> Result<Option<String>, AllocError> {
        if !self.rule.pattern().has(Element::Node(pair.pattern)) {
            return Ok(None);
        }
        let c = self.in_code(Element::Node(pair.code));
        if let Some(placeholder) = self.rule.placeholder(pair.pattern) {
            return self.constraint_difference(placeholder, c);
        }
        let p = self.in_pattern(Element::Node(pair.pattern));
        if !p.kind().is(c.kind()) {
            let (p_text, c_text) = (p.text(), c.text());
            let (p_kind, c_kind) = (p.kind(), c.kind());
            return Ok(Some(format!(in self.alloc;
                "Pattern had `{p_text}` ({p_kind:?}), code had `{c_text}` ({c_kind:?})"
            )?));
        }
        if let Some(res) = self.rule.pattern_res(pair.pattern) {
            return self.path_difference(res, p, pair.code);
        }
        self.children_difference(pair, pairs)
    }

    /// What a placeholder asks that a node doesn't have.
    fn constraint_difference(
        &self,
        placeholder: u32,
        c: Place<'_>,
    ) -> Result<Option<String>, AllocError> {
        if self.rule.meets(placeholder, c.kind()) {
            return Ok(None);
        }
        let text = c.text();
        Ok(Some(format!(in self.alloc; "Constraint failed for '{text}'")?))
    }

    /// What a used path stands for that one of the code doesn't.
    fn path_difference(
        &self,
        res: Res,
        p: Place<'_>,
        code: NodeNo,
    ) -> Result<Option<String>, AllocError> {
        let node = NodeId {
            tree: self.node.tree,
            node: code,
        };
        let (p_text, c_text) = (p.text(), self.in_code(Element::Node(code)).text());
        match self.semantics.resolve_path(self.alloc, node)? {
            None => Ok(Some(format!(in self.alloc; "Failed to resolve path `{c_text}`")?)),
            Some(found) => {
                if found == res {
                    return Ok(None);
                }
                Ok(Some(format!(in self.alloc; "Pattern had path `{p_text}` code had `{c_text}`")?))
            }
        }
    }

    /// What differs of the children of two nodes, in pairs; pairs of nodes are added to the others.
    fn children_difference(
        &self,
        pair: Pair,
        pairs: &mut Vec<Pair>,
    ) -> Result<Option<String>, AllocError> {
        let ps = bare_children(self.alloc, self.rule.pattern(), pair.pattern)?;
        let cs = bare_children(self.alloc, self.code, pair.code)?;
        for (place, p) in ps.iter().enumerate() {
            let Some(c) = cs.get(place) else {
                let text = self.in_pattern(*p).text();
                return Ok(Some(format!(in self.alloc;
                    "Part of the pattern was unmatched: {text}"
                )?));
            };
            if let (Element::Node(pattern), Element::Node(code)) = (*p, *c) {
                pairs.push(Pair { pattern, code })?;
            } else if let Some(reason) = difference(
                self.alloc,
                self.in_pattern(*p),
                self.in_code(*c),
            )? {
                return Ok(Some(reason));
            }
        }
        self.remaining(&cs, ps.len())
    }

    /// What the code has behind so many of its children, where the pattern has ended.
    fn remaining(&self, children: &[Element], count: usize) -> Result<Option<String>, AllocError> {
        let Some(element) = children.get(count) else {
            return Ok(None);
        };
        let c = self.in_code(*element);
        let text = c.text();
        if c.is_token() {
            return Ok(Some(format!(in self.alloc;
                "Pattern exhausted, while code remains: `{text}`"
            )?));
        }
        Ok(Some(format!(in self.alloc; "Pattern reached end, code has {text}")?))
    }
}
