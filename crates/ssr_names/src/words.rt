//! Where the code has the names that are asked for.
ghost use Rattle.std.specs.Prelude.{◌≡◌, ℕ, [], ◌∷◌, ◌++◌, OnOk};
ghost use Rattle.std.specs.BTreeMap.{get_by_text};
ghost use Rattle.ssr_syntax_tree.specs.Places.{HasNode, HasToken, node_of};
ghost use Rattle.ssr_base_trees.specs.Built.{IsBuilt};
ghost use Rattle.ssr_base_trees.specs.Workspace.{node_id, trees as placed};
ghost use Rattle.ssr_names_items.specs.Names.{bare};
ghost use Rattle.ssr_names.specs.Locals.{may_be_constant};
ghost use Rattle.ssr_names.specs.Private.Locals.{Collects, CollectsAll, CollectsCall, CollectsPattern, CollectsWord, Keeps};

use crate::arguments::names_argument;
use crate::code_paths::{last_text, text_of_first};
use crate::sorts::is_capital;
use crate::std_names::is_std_macro;
use ide_ssr_resolved_rule::first_child;
use ssr_base_trees::{NodeId, Trees};
use ssr_names_items::{Name, Namespace, bare};
use ssr_syntax_kinds::SyntaxKind;
use ssr_syntax_tree::{Element, NodeNo, TokenNo, Tree};
use std::alloc::{AllocError, Global};
use std::collections::BTreeMap;

/// A node with one of the names that are asked for.
#[derive(Clone, Copy, Debug)]
pub(crate) struct Word {
    pub(crate) node: NodeId,
    pub(crate) name: Name,
}

/// A pattern, a generic parameter or an argument of a macro that may bind a name.
#[derive(Clone, Copy, Debug)]
pub(crate) struct Binder {
    pub(crate) node: NodeId,
    pub(crate) name: Name,
    /// The namespace in which it binds the name.
    pub(crate) namespace: Namespace,
    /// Whether it may be that of a constant, which a name alone in a pattern is compared with.
    pub(crate) is_plain: bool,
}

/// Where the code has the names that are asked for.
#[derive(Drop)]
pub(crate) struct Words {
    asked: BTreeMap<String, Name>,
    /// The names that are asked for as those of generic parameters.
    parameters: BTreeMap<String, Name>,
    /// The paths that end in one of them.
    pub(crate) paths: Vec<Word>,
    /// The method calls of that name.
    pub(crate) calls: Vec<Word>,
    /// What may bind one of them.
    pub(crate) binders: Vec<Binder>,
}

/// Whether a call of this macro may bind what its arguments name.
fn may_bind(tree: &Tree, call: NodeNo) -> bool
    requires { HasNode tree.now call.0 }
{
    let Some(path) = first_child(tree, call, SyntaxKind::PATH) else {
        return false;
    };
    match last_text(tree, path) {
        Some("matches") => true,
        Some(name) if is_std_macro(name) => false,
        _ => is_statement(tree, call),
    }
}

/// Whether a macro call is a statement or an item.
fn is_statement(tree: &Tree, call: NodeNo) -> bool
    requires { HasNode tree.now call.0 }
{
    let Some(parent) = tree.parent(call) else {
        return false;
    };
    match tree.kind(parent) {
        SyntaxKind::MACRO_PAT | SyntaxKind::MACRO_TYPE => false,
        SyntaxKind::MACRO_EXPR => stands_as_statement(tree, parent),
        _ => true,
    }
}

/// Whether an expression is a statement, or the value of a block.
fn stands_as_statement(tree: &Tree, expression: NodeNo) -> bool
    requires { HasNode tree.now expression.0 }
{
    match tree.parent(expression) {
        Some(above) => matches!(
            tree.kind(above),
            SyntaxKind::EXPR_STMT | SyntaxKind::STMT_LIST
        ),
        None => false,
    }
}

/// Whether a node is the arguments of a macro call that may bind what they name.
fn are_binding_arguments(tree: &Tree, node: NodeNo) -> bool
    requires { HasNode tree.now node.0 }
{
    match tree.parent(node) {
        Some(parent) => { tree.kind(parent).is(SyntaxKind::MACRO_CALL) && may_bind(tree, parent) }
        None => false,
    }
}

/// Whether a pattern may be compared with a constant in place of binding this name: nothing but the name stands in it, and that
/// begins with a capital letter.
fn may_be_constant(tree: &Tree, pattern: NodeNo, name: &str) -> bool
    requires { HasNode tree.now pattern.0 }
    ensures { result ≡ may_be_constant (node_of tree.now pattern.0).children name.now }
{
    let tokens = tree.tokens_below(pattern);
    tokens.end - tokens.start == 1 && is_capital(name)
}

impl Words {
    pub(crate) fn new(alloc: Global) -> Words {
        Words {
            asked: BTreeMap::new(alloc),
            parameters: BTreeMap::new(alloc),
            paths: Vec::new(alloc),
            calls: Vec::new(alloc),
            binders: Vec::new(alloc),
        }
    }

    /// Asks for a name too.
    pub(crate) fn ask(&mut self, alloc: Global, text: &str, name: Name) -> Result<(), AllocError> {
        self.asked.insert(String::from_str(alloc, text)?, name)?;
        Ok(())
    }

    /// Asks for a name as that of a generic parameter.
    pub(crate) fn ask_parameter(
        &mut self,
        alloc: Global,
        text: &str,
        name: Name,
    ) -> Result<(), AllocError> {
        self.parameters
            .insert(String::from_str(alloc, text)?, name)?;
        Ok(())
    }

    /// The number of a name without `r#` in front, if it is asked for.
    pub(crate) fn number(&self, name: &str) -> Option<Name>
        ensures { result ≡ get_by_text self.now.asked name.now }
    {
        self.asked.get(name).copied()
    }

    /// The number of a name, if it is asked for.
    fn asked(&self, text: &str) -> Option<Name>
        ensures { result ≡ get_by_text self.now.asked (bare text.now) }
    {
        self.number(bare(text))
    }

    /// Adds a path, if it ends in a name that is asked for.
    fn add_path(&mut self, tree: &Tree, node: NodeId) -> Result<(), AllocError>
        requires { HasNode tree.now node.node.0 }
        ensures { OnOk result (Keeps self.old self.new) }
    {
        if let Some(text) = last_text(tree, node.node)
            && let Some(name) = self.asked(text)
        {
            self.paths.push(Word { node, name })?;
        }
        Ok(())
    }

    /// Adds a method call, if the method's name is asked for.
    fn add_call(&mut self, tree: &Tree, node: NodeId) -> Result<(), AllocError>
        requires { HasNode tree.now node.node.0 }
        ensures { OnOk result (Keeps self.old self.new) }
    {
        if let Some(child) = first_child(tree, node.node, SyntaxKind::NAME_REF)
            && let Some(name) = self.asked(tree.text(child))
        {
            self.calls.push(Word { node, name })?;
        }
        Ok(())
    }

    /// Adds what may bind a name.
    fn push_binder(&mut self, binder: Binder) -> Result<(), AllocError>
        ensures kept { OnOk result (Keeps self.old self.new) }
        ensures asked { self.new.asked ≡ self.old.asked }
        ensures pushed { OnOk result (self.new.binders.items ≡ self.old.binders.items ++ binder ∷ []) }
    {
        self.binders.push(binder)?;
        Ok(())
    }

    /// Adds a pattern, if its name is asked for.
    fn add_pattern(&mut self, tree: &Tree, node: NodeId) -> Result<(), AllocError>
        requires { HasNode tree.now node.node.0 }
        ensures kept { OnOk result (Keeps self.old self.new) }
        ensures collected { OnOk result (CollectsPattern tree.now self.new node) }
    {
        if names_argument(tree, node.node) {
            return Ok(());
        }
        let Some(text) = text_of_first(tree, node.node, SyntaxKind::NAME) else {
            return Ok(());
        };
        let Some(name) = self.asked(text) else {
            return Ok(());
        };
        self.push_binder(Binder {
            node,
            name,
            namespace: Namespace::Value,
            is_plain: may_be_constant(tree, node.node, bare(text)),
        })
    }

    /// Adds a token of a macro call in the place of a pattern, if it is a word that is asked for.
    fn add_word(&mut self, tree: &Tree, node: NodeId, token: TokenNo) -> Result<(), AllocError>
        requires { HasToken tree.now token.0 }
        ensures kept { OnOk result (Keeps self.old self.new) }
        ensures collected { OnOk result (CollectsWord tree.now self.new node token.0) }
    {
        if !tree.token_kind(token).is(SyntaxKind::IDENT) {
            return Ok(());
        }
        let text = tree.token_text(token);
        let Some(name) = self.asked(text) else {
            return Ok(());
        };
        self.push_binder(Binder {
            node,
            name,
            namespace: Namespace::Value,
            is_plain: is_capital(bare(text)),
        })
    }

    /// Adds the words of a macro call in the place of a pattern that are asked for: the macro may bind them.
    fn add_called(&mut self, tree: &Tree, node: NodeId) -> Result<(), AllocError>
        requires { HasNode tree.now node.node.0 }
        ensures kept { OnOk result (Keeps self.old self.new) }
        ensures collected { OnOk result (CollectsCall tree.now self.new node) }
    {
        let tokens = tree.tokens_below(node.node);
        for number in tokens.start..tokens.end {
            self.add_word(tree, node, TokenNo(number))?;
        }
        Ok(())
    }

    /// Adds a generic parameter, if its name is asked for.
    fn add_parameter(
        &mut self,
        tree: &Tree,
        node: NodeId,
        namespace: Namespace,
    ) -> Result<(), AllocError>
        requires { HasNode tree.now node.node.0 }
        ensures { OnOk result (Keeps self.old self.new) }
    {
        if let Some(child) = first_child(tree, node.node, SyntaxKind::NAME)
            && let Some(name) = self.parameters.get(bare(tree.text(child))).copied()
        {
            self.binders.push(Binder {
                node,
                name,
                namespace,
                is_plain: false,
            })?;
        }
        Ok(())
    }

    /// Adds the words of a macro's arguments that are asked for: whatever the macro, no pattern binds the name of a constant.
    fn add_arguments(&mut self, tree: &Tree, node: NodeId) -> Result<(), AllocError>
        requires { HasNode tree.now node.node.0 }
        ensures { OnOk result (Keeps self.old self.new) }
    {
        if !are_binding_arguments(tree, node.node) {
            return Ok(());
        }
        let tokens = tree.tokens_below(node.node);
        for number in tokens.start..tokens.end {
            let token = TokenNo(number);
            if !tree.token_kind(token).is(SyntaxKind::IDENT) {
                continue;
            }
            let Some(name) = self.asked(tree.token_text(token)) else {
                continue;
            };
            self.push_binder(Binder {
                node,
                name,
                namespace: Namespace::Value,
                is_plain: true,
            })?;
        }
        Ok(())
    }

    /// Adds what a node has that is no pattern.
    fn add_other(&mut self, tree: &Tree, node: NodeId) -> Result<(), AllocError>
        requires { HasNode tree.now node.node.0 }
        ensures { OnOk result (Keeps self.old self.new) }
    {
        match tree.kind(node.node) {
            SyntaxKind::PATH => self.add_path(tree, node),
            SyntaxKind::METHOD_CALL_EXPR => self.add_call(tree, node),
            SyntaxKind::TYPE_PARAM => self.add_parameter(tree, node, Namespace::Type),
            SyntaxKind::CONST_PARAM => self.add_parameter(tree, node, Namespace::Value),
            SyntaxKind::TOKEN_TREE => self.add_arguments(tree, node),
            _ => Ok(()),
        }
    }

    /// Adds what a node has.
    fn add_node(&mut self, tree: &Tree, node: NodeId) -> Result<(), AllocError>
        requires { HasNode tree.now node.node.0 }
        ensures kept { OnOk result (Keeps self.old self.new) }
        ensures collected { OnOk result (Collects tree.now self.new node) }
    {
        let own = tree.kind(node.node);
        let is_name = own.is(SyntaxKind::IDENT_PAT);
        let is_call = own.is(SyntaxKind::MACRO_PAT);
        if is_name {
            self.add_pattern(tree, node)
        } else if is_call {
            self.add_called(tree, node)
        } else {
            self.add_other(tree, node)
        }
    }

    /// Adds what a tree has.
    fn add_tree(&mut self, tree: &Tree, number: u32) -> Result<(), AllocError>
        ensures kept { OnOk result (Keeps self.old self.new) }
        ensures collected { OnOk result ((n : ℕ) → HasNode tree.now n → Collects tree.now self.new (node_id number n)) }
    {
        for place in 0..tree.node_count() {
            let node = NodeId {
                tree: number,
                node: NodeNo(place),
            };
            self.add_node(tree, node)?;
        }
        Ok(())
    }

    /// Adds what all trees have.
    pub(crate) fn add_trees(&mut self, trees: &Trees) -> Result<(), AllocError>
        ensures built { IsBuilt trees.now }
        ensures collected { OnOk result (CollectsAll (placed trees.now) self.new) }
    {
        let count = trees.file_count().saturating_add(trees.expansion_count());
        for number in 0..count {
            let Some(tree) = trees.tree(number) else {
                continue;
            };
            self.add_tree(tree, number)?;
        }
        Ok(())
    }
}
