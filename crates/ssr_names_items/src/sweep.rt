//! The nodes of a tree, gone over in preorder, each by its kind.

use crate::attributes::attributes_of;
use crate::code::Code;
use crate::reader::{Place, Reader, Visit};
use crate::table::{Impl, ItemKind, ItemNo, ModuleKind, Namespace, Owner, Thing, Visibility};
use crate::visibility::{of_fields, visibility_of};
use ssr_base_trees::NodeId;
use ssr_syntax_kinds::SyntaxKind;
use ssr_syntax_tree::{Element, NodeNo};
use std::alloc::AllocError;

/// Whether a node of this kind has the items of a module, or of a block.
fn holds_items(kind: SyntaxKind) -> bool {
    matches!(
        kind,
        SyntaxKind::SOURCE_FILE | SyntaxKind::ITEM_LIST | SyntaxKind::STMT_LIST
    ) || matches!(
        kind,
        SyntaxKind::EXTERN_ITEM_LIST | SyntaxKind::MACRO_ITEMS | SyntaxKind::MACRO_STMTS
    )
}

/// Whether a statement of this kind is an item that has a name or brings in names.
fn is_item(kind: SyntaxKind) -> bool {
    matches!(
        kind,
        SyntaxKind::FN | SyntaxKind::STRUCT | SyntaxKind::ENUM | SyntaxKind::TRAIT | SyntaxKind::USE
    ) || matches!(
        kind,
        SyntaxKind::CONST | SyntaxKind::STATIC | SyntaxKind::TYPE_ALIAS | SyntaxKind::MODULE
    ) || matches!(
        kind,
        SyntaxKind::MACRO_RULES | SyntaxKind::IMPL | SyntaxKind::UNION
    ) || matches!(kind, SyntaxKind::EXTERN_CRATE | SyntaxKind::EXTERN_BLOCK)
}

impl<'a> Reader<'a> {
    /// Reads the nodes of a tree.
    pub(crate) fn read_tree(&mut self, visit: Visit<'a>) -> Result<(), AllocError> {
        self.leave();
        for number in 0..visit.code.tree.node_count() {
            let node = NodeNo(number);
            let place = self.place_at(visit, node);
            self.read_node(visit, node, place)?;
        }
        Ok(())
    }

    /// Reads a node that stands somewhere.
    fn read_node(
        &mut self,
        visit: Visit<'a>,
        node: NodeNo,
        place: Place,
    ) -> Result<(), AllocError> {
        let code = visit.code;
        match code.kind(node) {
            SyntaxKind::FN => self.read_function(code, node, place),
            SyntaxKind::CONST => self.read_item(code, node, ItemKind::Const, place),
            SyntaxKind::STATIC => self.read_item(code, node, ItemKind::Static, place),
            SyntaxKind::TYPE_ALIAS => self.read_item(code, node, ItemKind::TypeAlias, place),
            SyntaxKind::STRUCT => self.read_struct(code, node, place),
            SyntaxKind::UNION => self.read_item(code, node, ItemKind::Union, place),
            SyntaxKind::ENUM => self.read_owner(code, node, ItemKind::Enum, place),
            SyntaxKind::TRAIT => self.read_owner(code, node, ItemKind::Trait, place),
            SyntaxKind::VARIANT => self.read_variant(code, node, place),
            SyntaxKind::IMPL => self.read_impl(code, node, place),
            SyntaxKind::MACRO_RULES => self.read_macro(code, node, place),
            SyntaxKind::MODULE => self.read_module(visit, node, place),
            SyntaxKind::USE => self.read_use(code, node, place),
            SyntaxKind::EXTERN_CRATE => self.read_crate(code, node, place),
            SyntaxKind::EXTERN_BLOCK => self.read_foreign(code, node, place),
            SyntaxKind::STMT_LIST => self.read_block(code, node, place),
            SyntaxKind::MACRO_CALL => self.read_call(visit, node, place),
            SyntaxKind::SOURCE_FILE | SyntaxKind::ITEM_LIST | SyntaxKind::EXTERN_ITEM_LIST => {
                self.read_hidden(code, node, place)
            }
            _ => Ok(()),
        }
    }

    /// What stands around the name of an item, by the item's attributes.
    pub(crate) fn place_of_item(&self, code: Code<'_>, item: NodeNo, place: Place) -> Place {
        let mut own = place;
        if attributes_of(code, item).is_conditional {
            own.is_sure = false;
        }
        own
    }

    /// Reads an item, and tells its number, if it has a name.
    fn add_of_node(
        &mut self,
        code: Code<'_>,
        node: NodeNo,
        kind: ItemKind,
        place: Place,
    ) -> Result<Option<ItemNo>, AllocError> {
        let Some(text) = code.name(node) else {
            return Ok(None);
        };
        let name = self.names.add(text)?;
        let mut own = self.place_of_item(code, node, place);
        let is_of_module = holds_items(code.parent_kind(node));
        if is_of_module {
            own.owner = Owner::Module;
        }
        let item = self.add_item(code.id(node), name, kind, own)?;
        if is_of_module {
            let seen = visibility_of(code, node, &self.modules, place.module);
            self.add_entry(own, name, kind.namespace(), Thing::Item(item), seen)?;
        }
        Ok(Some(item))
    }

    /// Reads an item that has no others.
    fn read_item(
        &mut self,
        code: Code<'_>,
        node: NodeNo,
        kind: ItemKind,
        place: Place,
    ) -> Result<(), AllocError> {
        self.add_of_node(code, node, kind, place)?;
        Ok(())
    }

    /// Reads a function. What its generics name that are set aside isn't known.
    fn read_function(
        &mut self,
        code: Code<'a>,
        node: NodeNo,
        place: Place,
    ) -> Result<(), AllocError> {
        self.read_generics(code, node, place)?;
        self.read_item(code, node, ItemKind::Function, place)
    }

    /// Reads an item that has variants or associated items.
    fn read_owner(
        &mut self,
        code: Code<'_>,
        node: NodeNo,
        kind: ItemKind,
        place: Place,
    ) -> Result<(), AllocError> {
        let Some(item) = self.add_of_node(code, node, kind, place)? else {
            return Ok(());
        };
        let mut below = self.place_of_item(code, node, place);
        below.owner = Owner::Item(item);
        self.enter(code, node, below)
    }

    /// Reads a structure: one without named fields is a function or a value too.
    fn read_struct(
        &mut self,
        code: Code<'_>,
        node: NodeNo,
        place: Place,
    ) -> Result<(), AllocError> {
        let Some(item) = self.add_of_node(code, node, ItemKind::Struct, place)? else {
            return Ok(());
        };
        if code.child(node, SyntaxKind::RECORD_FIELD_LIST).is_some() {
            return Ok(());
        }
        let (Some(text), true) = (code.name(node), holds_items(code.parent_kind(node))) else {
            return Ok(());
        };
        let name = self.names.add(text)?;
        let own = self.place_of_item(code, node, place);
        let mut seen = visibility_of(code, node, &self.modules, place.module);
        if let Some(fields) = code.child(node, SyntaxKind::TUPLE_FIELD_LIST) {
            seen = of_fields(code, fields, &self.modules, place.module, seen);
        }
        self.add_entry(own, name, Namespace::Value, Thing::Item(item), seen)
    }

    /// Reads a variant of the enum around it.
    fn read_variant(
        &mut self,
        code: Code<'_>,
        node: NodeNo,
        place: Place,
    ) -> Result<(), AllocError> {
        let Some(text) = code.name(node) else {
            return Ok(());
        };
        let name = self.names.add(text)?;
        let own = self.place_of_item(code, node, place);
        self.add_item(code.id(node), name, ItemKind::Variant, own)?;
        Ok(())
    }

    /// Reads the head of an `impl`.
    fn read_impl(&mut self, code: Code<'_>, node: NodeNo, place: Place) -> Result<(), AllocError> {
        let own = self.place_of_item(code, node, place);
        let (of_trait, self_type) = impl_parts(code, node);
        let number = self.add_impl(Impl {
            node: code.id(node),
            module: own.module,
            of_trait,
            self_type,
        })?;
        let mut below = own;
        below.owner = Owner::Impl(number);
        self.enter(code, node, below)
    }

    /// Reads a macro that a file defines.
    fn read_macro(&mut self, code: Code<'_>, node: NodeNo, place: Place) -> Result<(), AllocError> {
        let Some(text) = code.name(node) else {
            return Ok(());
        };
        let name = self.names.add(text)?;
        let marks = attributes_of(code, node);
        let mut own = self.place_of_item(code, node, place);
        own.owner = Owner::Module;
        own.module = self.modules.of_macro(place.module);
        let item = self.add_item(code.id(node), name, ItemKind::Macro, own)?;
        let root = self.modules.ancestor_at(place.module, 0);
        let seen = if marks.exports_macro && root == own.module {
            Visibility::Public
        } else {
            Visibility::In(own.module)
        };
        self.add_entry(own, name, Namespace::Macro, Thing::Item(item), seen)?;
        if marks.exports_macro && root != own.module {
            own.module = root;
            self.add_entry(
                own,
                name,
                Namespace::Macro,
                Thing::Item(item),
                Visibility::Public,
            )?;
        }
        Ok(())
    }

    /// Reads the head of a block of foreign items, which are those of the module around.
    fn read_foreign(
        &mut self,
        code: Code<'_>,
        node: NodeNo,
        place: Place,
    ) -> Result<(), AllocError> {
        let mut own = self.place_of_item(code, node, place);
        own.owner = Owner::Module;
        self.enter(code, node, own)
    }

    /// Reads the head of a block: with items it is a module of its own.
    fn read_block(&mut self, code: Code<'a>, node: NodeNo, place: Place) -> Result<(), AllocError> {
        let mut own = place;
        own.owner = Owner::Module;
        if self.has_items(code, node)? {
            let id = code.id(node);
            own.module = self
                .modules
                .add(Some(place.module), ModuleKind::Block, id, false, false)?;
            self.enter(code, node, own)?;
            self.read_hidden(code, node, own)?;
        }
        Ok(())
    }

    /// Whether some statement of a block is an item, or may make one.
    fn has_items(&self, code: Code<'a>, node: NodeNo) -> Result<bool, AllocError> {
        let tree = code.tree;
        if !tree.has(Element::Node(node)) {
            return Ok(false);
        }
        for child in tree.children(node) {
            let makes = match child {
                Element::Node(below) => self.may_make_items(code, below),
                Element::Token(token) => !self.hidden(code, token.0)?.is_empty(),
            };
            if makes {
                return Ok(true);
            }
        }
        Ok(false)
    }

    /// Whether a statement is an item, or may make one.
    fn may_make_items(&self, code: Code<'_>, statement: NodeNo) -> bool {
        let kind = code.kind(statement);
        if is_item(kind) {
            return true;
        }
        match kind {
            SyntaxKind::MACRO_EXPR => self.call_may_make_items(code, statement),
            // behind attributes a call stands in the statement itself
            SyntaxKind::EXPR_STMT => match code.child(statement, SyntaxKind::MACRO_EXPR) {
                Some(expression) => self.call_may_make_items(code, expression),
                None => self.call_may_make_items(code, statement),
            },
            _ => false,
        }
    }
}

/// Whether an `impl` is of a trait, and the path of the type that it is for.
fn impl_parts(code: Code<'_>, node: NodeNo) -> (bool, Option<NodeId>) {
    let mut of_trait = false;
    let mut path = None;
    let tree = code.tree;
    if !tree.has(Element::Node(node)) {
        return (false, None);
    }
    for child in tree.children(node) {
        match child {
            Element::Token(token) => {
                if code.token_kind(token.0).is(SyntaxKind::FOR_KW) {
                    of_trait = true;
                    path = None;
                }
            }
            Element::Node(below) => {
                if code.kind(below).is(SyntaxKind::PATH_TYPE) {
                    path = path_of(code, below);
                }
            }
        }
    }
    (of_trait, path)
}

/// The path of a type that is one.
fn path_of(code: Code<'_>, node: NodeNo) -> Option<NodeId> {
    match code.child(node, SyntaxKind::PATH) {
        Some(path) => Some(code.id(path)),
        None => None,
    }
}
