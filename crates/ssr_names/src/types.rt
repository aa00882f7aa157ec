//! What types of `impl`s and type aliases stand for.
ghost use Rattle.std.specs.Prelude.{IfOk, IfSome, All};
ghost use Rattle.ssr_syntax_tree.specs.Places.{HasNode};
ghost use Rattle.ssr_names.specs.Declarations.{HasAliases, HasMembers, IsMember, IsOfTable, IsPart, IsTypeAlias};

use crate::code_paths::code_path;
use crate::copies::item_count;
use crate::definitions::{Definition, Meaning};
use crate::lookup::PathQuestion;
use crate::outside::OutsidePaths;
use crate::places::{kind_at, place_of};
use crate::space::{Alias, Member, Space};
use ide_ssr_resolved_rule::first_child;
use ssr_base_trees::{NodeId, Trees};
use ssr_names_items::{ImplNo, Item, ItemKind, ItemNo, ModuleNo, Name, Namespace, Owner, Start};
use ssr_syntax_kinds::SyntaxKind;
use ssr_syntax_tree::{Element, NodeNo, TokenNo, Tree};
use std::alloc::{AllocError, Global};

/// How many aliases of aliases are followed.
const MOST_ALIASES: u32 = 16;

/// The code that is looked up in.
#[derive(Clone, Copy)]
pub(crate) struct Source<'s> {
    pub(crate) alloc: Global,
    pub(crate) trees: &'s Trees,
    /// A name that nothing of the run has.
    pub(crate) stranger: Name,
}

/// The path that a type alias is an alias of, if its type is one.
fn aliased_path(trees: &Trees, item: NodeId) -> Option<NodeId> {
    if !kind_at(trees, item)?.is(SyntaxKind::TYPE_ALIAS) {
        return None;
    }
    let tree = trees.tree(item.tree)?;
    if !tree.has(Element::Node(item.node)) {
        return None;
    }
    let ty = first_child(tree, item.node, SyntaxKind::PATH_TYPE)?;
    let path = first_child(tree, ty, SyntaxKind::PATH)?;
    Some(NodeId {
        tree: item.tree,
        node: path,
    })
}

/// Whether an attribute is a condition.
fn is_condition(tree: &Tree, attribute: NodeNo) -> bool
    requires { HasNode tree.now attribute.0 }
{
    let tokens = tree.tokens_below(attribute);
    for number in tokens.start..tokens.end {
        let token = TokenNo(number);
        if tree.token_kind(token).is(SyntaxKind::IDENT) {
            return matches!(tree.token_text(token), "cfg" | "cfg_attr" | "rustversion");
        }
    }
    false
}

impl<'s> Source<'s> {
    /// What the path of a type stands for that is written in a module.
    pub(crate) fn type_at(
        &self,
        space: &Space<'_>,
        outside: &mut OutsidePaths,
        path: NodeId,
        module: ModuleNo,
    ) -> Result<Meaning, AllocError> {
        let Some(tree) = self.trees.tree(path.tree) else {
            return Ok(Meaning::Unknown);
        };
        if !tree.has(Element::Node(path.node)) {
            return Ok(Meaning::Unknown);
        }
        let names = &space.table.names;
        let Some(read) = code_path(self.alloc, tree, path.node, names, self.stranger)? else {
            return Ok(Meaning::Unknown);
        };
        if self.begins_with_parameter(space, path, read.start, &read.names) {
            return Ok(Meaning::Unknown);
        }
        let question = PathQuestion {
            start: read.start,
            names: &read.names,
            namespace: Namespace::Type,
            module,
            import: None,
        };
        let answer = space.whole_path(self.alloc, outside, question)?;
        Ok(answer.meaning)
    }

    /// Whether the first name of a path is that of a generic parameter there.
    fn begins_with_parameter(
        &self,
        space: &Space<'_>,
        path: NodeId,
        start: Start,
        names: &[Name],
    ) -> bool {
        match names.first() {
            Some(first) if start == Start::Plain => {
                place_of(self.trees, path, space.text(*first)).is_generic
            }
            _ => false,
        }
    }

    /// Whether a variant isn't there in each configuration.
    fn is_conditional(&self, node: NodeId) -> bool {
        let Some(tree) = self.trees.tree(node.tree) else {
            return false;
        };
        if !tree.has(Element::Node(node.node)) {
            return false;
        }
        for child in tree.children(node.node) {
            if tree.has(child)
                && let Element::Node(attribute) = child
                && tree.kind(attribute).is(SyntaxKind::ATTR)
                && is_condition(tree, attribute)
            {
                return true;
            }
        }
        false
    }

    /// The variants that aren't there in each configuration, sorted.
    pub(crate) fn unsure_variants(&self, space: &Space<'_>) -> Result<Vec<ItemNo>, AllocError> {
        let mut unsure = Vec::new(self.alloc);
        for (place, item) in space.table.items.iter().enumerate() {
            if item.kind == ItemKind::Variant
                && place <= u32::MAX as usize
                && self.is_conditional(item.node)
            {
                unsure.push(space.first_item(ItemNo(place as u32)))?;
            }
        }
        unsure.sort()?;
        Ok(unsure)
    }

    /// What type aliases are aliases of.
    pub(crate) fn aliases(
        &self,
        space: &Space<'_>,
        outside: &mut OutsidePaths,
    ) -> Result<Vec<Alias>, AllocError>
        ensures { IfOk result (λ aliases. All (IsTypeAlias space.now.table.now) aliases.items) }
    {
        let mut aliases = Vec::new(self.alloc);
        for number in 0..item_count(space.table) {
            let Some(alias) = self.alias_of(space, outside, ItemNo(number))? else {
                continue;
            };
            aliases.push(alias)?;
        }
        Ok(aliases)
    }

    /// An item as an alias, if it is a `type` item of a module.
    fn alias_of(
        &self,
        space: &Space<'_>,
        outside: &mut OutsidePaths,
        number: ItemNo,
    ) -> Result<Option<Alias>, AllocError>
        ensures { IfOk result (λ alias. IfSome alias (IsTypeAlias space.now.table.now)) }
    {
        let Some(item) = space.item(number) else {
            return Ok(None);
        };
        if item.kind != ItemKind::TypeAlias || item.owner != Owner::Module {
            return Ok(None);
        }
        Ok(Some(Alias {
            item: number,
            meaning: self.alias_at(space, outside, &item)?,
        }))
    }

    /// What a type alias is an alias of.
    fn alias_at(
        &self,
        space: &Space<'_>,
        outside: &mut OutsidePaths,
        item: &Item,
    ) -> Result<Meaning, AllocError> {
        match aliased_path(self.trees, item.node) {
            Some(path) => self.type_at(space, outside, path, item.module),
            None => Ok(Meaning::Unknown),
        }
    }

    /// What the type of each `impl` stands for.
    pub(crate) fn impl_types(
        &self,
        space: &Space<'_>,
        outside: &mut OutsidePaths,
    ) -> Result<Vec<Meaning>, AllocError> {
        let mut types = Vec::new(self.alloc);
        for block in &space.table.impls {
            let meaning = match block.self_type {
                Some(path) => self.type_at(space, outside, path, block.module)?,
                None => Meaning::Unknown,
            };
            types.push(followed(space, meaning))?;
        }
        Ok(types)
    }
}

/// Whether a meaning is a type alias of a module.
pub(crate) fn is_alias(space: &Space<'_>, meaning: Meaning) -> bool {
    match meaning {
        Meaning::One(Definition::Item(item)) => match space.item(item) {
            Some(row) => row.kind == ItemKind::TypeAlias && row.owner == Owner::Module,
            None => false,
        },
        _ => false,
    }
}

/// What a meaning is behind all aliases.
pub(crate) fn followed(space: &Space<'_>, meaning: Meaning) -> Meaning {
    let mut at = meaning;
    for _ in 0..MOST_ALIASES {
        let Meaning::One(definition) = at else {
            return at;
        };
        let next = space.unaliased(definition);
        if next == at {
            return at;
        }
        at = next;
    }
    Meaning::Unknown
}

/// The aliases, each as what it is behind all aliases.
pub(crate) fn followed_aliases(alloc: Global, space: &Space<'_>) -> Result<Vec<Alias>, AllocError>
    requires { HasAliases space.now }
    ensures { IfOk result (λ aliases. All (IsTypeAlias space.now.table.now) aliases.items) }
{
    let mut aliases = Vec::with_capacity(alloc, space.aliases.len())?;
    for alias in &space.aliases {
        aliases.push(followed_alias(space, *alias))?;
    }
    Ok(aliases)
}

/// An alias as what it is behind all aliases.
fn followed_alias(space: &Space<'_>, alias: Alias) -> Alias
    ensures { IsTypeAlias space.now.table.now alias → IsTypeAlias space.now.table.now result }
{
    Alias {
        item: alias.item,
        meaning: followed(space, alias.meaning),
    }
}

/// The type that an `impl` is for, if that is an item and the `impl` isn't of a trait.
fn inherent_type(space: &Space<'_>, block: ImplNo) -> Option<ItemNo>
    ensures { IfSome result (IsPart space.now.table.now (Owner.Impl block)) }
{
    let row = space.table.impls.get(block.0 as usize).copied()?;
    if row.of_trait {
        return None;
    }
    match space.impl_types.get(block.0 as usize) {
        Some(Meaning::One(Definition::Item(of))) => Some(*of),
        _ => None,
    }
}

/// An item of an inherent `impl` as a member of its type.
fn inherent_member(space: &Space<'_>, number: ItemNo) -> Option<Member>
    requires { IsOfTable space.now }
    ensures { IfSome result (IsMember space.now.table.now) }
{
    let item = space.item(number)?;
    let Owner::Impl(block) = item.owner else {
        return None;
    };
    let of = inherent_type(space, block)?;
    Some(Member {
        of,
        name: item.name,
        item: space.first_item(number),
    })
}

/// The members, and with them the items of inherent `impl`s as those of their types.
pub(crate) fn with_inherent(alloc: Global, space: &Space<'_>) -> Result<Vec<Member>, AllocError>
    requires of_table { IsOfTable space.now }
    requires members { HasMembers space.now }
    ensures { IfOk result (λ members. All (IsMember space.now.table.now) members.items) }
{
    let mut members = Vec::from_slice(alloc, &space.members)?;
    for number in 0..item_count(space.table) {
        let Some(member) = inherent_member(space, ItemNo(number)) else {
            continue;
        };
        members.push(member)?;
    }
    members.sort()?;
    members.dedup();
    Ok(members)
}
