//! Files that are modules at several places: what they declare is there once for each, and is one thing.

ghost use Rattle.std.specs.Prelude.{◌≡◌, ◌≤◌, true, length, slice_get, IfOk, IfSome, All};
ghost use Rattle.ssr_names_items.specs.declared.table.Table.{Table};
ghost use Rattle.ssr_names.specs.Declarations.{AreFirst};
ghost use Rattle.ssr_names.specs.Private.Copies.{IsItemPlace, IsSamePlace};

use ssr_base_trees::NodeId;
use ssr_names_items::{Item, ItemNo, ModuleNo, Name, Table};
use std::alloc::{AllocError, Global};

/// At how many places a file is looked at that is a module there.
pub(crate) const MOST_COPIES: usize = 8;

/// An item, by where it stands.
#[derive(Clone, Copy, PartialEq, Eq, PartialOrd, Ord)]
struct ItemPlace {
    node: NodeId,
    name: Name,
    item: ItemNo,
}

/// A module, by what holds its items.
#[derive(Clone, Copy, Debug, PartialEq, Eq, PartialOrd, Ord)]
pub(crate) struct ModulePlace {
    pub(crate) node: NodeId,
    pub(crate) module: ModuleNo,
}

/// How many items have a number.
pub(crate) fn item_count(table: &Table) -> u32
    ensures { result ≤ length table.now.items.items }
{
    let count = table.items.len();
    if count <= u32::MAX as usize {
        count as u32
    } else {
        u32::MAX
    }
}

/// The item of a number.
pub(crate) fn item_row(table: &Table, item: ItemNo) -> Option<Item>
    ensures { result ≡ slice_get table.now.items.items item.0 }
{
    table.items.get(item.0 as usize).copied()
}

/// Where an item stands.
fn item_place(table: &Table, item: ItemNo) -> Option<ItemPlace>
    ensures place { IfSome result (IsItemPlace table.now) }
    ensures item { IfSome result (λ place. place.item ≡ item) }
{
    let row = item_row(table, item)?;
    Some(ItemPlace {
        node: row.node,
        name: row.name,
        item,
    })
}

/// The items by where they stand.
fn item_places(alloc: Global, table: &Table) -> Result<Vec<ItemPlace>, AllocError>
    ensures { IfOk result (λ places. All (IsItemPlace table.now) places.items) }
{
    let mut places = Vec::new(alloc);
    for number in 0..item_count(table) {
        let Some(place) = item_place(table, ItemNo(number)) else {
            break;
        };
        places.push(place)?;
    }
    places.sort()?;
    Ok(places)
}

/// Whether an item has the name of another one, and stands where that does.
fn is_same_place(one: ItemPlace, other: ItemPlace) -> bool
    ensures { result ≡ true → IsSamePlace one other }
{
    one.node.tree == other.node.tree
        && one.node.node.0 == other.node.node.0
        && one.name.0 == other.name.0
}

/// The first of the items that stand where an item does, among all by where they stand.
fn first_at(places: &[ItemPlace], place: ItemPlace) -> ItemPlace
    ensures { (table : Table) → All (IsItemPlace table) places.now → IsItemPlace table place → IsItemPlace table result × IsSamePlace place result }
{
    let lowest = ItemPlace {
        item: ItemNo(0),
        ..place
    };
    let first = places.partition_point(|other| *other < lowest);
    match places.get(first).copied() {
        Some(found) if is_same_place(place, found) => found,
        _ => place,
    }
}

/// For each item the first one of its name that stands where it does.
pub(crate) fn first_items(alloc: Global, table: &Table) -> Result<Vec<ItemNo>, AllocError>
    ensures { IfOk result (λ firsts. AreFirst table.now firsts.items) }
{
    let places = item_places(alloc, table)?;
    let mut firsts = Vec::new(alloc);
    for number in 0..item_count(table) {
        let Some(place) = item_place(table, ItemNo(number)) else {
            break;
        };
        let first = first_at(&places, place);
        firsts.push(first.item)?;
    }
    Ok(firsts)
}

/// The modules by what holds their items.
pub(crate) fn module_places(alloc: Global, table: &Table) -> Result<Vec<ModulePlace>, AllocError> {
    let mut places = Vec::new(alloc);
    for (number, module) in table.modules.iter().enumerate() {
        if number <= u32::MAX as usize {
            places.push(ModulePlace {
                node: module.node,
                module: ModuleNo(number as u32),
            })?;
        }
    }
    places.sort()?;
    Ok(places)
}
