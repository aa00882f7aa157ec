//! The names of a run, made ready to be looked up.

ghost use Rattle.std.specs.Prelude.{◌≡◌, true, [], slice_get, IfOk, IfSome, OnOk, All};
ghost use Rattle.ssr_names_items.specs.Names.{KeepsNumbers};
ghost use Rattle.ssr_names.specs.Lookup.{IsOutside};
ghost use Rattle.ssr_names.specs.Declarations.{AreFirst, IsCrate, IsMacroItem, HasMembers, IsMember, IsOfTable};

use crate::copies::{first_items, item_count, item_row, module_places};
use crate::definitions::{Definition, Meaning, OutsideNo};
use crate::outside::OutsidePaths;
use crate::space::{Answers, Glob, Known, Member, Space};
use crate::std_names::{BUILTIN_TYPES, PRELUDE, PreludeName, SECOND_PATHS, SecondPath, is_std};
use ssr_names_items::{
    Brings, CrateKind, ImportNo, Item, ItemKind, ItemNo, Name, Names, Namespace, Owner, Table,
    Thing,
};
use std::alloc::{AllocError, Global};

/// Adds names.
fn add_texts(names: &mut Names, texts: &[&'static str]) -> Result<(), AllocError>
    ensures { OnOk result (KeepsNumbers names.old names.new) }
{
    for text in texts {
        names.add(*text)?;
    }
    Ok(())
}

/// Adds the names that the prelude has, and those of what they stand in.
fn add_prelude(names: &mut Names, prelude: &[PreludeName]) -> Result<(), AllocError>
    ensures { OnOk result (KeepsNumbers names.old names.new) }
{
    for known in prelude {
        names.add(known.name)?;
        names.add(known.module)?;
        names.add(known.of.unwrap_or(""))?;
    }
    Ok(())
}

/// Adds the names that second paths are made of.
fn add_second_names(names: &mut Names, seconds: &[SecondPath]) -> Result<(), AllocError>
    ensures { OnOk result (KeepsNumbers names.old names.new) }
{
    for second in seconds {
        names.add(second.modules.0)?;
        names.add(second.modules.1)?;
        names.add(second.name)?;
        names.add(second.first)?;
    }
    Ok(())
}

/// Adds the names that the standard library is known by, so that they have numbers.
pub(crate) fn add_std_names(names: &mut Names) -> Result<(), AllocError>
    ensures { OnOk result (KeepsNumbers names.old names.new) }
{
    names.add("")?;
    names.add("std")?;
    names.add("core")?;
    names.add("Self")?;
    add_prelude(names, &PRELUDE[..])?;
    add_texts(names, &BUILTIN_TYPES[..])?;
    add_second_names(names, &SECOND_PATHS[..])
}

/// The number of a name that is there.
fn number(names: &Names, text: &str) -> Name {
    names.number(text).unwrap_or(Name(u32::MAX))
}

/// Lets a second path of a thing of the standard library be the first one.
fn add_second(
    outside: &mut OutsidePaths,
    names: &Names,
    std: OutsideNo,
    second: &SecondPath,
) -> Result<(), AllocError> {
    let outer = outside.child(Some(std), number(names, second.modules.0))?;
    let inner = outside.child(Some(outer), number(names, second.modules.1))?;
    let first = outside.child(Some(std), number(names, second.first))?;
    let name = number(names, second.name);
    let same = outside.child(Some(first), name)?;
    outside.alias(inner, name, same)
}

/// Lets the second path of each of these things of the standard library be the first one.
fn add_seconds(
    outside: &mut OutsidePaths,
    names: &Names,
    std: OutsideNo,
    seconds: &[SecondPath],
) -> Result<(), AllocError> {
    for second in seconds {
        add_second(outside, names, std, second)?;
    }
    Ok(())
}

/// The builtin types.
fn builtin_types(
    alloc: Global,
    outside: &mut OutsidePaths,
    names: &Names,
) -> Result<Vec<Known>, AllocError>
    ensures { IfOk result (λ known. All (λ k. IsOutside k.definition) known.items) }
{
    let root = outside.child(None, number(names, ""))?;
    let mut known = Vec::new(alloc);
    for text in BUILTIN_TYPES.iter() {
        known.push(builtin_type(outside, root, number(names, *text))?)?;
    }
    known.sort()?;
    Ok(known)
}

/// The builtin type of a name, behind the path of all of them.
fn builtin_type(
    outside: &mut OutsidePaths,
    root: OutsideNo,
    name: Name,
) -> Result<Known, AllocError>
    ensures { IfOk result (λ known. IsOutside known.definition) }
{
    let path = outside.child(Some(root), name)?;
    Ok(Known {
        name,
        definition: Definition::Outside(path),
    })
}

/// The path of a crate that isn't read.
fn outside_crate(
    outside: &mut OutsidePaths,
    names: &Names,
    std: OutsideNo,
    name: Name,
) -> Result<Known, AllocError>
    ensures { IfOk result (λ known. IsOutside known.definition) }
{
    let path = if is_std(names.text(name)) {
        std
    } else {
        outside.child(None, name)?
    };
    Ok(Known {
        name,
        definition: Definition::Outside(path),
    })
}

/// The names of crates: of the libraries that are read, of those that a manifest names, and of the standard library. Other code
/// can't name a program, a test or an example.
fn crates(
    alloc: Global,
    outside: &mut OutsidePaths,
    table: &Table,
    std: OutsideNo,
    manifests: &[Name],
) -> Result<Vec<Known>, AllocError>
    ensures { IfOk result (λ known. All (IsCrate table.now) known.items) }
{
    let mut known = libraries(alloc, table)?;
    for name in foreign_names(alloc, table, manifests)? {
        known.push(outside_crate(outside, &table.names, std, name)?)?;
    }
    known.sort()?;
    known.dedup();
    Ok(known)
}

/// The libraries that are read.
fn libraries(alloc: Global, table: &Table) -> Result<Vec<Known>, AllocError>
    ensures { IfOk result (λ known. All (IsCrate table.now) known.items) }
{
    let mut known = Vec::new(alloc);
    for own in &table.crates {
        if own.kind == CrateKind::Library {
            known.push(Known {
                name: own.name,
                definition: Definition::Module(own.root),
            })?;
        }
    }
    Ok(known)
}

/// The names of crates that aren't read: of those that a manifest names, and of those that the code names itself.
fn foreign_names(
    alloc: Global,
    table: &Table,
    manifests: &[Name],
) -> Result<Vec<Name>, AllocError> {
    let mut names = Vec::from_slice(alloc, manifests)?;
    for of in &table.macro_crates {
        names.push(of.name)?;
    }
    for entry in &table.entries {
        if let Thing::Crate(name) = entry.thing {
            names.push(name)?;
        }
    }
    Ok(names)
}

/// The imports that bring in all of something.
fn globs(alloc: Global, table: &Table) -> Result<Vec<Glob>, AllocError> {
    let mut globs = Vec::new(alloc);
    for (place, import) in table.imports.iter().enumerate() {
        if import.brings == Brings::Glob && place <= u32::MAX as usize {
            globs.push(Glob {
                module: import.module,
                import: ImportNo(place as u32),
            })?;
        }
    }
    globs.sort()?;
    Ok(globs)
}

/// The names that imports bring in.
fn brought_in(alloc: Global, table: &Table) -> Result<Vec<Name>, AllocError> {
    let mut names = Vec::new(alloc);
    for import in &table.imports {
        if let Brings::Name(name) = import.brings {
            names.push(name)?;
        }
    }
    names.sort()?;
    Ok(names)
}

/// The names of types, modules and variants, wherever they stand.
fn type_names(alloc: Global, table: &Table) -> Result<Vec<Name>, AllocError> {
    let mut names = Vec::new(alloc);
    for entry in &table.entries {
        if entry.namespace == Namespace::Type {
            names.push(entry.name)?;
        }
    }
    for item in &table.items {
        if item.kind == ItemKind::Variant {
            names.push(item.name)?;
        }
    }
    names.sort()?;
    names.dedup();
    Ok(names)
}

/// The first item of those that stand where an item does.
fn first_of(firsts: &[ItemNo], item: ItemNo) -> Option<ItemNo>
    ensures { result ≡ slice_get firsts.now item.0 }
{
    firsts.get(item.0 as usize).copied()
}

/// An item as a member of the item that it is a part of.
fn member_at(table: &Table, firsts: &[ItemNo], number: u32) -> Option<Member>
    requires { AreFirst table.now firsts.now }
    ensures { IfSome result (IsMember table.now) }
{
    let item = item_row(table, ItemNo(number))?;
    let Owner::Item(owner) = item.owner else {
        return None;
    };
    let of = first_of(firsts, owner)?;
    let first = first_of(firsts, ItemNo(number))?;
    Some(Member {
        of,
        name: item.name,
        item: first,
    })
}

/// The variants of enums, and the items of traits.
fn members(alloc: Global, table: &Table, firsts: &[ItemNo]) -> Result<Vec<Member>, AllocError>
    requires { AreFirst table.now firsts.now }
    ensures { IfOk result (λ members. All (IsMember table.now) members.items) }
{
    let mut members = Vec::new(alloc);
    for number in 0..item_count(table) {
        if let Some(member) = member_at(table, firsts, number) {
            members.push(member)?;
        }
    }
    members.sort()?;
    members.dedup();
    Ok(members)
}

/// Whether an item is a macro.
fn is_macro(item: Item) -> bool
    ensures { result ≡ true → item.kind ≡ ItemKind.Macro }
{
    item.kind == ItemKind::Macro
}

/// An item as a macro of the run, if it is one.
fn macro_at(table: &Table, firsts: &[ItemNo], number: u32) -> Option<Known>
    requires { AreFirst table.now firsts.now }
    ensures { IfSome result (IsMacroItem table.now) }
{
    let item = item_row(table, ItemNo(number))?;
    if !is_macro(item) {
        return None;
    }
    let first = first_of(firsts, ItemNo(number))?;
    Some(Known {
        name: item.name,
        definition: Definition::Item(first),
    })
}

/// The macros of the run.
fn macros(alloc: Global, table: &Table, firsts: &[ItemNo]) -> Result<Vec<Known>, AllocError>
    requires { AreFirst table.now firsts.now }
    ensures { IfOk result (λ macros. All (IsMacroItem table.now) macros.items) }
{
    let mut macros = Vec::new(alloc);
    for number in 0..item_count(table) {
        if let Some(known) = macro_at(table, firsts, number) {
            macros.push(known)?;
        }
    }
    macros.sort()?;
    macros.dedup();
    Ok(macros)
}

impl<'a> Space<'a> {
    /// The names of a table whose manifests name these crates; what its imports stand for isn't known yet.
    pub(crate) fn new(
        alloc: Global,
        outside: &mut OutsidePaths,
        table: &'a Table,
        manifests: &[Name],
    ) -> Result<Space<'a>, AllocError>
        ensures table { IfOk result (λ space. space.table ≡ table.entry) }
        ensures of_table { IfOk result IsOfTable }
        ensures members { IfOk result HasMembers }
        ensures aliases { IfOk result (λ space. space.aliases.items ≡ []) }
    {
        let std = outside.child(None, number(&table.names, "std"))?;
        add_seconds(outside, &table.names, std, &SECOND_PATHS[..])?;
        let firsts = first_items(alloc, table)?;
        let unanswered = Answers::all(Meaning::Nothing);
        Ok(Space {
            table,
            members: members(alloc, table, &firsts)?,
            module_places: module_places(alloc, table)?,
            globs: globs(alloc, table)?,
            aliases: Vec::new(alloc),
            unsure_variants: Vec::new(alloc),
            crates: crates(alloc, outside, table, std, manifests)?,
            builtin_types: builtin_types(alloc, outside, &table.names)?,
            macros: macros(alloc, table, &firsts)?,
            type_names: type_names(alloc, table)?,
            brought_in: brought_in(alloc, table)?,
            impl_types: Vec::new(alloc),
            answers: vec![in alloc; unanswered; table.imports.len()]?,
            std,
            first_items: firsts,
        })
    }
}
