//! A table as a text, for tests.

use crate::table::{
    Brings, Entry, Import, Module, ModuleKind, ModuleNo, Start, Table, Thing, Visibility,
};
use std::alloc::{AllocError, Global};

/// A table as a text: a line for each module, each of its names and each of its imports.
pub fn shown(alloc: Global, table: &Table) -> Result<String, AllocError> {
    let mut text = String::new(alloc);
    for (number, module) in table.modules.iter().enumerate() {
        show_module(alloc, table, number, module, &mut text)?;
    }
    for entry in &table.entries {
        show_entry(alloc, table, entry, &mut text)?;
    }
    for import in &table.imports {
        show_import(alloc, table, import, &mut text)?;
    }
    for item in &table.items {
        let (name, kind, owner) = (table.names.text(item.name), item.kind, item.owner);
        let line = format!(in alloc; "item {name} {kind:?} {owner:?}\n")?;
        text.push_str(line.as_str())?;
    }
    for own in &table.impls {
        let line = format!(in alloc; "impl {} {}\n", own.module.0, own.of_trait)?;
        text.push_str(line.as_str())?;
    }
    Ok(text)
}

/// Adds the line of a module.
fn show_module(
    alloc: Global,
    table: &Table,
    number: usize,
    module: &Module,
    text: &mut String,
) -> Result<(), AllocError> {
    let name = match module.kind {
        ModuleKind::Root(_) => "crate",
        ModuleKind::Stray => "stray",
        ModuleKind::Named(name) => table.names.text(name),
        ModuleKind::Block => "block",
    };
    let open = if module.is_open { " open" } else { "" };
    let tree = module.node.tree;
    let line = match module.parent {
        Some(ModuleNo(parent)) => format!(in alloc;
            "{number} {name} in {parent} of {tree}{open}\n"
        )?,
        None => format!(in alloc; "{number} {name} of {tree}{open}\n")?,
    };
    text.push_str(line.as_str())?;
    Ok(())
}

/// Adds the line of a name.
fn show_entry(
    alloc: Global,
    table: &Table,
    entry: &Entry,
    text: &mut String,
) -> Result<(), AllocError> {
    let name = table.names.text(entry.name);
    let thing = match entry.thing {
        Thing::Item(item) => format!(in alloc; "item {}", item.0)?,
        Thing::Module(module) => format!(in alloc; "module {}", module.0)?,
        Thing::Import(import) => format!(in alloc; "import {}", import.0)?,
        Thing::Crate(own) => format!(in alloc; "crate {}", table.names.text(own))?,
        Thing::Unknown => String::from_str(alloc, "unknown")?,
    };
    let seen = shown_visibility(alloc, entry.visibility)?;
    let sure = if entry.is_sure { "" } else { ", unsure" };
    let (module, namespace) = (entry.module.0, entry.namespace);
    let line = format!(in alloc; "{module} {namespace:?} {name}: {thing}, {seen}{sure}\n")?;
    text.push_str(line.as_str())?;
    Ok(())
}

/// Where a name is seen.
fn shown_visibility(alloc: Global, visibility: Visibility) -> Result<String, AllocError> {
    match visibility {
        Visibility::Public => String::from_str(alloc, "pub"),
        Visibility::In(module) => format!(in alloc; "in {}", module.0),
    }
}

/// Adds the line of an import.
fn show_import(
    alloc: Global,
    table: &Table,
    import: &Import,
    text: &mut String,
) -> Result<(), AllocError> {
    let start = match import.start {
        Start::Plain => String::new(alloc),
        Start::Global => String::from_str(alloc, "::")?,
        Start::Crate => String::from_str(alloc, "crate::")?,
        Start::SelfModule => String::from_str(alloc, "self::")?,
        Start::Super(count) => format!(in alloc; "super {count}::")?,
    };
    let module = import.module.0;
    let line = format!(in alloc; "{module} use {start}")?;
    text.push_str(line.as_str())?;
    for name in &import.segments {
        text.push_str(table.names.text(*name))?;
        text.push_str("::")?;
    }
    match import.brings {
        Brings::Name(name) => {
            text.push_str(" as ")?;
            text.push_str(table.names.text(name))?;
        }
        Brings::Glob => text.push_str("*")?,
        Brings::Nothing => text.push_str(" as _")?,
    }
    if import.only_types {
        text.push_str(" types")?;
    }
    if !import.is_sure {
        text.push_str(" unsure")?;
    }
    text.push('\n')?;
    Ok(())
}
