//! Paths of what the sources of a run declare, by their last name.

use ssr_names_items::{CrateNo, Entry, Module, ModuleKind, ModuleNo, Table, Thing};
use std::alloc::{AllocError, Global};

/// The most paths that are told.
const MOST_TOLD: usize = 3;

/// `crate::pool::reset ends so`: which paths end in a name, by code of a file's crate. Nothing, where none does.
pub(crate) fn endings(
    alloc: Global,
    table: &Table,
    file: u32,
    name: &str,
) -> Result<Option<String>, AllocError> {
    let paths = paths_ending(alloc, table, file, name)?;
    let told = &paths[..paths.len().min(MOST_TOLD)];
    let list = told.join(alloc, ", ")?;
    Ok(match paths.len() {
        0 => None,
        1 => Some(format!(in alloc; "{list} ends so")?),
        count if count > MOST_TOLD => Some(format!(in alloc; "{list} and others end so")?),
        _ => Some(format!(in alloc; "{list} end so")?),
    })
}

/// The paths that end in a name, each once.
fn paths_ending(
    alloc: Global,
    table: &Table,
    file: u32,
    name: &str,
) -> Result<Vec<String>, AllocError> {
    let mut paths = Vec::new(alloc);
    let Some(number) = table.names.number(name) else {
        return Ok(paths);
    };
    let home = crate_of_file(table, file);
    let mut last = None;
    for entry in &table.entries {
        // one that is a value and a type stands there twice, one behind the other
        if entry.name == number && is_declared(entry) && last != Some(entry.module) {
            last = Some(entry.module);
            if let Some(mut path) = module_path(alloc, table, home, entry.module)? {
                path.push_str("::")?;
                path.push_str(name)?;
                paths.push(path)?;
            }
        }
    }
    Ok(paths)
}

/// Whether a name is that of an item or a module.
fn is_declared(entry: &Entry) -> bool {
    matches!(entry.thing, Thing::Item(_) | Thing::Module(_))
}

/// The crate of a file's first module.
fn crate_of_file(table: &Table, file: u32) -> Option<CrateNo> {
    let at = table
        .modules
        .iter()
        .position(|module| module.node.tree == file)?;
    let mut module = table.modules.get(at)?;
    for _ in 0..table.modules.len() {
        match around(table, module) {
            Some(next) => module = next,
            None => break,
        }
    }
    match module.kind {
        ModuleKind::Root(number) => Some(number),
        _ => None,
    }
}

/// The module around one.
fn around<'a>(table: &'a Table, module: &Module) -> Option<&'a Module> {
    table.modules.get(module.parent?.0 as usize)
}

/// The path of a module for code of a crate. None, where a block is on the way, or what is no crate.
fn module_path(
    alloc: Global,
    table: &Table,
    home: Option<CrateNo>,
    module: ModuleNo,
) -> Result<Option<String>, AllocError> {
    let mut parts = Vec::new(alloc);
    let mut at = table.modules.get(module.0 as usize);
    for _ in 0..table.modules.len() {
        let Some(module) = at else { break };
        match part(table, home, module) {
            Some(name) => parts.push(name)?,
            None => return Ok(None),
        }
        at = around(table, module);
    }
    parts.reverse();
    Ok(Some(parts.as_slice().join(alloc, "::")?))
}

/// The part of a path that a module is.
fn part<'a>(table: &'a Table, home: Option<CrateNo>, module: &Module) -> Option<&'a str> {
    match module.kind {
        ModuleKind::Named(name) => Some(table.names.text(name)),
        ModuleKind::Root(number) if Some(number) == home => Some("crate"),
        ModuleKind::Root(number) => {
            let of = table.crates.get(number.0 as usize)?;
            Some(table.names.text(of.name))
        }
        ModuleKind::Stray | ModuleKind::Block => None,
    }
}
