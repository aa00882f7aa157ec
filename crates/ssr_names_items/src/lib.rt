//! What the sources of a run declare, for whoever looks up names: the modules, items, names and imports of their trees.
#![tactic(auto)]

mod attributes;
mod calls;
mod code;
mod files;
mod heads;
mod hidden;
mod macros;
mod modules;
mod modules_of_items;
mod names;
mod plain_macros;
mod reader;
mod reading;
mod sources;
mod sweep;
mod table;
mod text;
mod use_items;
mod uses;
mod visibility;

pub use names::{Names, bare};
pub use reading::read_items;
pub use sources::{Declaration, FileModule, Origin, SourceText, Sources};
pub use table::{
    Brings, CrateKind, CrateNo, Edition, Entry, Impl, ImplNo, Import, ImportNo, Item, ItemKind,
    ItemNo, MacroCrate, Module, ModuleKind, ModuleNo, Name, Namespace, OwnCrate, Owner, Start,
    Table, Thing, Visibility,
};
pub use text::shown;
