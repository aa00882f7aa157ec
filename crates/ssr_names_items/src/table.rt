//! What the sources of a run declare: modules, items, what their names stand for, and what `use` items bring in.

use crate::names::Names;
use ssr_base_trees::NodeId;

/// The number of a name: see `Names`.
#[derive(Clone, Copy, Debug, PartialEq, Eq, PartialOrd, Ord)]
pub struct Name(pub u32);

/// The number of a module among `Table.modules`.
#[derive(Clone, Copy, Debug, PartialEq, Eq, PartialOrd, Ord)]
pub struct ModuleNo(pub u32);

/// The number of an item among `Table.items`.
#[derive(Clone, Copy, Debug, PartialEq, Eq, PartialOrd, Ord)]
pub struct ItemNo(pub u32);

/// The number of an import among `Table.imports`.
#[derive(Clone, Copy, Debug, PartialEq, Eq, PartialOrd, Ord)]
pub struct ImportNo(pub u32);

/// The number of an `impl` among `Table.impls`.
#[derive(Clone, Copy, Debug, PartialEq, Eq, PartialOrd, Ord)]
pub struct ImplNo(pub u32);

/// The number of a crate among `Table.crates`.
#[derive(Clone, Copy, Debug, PartialEq, Eq, PartialOrd, Ord)]
pub struct CrateNo(pub u32);

/// What kind of thing a name names: each name may stand for one of each kind.
#[derive(Clone, Copy, Debug, PartialEq, Eq, PartialOrd, Ord)]
pub enum Namespace {
    Type,
    Value,
    Macro,
}

/// An edition of the language.
#[derive(Clone, Copy, Debug, PartialEq, Eq)]
pub enum Edition {
    Edition2015,
    Edition2018,
    Edition2021,
    Edition2024,
}

/// What a crate is to its package.
#[derive(Clone, Copy, Debug, PartialEq, Eq)]
pub enum CrateKind {
    Library,
    Program,
    /// A build script, an example, a test or a benchmark.
    Other,
}

/// A crate whose sources are read: a target of the package.
#[derive(Clone, Copy, Debug, PartialEq, Eq)]
pub struct OwnCrate {
    pub name: Name,
    /// `None`: that of a workspace of which the manifest isn't read.
    pub edition: Option<Edition>,
    pub kind: CrateKind,
    pub root: ModuleNo,
}

/// What a module is.
#[derive(Clone, Copy, Debug, PartialEq, Eq)]
pub enum ModuleKind {
    /// The root of a crate.
    Root(CrateNo),
    /// A file of no crate that is known.
    Stray,
    /// What a `mod` item declares.
    Named(Name),
    /// A block that has items.
    Block,
}

/// A module, or a block that has items.
#[derive(Clone, Copy, Debug, PartialEq, Eq)]
pub struct Module {
    /// The module or the block around it, which stands before it.
    pub parent: Option<ModuleNo>,
    pub kind: ModuleKind,
    /// What holds its items: the root of a file's tree, the list of a `mod` item with a body, or the list of a block's
    /// statements. Of a module that has no file: its `mod` item.
    pub node: NodeId,
    /// Whether a name that isn't found here may be one that isn't read.
    pub is_open: bool,
}

/// What a name stands for.
#[derive(Clone, Copy, Debug, PartialEq, Eq)]
pub enum Thing {
    Item(ItemNo),
    Module(ModuleNo),
    Import(ImportNo),
    /// The crate of that name, by `extern crate`.
    Crate(Name),
    /// It may stand for something that isn't read, or for nothing.
    Unknown,
}

/// Where a name is seen.
#[derive(Clone, Copy, Debug, PartialEq, Eq)]
pub enum Visibility {
    Public,
    /// In that module and below.
    In(ModuleNo),
}

/// A name of a module.
#[derive(Clone, Copy, Debug, PartialEq, Eq)]
pub struct Entry {
    pub module: ModuleNo,
    pub name: Name,
    pub namespace: Namespace,
    pub thing: Thing,
    pub visibility: Visibility,
    /// Whether it is there in each configuration.
    pub is_sure: bool,
}

#[derive(Clone, Copy, Debug, PartialEq, Eq)]
pub enum ItemKind {
    Function,
    Struct,
    Enum,
    Union,
    Variant,
    Const,
    Static,
    Trait,
    TypeAlias,
    Macro,
}

impl ItemKind {
    /// The namespace of an item, as far as its kind alone says it.
    pub fn namespace(self) -> Namespace {
        match self {
            ItemKind::Function | ItemKind::Const | ItemKind::Static => Namespace::Value,
            ItemKind::Macro => Namespace::Macro,
            _ => Namespace::Type,
        }
    }
}

/// What an item is a part of.
#[derive(Clone, Copy, Debug, PartialEq, Eq)]
pub enum Owner {
    /// Its module alone.
    Module,
    /// The enum of a variant, or the trait of an associated item.
    Item(ItemNo),
    /// The `impl` of an associated item.
    Impl(ImplNo),
}

#[derive(Clone, Copy, Debug, PartialEq, Eq)]
pub struct Item {
    pub node: NodeId,
    pub name: Name,
    pub kind: ItemKind,
    pub module: ModuleNo,
    pub owner: Owner,
    /// Whether it is there in each configuration.
    pub is_sure: bool,
}

/// How the path of an import begins.
#[derive(Clone, Copy, Debug, PartialEq, Eq)]
pub enum Start {
    /// With a name.
    Plain,
    /// With `::`.
    Global,
    /// With `crate`.
    Crate,
    /// With `self`.
    SelfModule,
    /// With so many `super`.
    Super(u32),
}

/// What an import brings into its module.
#[derive(Clone, Copy, Debug, PartialEq, Eq)]
pub enum Brings {
    /// What its path stands for, under that name.
    Name(Name),
    /// All that can be seen of what its path stands for.
    Glob,
    /// Nothing that has a name.
    Nothing,
}

/// One path of a `use` item.
#[derive(Debug, Drop)]
pub struct Import {
    pub module: ModuleNo,
    pub start: Start,
    /// The names of the path behind its start.
    pub segments: Vec<Name>,
    pub brings: Brings,
    /// Whether it brings in types alone, as `self` in braces does.
    pub only_types: bool,
    pub visibility: Visibility,
    /// Whether it is there in each configuration.
    pub is_sure: bool,
}

#[derive(Clone, Copy, Debug, PartialEq, Eq)]
pub struct Impl {
    pub node: NodeId,
    pub module: ModuleNo,
    /// Whether it is of a trait.
    pub of_trait: bool,
    /// The path of the type that it is for, if that is a path.
    pub self_type: Option<NodeId>,
}

/// What the sources of a run declare.
#[derive(Drop)]
pub struct Table {
    pub names: Names,
    pub crates: Vec<OwnCrate>,
    pub modules: Vec<Module>,
    /// By module, name and namespace.
    pub entries: Vec<Entry>,
    pub items: Vec<Item>,
    pub imports: Vec<Import>,
    pub impls: Vec<Impl>,
    /// The crates of which `#[macro_use]` brings in the macros.
    pub macro_crates: Vec<MacroCrate>,
}

/// A crate of which `#[macro_use]` brings in the macros, into the crate that has the module.
#[derive(Clone, Copy, Debug)]
pub struct MacroCrate {
    pub module: ModuleNo,
    pub name: Name,
}
