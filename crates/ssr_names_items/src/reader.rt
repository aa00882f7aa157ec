//! What is read of the sources, as it grows.

use crate::code::Code;
use crate::macros::OwnMacros;
use crate::modules::Modules;
use crate::names::Names;
use crate::sources::Sources;
use crate::table::{
    Entry, Impl, ImplNo, Import, ImportNo, Item, ItemKind, ItemNo, MacroCrate, ModuleKind,
    ModuleNo, Name, Namespace, OwnCrate, Owner, Thing, Visibility,
};
use ssr_base_trees::NodeId;
use ssr_syntax_tree::NodeNo;
use std::alloc::{AllocError, Global};
use std::collections::{BTreeMap, BTreeSet};

/// Crates of the standard library, and types that the language has.
const KNOWN: [&str; 22] = [
    "std", "core", "alloc", "Self", "bool", "char", "str", "f32", "f64", "i8", "i16", "i32", "i64",
    "i128", "isize", "u8", "u16", "u32", "u64", "u128", "usize", "crate",
];

/// What stands around a node.
#[derive(Clone, Copy)]
pub(crate) struct Place {
    pub(crate) module: ModuleNo,
    /// The enum, the trait or the `impl` directly around.
    pub(crate) owner: Owner,
    /// Whether it is there in each configuration.
    pub(crate) is_sure: bool,
}

/// What stands around the nodes up to a number.
#[derive(Clone, Copy)]
struct Frame {
    end: u32,
    place: Place,
}

/// A tree that is read: which one, where it stands, and the number of its file among those of modules.
#[derive(Clone, Copy)]
pub(crate) struct Visit<'a> {
    pub(crate) code: Code<'a>,
    pub(crate) place: Place,
    pub(crate) file_module: Option<usize>,
}

/// The sources, and what was read of them.
#[derive(Drop)]
pub(crate) struct Reader<'a> {
    pub(crate) alloc: Global,
    pub(crate) sources: Sources<'a>,
    pub(crate) names: Names,
    /// The names of crates and types that are always known have lower numbers.
    known_names: u32,
    pub(crate) macros: OwnMacros,
    pub(crate) modules: Modules,
    pub(crate) crates: Vec<OwnCrate>,
    pub(crate) entries: Vec<Entry>,
    pub(crate) items: Vec<Item>,
    pub(crate) imports: Vec<Import>,
    pub(crate) impls: Vec<Impl>,
    pub(crate) macro_crates: Vec<MacroCrate>,
    /// The macros of files whose names were added to a module, and those whose words were.
    pub(crate) spelled: BTreeSet<(ModuleNo, Name, bool)>,
    /// The modules with a body, by the module around and their names.
    pub(crate) bodies: BTreeMap<(ModuleNo, Name), ModuleNo>,
    /// Of each module that has a file what stands around its items, if it was met.
    pub(crate) roots: Vec<Option<Place>>,
    /// Of each file how often it was read.
    pub(crate) visits: Vec<u32>,
    /// The trees of files, by their names.
    pub(crate) trees: BTreeMap<&'a str, u32>,
    /// The modules with files that a file declares, by its number and their names.
    pub(crate) declared: BTreeMap<(usize, Name), Vec<usize>>,
    /// The names of the modules with a body that a declared one stands in, by its number.
    pub(crate) around: Vec<Vec<Name>>,
    /// The modules that `mod` items declare without a body, by the module around and their names.
    pub(crate) met: BTreeMap<(ModuleNo, Name), ModuleNo>,
    /// The trees that are still to be read for what calls stand for.
    pub(crate) expansions: Vec<(u32, Place)>,
    frames: Vec<Frame>,
}

impl<'a> Reader<'a> {
    pub(crate) fn new(alloc: Global, sources: Sources<'a>) -> Result<Reader<'a>, AllocError> {
        let mut names = Names::new(alloc);
        let mut known_names = 0u32;
        for text in KNOWN {
            let name = names.add(text)?;
            known_names = known_names.max(name.0.saturating_add(1));
        }
        let macros = OwnMacros::of_trees(alloc, &mut names, sources.trees)?;
        Ok(Reader {
            alloc,
            sources,
            names,
            known_names,
            macros,
            modules: Modules::new(alloc),
            crates: Vec::new(alloc),
            entries: Vec::new(alloc),
            items: Vec::new(alloc),
            imports: Vec::new(alloc),
            impls: Vec::new(alloc),
            macro_crates: Vec::new(alloc),
            spelled: BTreeSet::new(alloc),
            bodies: BTreeMap::new(alloc),
            roots: Vec::new(alloc),
            visits: Vec::new(alloc),
            trees: BTreeMap::new(alloc),
            declared: BTreeMap::new(alloc),
            around: Vec::new(alloc),
            met: BTreeMap::new(alloc),
            expansions: Vec::new(alloc),
            frames: Vec::new(alloc),
        })
    }

    /// What stands around a node that comes next, behind the frames that end in front of it.
    pub(crate) fn place_at(&mut self, visit: Visit<'_>, node: NodeNo) -> Place {
        for _ in 0..self.frames.len() {
            match self.frames.last() {
                Some(frame) if frame.end > node.0 => return frame.place,
                _ => {}
            }
            self.frames.pop();
        }
        visit.place
    }

    /// Forgets what stands around nodes.
    pub(crate) fn leave(&mut self) {
        self.frames.clear();
    }

    /// Says what stands around the nodes below a node.
    pub(crate) fn enter(
        &mut self,
        code: Code<'_>,
        node: NodeNo,
        place: Place,
    ) -> Result<(), AllocError> {
        self.frames.push(Frame {
            end: code.end(node),
            place,
        })?;
        Ok(())
    }

    /// Adds a name.
    pub(crate) fn add_entry(
        &mut self,
        place: Place,
        name: Name,
        namespace: Namespace,
        thing: Thing,
        visibility: Visibility,
    ) -> Result<(), AllocError> {
        self.entries.push(Entry {
            module: place.module,
            name,
            namespace,
            thing,
            visibility,
            is_sure: place.is_sure,
        })?;
        Ok(())
    }

    /// Adds a name of which nothing is known but that it may be there, in each namespace. What is always known is taken never to be
    /// hidden so.
    pub(crate) fn add_unknown(&mut self, module: ModuleNo, name: Name) -> Result<(), AllocError> {
        if name.0 < self.known_names {
            return Ok(());
        }
        let place = Place {
            module,
            owner: Owner::Module,
            is_sure: false,
        };
        let all = Visibility::Public;
        self.add_entry(place, name, Namespace::Type, Thing::Unknown, all)?;
        self.add_entry(place, name, Namespace::Value, Thing::Unknown, all)?;
        self.add_entry(place, name, Namespace::Macro, Thing::Unknown, all)
    }

    /// Adds an item.
    pub(crate) fn add_item(
        &mut self,
        node: NodeId,
        name: Name,
        kind: ItemKind,
        place: Place,
    ) -> Result<ItemNo, AllocError> {
        if self.items.len() >= u32::MAX as usize {
            return Err(AllocError);
        }
        let item = ItemNo(self.items.len() as u32);
        self.items.push(Item {
            node,
            name,
            kind,
            module: place.module,
            owner: place.owner,
            is_sure: place.is_sure,
        })?;
        Ok(item)
    }

    /// Adds an `impl`.
    pub(crate) fn add_impl(&mut self, row: Impl) -> Result<ImplNo, AllocError> {
        if self.impls.len() >= u32::MAX as usize {
            return Err(AllocError);
        }
        let number = ImplNo(self.impls.len() as u32);
        self.impls.push(row)?;
        Ok(number)
    }

    /// Adds an import.
    pub(crate) fn add_import(&mut self, import: Import) -> Result<ImportNo, AllocError> {
        if self.imports.len() >= u32::MAX as usize {
            return Err(AllocError);
        }
        let number = ImportNo(self.imports.len() as u32);
        self.imports.push(import)?;
        Ok(number)
    }

    /// Adds a module around which another one stands.
    pub(crate) fn add_named(
        &mut self,
        place: Place,
        name: Name,
        node: NodeId,
        is_open: bool,
        lends_macros: bool,
    ) -> Result<ModuleNo, AllocError> {
        self.modules.add(
            Some(place.module),
            ModuleKind::Named(name),
            node,
            is_open,
            lends_macros,
        )
    }
}
