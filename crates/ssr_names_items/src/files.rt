//! The files of a run, each at each place where it is a module.

use crate::code::Code;
use crate::reader::{Place, Reader, Visit};
use crate::sources::{Declaration, FileModule, Origin};
use crate::table::{
    CrateKind, CrateNo, Edition, ModuleKind, ModuleNo, Namespace, OwnCrate, Owner, Thing,
    Visibility,
};
use ssr_base_trees::NodeId;
use ssr_syntax_tree::NodeNo;
use std::alloc::AllocError;

/// The most modules that one file is read as: what further ones have isn't known.
const MOST_VISITS: u32 = 8;

impl<'a> Reader<'a> {
    /// The module of a number that has a file.
    pub(crate) fn file_module(&self, number: usize) -> Option<FileModule<'a>> {
        self.sources.modules.get(number).copied()
    }

    /// The tree of a module's file, if that is read.
    pub(crate) fn file_tree(&self, number: usize) -> Option<Code<'a>> {
        let module = self.file_module(number)?;
        let tree = *self.trees.get(module.file)?;
        self.code(tree)
    }

    /// The tree of a number.
    fn code(&self, number: u32) -> Option<Code<'a>> {
        let trees = self.sources.trees;
        match trees.tree(number) {
            Some(tree) => Some(Code { number, tree }),
            None => None,
        }
    }

    /// Says what stands around the items of a module's file.
    pub(crate) fn meet(&mut self, number: usize, place: Place) {
        if let Some(root) = self.roots.get_mut(number) {
            *root = Some(place);
        }
    }

    /// Notes the trees of the files.
    pub(crate) fn know_trees(&mut self) -> Result<(), AllocError> {
        let files = self.sources.files;
        let mut number = 0u32;
        for file in files {
            self.trees.insert(file.name, number)?;
            self.visits.push(0)?;
            number = number.saturating_add(1);
        }
        Ok(())
    }

    /// Notes which module declares which.
    pub(crate) fn know_modules(&mut self) -> Result<(), AllocError> {
        for number in 0..self.sources.modules.len() {
            self.roots.push(None)?;
            self.around.push(Vec::new(self.alloc))?;
            if let Some(module) = self.file_module(number) {
                if let Origin::Declared(item) = module.origin {
                    self.know_declared(number, item)?;
                }
            }
        }
        Ok(())
    }

    /// Notes that a module is declared.
    fn know_declared(&mut self, number: usize, item: Declaration<'_>) -> Result<(), AllocError> {
        let name = self.names.add(item.name)?;
        let mut around = Vec::with_capacity(self.alloc, item.around.len())?;
        for module in item.around {
            around.push(self.names.add(module.as_str())?)?;
        }
        if let Some(names) = self.around.get_mut(number) {
            *names = around;
        }
        let key = (item.declarer, name);
        if let Some(numbers) = self.declared.get_mut(&key) {
            numbers.push(number)?;
            return Ok(());
        }
        let mut numbers = Vec::new(self.alloc);
        numbers.push(number)?;
        self.declared.insert(key, numbers)?;
        Ok(())
    }

    /// Reads the file of a module.
    pub(crate) fn read_file(&mut self, number: usize) -> Result<(), AllocError> {
        let code = self.file_tree(number);
        let place = match self.roots.get(number).copied().flatten() {
            Some(place) => place,
            None => self.add_root(number, code)?,
        };
        self.meet(number, place);
        let Some(code) = code else {
            return Ok(());
        };
        if !self.may_visit(code) {
            self.modules.open(place.module);
            return Ok(());
        }
        self.read_tree(Visit {
            code,
            place,
            file_module: Some(number),
        })
    }

    /// Whether a file may be read once more: it is counted.
    fn may_visit(&mut self, code: Code<'a>) -> bool {
        match self.visits.get_mut(code.number as usize) {
            Some(count) => {
                *count = count.saturating_add(1);
                *count <= MOST_VISITS
            }
            None => false,
        }
    }

    /// Adds the root module of a file that no `mod` item was seen to declare.
    fn add_root(&mut self, number: usize, code: Option<Code<'a>>) -> Result<Place, AllocError> {
        let node = root_of(code);
        let is_open = code.is_none();
        if let Some(module) = self.file_module(number) {
            match module.origin {
                Origin::Root {
                    name,
                    edition,
                    kind,
                } => {
                    let root = self.add_crate_root(node, is_open)?;
                    self.add_crate_row(name, edition, kind, root.module)?;
                    return Ok(root);
                }
                Origin::Declared(item) => {
                    if let Some(parent) = self.parent_of(number, item) {
                        return self.add_found(item, parent, node, is_open);
                    }
                }
                Origin::Stray => {}
            }
        }
        let module = self
            .modules
            .add(None, ModuleKind::Stray, node, is_open, false)?;
        Ok(sure_place(module))
    }

    /// Adds the root module of the next crate.
    fn add_crate_root(&mut self, node: NodeId, is_open: bool) -> Result<Place, AllocError> {
        if self.crates.len() >= u32::MAX as usize {
            return Err(AllocError);
        }
        let kind = ModuleKind::Root(CrateNo(self.crates.len() as u32));
        let root = self.modules.add(None, kind, node, is_open, false)?;
        Ok(sure_place(root))
    }

    /// Adds the next crate.
    fn add_crate_row(
        &mut self,
        name: &str,
        edition: Option<Edition>,
        kind: CrateKind,
        root: ModuleNo,
    ) -> Result<(), AllocError> {
        let name = self.names.add(name)?;
        self.crates.push(OwnCrate {
            name,
            edition,
            kind,
            root,
        })?;
        Ok(())
    }

    /// The module in which a `mod` item stands that wasn't seen, as one that is part of a macro's argument.
    fn parent_of(&self, number: usize, item: Declaration<'_>) -> Option<Place> {
        let mut place = self.roots.get(item.declarer).copied().flatten()?;
        for name in self.around.get(number)? {
            place.module = *self.bodies.get(&(place.module, *name))?;
        }
        Some(place)
    }

    /// Adds a module whose `mod` item wasn't seen.
    fn add_found(
        &mut self,
        item: Declaration<'_>,
        parent: Place,
        node: NodeId,
        is_open: bool,
    ) -> Result<Place, AllocError> {
        let mut place = parent;
        place.is_sure = false;
        let name = self.names.add(item.name)?;
        let module = self.add_named(place, name, node, is_open, false)?;
        self.add_entry(
            place,
            name,
            Namespace::Type,
            Thing::Module(module),
            Visibility::Public,
        )?;
        place.module = module;
        Ok(place)
    }

    /// Reads what calls stand for, which may lead to more of them.
    pub(crate) fn read_expansions(&mut self) -> Result<(), AllocError> {
        for next in 0..usize::MAX {
            let Some((tree, place)) = self.expansions.get(next).copied() else {
                return Ok(());
            };
            if let Some(code) = self.code(tree) {
                self.read_tree(Visit {
                    code,
                    place,
                    file_module: None,
                })?;
            }
        }
        Ok(())
    }
}

/// The root of a tree; where there is none, a node of no tree.
fn root_of(code: Option<Code<'_>>) -> NodeId {
    match code {
        Some(code) => code.id(NodeNo(0)),
        None => NodeId {
            tree: u32::MAX,
            node: NodeNo(0),
        },
    }
}

/// What stands around the items of a root.
fn sure_place(module: ModuleNo) -> Place {
    Place {
        module,
        owner: Owner::Module,
        is_sure: true,
    }
}
