//! The modules that `mod` items declare.

use crate::attributes::attributes_of;
use crate::code::Code;
use crate::reader::{Place, Reader, Visit};
use crate::table::{ModuleNo, Name, Namespace, Owner, Thing, Visibility};
use crate::visibility::visibility_of;
use ssr_syntax_kinds::SyntaxKind;
use ssr_syntax_tree::NodeNo;
use std::alloc::AllocError;

impl<'a> Reader<'a> {
    /// Reads a `mod` item.
    pub(crate) fn read_module(
        &mut self,
        visit: Visit<'a>,
        node: NodeNo,
        place: Place,
    ) -> Result<(), AllocError> {
        let code = visit.code;
        let mut own = self.place_of_item(code, node, place);
        own.owner = Owner::Module;
        let Some(text) = code.name(node) else {
            return Ok(());
        };
        let name = self.names.add(text)?;
        match code.child(node, SyntaxKind::ITEM_LIST) {
            Some(list) => self.read_body(code, node, list, name, own),
            None => self.read_declaration(visit, node, name, own),
        }
    }

    /// Adds the name of a module.
    fn add_module_entry(
        &mut self,
        code: Code<'_>,
        node: NodeNo,
        name: Name,
        own: Place,
        module: ModuleNo,
    ) -> Result<(), AllocError> {
        let seen = visibility_of(code, node, &self.modules, own.module);
        self.add_entry(own, name, Namespace::Type, Thing::Module(module), seen)
    }

    /// Reads the head of a module with a body.
    fn read_body(
        &mut self,
        code: Code<'_>,
        node: NodeNo,
        list: NodeNo,
        name: Name,
        own: Place,
    ) -> Result<(), AllocError> {
        let lends = attributes_of(code, node).uses_macros;
        let mut own = own;
        own.is_sure &= !self.is_conditional(code, list)?;
        let module = self.add_named(own, name, code.id(list), false, lends)?;
        self.add_module_entry(code, node, name, own, module)?;
        if !self.bodies.contains_key(&(own.module, name)) {
            self.bodies.insert((own.module, name), module)?;
        }
        let mut below = own;
        below.module = module;
        self.enter(code, node, below)
    }

    /// Reads a `mod` item without a body: it stands for each file that is reached by it.
    fn read_declaration(
        &mut self,
        visit: Visit<'a>,
        node: NodeNo,
        name: Name,
        own: Place,
    ) -> Result<(), AllocError> {
        let code = visit.code;
        let marks = attributes_of(code, node);
        let seen = visibility_of(code, node, &self.modules, own.module);
        if self.add_files(visit, node, name, own, seen)? {
            return Ok(());
        }
        // two items of one name have one file, if neither names another one
        let module = match self.met.get(&(own.module, name)).copied() {
            Some(module) if !marks.names_file => module,
            _ => self.add_named(own, name, code.id(node), true, marks.uses_macros)?,
        };
        self.add_entry(own, name, Namespace::Type, Thing::Module(module), seen)
    }

    /// Adds the modules of the files that a `mod` item reaches: tells whether there are some.
    pub(crate) fn add_files(
        &mut self,
        visit: Visit<'a>,
        node: NodeNo,
        name: Name,
        own: Place,
        seen: Visibility,
    ) -> Result<bool, AllocError> {
        let files = self.files_of(visit, name, own)?;
        let marks = attributes_of(visit.code, node);
        for number in &files {
            let mut below = own;
            let (id, is_open) = match self.file_tree(*number) {
                Some(file) => {
                    below.is_sure &= !attributes_of(file, NodeNo(0)).is_conditional;
                    (file.id(NodeNo(0)), false)
                }
                None => (visit.code.id(node), true),
            };
            let module = self.add_named(below, name, id, is_open, marks.uses_macros)?;
            self.add_entry(below, name, Namespace::Type, Thing::Module(module), seen)?;
            if !marks.names_file {
                self.met.insert((own.module, name), module)?;
            }
            below.module = module;
            self.meet(*number, below);
        }
        Ok(!files.is_empty())
    }

    /// The numbers of the files that a `mod` item of a file reaches, which aren't met yet.
    fn files_of(&self, visit: Visit<'a>, name: Name, own: Place) -> Result<Vec<usize>, AllocError> {
        let mut files = Vec::new(self.alloc);
        let Some(declarer) = visit.file_module else {
            return Ok(files);
        };
        let Some(candidates) = self.declared.get(&(declarer, name)) else {
            return Ok(files);
        };
        for number in candidates.as_slice() {
            let is_met = self.roots.get(*number).copied().flatten().is_some();
            if !is_met && self.stands_around(*number, visit.place.module, own.module) {
                files.push(*number)?;
            }
        }
        Ok(files)
    }

    /// Whether a file's `mod` item stands in a module of the file whose root is another one.
    fn stands_around(&self, number: usize, root: ModuleNo, module: ModuleNo) -> bool {
        match self.around.get(number) {
            Some(names) => self.modules.is_named(module, root, names.as_slice()),
            None => false,
        }
    }
}
