//! What `use` and `extern crate` items bring in.

use crate::attributes::attributes_of;
use crate::code::Code;
use crate::reader::{Place, Reader};
use crate::table::{
    Brings, Import, ImportNo, MacroCrate, Name, Namespace, Owner, Start, Thing, Visibility,
};
use crate::uses::{UsePath, use_paths};
use crate::visibility::visibility_of;
use ssr_syntax_kinds::SyntaxKind;
use ssr_syntax_tree::NodeNo;
use std::alloc::AllocError;

impl<'a> Reader<'a> {
    /// Reads a `use` item.
    pub(crate) fn read_use(
        &mut self,
        code: Code<'_>,
        node: NodeNo,
        place: Place,
    ) -> Result<(), AllocError> {
        let mut own = self.place_of_item(code, node, place);
        own.owner = Owner::Module;
        let seen = visibility_of(code, node, &self.modules, place.module);
        for path in use_paths(self.alloc, &mut self.names, code, node)? {
            self.add_use(path, own, seen)?;
        }
        Ok(())
    }

    /// Reads an `extern crate` item.
    pub(crate) fn read_crate(
        &mut self,
        code: Code<'_>,
        node: NodeNo,
        place: Place,
    ) -> Result<(), AllocError> {
        let mut own = self.place_of_item(code, node, place);
        own.owner = Owner::Module;
        let seen = visibility_of(code, node, &self.modules, place.module);
        let uses_macros = attributes_of(code, node).may_use_macros;
        let named = self.crate_name(code, node)?;
        let brings = self.crate_brings(code, node, named)?;
        self.add_crate(named, brings, own, seen, uses_macros)
    }

    /// The name of the crate that an `extern crate` item names; `None` for `self`, the crate around.
    fn crate_name(&mut self, code: Code<'_>, node: NodeNo) -> Result<Option<Name>, AllocError> {
        let Some(named) = code.child(node, SyntaxKind::NAME_REF) else {
            return Ok(None);
        };
        match code.token(named, SyntaxKind::IDENT) {
            Some(token) => Ok(Some(self.names.add(code.token_text(token))?)),
            None => Ok(None),
        }
    }

    /// What an `extern crate` item brings in: the crate under its own name, or under the one behind `as`.
    fn crate_brings(
        &mut self,
        code: Code<'_>,
        node: NodeNo,
        named: Option<Name>,
    ) -> Result<Brings, AllocError> {
        let name = match code.child(node, SyntaxKind::RENAME) {
            Some(rename) => match code.name(rename) {
                Some(text) => Some(self.names.add(text)?),
                None => None,
            },
            None => named,
        };
        Ok(match name {
            Some(name) => Brings::Name(name),
            None => Brings::Nothing,
        })
    }

    /// Adds what an `extern crate` names.
    fn add_crate(
        &mut self,
        named: Option<Name>,
        brings: Brings,
        own: Place,
        seen: Visibility,
        uses_macros: bool,
    ) -> Result<(), AllocError> {
        if let (Some(name), true) = (named, uses_macros) {
            let module = own.module;
            self.macro_crates.push(MacroCrate { module, name })?;
        }
        let thing = match named {
            Some(name) => Thing::Crate(name),
            None => Thing::Module(self.modules.ancestor_at(own.module, 0)),
        };
        match brings {
            Brings::Name(name) => self.add_entry(own, name, Namespace::Type, thing, seen),
            Brings::Glob | Brings::Nothing => Ok(()),
        }
    }

    /// Adds a path of a `use` item.
    fn add_use(&mut self, path: UsePath, own: Place, seen: Visibility) -> Result<(), AllocError> {
        let UsePath {
            start,
            segments,
            brings,
            only_types,
        } = path;
        let Some(segments) = segments else {
            self.modules.open(own.module);
            return Ok(());
        };
        let import = self.add_import(Import {
            module: own.module,
            start,
            segments,
            brings,
            only_types,
            visibility: seen,
            is_sure: own.is_sure,
        })?;
        match brings {
            Brings::Name(name) => self.add_imported(import, name, own, seen, only_types),
            Brings::Glob | Brings::Nothing => Ok(()),
        }
    }

    /// Adds a name that an import brings in.
    fn add_imported(
        &mut self,
        import: ImportNo,
        name: Name,
        own: Place,
        seen: Visibility,
        only_types: bool,
    ) -> Result<(), AllocError> {
        let thing = Thing::Import(import);
        self.add_entry(own, name, Namespace::Type, thing, seen)?;
        if only_types {
            return Ok(());
        }
        self.add_entry(own, name, Namespace::Value, thing, seen)?;
        self.add_entry(own, name, Namespace::Macro, thing, seen)
    }
}
