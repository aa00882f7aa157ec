//! The modules of a run as they are found.

use crate::table::{Module, ModuleKind, ModuleNo, Name};
use ssr_base_trees::NodeId;
use std::alloc::{AllocError, Global};

/// The most modules that are gone up from one.
const MOST_LEVELS: u32 = 4096;

/// Modules, of which each stands behind the one around it.
#[derive(Drop)]
pub(crate) struct Modules {
    rows: Vec<Module>,
    /// Of each whether its macros are seen in the module around it too.
    lends_macros: Vec<bool>,
}

impl Modules {
    pub(crate) fn new(alloc: Global) -> Modules {
        Modules {
            rows: Vec::new(alloc),
            lends_macros: Vec::new(alloc),
        }
    }

    /// The modules.
    pub(crate) fn into_rows(self) -> Vec<Module> {
        let Modules { rows, .. } = self;
        rows
    }

    pub(crate) fn get(&self, module: ModuleNo) -> Option<Module> {
        self.rows.get(module.0 as usize).copied()
    }

    /// Adds a module.
    pub(crate) fn add(
        &mut self,
        parent: Option<ModuleNo>,
        kind: ModuleKind,
        node: NodeId,
        is_open: bool,
        lends_macros: bool,
    ) -> Result<ModuleNo, AllocError> {
        if self.rows.len() >= u32::MAX as usize {
            return Err(AllocError);
        }
        let module = ModuleNo(self.rows.len() as u32);
        self.lends_macros.push(lends_macros)?;
        self.rows.push(Module {
            parent,
            kind,
            node,
            is_open,
        })?;
        Ok(module)
    }

    /// Takes a module for one that may have names that aren't read.
    pub(crate) fn open(&mut self, module: ModuleNo) {
        if let Some(row) = self.rows.get_mut(module.0 as usize) {
            row.is_open = true;
        }
    }

    /// The module around, blocks aside.
    fn outer(&self, module: ModuleNo) -> Option<ModuleNo> {
        let mut at = self.get(module)?.parent?;
        for _ in 0..MOST_LEVELS {
            let row = self.get(at)?;
            if row.kind != ModuleKind::Block {
                return Some(at);
            }
            at = row.parent?;
        }
        None
    }

    /// The module so many levels up, blocks aside; the outermost one, where there are fewer.
    pub(crate) fn ancestor(&self, module: ModuleNo, levels: u32) -> ModuleNo {
        let mut at = self.innermost(module);
        for _ in 0..levels {
            match self.outer(at) {
                Some(outer) => at = outer,
                None => return at,
            }
        }
        at
    }

    /// The module that a block stands in.
    fn innermost(&self, module: ModuleNo) -> ModuleNo {
        match self.get(module) {
            Some(row) if row.kind == ModuleKind::Block => self.outer(module).unwrap_or(module),
            _ => module,
        }
    }

    /// How many modules are around one, blocks aside.
    fn level(&self, module: ModuleNo) -> u32 {
        let mut at = self.innermost(module);
        for level in 0..MOST_LEVELS {
            match self.outer(at) {
                Some(outer) => at = outer,
                None => return level,
            }
        }
        MOST_LEVELS
    }

    /// Of the modules around one, from the root on, that of a number.
    pub(crate) fn ancestor_at(&self, module: ModuleNo, number: u32) -> ModuleNo {
        self.ancestor(module, self.level(module).saturating_sub(number))
    }

    /// The module in which a macro is seen that stands in a module.
    pub(crate) fn of_macro(&self, module: ModuleNo) -> ModuleNo {
        let mut at = module;
        for _ in 0..MOST_LEVELS {
            let lends = self
                .lends_macros
                .get(at.0 as usize)
                .copied()
                .unwrap_or(false);
            match self.get(at) {
                Some(
                    Module {
                        parent: Some(parent),
                        ..
                    },
                ) if lends => at = parent,
                _ => return at,
            }
        }
        at
    }

    /// Whether the modules from the one on up to another are named so, from the innermost.
    pub(crate) fn is_named(&self, module: ModuleNo, root: ModuleNo, names: &[Name]) -> bool {
        let mut at = self.innermost(module);
        for name in names.iter().rev() {
            let kind = match self.get(at) {
                Some(row) => row.kind,
                None => return false,
            };
            if at == root || kind != ModuleKind::Named(*name) {
                return false;
            }
            match self.outer(at) {
                Some(outer) => at = outer,
                None => return false,
            }
        }
        at == root
    }
}
