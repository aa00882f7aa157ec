//! The modules of a run, and which declares which.
ghost use Rattle.std.specs.Prelude.{◌≡◌, ◌<◌, [], ◌∷◌, ◌++◌, None, Some, IfOk, IfSome, OnOk, if◌then◌else◌, length, slice_get, option_copied};
ghost use Rattle.ssr_package.specs.ModuleTree as spec;

use crate::crates::Crate;
use std::alloc::{AllocError, Global};
use std::marker::Model;

/// A module that has a file.
#[derive(Debug, Drop)]
pub struct Module {
    /// The file's name.
    pub file: String,
    /// Whether the files of its own modules lie in its own folder.
    pub owns_folder: bool,
    pub origin: Origin,
}

/// Where a module comes from.
#[derive(Debug, Drop)]
pub enum Origin {
    /// It is the root of a crate; `None`: of none that is known.
    Root(Option<Crate>),
    /// A `mod` item declares it.
    Declared(Declaration),
}

/// A `mod` item without a body.
#[derive(Debug, Drop)]
pub struct Declaration {
    /// The number of the module in whose file the item stands.
    pub declarer: usize,
    /// The names of the modules with a body that the item stands in, from the outermost.
    pub around: Vec<String>,
    /// The module's name.
    pub name: String,
}

/// The modules that a run reached. They are numbered, and each stands behind the one that declares it. The file of one may be
/// none that is read; then that is noted.
#[derive(Debug, Drop)]
pub struct ModuleTree {
    modules: Vec<Module>,
    /// The module whose file is read, which declares what is declared.
    here: Option<usize>,
    /// The further modules whose files are those of others.
    further: Vec<Module>,
}

impl Model for ModuleTree {
    ghost use Rattle.std.specs.Prelude.{◌<◌, IfSome, length};
    ghost use Rattle.ssr_package.specs.ModuleTree as spec;

    ghost Value = { spec.ModuleTree };

    ghost view = { λ tree. record { modules = tree.modules.items; here = tree.here } };

    ghost invariant = { λ tree. spec.IsTree tree.modules.items × IfSome tree.here (λ here. here < length tree.modules.items) };
}

impl ModuleTree {
    /// No modules.
    #[tactic(auto, using(crate::proofs::Trees::none_yet))]
    pub fn new(alloc: Global) -> ModuleTree
        ensures modules { result.modules ≡ [] }
        ensures here { result.here ≡ None }
    {
        ModuleTree {
            modules: Vec::new(alloc),
            here: None,
            further: Vec::new(alloc),
        }
    }

    /// The modules, by their numbers.
    pub fn modules(&self) -> &[Module]
        ensures modules { result.now ≡ self.now.modules }
        ensures tree { spec.IsTree result.now }
    {
        &self.modules
    }

    /// The further modules of files: each has the file of one of the modules, or of one that was passed over, which another `mod`
    /// item or another target names as well. An item that is there twice, as under two conditions, is one of them too.
    pub fn further(&self) -> &[Module] {
        &self.further
    }

    /// The module whose file is read.
    pub(crate) fn here(&self) -> Option<&Module>
        ensures { option_copied result ≡ spec.module_here self.now }
    {
        match self.here {
            Some(here) => self.modules.get(here),
            None => None,
        }
    }

    /// Goes on to the file of the next module, if there is one: tells whether there is.
    pub(crate) fn go_on(&mut self) -> bool
        ensures modules { self.new.modules ≡ self.old.modules }
        ensures here { self.new.here ≡ (if result then Some (spec.next self.old) else self.old.here) }
        ensures more { result ≡ spec.has_next self.old }
    {
        let next = match self.here {
            Some(here) => here + 1,
            None => 0,
        };
        let has_next = next < self.modules.len();
        if has_next {
            self.here = Some(next);
        }
        has_next
    }

    /// Adds a file that no module declares: the root of a crate, or of none that is known.
    #[tactic(auto, using(crate::proofs::Trees::one_more))]
    pub(crate) fn add_root(&mut self, file: String, of: Option<Crate>) -> Result<(), AllocError>
        ensures modules { OnOk result (self.new.modules ≡ self.old.modules ++ spec.root file of ∷ []) }
        ensures here { self.new.here ≡ self.old.here }
    {
        self.modules.push(Module {
            file,
            owns_folder: true,
            origin: Origin::Root(of),
        })?;
        Ok(())
    }

    /// Adds a module that the one declares whose file is read; where none is read, it is a root.
    #[tactic(auto, using(crate::proofs::Trees::one_more))]
    pub(crate) fn add_declared(
        &mut self,
        file: String,
        owns_folder: bool,
        around: Vec<String>,
        name: String,
    ) -> Result<(), AllocError>
        ensures modules { OnOk result (self.new.modules ≡ self.old.modules ++ record { file = file; owns_folder = owns_folder; origin = spec.origin self.old.here around name } ∷ []) }
        ensures here { self.new.here ≡ self.old.here }
    {
        let origin = self.origin(around, name);
        self.modules.push(Module {
            file,
            owns_folder,
            origin,
        })?;
        Ok(())
    }

    /// Where a module comes from that the one declares whose file is read.
    pub(crate) fn origin(&self, around: Vec<String>, name: String) -> Origin
        ensures origin { result ≡ spec.origin self.now.here around name }
        ensures behind { IfSome (spec.declarer_of result) (λ number. number < length self.now.modules) }
    {
        match self.here {
            Some(declarer) => Origin::Declared(Declaration {
                declarer,
                around,
                name,
            }),
            None => Origin::Root(None),
        }
    }

    /// Adds a further module, with a file that was reached before.
    pub(crate) fn add_further(
        &mut self,
        file: String,
        owns_folder: bool,
        origin: Origin,
    ) -> Result<(), AllocError>
        ensures modules { self.new.modules ≡ self.old.modules }
        ensures here { self.new.here ≡ self.old.here }
    {
        self.further.push(Module {
            file,
            owns_folder,
            origin,
        })?;
        Ok(())
    }
}
