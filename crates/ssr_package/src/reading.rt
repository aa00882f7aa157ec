//! The files of a run, as they are reached.
ghost use Rattle.std.specs.Prelude.{IfOk, string_bytes};
ghost use Rattle.ssr_package.specs.Private.Texts.{AreKept};
ghost use Rattle.ssr_package.specs.Reads.{AreInOrder, AreRead};

use crate::crates::Crate;
use crate::marks::marks;
use crate::module_tree::{ModuleTree, Origin};
use crate::modules::{Declared, declared_modules};
use crate::notes::{Note, Trouble};
use crate::package_error::PackageError;
use crate::places::{file_folder, is_ours, module_folder};
use crate::reads::{Reads, Standing};
use crate::root::Root;
use crate::source_file::SourceFile;
use crate::texts::{Texts, in_order};
use crate::tokens::{behind_front, solid_tokens};
use std::alloc::{AllocError, Global};
use std::collections::BTreeSet;

/// The most files and folders that a run looks at.
pub(crate) const LIMIT: u32 = 1 << 20;

/// The files of a run.
#[derive(Debug, Drop)]
pub struct PackageFiles {
    /// The folder that names count from, a path of the file system; it may be empty, for the folder where the program runs.
    pub folder: String,
    /// The files that were read, in the order of their names.
    pub files: Vec<SourceFile>,
    /// The modules that have files, and which declares which.
    pub modules: ModuleTree,
    /// The crates on which the packages depend, by the names that code gives them: sorted, each once.
    pub dependencies: Vec<String>,
    /// What was passed over.
    pub notes: Vec<Note>,
}

/// What stands at a name that is reached.
#[derive(Clone, Copy, Debug, PartialEq, Eq)]
enum Found {
    /// A file that is to be read.
    New,
    /// What was reached before.
    Old,
    /// What is passed over.
    PassedOver,
    Nothing,
}

/// A run: the names that were reached, and the modules that have files, of which some are still to be read.
#[derive(Drop)]
pub(crate) struct Reading<'r> {
    alloc: Global,
    root: Root<'r>,
    reached: BTreeSet<String>,
    modules: ModuleTree,
    pub(crate) dependencies: BTreeSet<String>,
    /// The names of the files at given paths.
    pub(crate) given: BTreeSet<String>,
    pub(crate) notes: Vec<Note>,
}

impl<'r> Reading<'r> {
    /// A run that has reached no file.
    pub(crate) fn new(alloc: Global, root: Root<'r>) -> Self {
        Reading {
            alloc,
            root,
            reached: BTreeSet::new(alloc),
            modules: ModuleTree::new(alloc),
            dependencies: BTreeSet::new(alloc),
            given: BTreeSet::new(alloc),
            notes: Vec::new(alloc),
        }
    }

    pub(crate) fn alloc(&self) -> Global {
        self.alloc
    }

    pub(crate) fn root(&self) -> Root<'r> {
        self.root
    }

    /// What was read and passed over.
    pub(crate) fn finish<F: Reads>(
        self,
        reader: &F,
        texts: Texts,
    ) -> Result<PackageFiles, PackageError>
        requires { AreKept (F.gave reader.now) texts }
        ensures read { IfOk result (λ found. AreRead (F.gave reader.now) (string_bytes found.folder) found.files.items) }
        ensures order { IfOk result (λ found. AreInOrder found.files.items) }
    {
        let alloc = reader.alloc();
        let Texts { folder, by_name } = texts;
        let files = in_order(alloc, by_name)?;
        Ok(PackageFiles {
            folder,
            files,
            modules: self.modules,
            dependencies: self.dependencies.into_iter().collect(alloc)?,
            notes: self.notes,
        })
    }

    /// Notes something of a file.
    pub(crate) fn note(&mut self, name: &str, trouble: Trouble) -> Result<(), PackageError> {
        let name = String::from_str(self.alloc(), name)?;
        self.notes.push(Note { name, trouble })?;
        Ok(())
    }

    /// Whether a name was reached.
    pub(crate) fn is_reached(&self, name: &str) -> bool {
        self.reached.contains(name)
    }

    /// Whether a name is reached for the first time. It is then taken for reached.
    pub(crate) fn is_new(&mut self, name: &str) -> Result<bool, PackageError> {
        if self.reached.contains(name) {
            return Ok(false);
        }
        let name = String::from_str(self.alloc(), name)?;
        self.reached.insert(name)?;
        Ok(true)
    }

    /// Reads a file of no crate that is known, unless it was reached before, and not what its `mod` items reach.
    pub(crate) fn read_alone<F: Reads>(
        &mut self,
        reader: &mut F,
        texts: &mut Texts,
        name: String,
    ) -> Result<(), PackageError>
        requires { AreKept (F.gave reader.old) texts.old }
        ensures { AreKept (F.gave reader.new) texts.new }
    {
        self.given.insert(name.clone()?)?;
        if !self.is_new(name.as_str())? {
            return Ok(());
        }
        if let Some(trouble) = self.root.standing(reader, name.as_str())?.trouble() {
            return self.note(name.as_str(), trouble);
        }
        match texts.read(reader, name.as_str())? {
            Ok(text) => {
                let copy = String::from_str(self.alloc(), name.as_str())?;
                self.modules.add_root(copy, None)?;
                texts.add(name, text)?;
                Ok(())
            }
            Err(trouble) => self.note(name.as_str(), trouble),
        }
    }

    /// Reaches the file that a crate begins with, if one is there: tells whether something is.
    pub(crate) fn reach_root<F: Reads>(
        &mut self,
        reader: &F,
        name: String,
        of: Crate,
    ) -> Result<bool, PackageError> {
        let found = self.look(reader, name.as_str())?;
        match found {
            Found::New => self.modules.add_root(name, Some(of))?,
            Found::Old => self
                .modules
                .add_further(name, true, Origin::Root(Some(of)))?,
            Found::PassedOver | Found::Nothing => {}
        }
        Ok(found != Found::Nothing)
    }

    /// Looks what stands at a name, which is then reached. Why a file is passed over is noted.
    fn look<F: Reads>(&mut self, reader: &F, name: &str) -> Result<Found, PackageError> {
        let standing = self.root.standing(reader, name)?;
        if matches!(standing, Standing::Missing | Standing::Folder) {
            return Ok(Found::Nothing);
        }
        if !self.is_new(name)? {
            return Ok(Found::Old);
        }
        match standing.trouble() {
            Some(trouble) => self.note(name, trouble)?,
            None if !is_ours(name) => self.note(name, Trouble::NotOurs)?,
            None => return Ok(Found::New),
        }
        Ok(Found::PassedOver)
    }

    /// Reads the files that were reached, and those that they reach.
    pub(crate) fn read_reached<F: Reads>(
        &mut self,
        reader: &mut F,
        texts: &mut Texts,
    ) -> Result<(), PackageError>
        requires { AreKept (F.gave reader.old) texts.old }
        ensures { AreKept (F.gave reader.new) texts.new }
    {
        for _ in 0..LIMIT {
            if !self.modules.go_on() {
                return Ok(());
            }
            self.read_here(reader, texts)?;
        }
        Err(PackageError::TooMany)
    }

    /// Reads the file of the module that the run has come to.
    fn read_here<F: Reads>(&mut self, reader: &mut F, texts: &mut Texts) -> Result<(), PackageError>
        requires { AreKept (F.gave reader.old) texts.old }
        ensures { AreKept (F.gave reader.new) texts.new }
    {
        let alloc = self.alloc();
        let Some(module) = self.modules.here() else {
            return Ok(());
        };
        let name = String::from_str(alloc, module.file.as_str())?;
        let below = module_folder(alloc, name.as_str(), module.owns_folder)?;
        match texts.read(reader, name.as_str())? {
            Ok(text) => {
                self.follow(reader, name.as_str(), below.as_str(), text.as_str())?;
                texts.add(name, text)?;
                Ok(())
            }
            Err(trouble) => self.note(name.as_str(), trouble),
        }
    }

    /// Reaches the files of a file's `mod` items. Those of its modules lie in the folder `below`.
    fn follow<F: Reads>(
        &mut self,
        reader: &F,
        name: &str,
        below: &str,
        text: &str,
    ) -> Result<(), PackageError> {
        let alloc = self.alloc();
        let text = behind_front(text);
        let tokens = solid_tokens(alloc, text)?;
        let marks = marks(alloc, &tokens)?;
        for module in &declared_modules(alloc, text, file_folder(name), below, &marks)? {
            self.reach_module(reader, name, module)?;
        }
        Ok(())
    }

    /// Reaches the files of a `mod` item, or notes that none is there.
    fn reach_module<F: Reads>(
        &mut self,
        reader: &F,
        name: &str,
        module: &Declared<'_>,
    ) -> Result<(), PackageError> {
        let mut is_there = false;
        let mut is_outside = false;
        for candidate in &module.candidates {
            match &candidate.name {
                Some(file) => {
                    if self.reach_declared(reader, file.as_str(), candidate.owns_folder, module)? {
                        is_there = true;
                    }
                }
                None => is_outside = true,
            }
        }
        if is_there || module.in_macro {
            return Ok(());
        }
        let module = String::from_str(self.alloc(), module.name)?;
        if is_outside {
            self.note(name, Trouble::ModuleOutside(module))
        } else {
            self.note(name, Trouble::NoModule(module))
        }
    }

    /// Reaches a file that a `mod` item may stand for, if one is there: tells whether something is.
    fn reach_declared<F: Reads>(
        &mut self,
        reader: &F,
        file: &str,
        owns_folder: bool,
        module: &Declared<'_>,
    ) -> Result<bool, PackageError> {
        let found = self.look(reader, file)?;
        if matches!(found, Found::New | Found::Old) {
            let alloc = self.alloc();
            let file = String::from_str(alloc, file)?;
            let around = copies(alloc, &module.around)?;
            let name = String::from_str(alloc, module.name)?;
            if found == Found::New {
                self.modules.add_declared(file, owns_folder, around, name)?;
            } else {
                let origin = self.modules.origin(around, name);
                self.modules.add_further(file, owns_folder, origin)?;
            }
        }
        Ok(found != Found::Nothing)
    }
}

/// Texts once more.
fn copies(alloc: Global, texts: &[&str]) -> Result<Vec<String>, AllocError> {
    let mut copies = Vec::with_capacity(alloc, texts.len())?;
    for text in texts {
        copies.push(String::from_str(alloc, text)?)?;
    }
    Ok(copies)
}
