//! What the names of macros stand for.

ghost use Rattle.std.specs.Prelude.{◌≡◌, ◌⊎◌, [], ◌∷◌, IfOk, IfSome};
ghost use Rattle.ssr_names.specs.Private.Meanings.{Means};
ghost use Rattle.ssr_names.specs.Lookup.{IsOutside};
ghost use Rattle.ssr_names.specs.Private.Answered.{place_of};
ghost use Rattle.ssr_names.specs.WholePaths.{IsSeenMacro, WholeStandsFor};
ghost use Rattle.ssr_names.specs.Private.Macros.{IsAsType, IsMacro, IsOwnMacro};

use crate::definitions::{Definition, Meaning};
use crate::lookup::{PathAnswer, PathQuestion};
use crate::outside::OutsidePaths;
use crate::space::{Space, known_all, known_as};
use crate::std_names::{has_no_std_macros, is_std_macro};
use ssr_base_trees::NodeId;
use ssr_names_items::{ItemNo, ModuleNo, Name, Namespace, Start, Thing};
use std::alloc::{AllocError, Global};

/// The macros of a run with a name.
#[derive(Clone, Copy)]
enum OwnMacros {
    None,
    One(ItemNo),
    Several,
}

impl<'a> Space<'a> {
    /// The macros of the run with a name.
    fn own_macros(&self, name: Name) -> OwnMacros
        ensures { IsOwnMacro self.now name result }
    {
        match known_all(&self.macros, name).len() {
            0 => OwnMacros::None,
            1 => match known_as(&self.macros, name) {
                Some(Definition::Item(item)) => OwnMacros::One(item),
                _ => OwnMacros::Several,
            },
            _ => OwnMacros::Several,
        }
    }

    /// Whether some import brings in this name.
    fn is_brought_in(&self, name: Name) -> bool {
        self.brought_in.binary_search(&name).is_ok()
    }

    /// A macro of a crate that isn't read.
    fn crate_macro(
        &self,
        outside: &mut OutsidePaths,
        of: Option<Definition>,
        name: Name,
    ) -> Result<Meaning, AllocError>
        ensures { IfOk result (λ found. Means found IsOutside) }
    {
        let Some(Definition::Outside(root)) = of else {
            return Ok(Meaning::Unknown);
        };
        let number = outside.child(Some(root), name)?;
        Ok(Meaning::One(Definition::Outside(number)))
    }

    /// Whether no crate of which `#[macro_use]` brings in the macros where a module is has one that the standard library has too: it
    /// would hide that.
    fn are_std_macros_seen(&self, module: ModuleNo) -> bool {
        let root = self.root_of(module);
        self.table.macro_crates.iter().all(|of| self.root_of(of.module) != root
            || has_no_std_macros(self.text(of.name)))
    }

    /// What a macro's name stands for in a module that no file defines or brings in.
    fn foreign_macro(
        &self,
        outside: &mut OutsidePaths,
        module: ModuleNo,
        name: Name,
    ) -> Result<Meaning, AllocError>
        ensures { IfOk result (λ found. Means found IsOutside) }
    {
        if is_std_macro(self.text(name)) {
            if !self.are_std_macros_seen(module) {
                return Ok(Meaning::Unknown);
            }
            return self.crate_macro(outside, Some(Definition::Outside(self.std)), name);
        }
        match self.table.macro_crates.as_slice() {
            [only] => self.crate_macro(outside, self.crate_named(only.name), name),
            _ => Ok(Meaning::Unknown),
        }
    }

    /// What a macro's name alone stands for in a module.
    fn macro_named(
        &self,
        alloc: Global,
        outside: &mut OutsidePaths,
        path: PathQuestion<'_>,
        name: Name,
    ) -> Result<Meaning, AllocError>
        ensures { IfOk result (λ found. Means found (IsMacro self.now path.entry name)) }
    {
        if self.may_be_declared(path.module, name) {
            return Ok(Meaning::Unknown);
        }
        match self.own_macros(name) {
            OwnMacros::None => {
                let answer = self.path(alloc, outside, path)?;
                if self.is_brought_in(name) {
                    return Ok(self.imported_macro(outside, answer.meaning, name));
                }
                // A glob beats what comes with the language. What is found for sure of a glob needs not be a macro.
                match answer.meaning {
                    Meaning::Unknown => Ok(Meaning::Unknown),
                    _ => self.foreign_macro(outside, path.module, name),
                }
            }
            OwnMacros::One(item) if !self.is_brought_in(name) => {
                Ok(self.one_macro(item, path.module))
            }
            _ => Ok(Meaning::Unknown),
        }
    }

    /// Whether what isn't read may declare a macro of this name in a module or above it: macros are seen in the modules below.
    fn may_be_declared(&self, module: ModuleNo, name: Name) -> bool {
        let mut at = module;
        for _ in 0..self.table.modules.len() {
            let Some(row) = self.module(at) else {
                return true;
            };
            if row.is_open || self.has_unknown_macro(at, name) {
                return true;
            }
            match row.parent {
                Some(parent) => at = parent,
                None => return false,
            }
        }
        false
    }

    /// Whether a module may have a macro of this name that isn't read.
    fn has_unknown_macro(&self, module: ModuleNo, name: Name) -> bool {
        self.entries(module, name).iter().any(|entry| entry.namespace == Namespace::Macro
            && entry.thing == Thing::Unknown)
    }

    /// What a macro's name stands for that some import brings in: an import of another crate's function or module brings in no
    /// macro, and leaves the standard library's.
    fn imported_macro(&self, outside: &OutsidePaths, meaning: Meaning, name: Name) -> Meaning
        ensures { Means result (λ d. meaning ≡ Meaning.One d) }
    {
        match meaning {
            Meaning::One(definition)
                if is_std_macro(self.text(name)) && !self.is_of_std(outside, definition) => {
                Meaning::Unknown
            }
            _ => known(meaning),
        }
    }

    /// Whether a definition has a path of two names that begins with the standard library.
    fn is_of_std(&self, outside: &OutsidePaths, definition: Definition) -> bool {
        match definition {
            Definition::Outside(path) => match outside.path(path) {
                Some(row) => row.parent == Some(self.std),
                None => false,
            },
            _ => false,
        }
    }

    /// What the name of a macro of the run stands for in a module, where there is only that one: it is seen in its own module
    /// and below.
    fn one_macro(&self, item: ItemNo, module: ModuleNo) -> Meaning
        ensures { Means result (IsSeenMacro self.now «module» item) }
    {
        match self.item(item) {
            Some(row) if self.is_within(module, row.module) => {
                Meaning::One(Definition::Item(item))
            }
            _ => Meaning::Unknown,
        }
    }

    /// What a macro's name stands for where a node is, if it stands for this in the module: a macro of the run isn't seen in front of
    /// its own item, and where the standard library has one of its name that is seen there.
    pub(crate) fn macro_at(&self, node: NodeId, meaning: Meaning) -> Meaning
        ensures { Means result (λ d. meaning ≡ Meaning.One d) }
    {
        let Meaning::One(Definition::Item(item)) = meaning else {
            return meaning;
        };
        match self.item(item) {
            Some(row) if !is_std_macro(self.text(row.name)) => meaning,
            Some(row) if row.node.tree == node.tree && row.node < node => meaning,
            _ => Meaning::Unknown,
        }
    }

    /// What a path stands for: the name of a macro alone is looked up otherwise than others, and a module where a type is wanted
    /// is the builtin type of its name.
    pub(crate) fn whole_path(
        &self,
        alloc: Global,
        outside: &mut OutsidePaths,
        path: PathQuestion<'_>,
    ) -> Result<PathAnswer, AllocError>
        ensures { IfOk result (λ answer. Means answer.meaning (WholeStandsFor self.now (place_of path.entry) path.entry.namespace path.entry.names.now)) }
    {
        match lone_macro(path) {
            Some(name) => self.macro_answer(alloc, outside, path, name),
            None => self.typed_path(alloc, outside, path),
        }
    }

    /// What a macro's name alone stands for, and the name.
    fn macro_answer(
        &self,
        alloc: Global,
        outside: &mut OutsidePaths,
        path: PathQuestion<'_>,
        name: Name,
    ) -> Result<PathAnswer, AllocError>
        ensures { IfOk result (λ answer. Means answer.meaning (IsMacro self.now path.entry name)) }
    {
        let meaning = self.macro_named(alloc, outside, path, name)?;
        Ok(PathAnswer {
            meaning,
            name: Some(name),
        })
    }

    /// What a path stands for, where a type is wanted what stands for a type.
    fn typed_path(
        &self,
        alloc: Global,
        outside: &mut OutsidePaths,
        path: PathQuestion<'_>,
    ) -> Result<PathAnswer, AllocError>
        ensures { IfOk result (λ answer. Means answer.meaning (WholeStandsFor self.now (place_of path.entry) path.entry.namespace path.entry.names.now)) }
    {
        let answer = self.path(alloc, outside, path)?;
        match path.namespace {
            Namespace::Type => Ok(PathAnswer {
                meaning: self.as_type(outside, answer.meaning),
                ..answer
            }),
            _ => Ok(answer),
        }
    }

    /// What stands for a type where a meaning does.
    pub(crate) fn as_type(&self, outside: &OutsidePaths, meaning: Meaning) -> Meaning
        ensures { Means result (IsAsType meaning) }
    {
        match meaning {
            Meaning::One(definition) => Meaning::One(self.type_for(outside, definition)),
            _ => meaning,
        }
    }

    /// What stands for a type where a definition does.
    fn type_for(&self, outside: &OutsidePaths, definition: Definition) -> Definition
        ensures { (result ≡ definition) ⊎ (IsOutside definition × IsOutside result) }
    {
        match definition {
            Definition::Outside(path) => match self.type_of_module(outside, path) {
                Some(builtin) => Definition::Outside(builtin),
                None => definition,
            },
            _ => definition,
        }
    }
}

/// The name of a macro that a path is alone.
fn lone_macro(path: PathQuestion<'_>) -> Option<Name>
    ensures { IfSome result (λ name. (path.entry.start ≡ Start.Plain) × (path.entry.namespace ≡ Namespace.Macro) × (path.entry.names.now ≡ name ∷ [])) }
{
    match (path.start, path.namespace) {
        (Start::Plain, Namespace::Macro) => only_name(path.names),
        _ => None,
    }
}

/// The one name of these.
fn only_name(names: &[Name]) -> Option<Name>
    ensures { IfSome result (λ name. names.now ≡ name ∷ []) }
{
    match names.last() {
        Some(name) if names.len() == 1 => Some(*name),
        _ => None,
    }
}

/// A meaning that is there: what is found nowhere is unknown.
fn known(meaning: Meaning) -> Meaning
    ensures { Means result (λ d. meaning ≡ Meaning.One d) }
{
    match meaning {
        Meaning::Nothing => Meaning::Unknown,
        _ => meaning,
    }
}
