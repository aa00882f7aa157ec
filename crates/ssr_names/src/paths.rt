//! What the names of paths stand for, one by one.

ghost use Rattle.std.specs.Prelude.{◌≡◌, ◌⊎◌, true, List, [], ◌∷◌, ◌++◌, IfOk, IfSome};
ghost use Rattle.ssr_names_items.specs.declared.table.Name.{Name};
ghost use Rattle.ssr_names.specs.Private.Meanings.{Means};
ghost use Rattle.ssr_names.specs.Lookup.{Begins, Finds, IsBase, IsBehind, IsEverywhere, IsInRoot, IsOfBuiltin, IsOfCrate, IsOutside, IsUnaliased, IsUp, IsVariant, PathStandsFor};
ghost use Rattle.ssr_names.specs.Private.Answered.{IsFront, IsFrontOf, place_of};

use crate::definitions::{Definition, Meaning, OutsideNo};
use crate::lookup::{Front, PathAnswer, PathQuestion, Question, is_member};
use crate::outside::OutsidePaths;
use crate::space::Space;
use crate::std_names::{is_builtin_type, is_in_type_module};
use ssr_names_items::{
    Edition, ItemKind, ItemNo, ModuleKind, ModuleNo, Name, Namespace, Owner, Start,
};
use std::alloc::{AllocError, Global};

/// A name of a path, and the namespace that it is looked up in.
#[derive(Clone, Copy)]
struct Step {
    name: Name,
    namespace: Namespace,
}

impl<'a> Space<'a> {
    /// The crate of a name.
    fn as_crate(&self, question: Question) -> Meaning
        ensures { Means result (IsOfCrate self.now question) }
    {
        match self.crate_named(question.name) {
            Some(definition) if question.namespace == Namespace::Type => Meaning::One(definition),
            _ => Meaning::Nothing,
        }
    }

    /// The builtin type of a name.
    fn as_builtin(&self, question: Question) -> Meaning
        ensures { Means result (IsOfBuiltin self.now question) }
    {
        match self.builtin_type(question.name) {
            Some(definition) if question.namespace == Namespace::Type => Meaning::One(definition),
            _ => Meaning::Nothing,
        }
    }

    /// What a name stands for that nothing around has: a crate, what the prelude has, a builtin type.
    pub(crate) fn everywhere(
        &self,
        outside: &mut OutsidePaths,
        module: ModuleNo,
        question: Question,
    ) -> Result<Meaning, AllocError>
        ensures { IfOk result (λ found. Means found (IsEverywhere self.now question)) }
    {
        let as_crate = self.as_crate(question);
        if as_crate.is_something() {
            return Ok(as_crate);
        }
        let prelude = self.prelude(outside, module, question.name, question.namespace)?;
        if prelude.is_something() {
            return Ok(prelude);
        }
        Ok(self.as_builtin(question))
    }

    /// What the first name of a path stands for, where that begins with a name. An import of the first edition begins in the
    /// root; where the edition isn't known, both have to agree.
    fn first_name(
        &self,
        alloc: Global,
        outside: &mut OutsidePaths,
        module: ModuleNo,
        question: Question,
        is_import: bool,
    ) -> Result<Meaning, AllocError>
        ensures { IfOk result (λ found. Means found (λ d. Finds self.now question «module» d ⊎ ((is_import ≡ true) × IsInRoot self.now «module» question d))) }
    {
        let edition = self.edition(module);
        if is_import && edition == Some(Edition::Edition2015) {
            return self.from_root(alloc, outside, module, question);
        }
        let around = self.from_here(alloc, outside, module, question)?;
        if !is_import || edition.is_some() {
            return Ok(around);
        }
        let root = self.from_root(alloc, outside, module, question)?;
        if root == around {
            Ok(around)
        } else {
            Ok(Meaning::Unknown)
        }
    }

    /// What a name stands for that is looked up outward, and then where names are known everywhere.
    fn from_here(
        &self,
        alloc: Global,
        outside: &mut OutsidePaths,
        module: ModuleNo,
        question: Question,
    ) -> Result<Meaning, AllocError>
        ensures { IfOk result (λ found. Means found (Finds self.now question «module»)) }
    {
        let around = self.outward(alloc, outside, module, question)?;
        if around.is_sure {
            return Ok(around.meaning);
        }
        let everywhere = self.everywhere(outside, module, question)?;
        Ok(around.meaning.join(everywhere))
    }

    /// What a name stands for that is looked up in the root, and then among crates.
    fn from_root(
        &self,
        alloc: Global,
        outside: &mut OutsidePaths,
        module: ModuleNo,
        question: Question,
    ) -> Result<Meaning, AllocError>
        ensures { IfOk result (λ found. Means found (IsInRoot self.now «module» question)) }
    {
        let root = self.in_module(alloc, outside, self.root_of(module), question)?;
        if root.is_sure {
            return Ok(root.meaning);
        }
        Ok(root.meaning.join(self.as_crate(question)))
    }

    /// What a name behind `::` at the beginning stands for.
    fn global_name(
        &self,
        alloc: Global,
        outside: &mut OutsidePaths,
        module: ModuleNo,
        question: Question,
    ) -> Result<Meaning, AllocError>
        ensures { IfOk result (λ found. Means found (λ d. IsInRoot self.now «module» question d ⊎ IsOfCrate self.now question d)) }
    {
        match self.edition(module) {
            Some(Edition::Edition2015) => self.from_root(alloc, outside, module, question),
            Some(_) => Ok(self.as_crate(question)),
            None => Ok(Meaning::Unknown),
        }
    }

    /// What a name behind a type stands for: its variant, its one associated item, or what has that name.
    fn behind_item(&self, item: ItemNo, name: Name) -> Meaning
        ensures { Means result (λ d. IsVariant self.now item name d ⊎ (d ≡ Definition.Member item name)) }
    {
        let Some(row) = self.item(item) else {
            return Meaning::Unknown;
        };
        match row.kind {
            ItemKind::Struct | ItemKind::Enum | ItemKind::Union | ItemKind::Trait => {
                match self.members_of(item, name) {
                    [member] if is_member(member, item, name) => {
                        Meaning::One(Definition::Item(self.first_item(member.item)))
                    }
                    _ => Meaning::One(Definition::Member(item, name)),
                }
            }
            ItemKind::TypeAlias => Meaning::Unknown,
            _ => Meaning::Nothing,
        }
    }

    /// What a definition is, where that is a type alias what it is an alias of.
    pub(crate) fn unaliased(&self, definition: Definition) -> Meaning
        ensures { Means result (IsUnaliased self.now definition) }
    {
        match definition {
            Definition::Item(item) => match self.item(item) {
                Some(row) if row.kind == ItemKind::TypeAlias && row.owner == Owner::Module => {
                    self.aliased(item)
                }
                _ => Meaning::One(definition),
            },
            _ => Meaning::One(definition),
        }
    }

    /// What a name behind a path that isn't read stands for.
    fn behind_outside(
        &self,
        outside: &mut OutsidePaths,
        path: OutsideNo,
        name: Name,
    ) -> Result<Meaning, AllocError>
        ensures { IfOk result (λ found. Means found IsOutside) }
    {
        let parent = match self.type_of_module(outside, path) {
            Some(builtin) if !is_in_type_module(self.text(name)) => builtin,
            _ => path,
        };
        let number = outside.child(Some(parent), name)?;
        Ok(Meaning::One(Definition::Outside(number)))
    }

    /// The builtin type that a module of the standard library is named as.
    pub(crate) fn type_of_module(
        &self,
        outside: &OutsidePaths,
        path: OutsideNo,
    ) -> Option<OutsideNo> {
        let row = outside.path(path)?;
        if row.parent != Some(self.std) || !is_builtin_type(self.text(row.name)) {
            return None;
        }
        match self.builtin_type(row.name) {
            Some(Definition::Outside(number)) => Some(number),
            _ => None,
        }
    }

    /// What a name behind a definition stands for.
    pub(crate) fn behind(
        &self,
        alloc: Global,
        outside: &mut OutsidePaths,
        definition: Definition,
        question: Question,
    ) -> Result<Meaning, AllocError>
        ensures { IfOk result (λ found. Means found (IsBehind self.now question definition)) }
    {
        let Meaning::One(plain) = self.unaliased(definition) else {
            return Ok(Meaning::Unknown);
        };
        match plain {
            Definition::Module(module) => {
                let found = self.in_module(alloc, outside, module, question)?;
                Ok(found.meaning)
            }
            Definition::Item(item) => Ok(self.behind_item(item, question.name)),
            Definition::Outside(path) => self.behind_outside(outside, path, question.name),
            Definition::Member(_, _) => Ok(Meaning::Unknown),
        }
    }

    /// The module that a path begins in, where it doesn't begin with a name.
    fn base(&self, start: Start, module: ModuleNo) -> Option<ModuleNo>
        ensures { IfSome result (IsBase self.now «module» start) }
    {
        match start {
            Start::Plain | Start::Global => None,
            Start::Crate => Some(self.root_of(module)),
            Start::SelfModule => Some(self.plain_module(module)),
            Start::Super(count) => self.module_up(self.plain_module(module), count),
        }
    }

    /// The module so many levels up.
    fn module_up(&self, module: ModuleNo, count: u32) -> Option<ModuleNo>
        ensures { IfSome result (IsUp self.now count «module») }
    {
        let mut at = module;
        for step in 0..count {
            at = self.parent_module(at)?;
        }
        Some(at)
    }

    /// Whether a path begins outside of a file of which no crate is known: at the root of its crate, or above its own module.
    fn begins_outside(&self, start: Start, module: ModuleNo) -> bool {
        let is_stray = match self.module(self.root_of(module)) {
            Some(root) => root.kind == ModuleKind::Stray,
            None => true,
        };
        match start {
            Start::Crate => is_stray,
            Start::Super(_) => is_stray && self.base(start, module).is_none(),
            _ => false,
        }
    }

    /// What the first name of a path stands for.
    fn first(
        &self,
        alloc: Global,
        outside: &mut OutsidePaths,
        path: PathQuestion<'_>,
        question: Question,
    ) -> Result<Meaning, AllocError>
        ensures { IfOk result (λ found. Means found (Begins self.now (place_of path.entry) question)) }
    {
        let is_import = path.import.is_some();
        match path.start {
            Start::Plain => self.first_name(alloc, outside, path.module, question, is_import),
            Start::Global => self.global_name(alloc, outside, path.module, question),
            start if self.begins_outside(start, path.module) => Ok(Meaning::Unknown),
            _ => match self.base(path.start, path.module) {
                Some(base) => {
                    let found = self.in_module(alloc, outside, base, question)?;
                    Ok(found.meaning)
                }
                None => Ok(Meaning::Nothing),
            },
        }
    }

    /// What the names of a path in front of the last one stand for.
    pub(crate) fn front(
        &self,
        alloc: Global,
        outside: &mut OutsidePaths,
        path: PathQuestion<'_>,
    ) -> Result<Front, AllocError>
        ensures { IfOk result (IsFrontOf self.now (place_of path.entry) path.entry.names.now) }
    {
        self.front_from(alloc, outside, path, Front::Empty)
    }

    /// What the names of a path in front of the last one stand for, where those in front of them stand for this.
    fn front_from(
        &self,
        alloc: Global,
        outside: &mut OutsidePaths,
        path: PathQuestion<'_>,
        start: Front,
    ) -> Result<Front, AllocError>
        ensures { IsFront self.now (place_of path.entry) [] start → IfOk result (IsFrontOf self.now (place_of path.entry) path.entry.names.now) }
    {
        let Some((_, names)) = path.names.split_last() else {
            return Ok(start);
        };
        let mut front = start;
        for name in names {
            front = self.front_with(alloc, outside, path, front, *name)?;
        }
        Ok(front)
    }

    /// What the names of a path stand for with one more.
    fn front_with(
        &self,
        alloc: Global,
        outside: &mut OutsidePaths,
        path: PathQuestion<'_>,
        front: Front,
        name: Name,
    ) -> Result<Front, AllocError>
        ensures { (done : List Name) → IsFront self.now (place_of path.entry) done front → IfOk result (IsFront self.now (place_of path.entry) (done ++ name ∷ [])) }
    {
        let step = Step {
            name,
            namespace: Namespace::Type,
        };
        let answer = self.next(alloc, outside, path, front, step)?;
        match answer.meaning {
            Meaning::One(definition) => Ok(Front::Behind(definition)),
            _ => Ok(Front::Ended(answer)),
        }
    }

    /// What one more name of a path stands for.
    fn next(
        &self,
        alloc: Global,
        outside: &mut OutsidePaths,
        path: PathQuestion<'_>,
        front: Front,
        step: Step,
    ) -> Result<PathAnswer, AllocError>
        ensures { (done : List Name) → IsFront self.now (place_of path.entry) done front → IfOk result (λ answer. Means answer.meaning (PathStandsFor self.now (place_of path.entry) step.namespace (done ++ step.name ∷ []))) }
    {
        let question = Question {
            name: step.name,
            namespace: step.namespace,
            viewer: path.module,
            skipped: path.import,
        };
        match front {
            Front::Empty => Ok(PathAnswer {
                meaning: self.first(alloc, outside, path, question)?,
                name: Some(step.name),
            }),
            Front::Behind(definition) => Ok(PathAnswer {
                meaning: self.behind(alloc, outside, definition, question)?,
                name: Some(step.name),
            }),
            Front::Ended(answer) => Ok(answer),
        }
    }

    /// What a path stands for in a namespace, where it is known what the names in front of the last one stand for.
    pub(crate) fn end(
        &self,
        alloc: Global,
        outside: &mut OutsidePaths,
        path: PathQuestion<'_>,
        front: Front,
    ) -> Result<PathAnswer, AllocError>
        ensures { IsFrontOf self.now (place_of path.entry) path.entry.names.now front → IfOk result (λ answer. Means answer.meaning (PathStandsFor self.now (place_of path.entry) path.entry.namespace path.entry.names.now)) }
    {
        let Some(name) = path.names.last() else {
            return Ok(PathAnswer {
                meaning: self.base_meaning(path),
                name: None,
            });
        };
        let step = Step {
            name: *name,
            namespace: path.namespace,
        };
        self.next(alloc, outside, path, front, step)
    }

    /// What a path without names stands for.
    fn base_meaning(&self, path: PathQuestion<'_>) -> Meaning
        ensures { Means result (PathStandsFor self.now (place_of path.entry) path.entry.namespace []) }
    {
        if self.begins_outside(path.start, path.module) {
            return Meaning::Unknown;
        }
        match self.base(path.start, path.module) {
            Some(base) => Meaning::One(Definition::Module(base)),
            None => Meaning::Nothing,
        }
    }

    /// What the names of a path stand for behind a definition.
    pub(crate) fn path_behind(
        &self,
        alloc: Global,
        outside: &mut OutsidePaths,
        path: PathQuestion<'_>,
        definition: Definition,
    ) -> Result<Meaning, AllocError> {
        let front = self.front_from(alloc, outside, path, Front::Behind(definition))?;
        let answer = self.end(alloc, outside, path, front)?;
        Ok(answer.meaning)
    }

    /// What a path stands for.
    pub(crate) fn path(
        &self,
        alloc: Global,
        outside: &mut OutsidePaths,
        path: PathQuestion<'_>,
    ) -> Result<PathAnswer, AllocError>
        ensures { IfOk result (λ answer. Means answer.meaning (PathStandsFor self.now (place_of path.entry) path.entry.namespace path.entry.names.now)) }
    {
        let front = self.front(alloc, outside, path)?;
        self.end(alloc, outside, path, front)
    }
}
