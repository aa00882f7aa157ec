//! What comes in by `*`.

ghost use Rattle.std.specs.Prelude.{◌≡◌, ◌⊎◌, true, [], ◌∷◌, ◌++◌, slice_get, All, IfOk, OnOk};
ghost use Rattle.ssr_names_items.specs.declared.table.ImportNo.{ImportNo};
ghost use Rattle.ssr_names_items.specs.declared.table.ModuleNo.{ModuleNo};
ghost use Rattle.ssr_names.specs.declared.lookup.Question.{Question};
ghost use Rattle.ssr_names.specs.Private.Meanings.{Means};
ghost use Rattle.ssr_names.specs.Lookup.{IsGlob, IsOutside, IsVariant, Reaches};
ghost use Rattle.ssr_names.specs.Private.Answered.{BringsModule, IsBrought, IsBroughtIn};

use crate::definitions::{Definition, Meaning, OutsideNo};
use crate::lookup::{Found, Question, is_left_out, is_member};
use crate::outside::OutsidePaths;
use crate::space::{Space, between, is_same};
use crate::std_names::brought_by_glob;
use ssr_names_items::{Brings, Import, ImportNo, ItemKind, ItemNo, ModuleNo, Name, Namespace};
use std::alloc::{AllocError, Global};
use std::collections::BTreeSet;

/// Modules whose names come in by `*`, in the order in which they are looked at.
#[derive(Drop)]
struct GlobWalk {
    imports: Vec<ImportNo>,
    seen: BTreeSet<ImportNo>,
}

impl GlobWalk {
    fn new(alloc: Global) -> GlobWalk
        ensures { result.imports.items ≡ [] }
    {
        GlobWalk {
            imports: Vec::new(alloc),
            seen: BTreeSet::new(alloc),
        }
    }

    /// The import at a place.
    fn at(&self, place: usize) -> Option<ImportNo>
        ensures { result ≡ slice_get self.now.imports.items place }
    {
        self.imports.get(place).copied()
    }

    fn add(&mut self, import: ImportNo) -> Result<(), AllocError>
        ensures { OnOk result ((self.new.imports.items ≡ self.old.imports.items) ⊎ (self.new.imports.items ≡ self.old.imports.items ++ import ∷ [])) }
    {
        if self.seen.insert(import)? {
            self.imports.push(import)?;
        }
        Ok(())
    }
}

impl<'a> Space<'a> {
    /// Adds the imports by `*` of a module that a viewer sees.
    fn add_globs(
        &self,
        walk: &mut GlobWalk,
        module: ModuleNo,
        question: Question,
    ) -> Result<(), AllocError>
        ensures { (root : ModuleNo) (asked : Question) → All (Reaches self.now root asked) walk.old.imports.items → ((i : ImportNo) → IsGlob self.now «module» question i → Reaches self.now root asked i) → OnOk result (All (Reaches self.now root asked) walk.new.imports.items) }
    {
        for glob in self.globs_of(module) {
            if !self.is_glob(module, glob.import, question) {
                continue;
            }
            walk.add(glob.import)?;
        }
        Ok(())
    }

    /// Whether an import brings all into a module, the viewer sees it, and it isn't what is left out.
    fn is_glob(&self, module: ModuleNo, number: ImportNo, question: Question) -> bool
        ensures { result ≡ true → IsGlob self.now «module» question number }
    {
        let Some(import) = self.import(number) else {
            return false;
        };
        if !is_same(import.module, module) {
            return false;
        }
        if is_left_out(question.skipped, number) {
            return false;
        }
        match import.brings {
            Brings::Glob => self.is_seen(import.visibility, question.viewer),
            _ => false,
        }
    }

    /// What a name is that comes in by `*`.
    pub(crate) fn from_globs(
        &self,
        alloc: Global,
        outside: &mut OutsidePaths,
        module: ModuleNo,
        question: Question,
    ) -> Result<Found, AllocError>
        ensures { IfOk result (IsBroughtIn self.now «module» question) }
    {
        let mut found = self.if_open(module, question);
        if self.globs_of(module).is_empty() || self.comes_by_no_glob(question) {
            return Ok(found);
        }
        let mut walk = GlobWalk::new(alloc);
        self.add_globs(&mut walk, module, question)?;
        for place in 0..self.globs.len() {
            let Some(import) = walk.at(place) else {
                break;
            };
            let brought = self.brought(outside, &mut walk, import, question)?;
            found = found.join(brought);
        }
        Ok(found)
    }

    /// What an import by `*` brings in under a name. The imports by `*` of a module that it brings in are looked at later.
    fn brought(
        &self,
        outside: &mut OutsidePaths,
        walk: &mut GlobWalk,
        number: ImportNo,
        question: Question,
    ) -> Result<Found, AllocError>
        ensures brought { IfOk result (IsBrought self.now question number) }
        ensures reached { (root : ModuleNo) → All (Reaches self.now root question) walk.old.imports.items → Reaches self.now root question number → OnOk result (All (Reaches self.now root question) walk.new.imports.items) }
    {
        let Some(import) = self.import(number) else {
            return Ok(Found::NOTHING);
        };
        let is_sure = import.is_sure;
        match self.answer(number, Namespace::Type) {
            Meaning::Nothing => Ok(Found::NOTHING),
            Meaning::Unknown => Ok(self.unread(question)),
            Meaning::One(Definition::Module(module)) => {
                self.brought_of(walk, import, module, question)
            }
            Meaning::One(Definition::Item(item)) if !self.has_variants(item) => {
                Ok(self.unread(question))
            }
            Meaning::One(Definition::Item(item)) => {
                let meaning = self.variant(item, question.name);
                Ok(Found::of(meaning, is_sure && !self.is_unsure_variant(meaning)))
            }
            Meaning::One(Definition::Outside(path)) => {
                let meaning = self.outside_glob(outside, path, question)?;
                Ok(Found::of(meaning, is_sure))
            }
            Meaning::One(Definition::Member(_, _)) => Ok(self.unread(question)),
        }
    }

    /// What an import by `*` of a module brings in under a name.
    fn brought_of(
        &self,
        walk: &mut GlobWalk,
        import: &Import,
        module: ModuleNo,
        question: Question,
    ) -> Result<Found, AllocError>
        ensures brought { (i : ImportNo) → BringsModule self.now i import.now «module» → IfOk result (IsBrought self.now question i) }
        ensures reached { (i : ImportNo) → BringsModule self.now i import.now «module» → (root : ModuleNo) → All (Reaches self.now root question) walk.old.imports.items → Reaches self.now root question i → OnOk result (All (Reaches self.now root question) walk.new.imports.items) }
    {
        let seen_here = Question {
            viewer: import.module,
            ..question
        };
        let explicit = self.explicit(module, seen_here);
        if explicit.is_sure {
            return Ok(Found::of(explicit.meaning, import.is_sure));
        }
        if self.hides_globs(module, seen_here) {
            return Ok(self.unread(question));
        }
        self.add_globs(walk, module, seen_here)?;
        let found = explicit.join(self.if_open(module, seen_here));
        Ok(Found::of(found.meaning, false))
    }

    /// Whether a module has something under a name that isn't seen, which hides what comes in by `*` there.
    fn hides_globs(&self, module: ModuleNo, question: Question) -> bool {
        !self.globs_of(module).is_empty()
            && self.entries(module, question.name).iter().any(|entry| entry.namespace
                == question.namespace
                && !self.is_seen(entry.visibility, question.viewer))
    }

    /// Whether a meaning is a variant that isn't there in each configuration.
    fn is_unsure_variant(&self, meaning: Meaning) -> bool {
        match meaning {
            Meaning::One(Definition::Item(item)) => {
                self.unsure_variants.binary_search(&item).is_ok()
            }
            _ => false,
        }
    }

    /// Whether an item has variants that are read: those of an enum that a macro declares aren't.
    fn has_variants(&self, item: ItemNo) -> bool {
        let first = self.members.partition_point(|member| member.of < item);
        let past = self.members.partition_point(|member| member.of <= item);
        between(&self.members, first, past).iter().any(|member| self.kind_of(member.item)
            == Some(ItemKind::Variant))
    }

    /// The variant of an enum with a name.
    fn variant(&self, item: ItemNo, name: Name) -> Meaning
        ensures { Means result (IsVariant self.now item name) }
    {
        match self.members_of(item, name).first() {
            Some(member)
                if is_member(member, item, name)
                    && self.kind_of(member.item) == Some(ItemKind::Variant) => {
                Meaning::One(Definition::Item(self.first_item(member.item)))
            }
            _ => Meaning::Nothing,
        }
    }

    /// What `*` brings in under a name of a path that isn't read.
    fn outside_glob(
        &self,
        outside: &mut OutsidePaths,
        path: OutsideNo,
        question: Question,
    ) -> Result<Meaning, AllocError>
        ensures { IfOk result (λ found. Means found IsOutside) }
    {
        let unread = self.unread(question).meaning;
        let Some(row) = outside.path(path) else {
            return Ok(unread);
        };
        let Some(parent) = row.parent else {
            return Ok(unread);
        };
        let Some(above) = outside.path(parent) else {
            return Ok(unread);
        };
        let is_in_std = above.parent.is_none() == (parent == self.std)
            && self.is_in_std(outside, parent);
        let Some(names) = brought_by_glob(self.text(above.name), self.text(row.name)) else {
            return Ok(unread);
        };
        if !is_in_std {
            return Ok(unread);
        }
        if !names.contains(&self.text(question.name)) {
            return Ok(Meaning::Nothing);
        }
        let number = outside.child(Some(path), question.name)?;
        Ok(Meaning::One(Definition::Outside(number)))
    }

    /// Whether a path is the standard library, or one of its modules.
    fn is_in_std(&self, outside: &OutsidePaths, path: OutsideNo) -> bool {
        if path == self.std {
            return true;
        }
        match outside.path(path) {
            Some(row) => row.parent == Some(self.std),
            None => false,
        }
    }
}
