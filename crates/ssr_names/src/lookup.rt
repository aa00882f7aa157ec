//! What names stand for where they are written.

ghost use Rattle.std.specs.Prelude.{◌≡◌, ◌⊎◌, true, false, Some, IfOk};
ghost use Rattle.ssr_names.specs.Private.Meanings.{Means, is_something};
ghost use Rattle.ssr_names.specs.Lookup.{Counts, IsAsked, IsNothing, IsOrdered, IsVoid, StandsFor};
ghost use Rattle.ssr_names.specs.Private.Answered.{IsAround, IsDeclaredAs, IsFoundAmong, IsInModule, IsUnread, is_declared, is_import};
ghost use Rattle.ssr_names.specs.Private.Found.{Adds, Hides, Joins, found_of};

use crate::definitions::{Definition, Meaning};
use crate::outside::OutsidePaths;
use crate::space::{Member, Space, is_same};
use ssr_names_items::{Entry, ImportNo, ItemKind, ItemNo, ModuleNo, Name, Namespace, Start, Thing};
use std::alloc::{AllocError, Global};

/// What is looked up.
#[derive(Clone, Copy)]
pub(crate) struct Question {
    pub(crate) name: Name,
    pub(crate) namespace: Namespace,
    /// The module that the name has to be seen in.
    pub(crate) viewer: ModuleNo,
    /// An import that isn't looked at.
    pub(crate) skipped: Option<ImportNo>,
}

/// What is found of a name, and whether it is there in each configuration.
#[derive(Clone, Copy)]
pub(crate) struct Found {
    pub(crate) meaning: Meaning,
    pub(crate) is_sure: bool,
}

impl Found {
    pub(crate) const NOTHING: Found = Found {
        meaning: Meaning::Nothing,
        is_sure: false,
    };

    pub(crate) fn of(meaning: Meaning, is_sure: bool) -> Found
        ensures { result ≡ found_of meaning is_sure }
    {
        Found {
            meaning,
            is_sure: is_sure && meaning.is_something(),
        }
    }

    /// What is known where this is found first: it hides what is found behind it, if it is sure. But a path that isn't read may
    /// have no such name in a namespace, and then it hides no definition of the run.
    fn hiding(self, behind: Found) -> Found
        ensures { Hides self behind result }
    {
        if !self.is_sure {
            return self.join(behind);
        }
        match (self.meaning, behind.meaning) {
            (Meaning::One(Definition::Outside(_)), Meaning::One(Definition::Outside(_))) => self,
            (Meaning::One(Definition::Outside(_)), Meaning::One(_)) => {
                Found::of(Meaning::Unknown, true)
            }
            _ => self,
        }
    }

    /// What is known where both count.
    pub(crate) fn join(self, other: Found) -> Found
        ensures { Joins self other result }
    {
        Found {
            meaning: self.meaning.join(other.meaning),
            is_sure: self.is_sure || other.is_sure,
        }
    }
}

/// A path that is looked up.
#[derive(Clone, Copy)]
pub(crate) struct PathQuestion<'q> {
    pub(crate) start: Start,
    pub(crate) names: &'q [Name],
    pub(crate) namespace: Namespace,
    pub(crate) module: ModuleNo,
    /// The import whose path it is.
    pub(crate) import: Option<ImportNo>,
}

/// What a path stands for, and the last name of it that was looked up.
#[derive(Clone, Copy)]
pub(crate) struct PathAnswer {
    pub(crate) meaning: Meaning,
    pub(crate) name: Option<Name>,
}

/// What the names of a path in front of the last one stand for.
#[derive(Clone, Copy)]
pub(crate) enum Front {
    /// There are none.
    Empty,
    Behind(Definition),
    /// They stand for no definition that is known, and neither does the path.
    Ended(PathAnswer),
}

/// Whether an entry is an import.
fn is_import(thing: Thing) -> bool
    ensures { result ≡ is_import thing }
{
    matches!(thing, Thing::Import(_))
}

/// Whether an entry is the import that is left out.
fn is_skipped(thing: Thing, skipped: Option<ImportNo>) -> bool
    ensures skipped { result ≡ true → ¬ IsAsked thing skipped }
    ensures asked { result ≡ false → IsAsked thing skipped }
{
    match thing {
        Thing::Import(import) => is_left_out(skipped, import),
        _ => false,
    }
}

/// Whether an import is the one that is left out.
pub(crate) fn is_left_out(skipped: Option<ImportNo>, import: ImportNo) -> bool
    ensures out { result ≡ true → skipped ≡ Some import }
    ensures asked { result ≡ false → ¬ (skipped ≡ Some import) }
{
    match skipped {
        Some(other) => other.0 == import.0,
        None => false,
    }
}

/// Whether a member is one of an item with a name.
pub(crate) fn is_member(member: &Member, item: ItemNo, name: Name) -> bool
    ensures { result ≡ true → (member.now.of ≡ item) × (member.now.name ≡ name) }
{
    member.of.0 == item.0 && member.name.0 == name.0
}

impl<'a> Space<'a> {
    /// Whether what isn't read can't hide a name: those of crates and builtin types are taken to be never hidden so.
    fn is_never_hidden(&self, question: Question) -> bool {
        question.namespace == Namespace::Type
            && (self.crate_named(question.name).is_some()
                || self.builtin_type(question.name).is_some())
    }

    /// Whether nothing that comes in by `*` can hide a name: it is never hidden by what isn't read, and nothing that is read has it.
    pub(crate) fn comes_by_no_glob(&self, question: Question) -> bool {
        self.is_never_hidden(question) && self.type_names.binary_search(&question.name).is_err()
    }

    /// What an unread name may be.
    pub(crate) fn unread(&self, question: Question) -> Found
        ensures { IsUnread result }
    {
        if self.is_never_hidden(question) {
            Found::NOTHING
        } else {
            Found::of(Meaning::Unknown, false)
        }
    }

    /// What a name that isn't found in a module may be.
    pub(crate) fn if_open(&self, module: ModuleNo, question: Question) -> Found
        ensures { IsUnread result }
    {
        match self.module(module) {
            Some(row) if !row.is_open => Found::NOTHING,
            _ => self.unread(question),
        }
    }

    /// What an entry stands for.
    pub(crate) fn entry_meaning(&self, entry: &Entry, question: Question) -> Meaning
        ensures stands { Means result (StandsFor self.now question.namespace entry.now.thing) }
        ensures nothing { result ≡ Meaning.Nothing → IsNothing self.now question.namespace entry.now.thing }
        ensures something { is_something result ≡ true → ¬ IsVoid self.now question.namespace entry.now.thing }
    {
        match entry.thing {
            Thing::Item(item) => Meaning::One(Definition::Item(self.first_item(item))),
            Thing::Module(module) => Meaning::One(Definition::Module(module)),
            Thing::Import(import) => self.answer(import, question.namespace),
            Thing::Crate(name) => match self.crate_named(name) {
                Some(definition) => Meaning::One(definition),
                None => Meaning::Unknown,
            },
            Thing::Unknown => self.unread(question).meaning,
        }
    }

    /// Whether an entry counts: it is one of the name in a module, the viewer sees it, and it isn't what is left out.
    fn counts(&self, module: ModuleNo, entry: &Entry, question: Question) -> bool
        ensures seen { result ≡ true → Counts self.now «module» question entry.now }
        ensures unseen { IsOrdered self.now → result ≡ false → ¬ Counts self.now «module» question entry.now }
    {
        entry.module.0 == module.0
            && entry.name.0 == question.name.0
            && entry.namespace == question.namespace
            && !is_skipped(entry.thing, question.skipped)
            && self.is_seen(entry.visibility, question.viewer)
    }

    /// Of two entries of one name what both stand for: items of one sort are one definition, but for aliases, which may be those
    /// of different types.
    fn same_items(&self, had: Meaning, more: Meaning) -> Meaning
        ensures { Means result (λ d. (had ≡ Meaning.One d) ⊎ (more ≡ Meaning.One d)) }
    {
        match (had, more) {
            (Meaning::One(Definition::Item(one)), Meaning::One(Definition::Item(other))) => {
                let kind = self.kind_of(one);
                let is_same = kind == self.kind_of(other) && kind != Some(ItemKind::TypeAlias);
                if one == other || is_same {
                    had
                } else {
                    Meaning::Unknown
                }
            }
            _ => had.join(more),
        }
    }

    /// What the items among entries of a name stand for.
    fn declared(&self, module: ModuleNo, entries: &[Entry], question: Question) -> Found
        ensures { IsFoundAmong self.now «module» question entries.now is_declared result }
    {
        let mut found = Found::NOTHING;
        for entry in entries {
            found = self.with_declared(found, module, entry, question);
        }
        found
    }

    /// What is found with an entry more, if that is an item.
    fn with_declared(
        &self,
        found: Found,
        module: ModuleNo,
        entry: &Entry,
        question: Question,
    ) -> Found
        ensures { Adds self.now «module» question entry.now is_declared found result }
    {
        if is_import(entry.thing) || !self.counts(module, entry, question) {
            return found;
        }
        let meaning = self.entry_meaning(entry, question);
        Found {
            meaning: self.same_items(found.meaning, meaning),
            is_sure: found.is_sure || (entry.is_sure && meaning.is_something()),
        }
    }

    /// What the imports among entries of a name stand for.
    fn imported(&self, module: ModuleNo, entries: &[Entry], question: Question) -> Found
        ensures { IsFoundAmong self.now «module» question entries.now is_import result }
    {
        let mut found = Found::NOTHING;
        for entry in entries {
            found = self.with_imported(found, module, entry, question);
        }
        found
    }

    /// What is found with an entry more, if that is an import.
    fn with_imported(
        &self,
        found: Found,
        module: ModuleNo,
        entry: &Entry,
        question: Question,
    ) -> Found
        ensures { Adds self.now «module» question entry.now is_import found result }
    {
        if !is_import(entry.thing) || !self.counts(module, entry, question) {
            return found;
        }
        let meaning = self.entry_meaning(entry, question);
        found.join(Found::of(meaning, entry.is_sure))
    }

    /// What a module has under a name but for what comes in by `*`. An item that is there in each configuration leaves no room
    /// for an import.
    pub(crate) fn explicit(&self, module: ModuleNo, question: Question) -> Found
        ensures { IsDeclaredAs self.now «module» question result }
    {
        let entries = self.entries(module, question.name);
        let declared = self.declared(module, entries, question);
        if declared.is_sure {
            return declared;
        }
        declared.join(self.imported(module, entries, question))
    }

    pub(crate) fn kind_of(&self, item: ItemNo) -> Option<ItemKind> {
        Some(self.item(item)?.kind)
    }

    /// Whether nothing that is found behind this can be meant.
    fn hides_all(&self, outside: &OutsidePaths, found: Found) -> bool
        ensures { result ≡ true → found.is_sure ≡ true }
    {
        found.is_sure && !self.may_lack_name(outside, found.meaning)
    }

    /// Whether it isn't known of what sort a definition is, so that a namespace may lack its name: a module of the standard library
    /// is no function, and a path of another crate may be one or the other.
    fn may_lack_name(&self, outside: &OutsidePaths, meaning: Meaning) -> bool {
        let Meaning::One(Definition::Outside(path)) = meaning else {
            return false;
        };
        match outside.path(path) {
            Some(row) => match row.parent {
                Some(parent) => parent == self.std || outside.crate_of(parent) != self.std,
                None => true,
            },
            None => true,
        }
    }

    /// What a module has under a name.
    pub(crate) fn in_module(
        &self,
        alloc: Global,
        outside: &mut OutsidePaths,
        module: ModuleNo,
        question: Question,
    ) -> Result<Found, AllocError>
        ensures { IfOk result (IsInModule self.now «module» question) }
    {
        let explicit = self.explicit(module, question);
        if self.hides_all(outside, explicit) {
            return Ok(explicit);
        }
        let globs = self.from_globs(alloc, outside, module, question)?;
        Ok(explicit.hiding(globs))
    }

    /// What the blocks around have under a name, from the inside, and then their module.
    pub(crate) fn outward(
        &self,
        alloc: Global,
        outside: &mut OutsidePaths,
        module: ModuleNo,
        question: Question,
    ) -> Result<Found, AllocError>
        ensures { IfOk result (IsAround self.now question «module») }
    {
        let mut found = Found::NOTHING;
        let mut at = module;
        for step in 0..self.table.modules.len() {
            let here = self.in_module(alloc, outside, at, question)?;
            found = found.hiding(here);
            if self.hides_all(outside, found) {
                return Ok(found);
            }
            let Some(up) = self.around_block(at) else {
                return Ok(found);
            };
            at = up;
        }
        Ok(found)
    }
}
