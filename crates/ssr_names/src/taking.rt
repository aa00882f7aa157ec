//! What paths of rules are taken for where something that isn't read may hide their first names.

use crate::definitions::{Definition, Meaning};
use crate::lookup::{PathQuestion, Question};
use crate::outside::OutsidePaths;
use crate::space::Space;
use crate::std_names::is_std_macro;
use ssr_names_items::{Entry, ModuleNo, Name, Namespace, Start, Thing};
use std::alloc::{AllocError, Global};

impl<'a> Space<'a> {
    /// What a path is taken for that begins with a name: what that is known as everywhere, if all that is read under it is the same,
    /// and behind it what stands there.
    pub(crate) fn taken_for(
        &self,
        alloc: Global,
        outside: &mut OutsidePaths,
        path: PathQuestion<'_>,
    ) -> Result<Meaning, AllocError> {
        let (Start::Plain, Some((first, behind))) = (path.start, path.names.split_first()) else {
            return Ok(Meaning::Unknown);
        };
        if behind.is_empty() {
            return self.one_taken_for(outside, path.module, *first, path.namespace);
        }
        let start = self.name_taken_for(outside, path.module, *first, Namespace::Type)?;
        let Meaning::One(definition) = start else {
            return Ok(start);
        };
        let rest = PathQuestion {
            names: behind,
            ..path
        };
        self.path_behind(alloc, outside, rest, definition)
    }

    /// What a path of one name is taken for.
    fn one_taken_for(
        &self,
        outside: &mut OutsidePaths,
        module: ModuleNo,
        name: Name,
        namespace: Namespace,
    ) -> Result<Meaning, AllocError> {
        match namespace {
            Namespace::Macro => self.macro_taken_for(outside, module, name),
            _ => self.name_taken_for(outside, module, name, namespace),
        }
    }

    /// What a name is taken for: a crate, what the prelude has, or a builtin type.
    fn name_taken_for(
        &self,
        outside: &mut OutsidePaths,
        module: ModuleNo,
        name: Name,
        namespace: Namespace,
    ) -> Result<Meaning, AllocError> {
        let question = question_for(name, namespace, module);
        let everywhere = self.everywhere(outside, module, question)?;
        if everywhere.is_something() && self.is_all_of(question, everywhere) {
            Ok(everywhere)
        } else {
            Ok(Meaning::Unknown)
        }
    }

    /// Whether all that files declare and bring in under a name is this, as far as it is known.
    fn is_all_of(&self, question: Question, meaning: Meaning) -> bool {
        self.table.entries.iter().all(|entry| {
            !is_of(entry, question) || may_be(self.entry_meaning(entry, question), meaning)
        })
    }

    /// What a macro's name is taken for: that of the standard library, if no macro of the run has the name where it is asked for.
    fn macro_taken_for(
        &self,
        outside: &mut OutsidePaths,
        module: ModuleNo,
        name: Name,
    ) -> Result<Meaning, AllocError> {
        if !is_std_macro(self.text(name)) || self.has_macro_around(module, name) {
            return Ok(Meaning::Unknown);
        }
        let number = outside.child(Some(self.std), name)?;
        Ok(Meaning::One(Definition::Outside(number)))
    }

    /// Whether a file declares a macro of a name in a module or above it.
    fn has_macro_around(&self, module: ModuleNo, name: Name) -> bool {
        let question = question_for(name, Namespace::Macro, module);
        self.table.entries.iter().any(|entry| {
            is_of(entry, question)
                && matches!(entry.thing, Thing::Item(_))
                && self.is_within(module, entry.module)
        })
    }
}

/// What is asked for a name in a module.
fn question_for(name: Name, namespace: Namespace, viewer: ModuleNo) -> Question {
    Question {
        name,
        namespace,
        viewer,
        skipped: None,
    }
}

/// Whether an entry is one of the name that is asked for.
fn is_of(entry: &Entry, question: Question) -> bool {
    entry.name == question.name && entry.namespace == question.namespace
}

/// Whether something that is found may be what is taken.
fn may_be(found: Meaning, taken: Meaning) -> bool {
    found == taken || !matches!(found, Meaning::One(_))
}
