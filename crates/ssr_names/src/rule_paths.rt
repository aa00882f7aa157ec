//! The paths of rules, which have to stand for something.

ghost use Rattle.std.specs.Prelude.{OnOk};
ghost use Rattle.ssr_names_items.specs.Names.{KeepsNumbers};

use crate::definitions::{Definition, Meaning};
use crate::lookup::PathQuestion;
use crate::outside::OutsidePaths;
use crate::space::Space;
use ssr_names_items::{ModuleNo, Name, Names, Namespace, Start};
use std::alloc::{AllocError, Global};

/// A path of a rule.
#[derive(Debug, Drop)]
pub struct RulePath {
    /// The texts of its segments, as a provider is asked for it: the first one is empty where it begins with `::`.
    pub key: Vec<String>,
    /// The namespace of its last name, by its place in the rule.
    pub namespace: Namespace,
    /// Whether it is one of the template, which is written at matches.
    pub is_template: bool,
}

/// A path as it is looked up: how it begins, and the names behind that.
#[derive(Debug, Drop)]
pub(crate) struct KeyPath {
    pub(crate) start: Start,
    pub(crate) names: Vec<Name>,
}

/// How a path begins whose first segments are these words.
fn start_of(start: Start, segment: &str, is_first: bool) -> Option<Start> {
    match (start, segment) {
        (Start::Plain, "") if is_first => Some(Start::Global),
        (Start::Plain, "crate") if is_first => Some(Start::Crate),
        (Start::Plain, "self") if is_first => Some(Start::SelfModule),
        (Start::Plain | Start::SelfModule, "super") => Some(Start::Super(1)),
        (Start::Super(count), "super") => Some(Start::Super(count.saturating_add(1))),
        _ => None,
    }
}

/// Adds the names of a rule's path, so that they have numbers.
pub(crate) fn add_names(names: &mut Names, path: &RulePath) -> Result<(), AllocError>
    ensures { OnOk result (KeepsNumbers names.old names.new) }
{
    for segment in &path.key {
        names.add(segment.as_str())?;
    }
    Ok(())
}

/// A rule's path as it is looked up.
pub(crate) fn key_path(
    alloc: Global,
    names: &Names,
    path: &RulePath,
) -> Result<KeyPath, AllocError> {
    let mut read = KeyPath {
        start: Start::Plain,
        names: Vec::with_capacity(alloc, path.key.len())?,
    };
    for (place, segment) in path.key.iter().enumerate() {
        let text = segment.as_str();
        match start_of(read.start, text, place == 0) {
            Some(start) if read.names.is_empty() => read.start = start,
            _ => {
                if let Some(name) = names.number(text) {
                    read.names.push(name)?;
                }
            }
        }
    }
    Ok(read)
}

/// What a path of a rule stands for, if that is known. What may be hidden by what isn't read is taken not to be: a rule says what
/// everybody means by its names.
pub(crate) fn key_definition(
    alloc: Global,
    space: &Space<'_>,
    outside: &mut OutsidePaths,
    module: ModuleNo,
    key: &KeyPath,
    namespace: Namespace,
) -> Result<Option<Definition>, AllocError> {
    let question = PathQuestion {
        start: key.start,
        names: &key.names,
        namespace,
        module,
        import: None,
    };
    let answer = space.whole_path(alloc, outside, question)?;
    let meaning = match answer.meaning {
        Meaning::Unknown => space.taken_for(alloc, outside, question)?,
        known => known,
    };
    match meaning {
        Meaning::One(definition)
            if namespace != Namespace::Value || !is_std_module(space, outside, definition) => {
            Ok(Some(definition))
        }
        _ => Ok(None),
    }
}

/// Whether a definition is a module of the standard library, which is no value.
fn is_std_module(space: &Space<'_>, outside: &OutsidePaths, definition: Definition) -> bool {
    match definition {
        Definition::Outside(path) => match outside.path(path) {
            Some(row) => row.parent == Some(space.std),
            None => false,
        },
        _ => false,
    }
}
