//! What the paths of rules stand for, and under which names the code may have it.

ghost use Rattle.std.specs.Prelude.{◌≡◌, true, Some, IfSome, slice_get};

use crate::definitions::{Definition, Meaning};
use crate::outside::OutsidePaths;
use crate::printed::{Template, Way, Written};
use crate::provider::Lookup;
use crate::rule_paths::{KeyPath, RulePath, key_definition, key_path};
use crate::space::Space;
use crate::words::Words;
use ssr_base_trees::{DefId, DefInfo, DefKind, Res, ScopeId, TypeId};
use ssr_names_items::{
    Brings, ImplNo, ItemKind, ModuleKind, ModuleNo, Name, Namespace, Owner, Start, Visibility,
};
use std::alloc::{AllocError, Global};
use std::collections::{BTreeMap, BTreeSet};

/// A name under which the code may have a definition.
#[derive(Clone, Copy, Debug, PartialEq, Eq, PartialOrd, Ord)]
struct Under {
    name: Name,
    namespace: Namespace,
}

/// A path of a rule, and what it stands for.
#[derive(Debug, PartialEq, Eq, PartialOrd, Ord, Drop)]
struct Asked {
    path: String,
    def: DefId,
}

/// What the paths of rules stand for.
#[derive(Drop)]
pub(crate) struct Wanted {
    alloc: Global,
    /// The numbers of the definitions.
    numbers: BTreeMap<Definition, DefId>,
    /// The definitions by their numbers.
    pub(crate) definitions: Vec<Definition>,
    pub(crate) infos: Vec<DefInfo>,
    pub(crate) lookups: Vec<Lookup>,
    /// The same, by which each is there once.
    asked: BTreeSet<Asked>,
    /// What is written at matches.
    pub(crate) written: BTreeMap<DefId, Template>,
    /// The names by which templates have it, which a generic parameter may hide.
    begins: Vec<Name>,
    /// The types that what rules ask for is behind.
    pub(crate) types: Vec<TypeId>,
    /// What a path with this last name is taken to stand for where that isn't known.
    under: BTreeMap<Under, DefId>,
}

/// The texts, copied.
fn copied(alloc: Global, texts: &[String]) -> Result<Vec<String>, AllocError> {
    let mut copies = Vec::with_capacity(alloc, texts.len())?;
    for text in texts {
        copies.push(String::from_str(alloc, text.as_str())?)?;
    }
    Ok(copies)
}

impl Wanted {
    pub(crate) fn new(alloc: Global) -> Wanted {
        Wanted {
            alloc,
            numbers: BTreeMap::new(alloc),
            definitions: Vec::new(alloc),
            infos: Vec::new(alloc),
            lookups: Vec::new(alloc),
            asked: BTreeSet::new(alloc),
            written: BTreeMap::new(alloc),
            begins: Vec::new(alloc),
            types: Vec::new(alloc),
            under: BTreeMap::new(alloc),
        }
    }

    /// The function behind a type that a method call of this name is taken to call.
    pub(crate) fn called(&self, name: Name) -> Option<DefId> {
        let number = self.believed(name, Namespace::Value)?;
        let info = self.infos.get(number.0 as usize)?;
        if info.kind == DefKind::Function && info.assoc {
            Some(number)
        } else {
            None
        }
    }

    /// The number of a definition that some rule asks for.
    pub(crate) fn number(&self, definition: Definition) -> Option<DefId>
        ensures { IfSome result (λ number. slice_get self.now.definitions.items number.0 ≡ Some definition) }
    {
        let number = self.numbers.get(&definition).copied()?;
        match self.definition_at(number) {
            Some(held) if held.is(definition) => Some(number),
            _ => None,
        }
    }

    /// The definition of a number.
    fn definition_at(&self, number: DefId) -> Option<Definition>
        ensures { result ≡ slice_get self.now.definitions.items number.0 }
    {
        self.definitions.get(number.0 as usize).copied()
    }

    /// Whether a number is that of a definition.
    pub(crate) fn is_numbered(&self, number: DefId, definition: Definition) -> bool
        ensures { result ≡ true → slice_get self.now.definitions.items number.0 ≡ Some definition }
    {
        match self.definition_at(number) {
            Some(held) => held.is(definition),
            None => false,
        }
    }

    /// What a path with this last name is taken to stand for where that isn't known.
    pub(crate) fn believed(&self, name: Name, namespace: Namespace) -> Option<DefId> {
        self.under.get(&Under { name, namespace }).copied()
    }

    /// What a path with this last name is taken to stand for at a place of a namespace where that isn't known: a generic argument that is
    /// a name alone is one of a type or of a constant.
    pub(crate) fn believed_at(&self, name: Name, namespace: Namespace) -> Option<DefId> {
        let number = self.believed(name, namespace);
        if number.is_none() && namespace == Namespace::Type {
            return self.believed(name, Namespace::Value);
        }
        number
    }

    /// The number of a definition, which is added if it has none.
    fn add(
        &mut self,
        space: &Space<'_>,
        outside: &OutsidePaths,
        definition: Definition,
        namespace: Namespace,
    ) -> Result<DefId, AllocError> {
        if let Some(number) = self.number(definition) {
            return Ok(number);
        }
        if self.definitions.len() >= u32::MAX as usize {
            return Err(AllocError);
        }
        let number = DefId(self.definitions.len() as u32);
        self.infos.push(space.info(outside, definition, namespace))?;
        self.definitions.push(definition)?;
        self.numbers.insert(definition, number)?;
        Ok(number)
    }

    /// Lets the code have a definition under a name.
    fn add_under(
        &mut self,
        name: Name,
        namespace: Namespace,
        number: DefId,
    ) -> Result<(), AllocError> {
        let under = Under { name, namespace };
        if !self.under.contains_key(&under) {
            self.under.insert(under, number)?;
        }
        Ok(())
    }

    /// Adds a path of a rule that is looked up in a scope.
    pub(crate) fn add_path(
        &mut self,
        space: &Space<'_>,
        outside: &mut OutsidePaths,
        scope: ScopeId,
        path: &RulePath,
    ) -> Result<(), AllocError> {
        let module = ModuleNo(scope.0);
        let namespace = path.namespace;
        let key = key_path(self.alloc, &space.table.names, path)?;
        let found = key_definition(self.alloc, space, outside, module, &key, namespace)?;
        let Some(definition) = found else {
            return Ok(());
        };
        let number = self.add(space, outside, definition, namespace)?;
        if let Some(name) = last_name(space, outside, definition) {
            self.add_under(name, namespace, number)?;
        }
        self.add_lookup(scope, path, number)?;
        if path.is_template {
            let written = Written::new(definition).with(namespace);
            self.add_template(number, written, namespace, key)?;
        }
        Ok(())
    }

    /// Adds what a path of a rule stands for, once.
    fn add_lookup(
        &mut self,
        scope: ScopeId,
        path: &RulePath,
        def: DefId,
    ) -> Result<(), AllocError> {
        let asked = Asked {
            path: path.key.join(self.alloc, "::")?,
            def,
        };
        if self.asked.insert(asked)? {
            self.lookups.push(Lookup {
                scope,
                path: copied(self.alloc, &path.key)?,
                res: Res::Def(def),
            })?;
        }
        Ok(())
    }

    /// Adds a path of a template.
    fn add_template(
        &mut self,
        def: DefId,
        written: Written,
        namespace: Namespace,
        key: KeyPath,
    ) -> Result<(), AllocError> {
        self.begins.extend_from_slice(&key.names)?;
        if let Some(template) = self.written.get_mut(&def) {
            template.written = template.written.with(namespace);
            return Ok(());
        }
        let names = match key.start {
            Start::Plain | Start::Global => key.names,
            _ => Vec::new(self.alloc),
        };
        let template = Template {
            written,
            names,
            ways: Vec::new(self.alloc),
        };
        self.written.insert(def, template)?;
        Ok(())
    }

    /// Adds a name that an import brings in of which it isn't known what it stands for, if the path of the import ends in a name
    /// that rules ask for.
    fn add_doubtful_alias(
        &mut self,
        last: Name,
        name: Name,
        namespace: Namespace,
        meaning: Meaning,
    ) -> Result<(), AllocError> {
        if meaning != Meaning::Unknown {
            return Ok(());
        }
        match self.believed(last, namespace) {
            Some(number) => self.add_under(name, namespace, number),
            None => Ok(()),
        }
    }

    /// Adds the names that imports bring in of which it isn't known what they stand for.
    pub(crate) fn add_doubtful_aliases(&mut self, space: &Space<'_>) -> Result<(), AllocError> {
        for (import, answers) in space.table.imports.iter().zip(&space.answers) {
            if let (Brings::Name(name), Some(last)) = (import.brings, import.segments.last()) {
                let last = *last;
                self.add_doubtful_alias(last, name, Namespace::Type, answers.as_type)?;
                self.add_doubtful_alias(last, name, Namespace::Value, answers.as_value)?;
                self.add_doubtful_alias(last, name, Namespace::Macro, answers.as_macro)?;
            }
        }
        Ok(())
    }

    /// Adds the names of type aliases of what rules ask for.
    pub(crate) fn add_type_aliases(&mut self, space: &Space<'_>) -> Result<(), AllocError> {
        for alias in &space.aliases {
            if let Some(item) = space.item(alias.item) {
                self.add_alias(item.name, Namespace::Type, alias.meaning)?;
            }
        }
        Ok(())
    }

    /// Adds the name that an import brings in for what rules ask for, in a namespace.
    fn add_alias(
        &mut self,
        name: Name,
        namespace: Namespace,
        meaning: Meaning,
    ) -> Result<(), AllocError> {
        let Meaning::One(definition) = meaning else {
            return Ok(());
        };
        match self.number(definition) {
            Some(number) => self.add_under(name, namespace, number),
            None => Ok(()),
        }
    }

    /// Adds the names that imports bring in for what rules ask for.
    pub(crate) fn add_aliases(&mut self, space: &Space<'_>) -> Result<(), AllocError> {
        for (import, answers) in space.table.imports.iter().zip(&space.answers) {
            if let Brings::Name(name) = import.brings {
                self.add_alias(name, Namespace::Type, answers.as_type)?;
                self.add_alias(name, Namespace::Value, answers.as_value)?;
                self.add_alias(name, Namespace::Macro, answers.as_macro)?;
            }
        }
        Ok(())
    }

    /// Adds the imports of what is written that other modules see.
    pub(crate) fn add_ways(&mut self, space: &Space<'_>) -> Result<(), AllocError> {
        for (import, answers) in space.table.imports.iter().zip(&space.answers) {
            let module = import.module;
            if let Brings::Name(name) = import.brings
                && import.visibility != Visibility::In(module)
                && let Some(definition) = answers.definition()
                && let Some(number) = self.number(definition)
                && let Some(template) = self.written.get_mut(&number)
            {
                template.ways.push(Way { module, name })?;
            }
        }
        Ok(())
    }

    /// Adds the name `Self` for the types that rules ask for.
    pub(crate) fn add_self(
        &mut self,
        space: &Space<'_>,
        outside: &OutsidePaths,
        self_type: Name,
    ) -> Result<(), AllocError> {
        let mut first = None;
        for (definition, number) in self.numbers.iter() {
            if may_be_self(space, outside, *definition) && first.is_none() {
                first = Some(*number);
            }
        }
        match first {
            Some(number) => self.add_under(self_type, Namespace::Type, number),
            None => Ok(()),
        }
    }

    /// Adds the types that what rules ask for is behind.
    pub(crate) fn add_types(
        &mut self,
        space: &Space<'_>,
        outside: &OutsidePaths,
    ) -> Result<(), AllocError> {
        for definition in self.numbers.keys() {
            if let Some(owner) = owner_of(space, outside, *definition)
                && let Some(of) = self.numbers.get(&owner)
            {
                self.types.push(TypeId(of.0))?;
            }
        }
        Ok(())
    }

    /// Asks for the names under which the code may have what rules ask for.
    pub(crate) fn ask(&self, space: &Space<'_>, words: &mut Words) -> Result<(), AllocError> {
        for under in self.under.keys() {
            words.ask(self.alloc, space.text(under.name), under.name)?;
        }
        for name in &self.begins {
            words.ask_parameter(self.alloc, space.text(*name), *name)?;
        }
        Ok(())
    }
}

/// Whether `Self` may stand for a definition: it is a type, by its kind or as its name shows.
fn may_be_self(space: &Space<'_>, outside: &OutsidePaths, definition: Definition) -> bool {
    match definition {
        Definition::Item(item) => match space.item(item) {
            Some(row) => matches!(
                row.kind,
                ItemKind::Struct | ItemKind::Enum | ItemKind::Union | ItemKind::TypeAlias
            ),
            None => false,
        },
        Definition::Outside(path) => space.is_type(outside, path),
        _ => false,
    }
}

/// The last name of a definition's path.
fn last_name(space: &Space<'_>, outside: &OutsidePaths, definition: Definition) -> Option<Name> {
    match definition {
        Definition::Module(module) => match space.module(module)?.kind {
            ModuleKind::Named(name) => Some(name),
            ModuleKind::Root(number) => { Some(space.table.crates.get(number.0 as usize)?.name) }
            _ => None,
        },
        Definition::Item(item) => Some(space.item(item)?.name),
        Definition::Outside(path) => Some(outside.path(path)?.name),
        Definition::Member(_, name) => Some(name),
    }
}

/// What a definition is behind: the type or the trait of an associated item.
fn owner_of(
    space: &Space<'_>,
    outside: &OutsidePaths,
    definition: Definition,
) -> Option<Definition> {
    match definition {
        Definition::Item(item) => match space.item(item)?.owner {
            Owner::Item(of) => Some(Definition::Item(of)),
            Owner::Impl(ImplNo(number)) => match space.impl_types.get(number as usize)? {
                Meaning::One(of) => Some(*of),
                _ => None,
            },
            Owner::Module => None,
        },
        Definition::Outside(path) => Some(Definition::Outside(outside.path(path)?.parent?)),
        Definition::Member(item, _) => Some(Definition::Item(item)),
        Definition::Module(_) => None,
    }
}
