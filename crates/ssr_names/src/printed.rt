//! By which path a scope reaches a definition.
ghost use Rattle.std.specs.Prelude.{◌≡◌, ◌∷◌, true, Some, IfOk, IfSome, OnOk, string_bytes};
ghost use Rattle.ssr_names_items.specs.Names.{number_of};
ghost use Rattle.ssr_names.specs.Printed.{EndsWithName, EndsWithNames, IsSpelled, Spells, front_text, is_path_word};
ghost use Rattle.ssr_names.specs.WholePaths.{WholeStandsFor};
ghost use Rattle.ssr_names.specs.Private.Answered.{place_of};
ghost use Rattle.ssr_names.specs.Private.Printed.{IsPathOf, Leads, is_in};

use crate::definitions::{Definition, OutsideNo};
use crate::lookup::{PathQuestion, Question};
use crate::outside::OutsidePaths;
use crate::resolving::BoundIn;
use crate::space::Space;
use crate::std_names::{is_keyword, is_of_alloc, is_young};
use ssr_names_items::{Edition, ItemNo, ModuleKind, ModuleNo, Name, Namespace, Owner, Start, bare};
use std::alloc::{AllocError, Global};

/// How many names the path of a definition has at most.
const MOST_NAMES: u32 = 1024;

/// The whole path of a definition.
#[derive(Debug, Drop)]
struct WholePath {
    /// The root of the crate of the run that it begins in; none, where it begins with a crate that isn't read.
    root: Option<ModuleNo>,
    names: Vec<Name>,
}

/// A definition that is to be written, and the namespaces of the places where it is.
#[derive(Clone, Copy, Debug)]
pub(crate) struct Written {
    pub(crate) definition: Definition,
    as_type: bool,
    as_value: bool,
    as_macro: bool,
}

const NAMESPACES: [Namespace; 3] = [Namespace::Type, Namespace::Value, Namespace::Macro];

impl Written {
    /// A definition that is to be written in no namespace yet.
    pub(crate) fn new(definition: Definition) -> Written {
        Written {
            definition,
            as_type: false,
            as_value: false,
            as_macro: false,
        }
    }

    /// The same, written in one more namespace.
    pub(crate) fn with(self, namespace: Namespace) -> Written {
        Written {
            definition: self.definition,
            as_type: self.as_type || namespace == Namespace::Type,
            as_value: self.as_value || namespace == Namespace::Value,
            as_macro: self.as_macro || namespace == Namespace::Macro,
        }
    }

    /// Whether it is written in a namespace.
    fn is_in(self, namespace: Namespace) -> bool
        ensures { result ≡ is_in self namespace }
    {
        match namespace {
            Namespace::Type => self.as_type,
            Namespace::Value => self.as_value,
            Namespace::Macro => self.as_macro,
        }
    }

    /// Some namespace in which it is written.
    fn somewhere(self) -> Option<Namespace>
        ensures { IfSome result (λ n. is_in self n ≡ true) }
    {
        if self.as_type {
            Some(Namespace::Type)
        } else if self.as_value {
            Some(Namespace::Value)
        } else if self.as_macro {
            Some(Namespace::Macro)
        } else {
            None
        }
    }
}

/// A path of a rule's template: what is written at matches.
#[derive(Debug, Drop)]
pub(crate) struct Template {
    pub(crate) written: Written,
    /// The names by which the rule has it, where these don't begin with `crate`, `self` or `super`.
    pub(crate) names: Vec<Name>,
    /// The imports of it that other modules see.
    pub(crate) ways: Vec<Way>,
}

/// The name of an import in its module.
#[derive(Clone, Copy, Debug)]
pub(crate) struct Way {
    pub(crate) module: ModuleNo,
    pub(crate) name: Name,
}

/// What paths are written by.
#[derive(Clone, Copy)]
pub(crate) struct Printer<'p> {
    pub(crate) alloc: Global,
    pub(crate) space: &'p Space<'p>,
    /// What functions of modules bind, sorted.
    pub(crate) bound_in: &'p [BoundIn],
    /// The roots of crates without the standard library, sorted.
    pub(crate) bare_roots: &'p [ModuleNo],
    /// The name `core`.
    pub(crate) core: Name,
}

/// The namespace of a path's first name, by that of the last one.
fn first_namespace(names: &[Name], namespace: Namespace) -> Namespace {
    if names.len() > 1 {
        Namespace::Type
    } else {
        namespace
    }
}

/// What a path begins with in front of its names, where that is what is printed.
fn front_text(start: Start) -> Option<&'static str>
    ensures { IfSome result (λ text. front_text start ≡ Some text.now) }
{
    match start {
        Start::Plain => Some(""),
        Start::Global => Some("::"),
        Start::Crate => Some("crate::"),
        Start::SelfModule | Start::Super(_) => None,
    }
}

/// Whether a text is a word that a path begins with, or none. No name of a path is spelled so.
fn is_path_word(text: &str) -> bool
    ensures { result ≡ is_path_word text.now }
{
    text == "" || text == "crate" || text == "self" || text == "super"
}

/// The last names of a path, so many.
fn last_names(names: &[Name], length: usize) -> &[Name] {
    if length <= names.len() {
        &names[names.len() - length..]
    } else {
        names
    }
}

impl<'p> Printer<'p> {
    /// The names of a module's path from its root on, and that root; none, where a block is among them.
    fn module_path(&self, module: ModuleNo) -> Result<Option<WholePath>, AllocError> {
        let mut names = Vec::new(self.alloc);
        let mut at = module;
        for _ in 0..MOST_NAMES {
            let Some(row) = self.space.module(at) else {
                return Ok(None);
            };
            match (row.kind, row.parent) {
                (ModuleKind::Root(_), _) => {
                    names.reverse();
                    return Ok(Some(WholePath {
                        root: Some(at),
                        names,
                    }));
                }
                (ModuleKind::Named(name), Some(parent)) => {
                    names.push(name)?;
                    at = parent;
                }
                _ => return Ok(None),
            }
        }
        Ok(None)
    }

    /// The path of an item.
    fn item_path(&self, item: ItemNo) -> Result<Option<WholePath>, AllocError> {
        let Some(row) = self.space.item(item) else {
            return Ok(None);
        };
        let Some(mut path) = self.module_path(row.module)? else {
            return Ok(None);
        };
        match row.owner {
            Owner::Module => {}
            Owner::Item(of) => match self.space.item(of) {
                Some(owner) => path.names.push(owner.name)?,
                None => return Ok(None),
            },
            Owner::Impl(_) => return Ok(None),
        }
        path.names.push(row.name)?;
        Ok(Some(path))
    }

    /// The path of what isn't read.
    fn outside_path(
        &self,
        outside: &OutsidePaths,
        number: OutsideNo,
    ) -> Result<Option<WholePath>, AllocError> {
        let mut names = Vec::new(self.alloc);
        let mut at = number;
        for _ in 0..MOST_NAMES {
            let Some(row) = outside.path(at) else {
                return Ok(None);
            };
            names.push(row.name)?;
            match row.parent {
                Some(parent) => at = parent,
                None => {
                    names.reverse();
                    return Ok(Some(WholePath { root: None, names }));
                }
            }
        }
        Ok(None)
    }

    /// The whole path of a definition.
    fn whole(
        &self,
        outside: &OutsidePaths,
        definition: Definition,
    ) -> Result<Option<WholePath>, AllocError> {
        match definition {
            Definition::Module(module) => self.module_path(module),
            Definition::Item(item) => self.item_path(item),
            Definition::Outside(path) => self.outside_path(outside, path),
            Definition::Member(item, name) => {
                let Some(mut path) = self.item_path(item)? else {
                    return Ok(None);
                };
                path.names.push(name)?;
                Ok(Some(path))
            }
        }
    }

    /// Whether a path that is written in a module leads to a definition, at each place where the module is.
    fn leads(
        &self,
        outside: &mut OutsidePaths,
        path: PathQuestion<'_>,
        written: Written,
    ) -> Result<bool, AllocError>
        ensures { IfOk result (λ leads. leads ≡ true → Leads self.now.space.now (place_of path.entry) path.entry.names.now written) }
    {
        if !self.leads_elsewhere(outside, path, written)? {
            return Ok(false);
        }
        self.leads_at(outside, path, written)
    }

    /// Whether a path leads to a definition at each other place where the module is.
    fn leads_elsewhere(
        &self,
        outside: &mut OutsidePaths,
        path: PathQuestion<'_>,
        written: Written,
    ) -> Result<bool, AllocError> {
        for copy in self.space.copies(path.module) {
            let there = PathQuestion {
                module: copy.module,
                ..path
            };
            if copy.module != path.module && !self.leads_at(outside, there, written)? {
                return Ok(false);
            }
        }
        Ok(true)
    }

    /// Whether a path that is written in a module leads to a definition there, in each namespace in which it is written. What is
    /// written in none is reached by no path.
    fn leads_at(
        &self,
        outside: &mut OutsidePaths,
        path: PathQuestion<'_>,
        written: Written,
    ) -> Result<bool, AllocError>
        ensures { IfOk result (λ leads. leads ≡ true → Leads self.now.space.now (place_of path.entry) path.entry.names.now written) }
    {
        let Some(_) = written.somewhere() else {
            return Ok(false);
        };
        let as_type = self.leads_as(outside, path, written, Namespace::Type)?;
        let as_value = self.leads_as(outside, path, written, Namespace::Value)?;
        let as_macro = self.leads_as(outside, path, written, Namespace::Macro)?;
        Ok(as_type && as_value && as_macro)
    }

    /// Whether a path leads to a definition in a namespace, if it is written in that.
    fn leads_as(
        &self,
        outside: &mut OutsidePaths,
        path: PathQuestion<'_>,
        written: Written,
        namespace: Namespace,
    ) -> Result<bool, AllocError>
        ensures { IfOk result (λ leads. leads ≡ true → is_in written namespace ≡ true → WholeStandsFor self.now.space.now (place_of path.entry) namespace path.entry.names.now written.definition) }
    {
        if !written.is_in(namespace) {
            return Ok(true);
        }
        let question = PathQuestion { namespace, ..path };
        self.leads_in(outside, question, written.definition)
    }

    /// Whether a path leads to a definition in one namespace.
    fn leads_in(
        &self,
        outside: &mut OutsidePaths,
        path: PathQuestion<'_>,
        definition: Definition,
    ) -> Result<bool, AllocError>
        ensures { IfOk result (λ leads. leads ≡ true → WholeStandsFor self.now.space.now (place_of path.entry) path.entry.namespace path.entry.names.now definition) }
    {
        let answer = self.space.whole_path(self.alloc, outside, path)?;
        if !answer.meaning.is(definition) {
            return Ok(false);
        }
        self.begins_surely(outside, path)
    }

    /// Whether the first name of a path is there in each configuration, or nothing around has it and it is one that is there
    /// without that.
    fn begins_surely(
        &self,
        outside: &mut OutsidePaths,
        path: PathQuestion<'_>,
    ) -> Result<bool, AllocError> {
        let (Start::Plain, Some(first)) = (path.start, path.names.first()) else {
            return Ok(true);
        };
        let question = Question {
            name: *first,
            namespace: first_namespace(path.names, path.namespace),
            viewer: path.module,
            skipped: None,
        };
        let found = self
            .space
            .outward(self.alloc, outside, path.module, question)?;
        if found.meaning.is_something() {
            return Ok(found.is_sure);
        }
        Ok(self.is_everywhere(path.module, *first))
    }

    /// Whether a name that nothing around has is known in a module for sure: a crate isn't known by its name in itself, some names of
    /// the prelude are young, and some aren't there in a crate without the standard library.
    fn is_everywhere(&self, module: ModuleNo, name: Name) -> bool {
        let root = self.space.root_of(module);
        let text = self.space.text(name);
        let is_own_crate = self.space.crate_named(name) == Some(Definition::Module(root));
        let is_missing = is_of_alloc(text) && self.bare_roots.binary_search(&root).is_ok();
        !is_own_crate && !is_missing && !is_young(text)
    }

    /// Whether some function of a module binds a name, or some item of it has a generic parameter of that name.
    fn is_bound(&self, module: ModuleNo, name: Name, namespace: Namespace) -> bool {
        let bound = BoundIn {
            module: self.space.plain_module(module),
            name,
            namespace,
        };
        self.bound_in.binary_search(&bound).is_ok()
    }

    /// Whether a local or a generic parameter may hide the first name of a path.
    fn may_be_hidden(&self, module: ModuleNo, names: &[Name], written: Written) -> bool {
        let Some(name) = names.first() else {
            return false;
        };
        for namespace in NAMESPACES {
            let first = first_namespace(names, namespace);
            if written.is_in(namespace) && self.is_bound(module, *name, first) {
                return true;
            }
        }
        false
    }

    /// The text of a name, with `r#` in front where it is a word of the language; none, where that isn't read as the name.
    fn spelled_name(
        &self,
        name: Name,
        edition: Option<Edition>,
    ) -> Result<Option<String>, AllocError>
        ensures { IfOk result (λ found. IfSome found (λ text. IsSpelled self.now.space.now.table.now.names name (string_bytes text))) }
    {
        let text = self.space.text(name);
        let raw = if is_keyword(text, edition) { "r#" } else { "" };
        let spelled = format!(in self.alloc; "{raw}{text}")?;
        if is_path_word(bare(spelled.as_str())) || !self.is_read_as(spelled.as_str(), name) {
            return Ok(None);
        }
        Ok(Some(spelled))
    }

    /// Whether a text is read as a name.
    fn is_read_as(&self, text: &str, name: Name) -> bool
        ensures { result ≡ true → number_of self.now.space.now.table.now.names text.now ≡ Some name }
    {
        match self.space.table.names.number(text) {
            Some(read) => read == name,
            None => false,
        }
    }

    /// Adds a name; whether it is read as such.
    fn push_name(
        &self,
        text: &mut String,
        name: Name,
        edition: Option<Edition>,
    ) -> Result<bool, AllocError>
        ensures { IfOk result (λ is_read. is_read ≡ true → EndsWithName self.now.space.now.table.now.names name (string_bytes text.old) (string_bytes text.new)) }
    {
        let Some(spelled) = self.spelled_name(name, edition)? else {
            return Ok(false);
        };
        text.push_str(spelled.as_str())?;
        Ok(true)
    }

    /// A path as text that is written in a module: what is in front of its names, the first one, and the others.
    fn text(
        &self,
        module: ModuleNo,
        front: &str,
        first: Name,
        others: &[Name],
    ) -> Result<Option<String>, AllocError>
        ensures { IfOk result (λ found. IfSome found (λ text. EndsWithNames self.now.space.now.table.now.names front.now (first ∷ others.now) (string_bytes text))) }
    {
        let edition = self.space.edition(module);
        let mut text = String::from_str(self.alloc, front)?;
        if !self.push_name(&mut text, first, edition)? {
            return Ok(None);
        }
        for name in others {
            text.push_str("::")?;
            if !self.push_name(&mut text, *name, edition)? {
                return Ok(None);
            }
        }
        Ok(Some(text))
    }

    /// A path as text, if it begins so that it is printed.
    fn spelled(
        &self,
        module: ModuleNo,
        start: Start,
        names: &[Name],
    ) -> Result<Option<String>, AllocError>
        ensures { IfOk result (λ found. IfSome found (λ text. Spells self.now.space.now.table.now.names start names.now (string_bytes text))) }
    {
        let Some(front) = front_text(start) else {
            return Ok(None);
        };
        let Some((first, others)) = names.split_first() else {
            return Ok(None);
        };
        self.text(module, front, *first, others)
    }

    /// A path as text, if it leads to the definition where it is written.
    fn text_if_leads(
        &self,
        outside: &mut OutsidePaths,
        module: ModuleNo,
        start: Start,
        names: &[Name],
        written: Written,
    ) -> Result<Option<String>, AllocError>
        ensures { IfOk result (λ found. IfSome found (λ text. IsPathOf self.now.space.now «module» written (string_bytes text))) }
    {
        if names.is_empty() {
            return Ok(None);
        }
        let path = PathQuestion {
            start,
            names,
            namespace: Namespace::Type,
            module,
            import: None,
        };
        let leads = self.leads(outside, path, written)?;
        if !leads {
            return Ok(None);
        }
        self.spelled(module, start, names)
    }

    /// The shortest end of a path that leads to the definition.
    fn by_end(
        &self,
        outside: &mut OutsidePaths,
        module: ModuleNo,
        path: &[Name],
        written: Written,
    ) -> Result<Option<String>, AllocError>
        ensures { IfOk result (λ found. IfSome found (λ text. IsPathOf self.now.space.now «module» written (string_bytes text))) }
    {
        for length in 1..=path.len() {
            let names = last_names(path, length);
            if self.may_be_hidden(module, names, written) {
                continue;
            }
            let text = self.text_if_leads(outside, module, Start::Plain, names, written)?;
            if text.is_some() {
                return Ok(text);
            }
        }
        Ok(None)
    }

    /// The names of a path with that of its crate in front, where that is one of the run.
    fn with_crate(&self, whole: &WholePath) -> Result<Vec<Name>, AllocError> {
        let mut names = Vec::new(self.alloc);
        if let Some(root) = whole.root {
            for own in &self.space.table.crates {
                if own.root == root {
                    names.push(own.name)?;
                }
            }
        }
        names.extend_from_slice(&whole.names)?;
        Ok(names)
    }

    /// The whole path from the name of its crate, with `core` for `std`, or with `::` in front.
    fn by_crate(
        &self,
        outside: &mut OutsidePaths,
        module: ModuleNo,
        whole: &WholePath,
        written: Written,
    ) -> Result<Option<String>, AllocError>
        ensures { IfOk result (λ found. IfSome found (λ text. IsPathOf self.now.space.now «module» written (string_bytes text))) }
    {
        let names = self.with_crate(whole)?;
        let text = self.text_if_leads(outside, module, Start::Plain, &names, written)?;
        if text.is_some() {
            return Ok(text);
        }
        let other = self.by_core(outside, module, &names, written)?;
        if other.is_some() {
            return Ok(other);
        }
        self.text_if_leads(outside, module, Start::Global, &names, written)
    }

    /// A path of the standard library with `core` for `std`.
    fn by_core(
        &self,
        outside: &mut OutsidePaths,
        module: ModuleNo,
        names: &[Name],
        written: Written,
    ) -> Result<Option<String>, AllocError>
        ensures { IfOk result (λ found. IfSome found (λ text. IsPathOf self.now.space.now «module» written (string_bytes text))) }
    {
        let mut changed = Vec::from_slice(self.alloc, names)?;
        let Some(first) = changed.get_mut(0) else {
            return Ok(None);
        };
        if self.space.text(*first) != "std" {
            return Ok(None);
        }
        *first = self.core;
        self.text_if_leads(outside, module, Start::Plain, &changed, written)
    }

    /// The whole path: from `crate` where the definition is in the crate of the module, else from the name of its crate. A file may be
    /// a module of several crates, and what it declares is there in each.
    fn by_whole(
        &self,
        outside: &mut OutsidePaths,
        module: ModuleNo,
        whole: &WholePath,
        written: Written,
    ) -> Result<Option<String>, AllocError>
        ensures { IfOk result (λ found. IfSome found (λ text. IsPathOf self.now.space.now «module» written (string_bytes text))) }
    {
        if whole.root.is_some() {
            let names = whole.names.as_slice();
            let text = self.text_if_leads(outside, module, Start::Crate, names, written)?;
            if text.is_some() || whole.root == Some(self.space.root_of(module)) {
                return Ok(text);
            }
        }
        self.by_crate(outside, module, whole, written)
    }

    /// The path by which a module reaches a definition: the first that, looked up there, leads back to it. The rule's own path is
    /// tried first, and imports last.
    pub(crate) fn path_from(
        &self,
        outside: &mut OutsidePaths,
        module: ModuleNo,
        template: &Template,
    ) -> Result<Option<String>, AllocError>
        ensures { IfOk result (λ found. IfSome found (λ text. IsPathOf self.now.space.now «module» template.now.written (string_bytes text))) }
    {
        if !self.space.has_all_copies(module) {
            return Ok(None);
        }
        let written = template.written;
        let own = self.by_end(outside, module, &template.names, written)?;
        if own.is_some() {
            return Ok(own);
        }
        let Some(whole) = self.whole(outside, written.definition)? else {
            return Ok(None);
        };
        let text = self.by_end(outside, module, &whole.names, written)?;
        if text.is_some() {
            return Ok(text);
        }
        let text = self.by_whole(outside, module, &whole, written)?;
        if text.is_some() {
            return Ok(text);
        }
        self.by_ways(outside, module, template)
    }

    /// The path from a crate to an import of the definition.
    fn by_ways(
        &self,
        outside: &mut OutsidePaths,
        module: ModuleNo,
        template: &Template,
    ) -> Result<Option<String>, AllocError>
        ensures { IfOk result (λ found. IfSome found (λ text. IsPathOf self.now.space.now «module» template.now.written (string_bytes text))) }
    {
        for way in &template.ways {
            if let Some(mut path) = self.module_path(way.module)? {
                path.names.push(way.name)?;
                let text = self.by_whole(outside, module, &path, template.written)?;
                if text.is_some() {
                    return Ok(text);
                }
            }
        }
        Ok(None)
    }
}
