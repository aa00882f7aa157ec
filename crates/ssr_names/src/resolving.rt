//! What the paths of the code stand for whose last names are asked for.
ghost use Rattle.std.specs.Prelude.{◌≡◌, true, false, Some, IfOk, IfSome, OnOk, All};
ghost use Rattle.ssr_syntax_tree.specs.Places.{HasNode};
ghost use Rattle.ssr_base_trees.specs.Built.{IsBuilt};
ghost use Rattle.ssr_base_trees.specs.Workspace.{trees as placed};
ghost use Rattle.ssr_names.specs.Private.Meanings.{Means};
ghost use Rattle.ssr_base_trees.specs.declared.ids.ScopeId.{ScopeId};
ghost use Rattle.ssr_names.specs.Told.{BeginsWithSelf, IsTold, IsToldIn, begins_with_self, namespace_of};
ghost use Rattle.ssr_names.specs.Private.Rows.{TellsRow};
ghost use Rattle.ssr_names.specs.Private.Scopes.{scope_in};
ghost use Rattle.ssr_names.specs.Private.Locals.{BindAll, BindAround, CollectsAll, IsRight, StaysBound};

use crate::code_paths::{CodePath, code_path};
use crate::copies::ModulePlace;
use crate::definitions::{Definition, Meaning};
use crate::locals::{Bound, Locals, bind_around};
use crate::lookup::{PathAnswer, PathQuestion, Question};
use crate::outside::OutsidePaths;
use crate::places::{Place, is_shorthand, kind_at, namespace_of, place_of};
use crate::scopes::Scopes;
use crate::sorts::is_capital;
use crate::space::{Space, between};
use crate::std_names::is_in_type_module;
use crate::types::{Source, followed};
use crate::words::{Binder, Word};
use ssr_base_trees::NodeId;
use ssr_names_items::{Impl, ItemKind, ModuleNo, Name, Namespace, Start};
use ssr_syntax_kinds::SyntaxKind;
use ssr_syntax_tree::{Element, NodeNo, Tree};
use std::alloc::AllocError;
use std::collections::BTreeSet;

/// A name that a function of a module binds.
#[derive(Clone, Copy, Debug, PartialEq, Eq, PartialOrd, Ord)]
pub(crate) struct BoundIn {
    pub(crate) module: ModuleNo,
    pub(crate) name: Name,
    pub(crate) namespace: Namespace,
}

/// An `impl`, by its node.
#[derive(Clone, Copy, Debug)]
pub(crate) struct ImplType {
    pub(crate) node: NodeId,
    pub(crate) meaning: Meaning,
}

/// What a path of the code stands for.
#[derive(Clone, Copy, Debug)]
pub(crate) struct Row {
    pub(crate) node: NodeId,
    pub(crate) namespace: Namespace,
    pub(crate) meaning: Meaning,
    /// Whether it stands in front of a further name.
    pub(crate) is_front: bool,
    /// Its last name.
    pub(crate) word: Name,
    /// The last name of it that was looked up.
    pub(crate) name: Name,
}

/// What the paths of the code are looked up in.
#[derive(Clone, Copy)]
pub(crate) struct Resolver<'r> {
    pub(crate) source: &'r Source<'r>,
    pub(crate) space: &'r Space<'r>,
    pub(crate) scopes: &'r Scopes,
    /// The types of `impl`s, sorted by their nodes.
    pub(crate) impls: &'r [ImplType],
    pub(crate) self_type: Name,
}

/// A path that is spelled in a place.
#[derive(Clone, Copy)]
struct Spelled<'p> {
    node: NodeId,
    path: &'p CodePath,
    place: Place,
    module: ModuleNo,
    namespace: Namespace,
}

/// Whether a definition is what a pattern that is its name alone compares with: a constant, a static, or one without fields.
fn is_constant(space: &Space<'_>, outside: &OutsidePaths, definition: Definition) -> bool {
    match definition {
        Definition::Item(item) => match space.item(item) {
            Some(row) => matches!(
                row.kind,
                ItemKind::Const | ItemKind::Static | ItemKind::Struct | ItemKind::Variant
            ),
            None => false,
        },
        Definition::Outside(path) => match outside.path(path) {
            Some(row) => is_capital(space.text(row.name)),
            None => false,
        },
        _ => false,
    }
}

/// The name of the segment behind a path, where the path is in front of one.
fn name_behind(tree: &Tree, path: NodeNo) -> Option<&str>
    requires { HasNode tree.now path.0 }
{
    let parent = tree.parent(path)?;
    if !tree.kind(parent).is(SyntaxKind::PATH) {
        return None;
    }
    crate::code_paths::last_text(tree, parent)
}

/// A path of which nothing is known yet.
fn unread_row(tree: &Tree, word: Word) -> Row
    requires { HasNode tree.now word.node.node.0 }
    ensures node { result.node ≡ word.node }
    ensures namespace { result.namespace ≡ namespace_of tree.now word.node.node.0 }
    ensures unknown { result.meaning ≡ Meaning.Unknown }
{
    Row {
        node: word.node,
        namespace: namespace_of(tree, word.node.node),
        meaning: Meaning::Unknown,
        is_front: name_behind(tree, word.node.node).is_some(),
        word: word.name,
        name: word.name,
    }
}

impl<'r> Resolver<'r> {
    /// The module that a node stands in.
    fn module_of(&self, node: NodeId) -> Option<ModuleNo>
        ensures { IfSome result (λ found. (scope : ScopeId) × (scope_in self.now.scopes.now.trees.items node ≡ Some scope) × (found.0 ≡ scope.0)) }
    {
        Some(ModuleNo(self.scopes.scope(node)?.0))
    }

    /// Whether a pattern binds its name, or may.
    fn binds(
        &self,
        outside: &mut OutsidePaths,
        binder: Binder,
        module: Option<ModuleNo>,
    ) -> Result<bool, AllocError>
        ensures { IfOk result (λ binds. binder.is_plain ≡ false → binds ≡ true) }
    {
        let Some(module) = module else {
            return Ok(true);
        };
        if !binder.is_plain {
            return Ok(true);
        }
        let names = [binder.name];
        let question = PathQuestion {
            start: Start::Plain,
            names: &names,
            namespace: Namespace::Value,
            module,
            import: None,
        };
        let answer = self.space.path(self.source.alloc, outside, question)?;
        match answer.meaning {
            Meaning::One(definition) => Ok(!is_constant(self.space, outside, definition)),
            _ => Ok(true),
        }
    }

    /// Adds what a pattern binds to what the functions around do.
    fn bind(&self, binder: Binder, bound: &mut BTreeSet<Bound>) -> Result<(), AllocError>
        requires { IsBuilt self.now.source.now.trees.now }
        ensures kept { OnOk result (StaysBound bound.old bound.new) }
        ensures bound { binder.namespace ≡ Namespace.Value → OnOk result (BindAround (placed self.now.source.now.trees.now) bound.new binder.node binder.name) }
    {
        if binder.namespace != Namespace::Value {
            return Ok(());
        }
        let source = self.source;
        bind_around(source.alloc, source.trees, binder.node, binder.name, bound)
    }

    /// Adds what a pattern binds: to what its function does, and to what those of its module do.
    fn add_bound(
        &self,
        outside: &mut OutsidePaths,
        binder: Binder,
        bound: &mut BTreeSet<Bound>,
        bound_in: &mut Vec<BoundIn>,
    ) -> Result<(), AllocError>
        requires { IsBuilt self.now.source.now.trees.now }
        ensures kept { OnOk result (StaysBound bound.old bound.new) }
        ensures bound { binder.is_plain ≡ false → binder.namespace ≡ Namespace.Value → OnOk result (BindAround (placed self.now.source.now.trees.now) bound.new binder.node binder.name) }
    {
        let module = self.module_of(binder.node);
        if !self.binds(outside, binder, module)? {
            return Ok(());
        }
        self.bind(binder, bound)?;
        let Some(module) = module else {
            return Ok(());
        };
        bound_in.push(BoundIn {
            module: self.space.plain_module(module),
            name: binder.name,
            namespace: binder.namespace,
        })?;
        Ok(())
    }

    /// What functions bind, and what those of a module do.
    pub(crate) fn bound(
        &self,
        outside: &mut OutsidePaths,
        binders: &[Binder],
    ) -> Result<(BTreeSet<Bound>, Vec<BoundIn>), AllocError>
        requires { IsBuilt self.now.source.now.trees.now }
        ensures { IfOk result (λ all. BindAll (placed self.now.source.now.trees.now) all.0 binders.now) }
    {
        let mut bound = BTreeSet::new(self.source.alloc);
        let mut bound_in = Vec::new(self.source.alloc);
        for binder in binders {
            self.add_bound(outside, *binder, &mut bound, &mut bound_in)?;
        }
        bound_in.sort()?;
        Ok((bound, bound_in))
    }

    /// The type that an `impl` is for.
    fn type_of(&self, block: ImplType) -> Meaning {
        let meaning = followed(self.space, block.meaning);
        match meaning {
            Meaning::One(Definition::Item(_) | Definition::Outside(_)) => meaning,
            _ => Meaning::Unknown,
        }
    }

    /// What `Self` stands for: the type that the `impl` around is for, at each place where that is.
    fn self_meaning(&self, place: Place) -> Meaning {
        let Some(node) = place.within_impl else {
            return Meaning::Unknown;
        };
        let first = self.impls.partition_point(|block| block.node < node);
        let past = self.impls.partition_point(|block| block.node <= node);
        let mut meaning = Meaning::Nothing;
        for block in between(self.impls, first, past) {
            meaning = meaning.join(self.type_of(*block));
        }
        match meaning {
            Meaning::Nothing => Meaning::Unknown,
            _ => meaning,
        }
    }

    /// Whether a path is the `Self` of a trait alone, which is no item.
    fn is_self_of_trait(&self, path: &CodePath, place: Place) -> bool {
        let (Start::Plain, [name], Some(node)) = (
            path.start,
            path.names.as_slice(),
            place.within_impl,
        ) else {
            return false;
        };
        match kind_at(self.source.trees, node) {
            Some(kind) => *name == self.self_type && kind.is(SyntaxKind::TRAIT),
            None => false,
        }
    }

    /// What a path stands for that begins with `Self`.
    fn behind_self(
        &self,
        outside: &mut OutsidePaths,
        spelled: Spelled<'_>,
    ) -> Result<PathAnswer, AllocError> {
        let mut answer = PathAnswer {
            meaning: self.self_meaning(spelled.place),
            name: Some(self.self_type),
        };
        for name in spelled.path.names.iter().skip(1) {
            let Meaning::One(definition) = answer.meaning else {
                return Ok(answer);
            };
            let question = Question {
                name: *name,
                namespace: spelled.namespace,
                viewer: spelled.module,
                skipped: None,
            };
            let alloc = self.source.alloc;
            answer = PathAnswer {
                meaning: self.space.behind(alloc, outside, definition, question)?,
                name: Some(*name),
            };
        }
        Ok(answer)
    }

    /// Whether the first one of some names is `Self`.
    fn begins_with_self(&self, names: &[Name]) -> bool
        ensures { result ≡ begins_with_self self.now.space.now names.now }
    {
        match names.get(0).copied() {
            Some(first) => self.space.text(first) == "Self",
            None => false,
        }
    }

    /// Whether a path begins with `Self`.
    fn is_behind_self(&self, path: &CodePath) -> bool
        ensures { result ≡ true → BeginsWithSelf self.now.space.now path.now.start path.now.names.items }
    {
        match path.start {
            Start::Plain => self.begins_with_self(&path.names),
            _ => false,
        }
    }

    /// What a path stands for that is spelled in a place.
    fn meaning_of(
        &self,
        outside: &mut OutsidePaths,
        spelled: Spelled<'_>,
    ) -> Result<PathAnswer, AllocError>
        ensures { IfOk result (λ answer. Means answer.meaning (IsTold self.now.space.now spelled.entry.«module» spelled.entry.path.now.start spelled.entry.path.now.names.items spelled.entry.namespace)) }
    {
        let code = spelled.path;
        if code.start == Start::Plain && spelled.place.is_generic {
            return Ok(PathAnswer {
                meaning: Meaning::Unknown,
                name: code.names.first().copied(),
            });
        }
        if self.is_behind_self(code) {
            return self.behind_self(outside, spelled);
        }
        let question = PathQuestion {
            start: code.start,
            names: &code.names,
            namespace: spelled.namespace,
            module: spelled.module,
            import: None,
        };
        self.space.path(self.source.alloc, outside, question)
    }

    /// What a path stands for, where the name behind it is known: `u32` is the module of that name only in front of what that
    /// has.
    fn with_behind(
        &self,
        outside: &OutsidePaths,
        spelled: Spelled<'_>,
        answer: PathAnswer,
        behind: Option<&str>,
    ) -> PathAnswer
        ensures { Means answer.meaning (IsTold self.now.space.now spelled.entry.«module» spelled.entry.path.now.start spelled.entry.path.now.names.items spelled.entry.namespace) → Means result.meaning (IsTold self.now.space.now spelled.entry.«module» spelled.entry.path.now.start spelled.entry.path.now.names.items spelled.entry.namespace) }
    {
        let is_module = match behind {
            Some(name) => is_in_type_module(name),
            None => false,
        };
        match spelled.namespace {
            Namespace::Type if !is_module => PathAnswer {
                meaning: self.space.as_type(outside, answer.meaning),
                ..answer
            },
            _ => answer,
        }
    }

    /// What a path of a tree stands for.
    fn row_in(
        &self,
        outside: &mut OutsidePaths,
        tree: &Tree,
        word: Word,
        module: ModuleNo,
    ) -> Result<Option<Row>, AllocError>
        requires { HasNode tree.now word.node.node.0 }
        ensures { IfOk result (λ row. IfSome row (λ row. (row.node ≡ word.node) × Means row.meaning (IsToldIn self.now.space.now self.now.source.now.stranger tree.now word.node.node.0 «module»))) }
    {
        let source = self.source;
        let names = &self.space.table.names;
        let unread = unread_row(tree, word);
        if is_shorthand(tree, word.node.node) {
            return Ok(Some(unread));
        }
        let Some(path) = code_path(source.alloc, tree, word.node.node, names, source.stranger)?
        else {
            return Ok(Some(unread));
        };
        let first = path.names.first().copied().unwrap_or(word.name);
        let place = place_of(source.trees, word.node, self.space.text(first));
        let behind = name_behind(tree, word.node.node);
        if place.is_aside || (behind.is_none() && self.is_self_of_trait(&path, place)) {
            return Ok(None);
        }
        let spelled = Spelled {
            node: word.node,
            path: &path,
            place,
            module,
            namespace: unread.namespace,
        };
        let answer = self.told(outside, spelled, behind)?;
        Ok(Some(Row {
            meaning: answer.meaning,
            name: answer.name.unwrap_or(word.name),
            ..unread
        }))
    }

    /// What is told of a macro's path.
    fn macro_told(
        &self,
        outside: &mut OutsidePaths,
        spelled: Spelled<'_>,
    ) -> Result<PathAnswer, AllocError>
        ensures { IfOk result (λ answer. Means answer.meaning (IsTold self.now.space.now spelled.entry.«module» spelled.entry.path.now.start spelled.entry.path.now.names.items spelled.entry.namespace)) }
    {
        let question = PathQuestion {
            start: spelled.path.start,
            names: &spelled.path.names,
            namespace: spelled.namespace,
            module: spelled.module,
            import: None,
        };
        let answer = self.space.whole_path(self.source.alloc, outside, question)?;
        Ok(PathAnswer {
            meaning: self.space.macro_at(spelled.node, answer.meaning),
            ..answer
        })
    }

    /// What is told of a path.
    fn told(
        &self,
        outside: &mut OutsidePaths,
        spelled: Spelled<'_>,
        behind: Option<&str>,
    ) -> Result<PathAnswer, AllocError>
        ensures { IfOk result (λ answer. Means answer.meaning (IsTold self.now.space.now spelled.entry.«module» spelled.entry.path.now.start spelled.entry.path.now.names.items spelled.entry.namespace)) }
    {
        if spelled.namespace == Namespace::Macro {
            return self.macro_told(outside, spelled);
        }
        let answer = self.meaning_of(outside, spelled)?;
        Ok(self.with_behind(outside, spelled, answer, behind))
    }

    /// What a path stands for; nothing is told of one that is a part of a `use` item, a visibility or an attribute.
    fn row(&self, outside: &mut OutsidePaths, word: Word) -> Result<Option<Row>, AllocError>
        ensures { IfOk result (λ row. IfSome row (TellsRow self.now.space.now self.now.source.now.stranger self.now.scopes.now.trees.items (placed self.now.source.now.trees.now))) }
    {
        let Some(tree) = self.source.trees.tree(word.node.tree) else {
            return Ok(None);
        };
        if !tree.has(Element::Node(word.node.node)) {
            return Ok(None);
        }
        let Some(module) = self.module_of(word.node) else {
            return Ok(None);
        };
        let Some(first) = self.row_in(outside, tree, word, module)? else {
            return Ok(None);
        };
        if !self.space.has_all_copies(module) {
            return Ok(Some(Row {
                meaning: Meaning::Unknown,
                ..first
            }));
        }
        let copies = self.space.copies(module);
        if copies.len() <= 1 {
            return Ok(Some(first));
        }
        let row = self.row_in_copies(outside, tree, word, copies, first)?;
        Ok(Some(row))
    }

    /// What a path stands for that is a part of a module at several places: where it stands for something else at one of them,
    /// that isn't known.
    fn row_in_copies(
        &self,
        outside: &mut OutsidePaths,
        tree: &Tree,
        word: Word,
        copies: &[ModulePlace],
        first: Row,
    ) -> Result<Row, AllocError>
        requires { HasNode tree.now word.node.node.0 }
        ensures { IfOk result (λ row. (row.node ≡ first.node) × Means row.meaning (λ d. first.meaning ≡ Meaning.One d)) }
    {
        let unknown = Row {
            meaning: Meaning::Unknown,
            ..first
        };
        for copy in copies {
            match self.row_in(outside, tree, word, copy.module)? {
                Some(row) if row.meaning == first.meaning => {}
                _ => return Ok(unknown),
            }
        }
        Ok(first)
    }

    /// What the paths stand for that end in a name that is asked for.
    pub(crate) fn rows(
        &self,
        outside: &mut OutsidePaths,
        locals: Locals<'_>,
    ) -> Result<Vec<Row>, AllocError>
        requires built { IsBuilt locals.trees.now }
        requires collected { CollectsAll (placed locals.trees.now) locals.words.now }
        requires bound { BindAll (placed locals.trees.now) locals.bound.now locals.words.now.binders.items }
        ensures local { IfOk result (λ rows. All (IsRight (placed locals.entry.trees.now)) rows.items) }
        ensures told { IfOk result (λ rows. All (TellsRow self.now.space.now self.now.source.now.stranger self.now.scopes.now.trees.items (placed self.now.source.now.trees.now)) rows.items) }
    {
        let alloc = self.source.alloc;
        let mut rows = Vec::new(alloc);
        for word in &locals.words.paths {
            let Some(row) = self.row(outside, *word)? else {
                continue;
            };
            rows.push(locals.without_local(alloc, row)?)?;
        }
        Ok(rows)
    }
}

/// The types of `impl`s by their nodes.
pub(crate) fn by_nodes(
    alloc: std::alloc::Global,
    impls: &[Impl],
    types: &[Meaning],
) -> Result<Vec<ImplType>, AllocError> {
    let mut found = Vec::new(alloc);
    for (block, meaning) in impls.iter().zip(types) {
        found.push(ImplType {
            node: block.node,
            meaning: *meaning,
        })?;
    }
    found.sort_by_key(|block: &ImplType| block.node)?;
    Ok(found)
}
