//! The names of a run, ready to be looked up.

ghost use Rattle.std.specs.Prelude.{ℕ, ◌≡◌, ◌≤◌, ◌-◌, true, false, not, take, drop, length, slice_get, None, All, Contains, IfOk, IfSome};
ghost use Rattle.ssr_names_items.specs.declared.table.Entry.{Entry};
ghost use Rattle.ssr_names_items.specs.Names.{text_of};
ghost use Rattle.std.specs.Option.{option_copied};
ghost use Rattle.std.specs.List.Sorted.{IsPartitionPoint};
ghost use Rattle.ssr_names.specs.Private.Meanings.{Means};
ghost use Rattle.ssr_names.specs.Lookup.{IsAbove, IsAlias, IsAroundBlock, IsKnown, IsOrdered, IsOutermost, IsOutside, IsParent, IsPlain, IsRoot, IsSeen, IsTop, IsWithin, answer_of, first_of, import_at, in_namespace, item_at, module_at, rank};
ghost use Rattle.ssr_names.specs.Private.Answered.{IsRanked, is_before, is_behind};

use crate::copies::{MOST_COPIES, ModulePlace};
use crate::definitions::{Definition, Meaning, OutsideNo};
use crate::outside::OutsidePaths;
use crate::std_names::{PreludeName, Since, prelude_name};
use ssr_names_items::{
    Edition, Entry, Import, ImportNo, Item, ItemNo, Module, ModuleKind, ModuleNo, Name, Namespace,
    Table, Visibility,
};
use std::alloc::AllocError;

/// What an import's path stands for, in each namespace.
#[derive(Clone, Copy, Debug, PartialEq, Eq)]
pub(crate) struct Answers {
    pub(crate) as_type: Meaning,
    pub(crate) as_value: Meaning,
    pub(crate) as_macro: Meaning,
}

impl Answers {
    /// One meaning in all namespaces.
    pub(crate) fn all(meaning: Meaning) -> Answers
        ensures { result ≡ record { as_type = meaning; as_value = meaning; as_macro = meaning } }
    {
        Answers {
            as_type: meaning,
            as_value: meaning,
            as_macro: meaning,
        }
    }

    pub(crate) fn get(self, namespace: Namespace) -> Meaning
        ensures { result ≡ in_namespace self namespace }
    {
        match namespace {
            Namespace::Type => self.as_type,
            Namespace::Value => self.as_value,
            Namespace::Macro => self.as_macro,
        }
    }

    /// Whether these are the same answers.
    pub(crate) fn same(self, other: Answers) -> bool
        ensures { result ≡ true → self ≡ other }
    {
        self.as_type.same(other.as_type)
            && self.as_value.same(other.as_value)
            && self.as_macro.same(other.as_macro)
    }

    /// The first definition that is known.
    pub(crate) fn definition(self) -> Option<Definition> {
        match (self.as_type, self.as_value, self.as_macro) {
            (Meaning::One(definition), _, _)
            | (_, Meaning::One(definition), _)
            | (_, _, Meaning::One(definition)) => Some(definition),
            _ => None,
        }
    }

    /// Whether there is something in some namespace, or may be.
    pub(crate) fn is_something(self) -> bool {
        self.as_type.is_something() || self.as_value.is_something() || self.as_macro.is_something()
    }
}

/// A name behind an item: a variant of an enum, or an associated item of a type or a trait.
#[derive(Clone, Copy, Debug, PartialEq, Eq, PartialOrd, Ord)]
pub(crate) struct Member {
    pub(crate) of: ItemNo,
    pub(crate) name: Name,
    pub(crate) item: ItemNo,
}

/// An import that brings in all of something.
#[derive(Clone, Copy, Debug, PartialEq, Eq, PartialOrd, Ord)]
pub(crate) struct Glob {
    pub(crate) module: ModuleNo,
    pub(crate) import: ImportNo,
}

/// A name that stands for one thing wherever nothing nearer has it.
#[derive(Clone, Copy, Debug, PartialEq, Eq, PartialOrd, Ord)]
pub(crate) struct Known {
    pub(crate) name: Name,
    pub(crate) definition: Definition,
}

/// What a type alias is an alias of.
#[derive(Clone, Copy, Debug)]
pub(crate) struct Alias {
    pub(crate) item: ItemNo,
    pub(crate) meaning: Meaning,
}

/// The names of a run, ready to be looked up. Each list is sorted.
#[derive(Drop)]
pub(crate) struct Space<'a> {
    pub(crate) table: &'a Table,
    /// For each item the first one that stands where it does.
    pub(crate) first_items: Vec<ItemNo>,
    pub(crate) module_places: Vec<ModulePlace>,
    pub(crate) globs: Vec<Glob>,
    pub(crate) members: Vec<Member>,
    pub(crate) aliases: Vec<Alias>,
    /// The variants that aren't there in each configuration.
    pub(crate) unsure_variants: Vec<ItemNo>,
    pub(crate) crates: Vec<Known>,
    pub(crate) builtin_types: Vec<Known>,
    /// The macros of the run.
    pub(crate) macros: Vec<Known>,
    /// The names of types, modules and variants, wherever they stand.
    pub(crate) type_names: Vec<Name>,
    /// The names that imports bring in.
    pub(crate) brought_in: Vec<Name>,
    /// What each import's path stands for.
    pub(crate) answers: Vec<Answers>,
    /// What the type of each `impl` stands for.
    pub(crate) impl_types: Vec<Meaning>,
    /// The standard library.
    pub(crate) std: OutsideNo,
}

/// What members are found by.
#[derive(Clone, Copy, PartialEq, Eq, PartialOrd, Ord)]
struct MemberKey {
    of: ItemNo,
    name: Name,
}

fn member_key(member: &Member) -> MemberKey {
    MemberKey {
        of: member.of,
        name: member.name,
    }
}

/// By what entries stand in order.
fn rank(module: ModuleNo, name: Name) -> u64
    ensures { result ≡ rank «module» name }
{
    u64::from(module.0) * 0x1_0000_0000 + u64::from(name.0)
}

/// Whether an entry stands before those of a rank.
fn is_before(entry: &Entry, other: u64) -> bool
    ensures { result ≡ is_before entry.now other }
{
    rank(entry.module, entry.name) < other
}

/// Whether an entry stands behind those of a rank.
fn is_behind(entry: &Entry, other: u64) -> bool
    ensures { result ≡ is_behind entry.now other }
{
    other < rank(entry.module, entry.name)
}

/// Whether two modules are one.
pub(crate) fn is_same(one: ModuleNo, other: ModuleNo) -> bool
    ensures yes { result ≡ true → one ≡ other }
    ensures no { result ≡ false → ¬ (one ≡ other) }
{
    one.0 == other.0
}

/// What stands in a sorted list from one place on to before another one.
pub(crate) fn between<T>(list: &[T], first: usize, past: usize) -> &[T]
    ensures part { (n : ℕ) × (m : ℕ) × (result.now ≡ take n (drop m list.now)) }
    ensures whole { first ≤ past → past ≤ length list.now → result.now ≡ take (past - first) (drop first list.now) }
{
    if first <= past && past <= list.len() {
        &list[first..past]
    } else {
        &list[..0]
    }
}

/// What a name is known as, each time.
pub(crate) fn known_all(list: &[Known], name: Name) -> &[Known]
    ensures { All (Contains list.now) result.now }
{
    let first = list.partition_point(|known| known.name < name);
    let past = list.partition_point(|known| known.name <= name);
    between(list, first, past)
}

/// What a name is known as.
pub(crate) fn known_as(list: &[Known], name: Name) -> Option<Definition>
    ensures { IfSome result (IsKnown list.now name) }
{
    match known_all(list, name).first() {
        Some(known) if known.name.0 == name.0 => Some(known.definition),
        _ => None,
    }
}

impl<'a> Space<'a> {
    pub(crate) fn module(&self, module: ModuleNo) -> Option<Module>
        ensures { result ≡ module_at self.now «module» }
    {
        self.table.modules.get(module.0 as usize).copied()
    }

    pub(crate) fn item(&self, item: ItemNo) -> Option<Item>
        ensures { result ≡ item_at self.now item }
    {
        self.table.items.get(item.0 as usize).copied()
    }

    /// An item, where several stand at its place the first one.
    pub(crate) fn first_item(&self, item: ItemNo) -> ItemNo
        ensures { result ≡ first_of self.now item }
    {
        match self.first_items.get(item.0 as usize) {
            Some(first) => *first,
            None => item,
        }
    }

    /// The modules that a module is at several places, itself among them.
    pub(crate) fn copies(&self, module: ModuleNo) -> &[ModulePlace] {
        let places = self.module_places.as_slice();
        let Some(row) = self.module(module) else {
            return between(places, 0, 0);
        };
        let first = places.partition_point(|place| place.node < row.node);
        let past = places.partition_point(|place| place.node <= row.node);
        between(places, first, past)
    }

    /// How many places a module is looked at for, or one above it is, if those are more.
    fn copy_count(&self, module: ModuleNo) -> usize {
        let mut count = 0;
        let mut at = module;
        for _ in 0..self.table.modules.len() {
            let copies = self.copies(at).len();
            if copies > count {
                count = copies;
            }
            match self.module(at) {
                Some(row) => match row.parent {
                    Some(parent) => at = parent,
                    None => break,
                },
                None => break,
            }
        }
        count
    }

    /// Whether a module is looked at for each place where it is: it isn't where there are too many of them, and where a module above
    /// it is at more places.
    pub(crate) fn has_all_copies(&self, module: ModuleNo) -> bool {
        let count = self.copies(module).len();
        count <= MOST_COPIES && self.copy_count(module) <= count
    }

    pub(crate) fn import(&self, import: ImportNo) -> Option<&Import>
        ensures { option_copied result ≡ import_at self.now import }
    {
        self.table.imports.get(import.0 as usize)
    }

    pub(crate) fn text(&self, name: Name) -> &str
        ensures { result.now ≡ text_of self.now.table.now.names name }
    {
        self.table.names.text(name)
    }

    /// What an import's path stands for.
    pub(crate) fn answer(&self, import: ImportNo, namespace: Namespace) -> Meaning
        ensures { result ≡ answer_of self.now import namespace }
    {
        match self.answers.get(import.0 as usize) {
            Some(answers) => answers.get(namespace),
            None => Meaning::Unknown,
        }
    }

    /// The entries of a module with a name, in each namespace.
    pub(crate) fn entries(&self, module: ModuleNo, name: Name) -> &[Entry]
        ensures among { All (Contains self.now.table.now.entries.items) result.now }
        ensures complete { IsOrdered self.now → (entry : Entry) → Contains self.now.table.now.entries.items entry → IsRanked «module» name entry → Contains result.now entry }
    {
        let rank = rank(module, name);
        let first = self.first_ranked(rank);
        let past = self.past_ranked(rank);
        between(&self.table.entries, first, past)
    }

    /// How many entries stand before those of a rank.
    fn first_ranked(&self, rank: u64) -> usize
        ensures bound { result ≤ length self.now.table.now.entries.items }
        ensures point { IsOrdered self.now → IsPartitionPoint (λ entry. is_before entry rank ≡ true) (λ entry. is_before entry rank ≡ false) self.now.table.now.entries.items result }
    {
        self.table
            .entries
            .partition_point(|entry| is_before(entry, rank))
    }

    /// How many entries stand before those behind a rank.
    fn past_ranked(&self, rank: u64) -> usize
        ensures bound { result ≤ length self.now.table.now.entries.items }
        ensures point { IsOrdered self.now → IsPartitionPoint (λ entry. not (is_behind entry rank) ≡ true) (λ entry. not (is_behind entry rank) ≡ false) self.now.table.now.entries.items result }
    {
        self.table
            .entries
            .partition_point(|entry| !is_behind(entry, rank))
    }

    /// The imports of a module that bring in all of something.
    pub(crate) fn globs_of(&self, module: ModuleNo) -> &[Glob] {
        let globs = self.globs.as_slice();
        let first = globs.partition_point(|glob| glob.module < module);
        let past = globs.partition_point(|glob| glob.module <= module);
        between(globs, first, past)
    }

    /// The members of an item with a name.
    pub(crate) fn members_of(&self, of: ItemNo, name: Name) -> &[Member]
        ensures { All (Contains self.now.members.items) result.now }
    {
        let key = MemberKey { of, name };
        let members = self.members.as_slice();
        let first = members.partition_point(|member| member_key(member) < key);
        let past = members.partition_point(|member| member_key(member) <= key);
        between(members, first, past)
    }

    /// What a type alias is an alias of.
    pub(crate) fn aliased(&self, item: ItemNo) -> Meaning
        ensures { Means result (IsAlias self.now item) }
    {
        let place = self.aliases.partition_point(|alias| alias.item < item);
        match self.alias_at(place) {
            Some(alias) if alias.item.0 == item.0 => alias.meaning,
            _ => Meaning::Unknown,
        }
    }

    /// The alias at a place.
    fn alias_at(&self, place: usize) -> Option<Alias>
        ensures { result ≡ slice_get self.now.aliases.items place }
    {
        self.aliases.get(place).copied()
    }

    pub(crate) fn crate_named(&self, name: Name) -> Option<Definition>
        ensures { IfSome result (IsKnown self.now.crates.items name) }
    {
        known_as(&self.crates, name)
    }

    pub(crate) fn builtin_type(&self, name: Name) -> Option<Definition>
        ensures { IfSome result (IsKnown self.now.builtin_types.items name) }
    {
        known_as(&self.builtin_types, name)
    }

    /// The module around a block, or the module itself.
    pub(crate) fn plain_module(&self, module: ModuleNo) -> ModuleNo
        ensures { IsPlain self.now «module» result }
    {
        let mut at = module;
        for step in 0..self.table.modules.len() {
            let Some(up) = self.around_block(at) else {
                return at;
            };
            at = up;
        }
        at
    }

    /// What is around a block.
    pub(crate) fn around_block(&self, module: ModuleNo) -> Option<ModuleNo>
        ensures around { IfSome result (IsAroundBlock self.now «module») }
        ensures outermost { result ≡ None → IsOutermost self.now «module» }
    {
        let row = self.module(module)?;
        match row.kind {
            ModuleKind::Block => row.parent,
            _ => None,
        }
    }

    /// The module above a module that is no block.
    pub(crate) fn parent_module(&self, module: ModuleNo) -> Option<ModuleNo>
        ensures { IfSome result (IsParent self.now «module») }
    {
        let row = self.module(self.plain_module(module))?;
        Some(self.plain_module(row.parent?))
    }

    /// The root above a module.
    pub(crate) fn root_of(&self, module: ModuleNo) -> ModuleNo
        ensures { IsRoot self.now «module» result }
    {
        let mut at = module;
        for step in 0..self.table.modules.len() {
            let Some(up) = self.above(at) else {
                return at;
            };
            at = up;
        }
        at
    }

    /// The module or the block around a module.
    fn above(&self, module: ModuleNo) -> Option<ModuleNo>
        ensures above { IfSome result (IsAbove self.now «module») }
        ensures top { result ≡ None → IsTop self.now «module» }
    {
        let row = self.module(module)?;
        row.parent
    }

    /// The edition of a module's crate.
    pub(crate) fn edition(&self, module: ModuleNo) -> Option<Edition> {
        match self.module(self.root_of(module))?.kind {
            ModuleKind::Root(number) => self.table.crates.get(number.0 as usize)?.edition,
            _ => None,
        }
    }

    /// Whether a module is another one or stands below it.
    pub(crate) fn is_within(&self, module: ModuleNo, outer: ModuleNo) -> bool
        ensures within { result ≡ true → IsWithin self.now «module» outer }
        ensures apart { IsOrdered self.now → result ≡ false → IsWithin self.now «module» outer → ⊥ }
    {
        let mut at = module;
        for step in 0..self.table.modules.len() {
            if is_same(at, outer) {
                return true;
            }
            let Some(up) = self.above(at) else {
                return false;
            };
            at = up;
        }
        is_same(at, outer)
    }

    /// Whether something with this visibility is seen in a module.
    pub(crate) fn is_seen(&self, visibility: Visibility, viewer: ModuleNo) -> bool
        ensures seen { result ≡ true → IsSeen self.now visibility viewer }
        ensures unseen { IsOrdered self.now → result ≡ false → IsSeen self.now visibility viewer → ⊥ }
    {
        match visibility {
            Visibility::Public => true,
            Visibility::In(outer) => self.is_within(viewer, outer),
        }
    }

    /// What the prelude has under a name.
    pub(crate) fn prelude(
        &self,
        outside: &mut OutsidePaths,
        module: ModuleNo,
        name: Name,
        namespace: Namespace,
    ) -> Result<Meaning, AllocError>
        ensures { IfOk result (λ found. Means found IsOutside) }
    {
        let Some(known) = prelude_name(self.text(name)) else {
            return Ok(Meaning::Nothing);
        };
        if !known.is_in(namespace) {
            return Ok(Meaning::Nothing);
        }
        match self.has_prelude(known.since, module) {
            Some(true) => self.prelude_path(outside, known, name),
            Some(false) => Ok(Meaning::Nothing),
            None => Ok(Meaning::Unknown),
        }
    }

    /// Whether the edition of a module's crate has names of the prelude since an edition, if that is known.
    fn has_prelude(&self, since: Since, module: ModuleNo) -> Option<bool> {
        match since {
            Since::Always => Some(true),
            Since::Edition2021 => Some(matches!(
                self.edition(module)?,
                Edition::Edition2021 | Edition::Edition2024
            )),
            Since::Edition2024 => Some(self.edition(module)? == Edition::Edition2024),
        }
    }

    /// What a name of the prelude stands for.
    fn prelude_path(
        &self,
        outside: &mut OutsidePaths,
        known: PreludeName,
        name: Name,
    ) -> Result<Meaning, AllocError>
        ensures { IfOk result (λ found. Means found IsOutside) }
    {
        let Some(module) = self.table.names.number(known.module) else {
            return Ok(Meaning::Unknown);
        };
        let mut parent = outside.child(Some(self.std), module)?;
        if let Some(of) = known.of {
            let Some(owner) = self.table.names.number(of) else {
                return Ok(Meaning::Unknown);
            };
            parent = outside.child(Some(parent), owner)?;
        }
        let number = outside.child(Some(parent), name)?;
        Ok(Meaning::One(Definition::Outside(number)))
    }
}
