//! The provider of a run, read of its sources.
ghost use Rattle.std.specs.Prelude.{◌≡◌, List, [], Some, None, IfOk, IfSome, OnOk, All, codes, string_bytes};
ghost use Rattle.ssr_names_items.specs.Names.{number_of};
ghost use Rattle.std.specs.BTreeMap.{insert_entry};
ghost use Rattle.ssr_base_trees.specs.contracts.ids.NodeIdOrd.TheImpl as id_order;
ghost use Rattle.ssr_base_trees.specs.Built.{IsBuilt};
ghost use Rattle.ssr_base_trees.specs.Workspace.{PlacedTree, trees as placed};
ghost use Rattle.ssr_names.specs.Locals.{TellsNoLocal};
ghost use Rattle.ssr_names.specs.Declarations.{Declares, HasMembers, IsOfTable};
ghost use Rattle.ssr_names.specs.Printed.{LeadsFrom};
ghost use Rattle.ssr_names.specs.Told.{IsReady, TellsWhatStands};
ghost use Rattle.ssr_names.specs.Private.Locals.{CollectsAll, HasNoLocal, IsRight};
ghost use Rattle.ssr_names.specs.Private.Printed.{AllLead, IsPrintedMore};
ghost use Rattle.ssr_names.specs.Private.Rows.{AreKnown, IsAdded, TellsRow};
ghost use Rattle.ssr_names.specs.declared.scopes.TreeScopes.{TreeScopes};
ghost use Rattle.ssr_names_items.specs.declared.table.Name.{Name};

use crate::definitions::{Definition, Meaning};
use crate::imports::settle;
use crate::locals::Locals;
use crate::no_std::roots_without_std;
use crate::outside::OutsidePaths;
use crate::preparing::add_std_names;
use crate::printed::{Printer, Template};
use crate::provider::{Names, PrintedKey, Undecided};
use crate::resolving::{BoundIn, ImplType, Resolver, Row, by_nodes};
use crate::rule_paths::{RulePath, add_names};
use crate::scopes::Scopes;
use crate::space::Space;
use crate::types::{Source, followed_aliases, is_alias, with_inherent};
use crate::wanted::Wanted;
use crate::words::{Word, Words};
use ssr_base_trees::{DefId, NodeId, Res, ScopeId, Trees};
use ssr_names_items::{ModuleNo, Name, Table};
use std::alloc::{AllocError, Global};
use std::collections::BTreeMap;

/// Names that stand for themselves.
#[derive(Clone, Copy)]
struct Special {
    /// A name that nothing of the run has.
    stranger: Name,
    self_type: Name,
    core: Name,
}

/// What paths of the code stand for, as rows of a provider.
#[derive(Drop)]
struct PathRows {
    known: BTreeMap<NodeId, Res>,
    believed: BTreeMap<NodeId, Res>,
    undecided: Vec<Undecided>,
}

/// Adds the names of crates, of rules and of the standard library, so that they have numbers.
fn add_all_names(
    alloc: Global,
    table: &mut Table,
    crates: &[String],
    rules: &[RulePath],
) -> Result<Vec<Name>, AllocError>
    ensures { OnOk result (Declares table.old table.new) }
{
    let mut manifests = added_names(alloc, table, crates)?;
    for path in rules {
        add_names(&mut table.names, path)?;
    }
    add_std_names(&mut table.names)?;
    for name in ["std", "core", "alloc"] {
        manifests.push(table.names.add(name)?)?;
    }
    Ok(manifests)
}

/// The numbers of names, which are added.
fn added_names(alloc: Global, table: &mut Table, texts: &[String]) -> Result<Vec<Name>, AllocError>
    ensures { OnOk result (Declares table.old table.new) }
{
    let mut names = Vec::with_capacity(alloc, texts.len())?;
    for text in texts {
        names.push(table.names.add(text.as_str())?)?;
    }
    Ok(names)
}

/// The names that stand for themselves.
fn special_names(table: &mut Table) -> Result<Special, AllocError>
    ensures declared { OnOk result (Declares table.old table.new) }
    ensures stranger { IfOk result (λ special. number_of table.new.names (codes "?") ≡ Some special.stranger) }
{
    Ok(Special {
        stranger: table.names.add("?")?,
        self_type: table.names.add("Self")?,
        core: table.names.add("core")?,
    })
}

/// Finds what imports, aliases and types of `impl`s stand for.
fn settle_all(
    source: &Source<'_>,
    space: &mut Space<'_>,
    outside: &mut OutsidePaths,
) -> Result<Vec<ImplType>, AllocError>
    requires of_table { IsOfTable space.old }
    requires members { HasMembers space.old }
    requires aliases { space.old.aliases.items ≡ [] }
    ensures table { OnOk result (space.new.table ≡ space.old.table) }
    ensures ready { OnOk result (IsReady space.new) }
{
    let unsure = source.unsure_variants(space)?;
    space.unsure_variants = unsure;
    settle(source.alloc, space, outside)?;
    let aliases = source.aliases(space, outside)?;
    space.aliases = aliases;
    let followed = followed_aliases(source.alloc, space)?;
    space.aliases = followed;
    let types = source.impl_types(space, outside)?;
    space.impl_types = types;
    let members = with_inherent(source.alloc, space)?;
    space.members = members;
    by_nodes(source.alloc, &space.table.impls, &space.impl_types)
}

/// What the paths of rules stand for where they are looked up.
fn all_wanted(
    alloc: Global,
    space: &Space<'_>,
    outside: &mut OutsidePaths,
    scope: Option<ScopeId>,
    rules: &[RulePath],
    self_type: Name,
) -> Result<Wanted, AllocError> {
    let mut wanted = Wanted::new(alloc);
    let Some(scope) = scope else {
        return Ok(wanted);
    };
    for path in rules {
        wanted.add_path(space, outside, scope, path)?;
    }
    wanted.add_aliases(space)?;
    wanted.add_type_aliases(space)?;
    wanted.add_doubtful_aliases(space)?;
    wanted.add_ways(space)?;
    wanted.add_self(space, outside, self_type)?;
    wanted.add_types(space, outside)?;
    Ok(wanted)
}

/// Adds what a path stands for to the rows of a provider.
fn add_row(
    alloc: Global,
    space: &Space<'_>,
    wanted: &Wanted,
    row: Row,
    rows: &mut PathRows,
) -> Result<(), AllocError>
    ensures local { (trees : List PlacedTree) → IsRight trees row → HasNoLocal trees rows.old.known.entries → OnOk result (HasNoLocal trees rows.new.known.entries) }
    ensures told { (stranger : Name) (scopes : List TreeScopes) (trees : List PlacedTree) → TellsRow space.now stranger scopes trees row → AreKnown space.now stranger scopes trees wanted.now.definitions.items rows.old.known → OnOk result (AreKnown space.now stranger scopes trees wanted.now.definitions.items rows.new.known) }
{
    let Some(definition) = definition_of(row) else {
        return add_undecided(alloc, space, wanted, row, rows);
    };
    let Some(number) = wanted.number(definition) else {
        return add_doubtful(alloc, space, wanted, row, rows);
    };
    add_known(row.node, number, rows)
}

/// The definition that a path stands for, if that is known.
fn definition_of(row: Row) -> Option<Definition>
    ensures unknown { row.meaning ≡ Meaning.Unknown → result ≡ None }
    ensures known { IfSome result (λ d. row.meaning ≡ Meaning.One d) }
{
    match row.meaning {
        Meaning::One(definition) => Some(definition),
        _ => None,
    }
}

/// Adds a path that stands for what a rule asks for.
fn add_known(node: NodeId, number: DefId, rows: &mut PathRows) -> Result<(), AllocError>
    ensures entries { OnOk result (rows.new.known.entries ≡ insert_entry ((id_order.ghosts).cmp) rows.old.known.entries node (Res.Def number)) }
    ensures known { OnOk result (IsAdded rows.old.known rows.new.known node (Res.Def number)) }
{
    rows.known.insert(node, Res::Def(number))?;
    rows.believed.insert(node, Res::Def(number))?;
    Ok(())
}

/// Adds a path that stands for what no rule asks for, if it isn't known what is behind it: what an alias has there may be that of a
/// type with arguments of its own.
fn add_doubtful(
    alloc: Global,
    space: &Space<'_>,
    wanted: &Wanted,
    row: Row,
    rows: &mut PathRows,
) -> Result<(), AllocError>
    ensures { rows.new.known ≡ rows.old.known }
{
    if row.is_front && is_alias(space, row.meaning) {
        return add_undecided(alloc, space, wanted, row, rows);
    }
    Ok(())
}

/// Adds a path of which it isn't known what it stands for. Since the code compiles, one that is found nowhere isn't known either.
fn add_undecided(
    alloc: Global,
    space: &Space<'_>,
    wanted: &Wanted,
    row: Row,
    rows: &mut PathRows,
) -> Result<(), AllocError>
    ensures { rows.new.known ≡ rows.old.known }
{
    if let Some(number) = wanted.believed_at(row.word, row.namespace) {
        rows.believed.insert(row.node, Res::Def(number))?;
        rows.undecided.push(Undecided {
            path: row.node,
            name: String::from_str(alloc, space.text(row.name))?,
        })?;
    }
    Ok(())
}

/// What paths of the code stand for, as rows of a provider.
fn path_rows(
    alloc: Global,
    space: &Space<'_>,
    wanted: &Wanted,
    found: &[Row],
) -> Result<PathRows, AllocError>
    ensures local { (trees : List PlacedTree) → All (IsRight trees) found.now → IfOk result (λ rows. HasNoLocal trees rows.known.entries) }
    ensures told { (stranger : Name) (scopes : List TreeScopes) (trees : List PlacedTree) → All (TellsRow space.now stranger scopes trees) found.now → IfOk result (λ rows. AreKnown space.now stranger scopes trees wanted.now.definitions.items rows.known) }
{
    let mut rows = PathRows {
        known: BTreeMap::new(alloc),
        believed: BTreeMap::new(alloc),
        undecided: Vec::new(alloc),
    };
    for row in found {
        add_row(alloc, space, wanted, *row, &mut rows)?;
    }
    Ok(rows)
}

/// Adds method calls of a name that rules ask for: what they call isn't known.
fn add_calls(
    alloc: Global,
    space: &Space<'_>,
    wanted: &Wanted,
    calls: &[Word],
    rows: &mut PathRows,
) -> Result<(), AllocError>
    ensures { rows.new.known ≡ rows.old.known }
{
    for call in calls {
        if let Some(function) = wanted.called(call.name) {
            rows.believed.insert(call.node, Res::Def(function))?;
            rows.undecided.push(Undecided {
                path: call.node,
                name: String::from_str(alloc, space.text(call.name))?,
            })?;
        }
    }
    Ok(())
}

/// The path by which a scope reaches what is written, where that is the definition of its number. It always is; that is looked at here,
/// so that nothing else need say it.
fn reached(
    printer: &Printer<'_>,
    outside: &mut OutsidePaths,
    wanted: &Wanted,
    key: PrintedKey,
    template: &Template,
) -> Result<Option<String>, AllocError>
    ensures { IfOk result (λ found. IfSome found (λ text. LeadsFrom printer.now.space.now wanted.now.definitions.items key.scope key.def (string_bytes text))) }
{
    if !wanted.is_numbered(key.def, template.written.definition) {
        return Ok(None);
    }
    printer.path_from(outside, ModuleNo(key.scope.0), template)
}

/// Adds the path by which a scope reaches a definition.
fn add_text(
    printed: &mut BTreeMap<PrintedKey, String>,
    key: PrintedKey,
    text: String,
) -> Result<(), AllocError>
    ensures { OnOk result (IsPrintedMore printed.old printed.new key text) }
{
    printed.insert(key, text)?;
    Ok(())
}

/// Adds the path by which a scope reaches what is written, if it does.
fn add_reached(
    printer: &Printer<'_>,
    outside: &mut OutsidePaths,
    wanted: &Wanted,
    key: PrintedKey,
    template: &Template,
    printed: &mut BTreeMap<PrintedKey, String>,
) -> Result<(), AllocError>
    ensures { AllLead printer.now.space.now wanted.now.definitions.items printed.old → OnOk result (AllLead printer.now.space.now wanted.now.definitions.items printed.new) }
{
    let Some(text) = reached(printer, outside, wanted, key, template)? else {
        return Ok(());
    };
    add_text(printed, key, text)
}

/// Adds the paths by which a module reaches what is written.
fn add_printed(
    printer: &Printer<'_>,
    outside: &mut OutsidePaths,
    wanted: &Wanted,
    scope: ScopeId,
    printed: &mut BTreeMap<PrintedKey, String>,
) -> Result<(), AllocError>
    ensures { AllLead printer.now.space.now wanted.now.definitions.items printed.old → OnOk result (AllLead printer.now.space.now wanted.now.definitions.items printed.new) }
{
    for (def, template) in wanted.written.iter() {
        let key = PrintedKey { scope, def: *def };
        add_reached(printer, outside, wanted, key, template, printed)?;
    }
    Ok(())
}

/// The paths by which all modules reach what is written.
fn all_printed(
    printer: &Printer<'_>,
    outside: &mut OutsidePaths,
    wanted: &Wanted,
) -> Result<BTreeMap<PrintedKey, String>, AllocError>
    ensures { IfOk result (λ printed. AllLead printer.now.space.now wanted.now.definitions.items printed) }
{
    let mut printed = BTreeMap::new(printer.alloc);
    if wanted.written.is_empty() {
        return Ok(printed);
    }
    for place in 0..printer.space.table.modules.len() {
        if place <= u32::MAX as usize {
            let scope = ScopeId(place as u32);
            add_printed(printer, outside, wanted, scope, &mut printed)?;
        }
    }
    Ok(printed)
}

/// What the paths of the code stand for that may be what rules ask for, and what functions of modules bind.
fn found_rows(
    resolver: Resolver<'_>,
    outside: &mut OutsidePaths,
    words: &Words,
) -> Result<(Vec<Row>, Vec<BoundIn>), AllocError>
    requires built { IsBuilt resolver.source.now.trees.now }
    requires collected { CollectsAll (placed resolver.source.now.trees.now) words.now }
    ensures local { IfOk result (λ found. All (IsRight (placed resolver.entry.source.now.trees.now)) found.0.items) }
    ensures told { IfOk result (λ found. All (TellsRow resolver.entry.space.now resolver.entry.source.now.stranger resolver.entry.scopes.now.trees.items (placed resolver.entry.source.now.trees.now)) found.0.items) }
{
    let (bound, bound_in) = resolver.bound(outside, words.binders.as_slice())?;
    let locals = Locals {
        trees: resolver.source.trees,
        words,
        bound: &bound,
    };
    let rows = resolver.rows(outside, locals)?;
    Ok((rows, bound_in))
}

/// The names that the code is searched for.
fn asked(
    alloc: Global,
    space: &Space<'_>,
    trees: &Trees,
    wanted: &Wanted,
) -> Result<Words, AllocError>
    ensures built { OnOk result (IsBuilt trees.now) }
    ensures collected { IfOk result (λ words. CollectsAll (placed trees.now) words) }
{
    let mut words = Words::new(alloc);
    wanted.ask(space, &mut words)?;
    words.add_trees(trees)?;
    Ok(words)
}

/// What the paths and the method calls of the code stand for, as rows of a provider, and what functions of modules bind.
fn all_rows(
    resolver: Resolver<'_>,
    outside: &mut OutsidePaths,
    wanted: &Wanted,
    words: &Words,
) -> Result<(PathRows, Vec<BoundIn>), AllocError>
    requires built { IsBuilt resolver.source.now.trees.now }
    requires collected { CollectsAll (placed resolver.source.now.trees.now) words.now }
    ensures local { IfOk result (λ all. HasNoLocal (placed resolver.entry.source.now.trees.now) all.0.known.entries) }
    ensures told { IfOk result (λ all. AreKnown resolver.entry.space.now resolver.entry.source.now.stranger resolver.entry.scopes.now.trees.items (placed resolver.entry.source.now.trees.now) wanted.now.definitions.items all.0.known) }
{
    let (found, bound_in) = found_rows(resolver, outside, words)?;
    let (alloc, space) = (resolver.source.alloc, resolver.space);
    let mut rows = path_rows(alloc, space, wanted, found.as_slice())?;
    add_calls(alloc, space, wanted, &words.calls, &mut rows)?;
    Ok((rows, bound_in))
}

/// The provider that answers by these rows.
fn names_of(
    scopes: Scopes,
    wanted: Wanted,
    rows: PathRows,
    printed: BTreeMap<PrintedKey, String>,
) -> Names
    ensures local { (trees : List PlacedTree) → HasNoLocal trees rows.known.entries → TellsNoLocal trees result }
    ensures known { result.known ≡ rows.known }
    ensures scopes { result.scopes ≡ scopes }
    ensures printed { result.printed ≡ printed }
{
    let Wanted {
        lookups,
        infos,
        types,
        ..
    } = wanted;
    let PathRows {
        known,
        believed,
        undecided,
    } = rows;
    Names {
        scopes,
        lookups,
        definitions: infos,
        known,
        believed,
        types,
        printed,
        undecided,
    }
}

/// What is known of the paths of a run's code that rules ask for. `crates` are the names of the crates that the manifests
/// name, `rules` the paths of the rules, and these are looked up where the node `position` stands.
pub fn read_names(
    alloc: Global,
    mut table: Table,
    trees: &Trees,
    crates: &[String],
    rules: &[RulePath],
    position: NodeId,
) -> Result<Names, AllocError>
    ensures local { IfOk result (λ names. TellsNoLocal (placed trees.now) names) }
    ensures stands { IfOk result (λ names. TellsWhatStands table (placed trees.now) names) }
{
    let manifests = add_all_names(alloc, &mut table, crates, rules)?;
    let special = special_names(&mut table)?;
    let scopes = Scopes::new(alloc, &table, trees)?;
    let mut outside = OutsidePaths::new(alloc);
    let mut space = Space::new(alloc, &mut outside, &table, &manifests)?;
    let source = Source {
        alloc,
        trees,
        stranger: special.stranger,
    };
    let impls = settle_all(&source, &mut space, &mut outside)?;
    let wanted = all_wanted(
        alloc,
        &space,
        &mut outside,
        scopes.scope(position),
        rules,
        special.self_type,
    )?;
    let words = asked(alloc, &space, trees, &wanted)?;
    let resolver = Resolver {
        source: &source,
        space: &space,
        scopes: &scopes,
        impls: &impls,
        self_type: special.self_type,
    };
    let (rows, bound_in) = all_rows(resolver, &mut outside, &wanted, &words)?;
    let bare_roots = roots_without_std(alloc, &table, trees)?;
    let printer = Printer {
        alloc,
        space: &space,
        bound_in: &bound_in,
        bare_roots: &bare_roots,
        core: special.core,
    };
    let printed = all_printed(&printer, &mut outside, &wanted)?;
    Ok(names_of(scopes, wanted, rows, printed))
}
