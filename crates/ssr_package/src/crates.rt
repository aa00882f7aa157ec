//! The crates of a package.
ghost use Rattle.std.specs.Prelude.{◌≡◌, map, string_bytes, IfOk};
ghost use Rattle.toml.specs.View.{table_view};
ghost use Rattle.ssr_package.specs.Crates as spec;

use crate::manifest::{table_at, text_at};
use std::alloc::{AllocError, Global};
use toml::Table;

/// A crate: a target of a package.
#[derive(Debug, PartialEq, Eq, Drop)]
pub struct Crate {
    /// Its name, as code spells it.
    pub name: String,
    /// Its edition; `None`: that of a workspace of which the manifest isn't read.
    pub edition: Option<Edition>,
    pub kind: CrateKind,
}

/// What a crate is to its package.
#[derive(Clone, Copy, Debug, PartialEq, Eq)]
pub enum CrateKind {
    Library,
    Program,
    /// A build script, an example, a test or a benchmark.
    Other,
}

/// An edition of the language.
#[derive(Clone, Copy, Debug, PartialEq, Eq)]
pub enum Edition {
    Edition2015,
    Edition2018,
    Edition2021,
    Edition2024,
}

/// The name of a target's crate: as that of the target, with `_` for `-`.
pub(crate) fn crate_name(alloc: Global, target: &str) -> Result<String, AllocError>
    ensures { IfOk result (λ name. string_bytes name ≡ spec.crate_name target.now) }
{
    let mut name = String::new(alloc);
    let mut rest = target;
    while let Some((part, after)) = rest.split_once('-') {
        name.push_str(part)?;
        name.push('_')?;
        rest = after;
    }
    name.push_str(rest)?;
    Ok(name)
}

/// The edition of a manifest's package: the one that it says, or that of its workspace where it says so.
pub(crate) fn package_edition(manifest: &Table, workspace: Option<Edition>) -> Option<Edition>
    ensures { result ≡ spec.package_edition (table_view manifest.now) workspace }
{
    match table_at(manifest, "package") {
        Some(package) => stated_edition(package, workspace),
        None => Some(Edition::Edition2015),
    }
}

/// The edition that a `[package]` says.
fn stated_edition(table: &Table, workspace: Option<Edition>) -> Option<Edition>
    ensures { result ≡ spec.stated_edition (table_view table.now) workspace }
{
    if table_at(table, "edition").is_some() {
        return workspace;
    }
    match text_at(table, "edition") {
        Some(text) => Some(edition_named(text)),
        None => Some(Edition::Edition2015),
    }
}

/// The edition that a workspace's manifest gives to its members.
pub(crate) fn workspace_edition(manifest: &Table) -> Option<Edition>
    ensures { result ≡ spec.workspace_edition (table_view manifest.now) }
{
    let workspace = table_at(manifest, "workspace")?;
    let package = table_at(workspace, "package")?;
    match text_at(package, "edition") {
        Some(text) => Some(edition_named(text)),
        None => None,
    }
}

/// The edition of a year; one that isn't known is taken for the newest.
fn edition_named(year: &str) -> Edition
    ensures { result ≡ spec.edition_named year.now }
{
    if year == "2015" {
        Edition::Edition2015
    } else if year == "2018" {
        Edition::Edition2018
    } else if year == "2021" {
        Edition::Edition2021
    } else {
        Edition::Edition2024
    }
}
