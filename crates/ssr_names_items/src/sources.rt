//! The sources of a run.

use crate::table::{CrateKind, Edition};
use ssr_base_trees::Trees;
use ssr_syntax_kinds::TextRange;

/// A file: its name, its text on the disk, and the parts of that which are set aside, each with what stands in its place.
#[derive(Clone, Copy)]
pub struct SourceText<'a> {
    pub name: &'a str,
    pub text: &'a str,
    pub aside: &'a [(TextRange, String)],
}

/// A module that has a file.
#[derive(Clone, Copy)]
pub struct FileModule<'a> {
    /// The file's name.
    pub file: &'a str,
    pub origin: Origin<'a>,
}

/// Where a module that has a file comes from.
#[derive(Clone, Copy)]
pub enum Origin<'a> {
    /// It is the root of a crate.
    Root {
        name: &'a str,
        /// `None`: that of a workspace of which the manifest isn't read.
        edition: Option<Edition>,
        kind: CrateKind,
    },
    /// It is of no crate that is known.
    Stray,
    /// A `mod` item declares it.
    Declared(Declaration<'a>),
}

/// A `mod` item without a body.
#[derive(Clone, Copy)]
pub struct Declaration<'a> {
    /// The number of the module in whose file the item stands.
    pub declarer: usize,
    /// The names of the modules with a body that the item stands in, from the outermost.
    pub around: &'a [String],
    /// The module's name.
    pub name: &'a str,
}

/// The trees of a run, and its files in the order of their trees. The modules that have files are numbered: each stands behind the
/// one that declares it, and a file may be one of several modules.
#[derive(Clone, Copy)]
pub struct Sources<'a> {
    pub trees: &'a Trees,
    pub files: &'a [SourceText<'a>],
    pub modules: &'a [FileModule<'a>],
}
