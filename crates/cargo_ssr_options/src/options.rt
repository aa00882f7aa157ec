//! What a run of the command is to do.

use crate::place::Place;

/// What is done with what rules match.
#[derive(Debug, Drop)]
pub enum Mode {
    /// The diffs of what changes are shown.
    Diff,
    /// The new texts are written.
    Write,
    /// The diffs are shown, and the status tells whether there are any.
    Check,
    /// The matches of these patterns are listed.
    Search(Vec<String>),
    /// It is told why rules match or don't, where this snippet stands.
    Debug(String),
}

/// The files that are searched.
#[derive(Debug, Drop)]
pub enum Chosen {
    /// Those of a package: of the one with this name, if it is told, and of the one with this manifest, if it is told, else of
    /// the one whose folder holds the current one.
    Package {
        name: Option<String>,
        manifest: Option<String>,
    },
    /// These files, and all Rust files in these folders.
    Paths(Vec<String>),
    /// Those of this facts file.
    Facts(String),
}

/// Whether a diff is shown in colours.
#[derive(Clone, Copy, Debug, PartialEq, Eq)]
pub enum Color {
    /// It is where a terminal shows it.
    Auto,
    Always,
    Never,
}

/// What a run is to do.
#[derive(Debug, Drop)]
pub struct Options {
    pub mode: Mode,
    /// The rules among the words.
    pub rules: Vec<String>,
    /// The file of more rules, which come behind those among the words.
    pub rules_file: Option<String>,
    pub files: Chosen,
    /// Where the names of rules are looked up.
    pub place: Option<Place>,
    /// Whether the arguments of the standard library's macros are searched.
    pub macros: bool,
    /// Whether matches are told as JSON.
    pub json: bool,
    /// Whether the places are listed that would match if their names meant what the rule means, and of which that isn't known.
    pub undecided: bool,
    pub color: Color,
    /// Whether there is no summary.
    pub quiet: bool,
}
