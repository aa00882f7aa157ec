//! What a run passes over.

use std::fmt;
use std::io::ErrorKind;

/// Why a file is passed over, or what it lacks.
#[derive(Debug, Drop)]
pub enum Trouble {
    /// No file is there for a `mod` item of the file: the module's name.
    NoModule(String),
    /// The file of a `mod` item of the file lies outside of the folder: the module's name.
    ModuleOutside(String),
    /// The file of a target, or the folder of a member, lies outside of the folder.
    Outside,
    /// It is not there.
    Missing,
    /// A link leads there.
    Link,
    /// It lies below `target` or `vendor`.
    NotOurs,
    /// It is neither a file nor a folder.
    NotAFile,
    /// It is not UTF-8.
    NotText,
    /// No folder fits a pattern of members.
    NoFolder,
    /// A pattern of members has a mark that isn't read.
    Unread(&'static str),
    /// Files that no `mod` item reaches: the first of their names.
    Unreached(String),
    /// The same of one file.
    OneUnreached(String),
    /// It can't be read.
    Unreadable(ErrorKind),
}

impl fmt::Display for Trouble {
    ghost use Rattle.ssr_package.specs.Notes.{trouble_words};

    ghost output = { trouble_words };

    fn fmt<W: fmt::Write>(&self, f: &mut fmt::Formatter<W>) -> fmt::Result {
        match self {
            Trouble::NoModule(module) => write!(f, "no file for mod {module}"),
            Trouble::ModuleOutside(module) => write!(
                f,
                "the file of mod {module} lies outside of the folder"
            ),
            Trouble::Outside => f.write_str("outside of the folder"),
            Trouble::Missing => f.write_str("not there"),
            Trouble::Link => f.write_str("reached through a link"),
            Trouble::NotOurs => f.write_str("below target or vendor"),
            Trouble::NotAFile => f.write_str("no file"),
            Trouble::NotText => f.write_str("not UTF-8"),
            Trouble::NoFolder => f.write_str("no folder fits"),
            Trouble::Unread(mark) => write!(f, "{mark} isn't read"),
            Trouble::Unreached(files) => write!(f, "{files}; name them behind --"),
            Trouble::OneUnreached(file) => write!(f, "{file}; name it behind --"),
            Trouble::Unreadable(kind) => write!(f, "can't be read: {kind}"),
        }
    }
}

/// A file that is passed over, or that lacks something: its name, a path with slashes from the run's folder, and why.
#[derive(Debug, Drop)]
pub struct Note {
    pub name: String,
    pub trouble: Trouble,
}

impl fmt::Display for Note {
    ghost use Rattle.ssr_package.specs.Notes.{note_words};

    ghost output = { note_words };

    fn fmt<W: fmt::Write>(&self, f: &mut fmt::Formatter<W>) -> fmt::Result {
        write!(f, "{}: {}", self.name, self.trouble)
    }
}
