//! The files of a run: those of a package's targets and the files that their `mod` items reach, or given files and folders.
#![tactic(auto)]

mod around;
mod candidates;
mod crate_names;
mod crates;
mod dependencies;
mod finding;
mod folders;
mod given;
mod globs;
mod includes;
mod manifest;
mod marks;
mod members;
mod module_tree;
mod modules;
mod notes;
mod on_files;
mod package_error;
mod packages;
mod paths;
mod places;
mod reading;
mod reads;
mod root;
mod source_file;
mod targets;
mod texts;
mod tokens;
mod unreached;

pub use around::{FilesAround, files_around};
pub use crates::{Crate, CrateKind, Edition};
pub use finding::find_manifest;
pub use given::given_files;
pub use includes::{Include, unsearched_includes};
pub use module_tree::{Declaration, Module, ModuleTree, Origin};
pub use notes::{Note, Trouble};
pub use on_files::OnFiles;
pub use package_error::PackageError;
pub use packages::package_files;
pub use paths::{normal_path, path_in};
pub use reading::PackageFiles;
pub use reads::{Entry, Reads, Standing};
pub use source_file::SourceFile;
