//! The names of the crates on which packages depend.

use crate::crates::crate_name;
use crate::dependencies::dependency_tables;
use crate::manifest::text_at;
use crate::reading::Reading;
use std::alloc::AllocError;
use toml::{Table, Value};

/// Whether a dependency is a package of a folder that has another name. That may be one of the run, and then what is named so is no
/// crate that isn't read.
fn is_other_folder(name: &str, dependency: &Value) -> bool {
    let Some(table) = dependency.as_table() else {
        return false;
    };
    match text_at(table, "package") {
        Some(package) => package != name && text_at(table, "path").is_some(),
        None => false,
    }
}

impl Reading<'_> {
    /// Takes the names of the crates on which a manifest's package depends. Code calls each by the name that the manifest gives, also
    /// where a package of another name is meant; of packages in folders such a name isn't taken.
    pub(crate) fn take_dependencies(&mut self, manifest: &Table) -> Result<(), AllocError> {
        for table in dependency_tables(self.alloc(), manifest)? {
            for (name, dependency) in table {
                if !is_other_folder(name.as_str(), dependency) {
                    let name = crate_name(self.alloc(), name.as_str())?;
                    self.dependencies.insert(name)?;
                }
            }
        }
        Ok(())
    }
}
