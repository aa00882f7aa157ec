//! Which files are read, with what the language leaves out set aside, and which are not.
ghost use Rattle.std.specs.Prelude.{◌≡◌, ◌≢◌, ◌≤◌, [], ◌∷◌, ◌++◌, All, IfOk, OnOk, length};
ghost use Rattle.ssr_syntax_kinds.specs.declared.reach.Reach.TheVariants.{Whole};
ghost use Rattle.ssr_syntax.specs.Reading.{IsReadOf};
ghost use Rattle.ssr_syntax.specs.declared.syntax_error.SyntaxError.TheVariants as errors;
ghost use Rattle.ssr_base_trees.specs.Built.{most_trees};
ghost use Rattle.ssr_changes.specs.Files.{AreSearched};
ghost use Rattle.ssr_changes.specs.Sorting.{AreSorted};
ghost use Rattle.ssr_changes.specs.Private.Building.{Adds};

use crate::file_text::FileText;
use ssr_base::MOST_TREES;
use ssr_package::SourceFile;
use ssr_set_aside::set_aside;
use ssr_syntax::{SyntaxError, Tree};
use std::alloc::{AllocError, Global};

/// A file that isn't searched.
#[derive(Debug, PartialEq, Eq, Drop)]
pub struct Unread {
    /// Its name.
    pub name: String,
    /// Its text.
    pub text: String,
    /// Why it isn't read, as it stands; `TooLong` also where there are 65,536 others before it.
    pub why: SyntaxError,
}

/// Files by whether they are read, in their order.
#[derive(Drop)]
pub(crate) struct Sorted {
    /// The trees of those that are read, with what is set aside.
    pub(crate) trees: Vec<Tree>,
    /// The same files as they are on the disk.
    pub(crate) files: Vec<FileText>,
    /// The others.
    pub(crate) unread: Vec<Unread>,
}

impl Sorted {
    /// Adds a file that isn't read. Want of memory is no reason of the file's.
    fn tell(&mut self, name: String, text: String, why: SyntaxError) -> Result<(), AllocError>
        ensures why { OnOk result (why ≢ errors.Memory) }
        ensures told { OnOk result (self.new.unread.items ≡ self.old.unread.items ++ record { name = name; text = text; why = why } ∷ []) }
        ensures trees { self.new.trees ≡ self.old.trees }
        ensures files { self.new.files ≡ self.old.files }
    {
        match why {
            SyntaxError::Memory => return Err(AllocError),
            _ => self.unread.push(Unread { name, text, why })?,
        }
        Ok(())
    }

    /// Adds a file, as one that is read or that is not.
    fn add(&mut self, alloc: Global, file: SourceFile) -> Result<(), AllocError>
        ensures { OnOk result (Adds self.old self.new file) }
    {
        let SourceFile { name, text } = file;
        if self.files.len() >= MOST_TREES {
            return self.tell(name, text, SyntaxError::TooLong);
        }
        match set_aside(alloc, text.as_str()) {
            Ok(made) => {
                let (tree, aside, reaches, unsearched) = made.into_parts();
                self.trees.push(tree)?;
                self.files
                    .push(FileText::new(name, text, aside, reaches, unsearched))?;
                Ok(())
            }
            Err(why) => self.tell(name, text, why),
        }
    }
}

/// Which files are read, with what the language leaves out set aside, and which are not.
pub(crate) fn sort_out(alloc: Global, files: Vec<SourceFile>) -> Result<Sorted, AllocError>
    ensures sorted { IfOk result (λ sorted. AreSorted 0 files.items sorted.files.items sorted.unread.items) }
    ensures made { IfOk result (λ sorted. AreSearched sorted.trees.items sorted.files.items) }
    ensures read { IfOk result (λ sorted. All (IsReadOf Whole) sorted.trees.items) }
    ensures few { IfOk result (λ sorted. length sorted.trees.items ≤ most_trees) }
{
    let mut sorted = Sorted {
        trees: Vec::new(alloc),
        files: Vec::new(alloc),
        unread: Vec::new(alloc),
    };
    for file in files {
        sorted.add(alloc, file)?;
    }
    Ok(sorted)
}
