//! The texts that were read.
ghost use Rattle.std.specs.Prelude.{◌≡◌, List, IfOk, map, string_bytes};
ghost use Rattle.ssr_package.specs.Reads.{AreInOrder, Gave, WasRead};
ghost use Rattle.ssr_package.specs.Private.Texts.{AreKept, named};

use crate::notes::Trouble;
use crate::reads::Reads;
use crate::root::text_in;
use crate::source_file::SourceFile;
use std::alloc::{AllocError, Global};
use std::collections::BTreeMap;

/// The texts of a folder's files that were read, by the files' names.
#[derive(Drop)]
pub(crate) struct Texts {
    /// The folder's path.
    pub folder: String,
    pub by_name: BTreeMap<String, String>,
}

impl Texts {
    /// No texts.
    pub(crate) fn new<F: Reads>(reader: &F, folder: &str) -> Result<Texts, AllocError>
        ensures { IfOk result (λ texts. AreKept (F.gave reader.now) texts) }
    {
        let alloc = reader.alloc();
        let folder = String::from_str(alloc, folder)?;
        Ok(Texts {
            folder,
            by_name: BTreeMap::new(alloc),
        })
    }

    /// Reads the text of a file, or tells why there is none.
    pub(crate) fn read<F: Reads>(
        &self,
        reader: &mut F,
        name: &str,
    ) -> Result<Result<String, Trouble>, AllocError>
        requires { AreKept (F.gave reader.old) self.now }
        ensures kept { AreKept (F.gave reader.new) self.now }
        ensures text { IfOk result (λ read. IfOk read (λ text. WasRead (F.gave reader.new) (string_bytes self.now.folder) name.now (string_bytes text))) }
    {
        text_in(reader, self.folder.as_str(), name)
    }

    /// Adds a text that was read.
    pub(crate) fn add(&mut self, name: String, text: String) -> Result<(), AllocError>
        ensures { (gave : List Gave) → AreKept gave self.old → WasRead gave (string_bytes self.old.folder) (string_bytes name) (string_bytes text) → AreKept gave self.new }
    {
        self.by_name.insert(name, text)?;
        Ok(())
    }
}

/// The files of these texts, in the order of their names.
pub(crate) fn in_order(
    alloc: Global,
    by_name: BTreeMap<String, String>,
) -> Result<Vec<SourceFile>, AllocError>
    ensures same { IfOk result (λ files. map named files.items ≡ by_name.entries) }
    ensures order { IfOk result (λ files. AreInOrder files.items) }
{
    let mut files = Vec::new(alloc);
    for (name, text) in by_name {
        files.push(SourceFile { name, text })?;
    }
    Ok(files)
}
