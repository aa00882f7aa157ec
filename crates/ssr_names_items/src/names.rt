//! The names of items and paths, numbered.

ghost use Rattle.std.specs.Prelude.{◌≡◌, Some, IfOk, OnOk};
ghost use Rattle.ssr_names_items.specs.Names.{KeepsNumbers, bare, number_of, text_of};

use crate::table::Name;
use std::alloc::{AllocError, Global};
use std::collections::BTreeMap;

/// Names, each once, without `r#` in front. They are numbered in the order in which they came.
#[derive(Drop)]
pub struct Names {
    alloc: Global,
    texts: Vec<String>,
    numbers: BTreeMap<String, Name>,
}

/// A name as others are compared with it: without `r#` in front.
pub fn bare(text: &str) -> &str
    ensures { result.now ≡ bare text.now }
{
    match text.strip_prefix("r#") {
        Some(rest) => rest,
        None => text,
    }
}

impl Names {
    /// No names.
    pub fn new(alloc: Global) -> Names {
        Names {
            alloc,
            texts: Vec::new(alloc),
            numbers: BTreeMap::new(alloc),
        }
    }

    /// The number of a name, if it is one of these.
    pub fn number(&self, text: &str) -> Option<Name>
        ensures { result ≡ number_of self.now text.now }
    {
        match self.numbers.get(bare(text)) {
            Some(name) => Some(*name),
            None => None,
        }
    }

    /// The text of a name; an empty one where the number is none of these.
    pub fn text(&self, name: Name) -> &str
        ensures { result.now ≡ text_of self.now name }
    {
        match self.texts.get(name.0 as usize) {
            Some(text) => text.as_str(),
            None => "",
        }
    }

    /// The number of a name, which is added if it is none of these.
    pub fn add(&mut self, text: &str) -> Result<Name, AllocError>
        ensures kept { OnOk result (KeepsNumbers self.old self.new) }
        ensures numbered { IfOk result (λ name. number_of self.new text.now ≡ Some name) }
    {
        if let Some(name) = self.number(text) {
            return Ok(name);
        }
        if self.texts.len() >= u32::MAX as usize {
            return Err(AllocError);
        }
        let name = Name(self.texts.len() as u32);
        let key = String::from_str(self.alloc, bare(text))?;
        self.numbers.insert(key, name)?;
        self.texts.push(String::from_str(self.alloc, bare(text))?)?;
        Ok(name)
    }
}
