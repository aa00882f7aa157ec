//! Paths into crates that aren't read, numbered.

use crate::definitions::OutsideNo;
use ssr_names_items::Name;
use std::alloc::{AllocError, Global};
use std::collections::BTreeMap;

/// A path of a crate that isn't read.
#[derive(Clone, Copy, Debug, PartialEq, Eq)]
pub(crate) struct OutsidePath {
    /// What it is without its last name; of a crate nothing.
    pub(crate) parent: Option<OutsideNo>,
    pub(crate) name: Name,
}

/// What a path is found by.
#[derive(Clone, Copy, Debug, PartialEq, Eq, PartialOrd, Ord)]
struct OutsideKey {
    parent: Option<OutsideNo>,
    name: Name,
}

/// Paths into crates that aren't read, each once.
#[derive(Drop)]
pub(crate) struct OutsidePaths {
    paths: Vec<OutsidePath>,
    numbers: BTreeMap<OutsideKey, OutsideNo>,
}

impl OutsidePaths {
    /// No paths.
    pub(crate) fn new(alloc: Global) -> OutsidePaths {
        OutsidePaths {
            paths: Vec::new(alloc),
            numbers: BTreeMap::new(alloc),
        }
    }

    /// The path of a number.
    pub(crate) fn path(&self, number: OutsideNo) -> Option<OutsidePath> {
        self.paths.get(number.0 as usize).copied()
    }

    /// The crate of a path: what it begins with.
    pub(crate) fn crate_of(&self, number: OutsideNo) -> OutsideNo {
        let mut at = number;
        for _ in 0..self.paths.len() {
            match self.path(at) {
                Some(row) => match row.parent {
                    Some(parent) => at = parent,
                    None => break,
                },
                None => break,
            }
        }
        at
    }

    /// The number of the path with one name more, or of a crate; it is added if it isn't there yet.
    pub(crate) fn child(
        &mut self,
        parent: Option<OutsideNo>,
        name: Name,
    ) -> Result<OutsideNo, AllocError> {
        let key = OutsideKey { parent, name };
        if let Some(number) = self.numbers.get(&key) {
            return Ok(*number);
        }
        if self.paths.len() >= u32::MAX as usize {
            return Err(AllocError);
        }
        let number = OutsideNo(self.paths.len() as u32);
        self.numbers.insert(key, number)?;
        self.paths.push(OutsidePath { parent, name })?;
        Ok(number)
    }

    /// Lets the path with one name more be another one: both are the same thing.
    pub(crate) fn alias(
        &mut self,
        parent: OutsideNo,
        name: Name,
        same: OutsideNo,
    ) -> Result<(), AllocError> {
        let key = OutsideKey {
            parent: Some(parent),
            name,
        };
        self.numbers.insert(key, same)?;
        Ok(())
    }
}
