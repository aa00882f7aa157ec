//! Of which kinds the things are that paths of rules stand for.

use crate::provider::Names;
use ssr_base_trees::{DefKind, Res, Semantics};
use std::alloc::{AllocError, Global};

impl Names {
    /// The kinds of what the path with a key stands for at its places in rules, of each thing once. More than one: it isn't known which
    /// of them the key stands for.
    pub fn kinds_of(&self, alloc: Global, key: &[String]) -> Result<Vec<DefKind>, AllocError> {
        let mut things = Vec::new(alloc);
        let mut kinds = Vec::new(alloc);
        for row in &self.lookups {
            if let Res::Def(def) = row.res
                && row.path.as_slice() == key
                && !things.contains(&def)
            {
                things.push(def)?;
                kinds.push(self.info(def).kind)?;
            }
        }
        Ok(kinds)
    }
}
