//! Which paths of rules and search patterns have to resolve.

use crate::matching::Sought;
use crate::naming_self::parsed;
use ide_ssr::SsrError;
use ide_ssr_rules::RulePath;
use std::alloc::{AllocError, Global};

/// The paths of what is sought that have to resolve, in its order. What is refused asks for none.
pub fn asked_paths(alloc: Global, sought: Sought<'_>) -> Result<Vec<RulePath>, AllocError> {
    let mut asked = Vec::new(alloc);
    for text in sought.texts {
        match parsed(alloc, sought.form, text.as_str()) {
            Ok(kinds) => {
                let mut paths = kinds.paths(alloc)?;
                asked.append(&mut paths)?;
            }
            Err(SsrError::Memory) => return Err(AllocError),
            Err(SsrError::Message(_message)) => {}
        }
    }
    Ok(asked)
}
