//! Edits of a text.

use ssr_base::{ApplyError, TextEdit};
use ssr_syntax_kinds::TextRange;
use std::test::Fail;

#[test]
fn changes_are_made(rt: HostRuntime) -> Result<(), Fail> {
    let alloc = rt.alloc();
    let mut changes = Vec::new(alloc);
    changes.push((TextRange::new(0, 1), String::from_str(alloc, "one")?))?;
    changes.push((TextRange::new(4, 7), String::from_str(alloc, "")?))?;
    let edit = TextEdit::new(changes);
    assert_eq!(rt; edit.iter().count(), 2);
    assert_eq!(rt; edit.apply(alloc, "1, zwei, 3")?.as_str(), "one, z, 3");
    assert_eq!(rt; edit.apply(alloc, "1, 2"), Err(ApplyError::Range));
    Ok(())
}
