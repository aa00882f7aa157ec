//! Bytes that are no text, as no scenario has them.

use ssr_facts_rows::{RowsError, read_rows};
use std::alloc::Global;
use std::test::Fail;

/// How many printed paths a facts file has.
fn printed_count(alloc: Global, bytes: &[u8]) -> Result<usize, RowsError> {
    Ok(read_rows(alloc, bytes)?.printed.len())
}

#[test]
fn refuses_what_is_no_text(rt: HostRuntime) -> Result<(), Fail> {
    let cut = printed_count(rt.alloc(), b"{\"printed\": [[0, 1, \"\xc3\"]]}");
    assert_eq!(rt; cut, Err(RowsError::NotJson));
    let whole = printed_count(rt.alloc(), b"{\"printed\": [[0, 1, \"\xc3\xa9\"]]}");
    assert_eq!(rt; whole, Ok(1));
    Ok(())
}
