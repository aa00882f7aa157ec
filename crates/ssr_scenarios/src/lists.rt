//! What stands between the entries of a list.

/// What stands in front of an entry: nothing in front of the first.
pub(crate) fn separator(number: usize, between: &'static str) -> &'static str {
    if number == 0 { "" } else { between }
}
