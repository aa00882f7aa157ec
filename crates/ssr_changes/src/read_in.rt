//! How much of Rust is read.

use ssr_syntax::Reach;

/// How much of Rust is read: in files, in what calls of macros stand for, and in rules and search patterns.
pub(crate) const READ_IN: Reach = Reach::Whole;
