//! What a program reads from and writes to: sources and sinks of bytes, which tell what they gave and took.
#![tactic(auto)]

mod counted;
mod sending;
mod streams;

pub use counted::{CountedSink, CountedSource, Unopened};
pub use sending::{write_all, write_pieces};
pub use streams::{Failed, Sink, Source};
