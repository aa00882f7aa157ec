//! The program `ssr`, from the command's words and the bytes of a file, or of a facts file, to the bytes and the status that it
//! answers, over any source of bytes and any sink.
#![tactic(auto)]

mod commands;
pub mod laws;
mod of_facts;
mod of_file;
mod program;
mod rewrite_error;
mod transfer;

pub use commands::facts_path;
pub use program::run;
pub use ssr_streams::{CountedSink, CountedSource, Failed, Sink, Source, Unopened};
