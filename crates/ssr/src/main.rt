//! Structural search and replace for Rust: rules in the command's words, a file on standard input or a facts file by its path,
//! new texts on standard output.
#![tactic(auto)]

use ssr_program::{CountedSink, CountedSource, Source, Unopened, facts_path, run};
use std::process::ExitCode;
use std::{env, fs, io};

fn main(rt: HostRuntime) -> ExitCode {
    let words = words(&rt);
    let words = words.as_ref().map(|words| words.as_slice());
    let path = match words {
        Some(words) => facts_path(words),
        None => None,
    };
    let status = match path {
        Some(path) => match fs::open(&rt, path) {
            Ok(file) => status(&rt, words, CountedSource::new(file)),
            Err(_) => status(&rt, words, CountedSource::new(Unopened)),
        },
        None => status(&rt, words, CountedSource::new(rt.reader())),
    };
    ExitCode::from(status)
}

/// The status of a run over a source and standard output.
fn status<R: Source + Drop>(rt: &HostRuntime, words: Option<&[String]>, mut source: R) -> u8 {
    run(
        rt.alloc(),
        words,
        &mut source,
        &mut CountedSink::new(io::writer(rt)),
    )
}

/// The words behind the program's name, if they can be read.
fn words(rt: &HostRuntime) -> Option<Vec<String>> {
    let mut args = env::args(rt).ok()?;
    let _ = args.next();
    args.collect(rt.alloc()).ok()
}
