//! `cargo ssr`: structural search and replace in the Rust files of a package.
#![tactic(auto)]

use cargo_ssr_program::{Console, run};
use ssr_package::OnFiles;
use ssr_streams::CountedSink;
use ssr_writing::OnDisk;
use std::env::VarError;
use std::io::{IsTerminal, Write};
use std::process::ExitCode;
use std::{env, io};

fn main(rt: HostRuntime) -> ExitCode {
    let has_colors = rt.stdout().is_terminal() && !is_color_unwanted(&rt);
    let mut console = Console::new(CountedSink::new(rt.stdout()), rt.stderr(), has_colors);
    let status = match (words(&rt), env::current_dir(&rt)) {
        (Some(words), Ok(here)) => run(
            &mut OnFiles::new(&rt),
            &mut OnDisk::new(&rt),
            here.as_str(),
            &words,
            &mut console,
        ),
        _ => {
            let _ = rt.stderr().write_all(
                b"error: the words or the current folder can't be read as UTF-8\n",
            );
            3
        }
    };
    ExitCode::from(status)
}

/// Whether the variable `NO_COLOR` is set and not empty.
fn is_color_unwanted(rt: &HostRuntime) -> bool {
    match env::var(rt, "NO_COLOR") {
        Ok(value) => !value.is_empty(),
        Err(VarError::NotPresent) => false,
        Err(_) => true,
    }
}

/// The words of the command, if they can be read.
fn words(rt: &HostRuntime) -> Option<Vec<String>> {
    env::args(rt).ok()?.collect(rt.alloc()).ok()
}
