//! `vnetsh`: network stacks for jails, told by a script. See docs/RULES.md for the script and the
//! output.
#![tactic(auto)]

mod calls;
#[cfg(test)]
mod edges;
mod forms;
mod program;
mod run;
mod status;
#[cfg(test)]
mod tests;

use crate::program::program;
use std::process::ExitCode;
use std::{env, io};
use vn_io::{ReadSource, WriteSink};

/// The program over standard input, standard output and, for its status line, standard error.
fn main(rt: HostRuntime) -> ExitCode {
    let words = words(&rt);
    let mut source = ReadSource::new(rt.stdin());
    let mut sink = WriteSink::new(rt.stdout());
    let mut errors = WriteSink::new(rt.stderr());
    program(rt.alloc(), words, &mut source, &mut sink, &mut errors)
}

/// The words of the command line. The first is the program's name.
fn words(rt: &HostRuntime) -> io::Result<Vec<String>> {
    let words = env::args(rt)?.collect(rt.alloc())?;
    Ok(words)
}
