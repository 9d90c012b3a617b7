//! The program: the top call over the system's files and streams.
//!
//! It is run on words, a file and an input, and must write what its file `stdout` has and end with the status in its
//! file `status`. Its tests make the worked calls of the top call, over files, inputs and sinks in memory.
#![tactic(auto)]

#[cfg(test)]
mod c_texts;
#[cfg(test)]
mod c_units;
#[cfg(test)]
mod calls;
#[cfg(test)]
mod failures;
#[cfg(test)]
mod files;
#[cfg(test)]
mod prefixes;
#[cfg(test)]
mod programs;
#[cfg(test)]
mod rows;
#[cfg(test)]
mod statuses;
#[cfg(test)]
mod texts;

use elvm_cli::{elvm, out_of_memory};
use mach_core::{DiskShelf, StdSink, StdSource};
use std::alloc::Global;
use std::io::ErrorKind;
use std::process::ExitCode;
use std::{env, io};

// The words after the program's name.
fn words(rt: &HostRuntime) -> io::Result<Vec<String>> {
    let words: Vec<String> = env::args(rt)?.skip(1).collect(rt.alloc())?;
    Ok(words)
}

// Does what the words of the command line ask for, and gives the exit code. A word that is not UTF-8 is a faulty
// command line, as no words are.
fn main(rt: HostRuntime) -> ExitCode {
    let alloc: Global = rt.alloc();
    let mut errs = StdSink::new(rt.stderr());
    let words = match words(&rt) {
        Ok(words) => words,
        Err(error) if error.kind() == ErrorKind::OutOfMemory => {
            return ExitCode::from(out_of_memory(&mut errs));
        }
        Err(_) => Vec::new(alloc),
    };
    let mut shelf = DiskShelf::new(rt);
    let mut input = StdSource::new(rt.stdin());
    let mut out = StdSink::new(rt.stdout());
    let status = elvm(
        alloc,
        words.as_slice(),
        &mut shelf,
        &mut input,
        &mut out,
        &mut errs,
    );
    ExitCode::from(status)
}
