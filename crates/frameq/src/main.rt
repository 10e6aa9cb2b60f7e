//! The program frameq: runs a plan over CSV files.
//!
//! With arguments, a plan file runs over data files: see `frameq --help`. Without arguments, the first line of standard input is the
//! plan, in JSON, and the rest is the only CSV file; if standard input is a terminal, the program shows its usage. The result goes to
//! standard output, or to the file that `--output` names. If there is none, standard error says why, and the exit status tells how the
//! run ended. `fq_program` does the work; this file connects it to the system.
#![tactic(auto)]

use fq_program::{Failure, Noted, SystemFiles, one_input, report, with_words};
use std::env;
use std::fs::{File, OpenOptions};
use std::io::{ErrorKind, IsTerminal};
use std::os::fd::AsRawFd;
use std::process::ExitCode;

fn main(rt: HostRuntime) -> ExitCode {
    let _closed = closed_streams(&rt);
    let alloc = rt.alloc();
    let (mut out, mut err) = (Noted::new(rt.stdout()), rt.stderr());
    ExitCode::from(match words_of(&rt) {
        Err(failure) => report(Err(failure), &mut err),
        Ok(words) if words.is_empty() && !rt.stdin().is_terminal() => {
            one_input(&rt, alloc, rt.stdin(), &mut out, &mut err)
        }
        Ok(words) => {
            let mut files = SystemFiles::new(&rt, rt.stdin(), rt.stderr());
            with_words(&rt, alloc, words, &mut files, &mut out, &mut err)
        }
    })
}

// The null device under the number of each standard stream that is closed, so that no file is opened under it and then taken for the
// stream. It cannot be read as input, nor written as output: what a closed stream answers stays a failed read or write.
fn closed_streams(rt: &HostRuntime) -> [Option<File>; 3] {
    let (mut written, mut read) = (OpenOptions::new(), OpenOptions::new());
    written.write(true);
    read.read(true);
    [
        null_device(rt, &written, 0),
        null_device(rt, &read, 1),
        null_device(rt, &read, 2),
    ]
}

// The null device, if it gets this number: a system gives the lowest that is free.
fn null_device(rt: &HostRuntime, options: &OpenOptions, number: i32) -> Option<File> {
    let file = options.open(rt, "/dev/null").ok()?;
    (file.as_raw_fd() == number).then_some(file)
}

// The program's arguments, without its own name.
fn words_of(rt: &(impl env::Env + AllocGlobal)) -> Result<Vec<String>, Failure> {
    match env::args(rt) {
        Ok(words) => Ok(words.skip(1).collect(rt.alloc())?),
        Err(error) if error.kind() == ErrorKind::OutOfMemory => Err(Failure::MEMORY),
        Err(_) => Err(Failure::Arguments),
    }
}
