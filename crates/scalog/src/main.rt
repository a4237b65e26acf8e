//! The program: its words, standard input, standard output and its disks, handed to the top call.
#![tactic(auto)]

use outside_real::{AnyRack, Reading, Writing};
use scalog_run::{scalog, status};
use std::alloc::Global;
use std::process::ExitCode;
use std::{env, io};

fn main(rt: HostRuntime) -> ExitCode {
    let alloc = rt.alloc();
    let words = match words(&rt, alloc) {
        Ok(words) => words,
        Err(status) => return ExitCode::from(status),
    };
    let mut source = Reading::new(rt.reader());
    let mut sink = Writing::new(io::writer(&rt));
    let mut rack = AnyRack::new(alloc);
    ExitCode::from(scalog(&rt, alloc, &words, &mut source, &mut sink, &mut rack))
}

/// The words after the program's name, or the status to end with where the system gives none.
fn words(rt: &HostRuntime, alloc: Global) -> Result<Vec<String>, u8> {
    let args = match env::args(rt) {
        Ok(args) => args,
        Err(error) if error.kind() == io::ErrorKind::OutOfMemory => {
            return Err(status::OUT_OF_MEMORY);
        }
        Err(_) => return Err(status::BAD_WORDS),
    };
    let mut words = Vec::new(alloc);
    for word in args.skip(1) {
        if words.push(word).is_err() {
            return Err(status::OUT_OF_MEMORY);
        }
    }
    Ok(words)
}
