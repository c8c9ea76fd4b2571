//! The program: it reads its words and standard input, and writes to standard output.
#![tactic(auto)]

mod process;

use base_ids::{Items, NoMemory};
use cluster_program::{Status, Words, cluster_main};
use fault_io::{CountedReader, CountedWriter, StdSink, StdSource};
use process::{exit_code, words_after_name};
use std::io::ErrorKind;
use std::process::ExitCode;
use std::rt::Env;
use std::{env, mem};

/// The words after the program's name. Words that are no text are none.
fn read_words<R: Env + AllocGlobal>(rt: &R) -> Result<Words, NoMemory> {
    match env::args(rt) {
        Ok(args) => words_after_name(rt.alloc(), args),
        Err(error) if error.kind() == ErrorKind::InvalidData => Ok(Items::new(rt.alloc())),
        Err(_) => Err(NoMemory),
    }
}

fn main(rt: HostRuntime) -> ExitCode {
    let Ok(words) = read_words(&rt) else {
        return ExitCode::from(Status::NoMemory.number());
    };
    let mut source = StdSource::new(CountedReader::new(rt.stdin()));
    let mut sink = StdSink::new(CountedWriter::new(rt.stdout()));
    let outcome = cluster_main(rt.alloc(), &words, &mut source, &mut sink);
    let code = exit_code(&outcome);
    // The process ends: its memory goes back as a whole, and no journal is given back entry by entry.
    mem::forget(outcome);
    code
}
