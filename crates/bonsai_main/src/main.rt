//! The program `bonsai`: files and standard input in, standard output and standard error out.
#![tactic(auto)]

use bonsai_run::run_alone;
use shelf_io::{FileShelf, Sink, StreamSink};
use std::alloc::Global;
use std::env;
use std::io::{self, ErrorKind};
use std::process::ExitCode;

fn main(rt: HostRuntime) -> ExitCode {
    let alloc = rt.alloc();
    let mut err = StreamSink::open(rt.stderr());
    let words = match words_of(&rt, alloc) {
        Ok(words) => words,
        Err(error) if error.kind() == ErrorKind::OutOfMemory => {
            let _ = err.write_all(b"bonsai: out of memory\n");
            return ExitCode::from(6);
        }
        // a word that is no text makes no order, as no words do
        Err(_) => Vec::new(alloc),
    };
    let mut shelf = FileShelf::open(&rt);
    let mut out = StreamSink::open(rt.stdout());
    ExitCode::from(run_alone(alloc, &words, &mut shelf, &mut out, &mut err))
}

/// The words after the program's name.
fn words_of(rt: &HostRuntime, alloc: Global) -> io::Result<Vec<String>> {
    let mut words = Vec::new(alloc);
    for word in env::args(rt)?.skip(1) {
        words.push(word)?;
    }
    Ok(words)
}
