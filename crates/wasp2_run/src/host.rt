// A run on the real system.
use crate::top::run;
use byte_edges::{StdSink, StdSource};
use std::process::ExitCode;
use std::{env, io};

// The status of a run that ended for want of memory.
const NO_MEMORY: u8 = 7;

/// A run with the words of the command line, standard input and standard output. The code is the
/// status of `run`, or 7 where there was no memory for the words, and then nothing was written.
pub fn run_here(rt: &HostRuntime) -> ExitCode {
    let Ok(words) = words_of(rt) else {
        return ExitCode::from(NO_MEMORY);
    };
    let mut source = StdSource::open(rt.stdin());
    let mut sink = StdSink::open(rt.stdout());
    let ended = run(rt.alloc(), &words, &mut source, &mut sink);
    ExitCode::from(ended.status)
}

// The words behind the program's own name.
fn words_of(rt: &HostRuntime) -> io::Result<Vec<String>> {
    let mut words = Vec::new(rt.alloc());
    for word in env::args(rt)?.skip(1) {
        words.push(word)?;
    }
    Ok(words)
}
