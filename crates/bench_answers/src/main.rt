// Reads a program from standard input, asks for its answer sets until each named atom is settled,
// and writes what was answered: what bench/ measures.
#![tactic(auto)]

mod asking;

ghost use Rattle.ground_program.specs.Program.{IsProgram};

use asking::{Asking, Counts};
use byte_edges::StdSource;
use ground_program::Program;
use lparse_reader::read_program;
use rule_normaliser::normalise;
use std::alloc::Global;
use std::process::ExitCode;
use std::{env, io};

fn main(rt: HostRuntime) -> ExitCode {
    let Ok(limit) = limit_of(&rt) else {
        return ExitCode::from(7);
    };
    let mut source = StdSource::open(rt.stdin());
    let Ok(program) = read_program(rt.alloc(), &mut source) else {
        return ExitCode::from(3);
    };
    let Some(counts) = counts_of(rt.alloc(), &program, limit) else {
        return ExitCode::from(7);
    };
    match tell(&rt, counts) {
        Ok(()) => ExitCode::from(0),
        Err(_) => ExitCode::from(6),
    }
}

// How many clauses one question may count: the number that the first word is. At 0 nothing is
// asked.
fn limit_of(rt: &HostRuntime) -> io::Result<u32> {
    for word in env::args(rt)?.skip(1) {
        return Ok(word.as_str().parse::<u32>().unwrap_or(0));
    }
    Ok(1 << 24)
}

// What is answered where each question may count so many clauses. None is want of memory, or too
// many variables.
fn counts_of(alloc: Global, program: &Program, limit: u32) -> Option<Counts>
    requires { IsProgram program.now }
{
    let normal = normalise(alloc, program).ok()?;
    let mut asking = Asking::open(alloc, &normal).ok()?;
    asking.run(alloc, limit).ok()
}

// Writes what was answered.
fn tell(rt: &HostRuntime, counts: Counts) -> io::Result<()> {
    let Counts {
        found,
        cores,
        counted,
        spent,
        inside,
    } = counts;
    println!(rt; "{found} found, {cores} cores, {counted} counted, {spent} spent, {inside} inside")
}
