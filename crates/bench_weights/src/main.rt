// Reads a program from standard input, normalises it, lets its weight bodies follow a walk, and
// writes what they gave: what bench/ measures.
#![tactic(auto)]

mod walk;

ghost use Rattle.ground_program.specs.Program.{IsProgram};

use byte_edges::StdSource;
use ground_program::Program;
use lparse_reader::read_program;
use rule_normaliser::normalise;
use std::alloc::Global;
use std::process::ExitCode;
use std::{env, io};
use walk::{Counts, Walk};

fn main(rt: HostRuntime) -> ExitCode {
    let Ok(turns) = turns_of(&rt) else {
        return ExitCode::from(7);
    };
    let mut source = StdSource::open(rt.stdin());
    let Ok(program) = read_program(rt.alloc(), &mut source) else {
        return ExitCode::from(3);
    };
    let Some(counts) = counts_of(rt.alloc(), &program, turns) else {
        return ExitCode::from(7);
    };
    match tell(&rt, counts) {
        Ok(()) => ExitCode::from(0),
        Err(_) => ExitCode::from(6),
    }
}

// How many turns the walk has: the number that the first word is.
fn turns_of(rt: &HostRuntime) -> io::Result<u32> {
    for word in env::args(rt)?.skip(1) {
        return Ok(word.as_str().parse::<u32>().unwrap_or(0));
    }
    Ok(1_000)
}

// What a walk of so many turns counts. None is want of memory, or too many variables.
fn counts_of(alloc: Global, program: &Program, turns: u32) -> Option<Counts>
    requires { IsProgram program.now }
{
    let normal = normalise(alloc, program).ok()?;
    let mut walk = Walk::open(alloc, normal).ok()?;
    walk.run(alloc, turns).ok()?;
    Some(walk.counts())
}

// Writes what was counted.
fn tell(rt: &HostRuntime, counts: Counts) -> io::Result<()> {
    let Counts {
        clauses,
        literals,
        assigned,
    } = counts;
    println!(rt; "{clauses} clauses with {literals} literals, {assigned} assignments")
}
