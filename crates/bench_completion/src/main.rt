// Reads a program from standard input, normalises it and adds its base clauses to a store, as far
// as the first word says, and writes how much it made: what bench/ measures.
#![tactic(auto)]

ghost use Rattle.ground_program.specs.Program.{IsProgram};

use byte_edges::StdSource;
use clause_store::Store;
use completion::complete;
use ground_program::Program;
use lparse_reader::read_program;
use rule_normaliser::normalise;
use std::alloc::Global;
use std::process::ExitCode;
use std::{env, io};

/// How far to go.
#[derive(Debug, Drop, Clone, Copy, PartialEq, Eq)]
enum Phase {
    Read,
    Normalise,
    Complete,
}

fn main(rt: HostRuntime) -> ExitCode {
    let Ok(phase) = phase_of(&rt) else {
        return ExitCode::from(7);
    };
    let mut source = StdSource::open(rt.stdin());
    let Ok(program) = read_program(rt.alloc(), &mut source) else {
        return ExitCode::from(3);
    };
    let made = match phase {
        Phase::Read => Some(program.rules.len()),
        Phase::Normalise => bodies_of(rt.alloc(), &program),
        Phase::Complete => clauses_of(rt.alloc(), &program),
    };
    let Some(count) = made else {
        return ExitCode::from(7);
    };
    match println!(rt; "{count}") {
        Ok(()) => ExitCode::from(0),
        Err(_) => ExitCode::from(6),
    }
}

// The phase that the first word names: without one, all is done.
fn phase_of(rt: &HostRuntime) -> io::Result<Phase> {
    for word in env::args(rt)?.skip(1) {
        if word.as_str() == "read" {
            return Ok(Phase::Read);
        }
        if word.as_str() == "normalise" {
            return Ok(Phase::Normalise);
        }
    }
    Ok(Phase::Complete)
}

// The number of bodies of a program's normal form. None is want of memory, or too many variables.
fn bodies_of(alloc: Global, program: &Program) -> Option<usize>
    requires { IsProgram program.now }
{
    let normal = normalise(alloc, program).ok()?;
    Some(normal.bodies.len())
}

// The number of base clauses of a program's normal form.
fn clauses_of(alloc: Global, program: &Program) -> Option<usize>
    requires { IsProgram program.now }
{
    let normal = normalise(alloc, program).ok()?;
    let mut store = Store::open();
    complete(alloc, &normal, &mut store).ok()?;
    Some(store.len())
}
