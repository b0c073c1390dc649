// Reads a program from standard input, of which the empty set is an answer set, and tells how long
// reads of its board and reports to it take: what bench/ measures.
#![tactic(auto)]

mod blank;
mod figures;
mod measuring;

ghost use Rattle.ground_program.specs.Program.{IsProgram};

use blank::{empty_set, is_answer};
use byte_edges::StdSource;
use figures::{Calls, Figures, Task};
use ground_program::Program;
use lparse_reader::read_program;
use measuring::measure;
use rule_normaliser::normalise;
use std::alloc::Global;
use std::process::ExitCode;
use std::rt::Clock;
use std::thread::Threads;
use std::{env, io};

fn main(rt: HostRuntime) -> ExitCode {
    let Ok(task) = task_of(&rt) else {
        return ExitCode::from(7);
    };
    let mut source = StdSource::open(rt.stdin());
    let Ok(program) = read_program(rt.alloc(), &mut source) else {
        return ExitCode::from(3);
    };
    let Some(figures) = figures_of(&rt, rt.alloc(), &program, &task) else {
        return ExitCode::from(7);
    };
    match tell(&rt, &figures) {
        Ok(()) => ExitCode::from(0),
        Err(_) => ExitCode::from(6),
    }
}

// How many reads and rounds are asked for: the numbers that the first two words are.
fn task_of(rt: &HostRuntime) -> io::Result<Task> {
    let mut numbers = [1000, 10];
    for (at, word) in env::args(rt)?.skip(1).take(2).enumerate() {
        numbers[at] = word.as_str().parse::<u32>().unwrap_or(0);
    }
    Ok(Task {
        reads: numbers[0],
        rounds: numbers[1],
    })
}

// What is measured. None is a program of which the empty set is no answer set, too many variables,
// want of memory or of a clock.
fn figures_of<R: Threads + Clock>(
    rt: &R,
    alloc: Global,
    program: &Program,
    task: &Task,
) -> Option<Figures>
    requires { IsProgram program.now }
{
    let Ok(normal) = normalise(alloc, program) else {
        return None;
    };
    let Ok(set) = empty_set(alloc, program.atoms) else {
        return None;
    };
    let Ok(true) = is_answer(alloc, program, &normal, &set) else {
        return None;
    };
    measure(rt, alloc, program, &normal, &set, task)
}

// Writes what the board showed, and to standard error how long the calls took.
fn tell(rt: &HostRuntime, figures: &Figures) -> io::Result<()> {
    let candidates = figures.candidates;
    let before = figures.before;
    let after = figures.after;
    tell_calls(rt, "reads alone", figures.alone)?;
    tell_calls(rt, "reads beside reports", figures.beside)?;
    tell_calls(rt, "reports beside reads", figures.against)?;
    tell_calls(rt, "reports", figures.reports)?;
    tell_calls(rt, "reports of a set", figures.sets)?;
    tell_calls(rt, "reads from nothing", figures.whole)?;
    println!(rt; "{candidates} candidates, {before} possible before the reports, {after} after")
}

// Writes to standard error how many calls of a kind there were, and their time.
fn tell_calls(rt: &HostRuntime, kind: &str, calls: Calls) -> io::Result<()> {
    let count = calls.count;
    let nanos = calls.took.as_nanos();
    eprintln!(rt; "{kind}: {count} in {nanos} ns")
}
