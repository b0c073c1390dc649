// Makes a set of clauses by number, searches for an assignment that meets it, and writes what it
// found, and to standard error how many clauses it learned: what bench/ measures.
#![tactic(auto)]

mod families;
mod problem;
mod silent;

use families::{Family, problem_of};
use item_list::NoMemory;
use problem::{End, Outcome};
use std::alloc::Global;
use std::process::ExitCode;
use std::{env, io};

/// How many clauses may be counted.
const LIMIT: u32 = 1 << 24;

/// What is to be solved.
#[derive(Debug, Drop)]
struct Task {
    family: Family,
    numbers: [u32; 3],
}

fn main(rt: HostRuntime) -> ExitCode {
    let Ok(task) = task_of(&rt) else {
        return ExitCode::from(7);
    };
    let Ok(outcome) = solve(rt.alloc(), &task) else {
        return ExitCode::from(7);
    };
    match tell(&rt, &outcome) {
        Ok(()) => ExitCode::from(0),
        Err(_) => ExitCode::from(6),
    }
}

/// The family that the first word names, and the numbers after it. Without words it is small.
fn task_of(rt: &HostRuntime) -> io::Result<Task> {
    let mut task = Task {
        family: Family::Pigeons,
        numbers: [4, 426, 1],
    };
    let mut at = 0;
    for word in env::args(rt)?.skip(1) {
        if let Some(family) = family_of(word.as_str()) {
            task.family = family;
        } else if at < 3 {
            task.numbers[at] = word.as_str().parse::<u32>().unwrap_or(0);
            at += 1;
        }
    }
    Ok(task)
}

/// The family that a word names.
fn family_of(word: &str) -> Option<Family> {
    if word == "random" {
        return Some(Family::Random);
    }
    if word == "pigeons" {
        return Some(Family::Pigeons);
    }
    if word == "chains" {
        return Some(Family::Chains);
    }
    None
}

/// What a search for the task finds.
fn solve(alloc: Global, task: &Task) -> Result<Outcome, NoMemory> {
    let problem = problem_of(alloc, task.family, task.numbers)?;
    problem.solve(alloc, LIMIT)
}

/// Writes how the search ended, and how many clauses it learned.
fn tell(rt: &HostRuntime, outcome: &Outcome) -> io::Result<()> {
    let counted = outcome.counted;
    eprintln!(rt; "{counted} counted")?;
    match outcome.end {
        End::Met => println!(rt; "met"),
        End::Unmet => println!(rt; "unmet"),
        End::Spent => println!(rt; "spent"),
    }
}
