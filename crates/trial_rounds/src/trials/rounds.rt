// A fact in three rounds' worth of calls: what is asked, gained and told.
ghost use Rattle.std.specs.Prelude.{◌≡◌, ◌≤◌, length};
ghost use Rattle.normal_program.specs.Limit.{IsNormal};

use crate::trials::desk::{Desk, Wanted};
use item_list::NoMemory;
use master_record::Verdict;
use normal_program::Normal;
use report::Line;
use std::alloc::Global;
use std::test::Fail;
use trial_inputs::normal_of;
use worker_jobs::Job;

// Atom 2 is a fact, and the one candidate.
static FACT: &[u8] = b"1 2 0 0\n0\n2 a\n0\nB+\n0\nB-\n1\n0\n1\n";

const FACT_SET: &[bool] = &[false, false, true];

static A_SET: Wanted = Wanted {
    sets: &[FACT_SET],
    proved: &[],
    coherent: true,
};

static A_PROOF: Wanted = Wanted {
    sets: &[],
    proved: &[1],
    coherent: false,
};

/// Does the round of coherence, and says whether its line is the answer set.
fn first_round(alloc: Global, desk: &mut Desk) -> Result<bool, NoMemory>
    ensures { desk.new ≡ desk.old }
{
    match desk.round(alloc, &Job::Coherence, &A_SET)? {
        Some(lines) => Ok(is_answer(lines.as_slice(), FACT_SET)),
        None => Ok(false),
    }
}

/// Does the round of the candidate, and says whether its line settles it.
fn second_round(alloc: Global, desk: &mut Desk) -> Result<bool, NoMemory>
    requires { 1 ≤ length desk.old.names }
    ensures { desk.new ≡ desk.old }
{
    match desk.round(alloc, &Job::Single(1), &A_PROOF)? {
        Some(lines) => Ok(is_settled_in(lines.as_slice(), 1)),
        None => Ok(false),
    }
}

fn is_answer(lines: &[Line], wanted: &[bool]) -> bool {
    match lines {
        [Line::Answer { number, set }] => *number == 1 && set.as_slice() == wanted,
        _ => false,
    }
}

/// The one line is an IN line of the candidate that names no answer set.
fn is_settled_in(lines: &[Line], wanted: u32) -> bool {
    match lines {
        [Line::SettledIn { cand, by }] => *cand == wanted && *by == 0,
        _ => false,
    }
}

fn has_jobs(alloc: Global, desk: &mut Desk, job: &Job) -> Result<bool, NoMemory>
    ensures { desk.new ≡ desk.old }
{
    let jobs = desk.jobs(alloc)?;
    match jobs.as_slice() {
        [only] => Ok(only == job),
        _ => Ok(false),
    }
}

/// Coherence is asked first, and nothing is known.
fn begins(alloc: Global, normal: &Normal) -> Result<bool, NoMemory>
    requires { IsNormal normal.now }
{
    let mut desk = Desk::open(alloc, normal)?;
    asks_for_coherence(alloc, &mut desk)
}

fn asks_for_coherence(alloc: Global, desk: &mut Desk) -> Result<bool, NoMemory> {
    let new = desk.counts(0, 0, 1) && desk.verdict() == Verdict::Running;
    let asked = has_jobs(alloc, desk, &Job::Coherence)?;
    Ok(new && asked)
}

/// The answer set is told, and the candidate is asked next.
fn goes_on(alloc: Global, normal: &Normal) -> Result<bool, NoMemory>
    requires { IsNormal normal.now }
{
    let mut desk = Desk::open(alloc, normal)?;
    asks_after_coherence(alloc, &mut desk)
}

fn asks_after_coherence(alloc: Global, desk: &mut Desk) -> Result<bool, NoMemory> {
    let told = first_round(alloc, desk)?;
    let open = is_open(alloc, desk)?;
    let asked = has_jobs(alloc, desk, &Job::Single(1))?;
    Ok(told && open && asked)
}

/// The one candidate is open, and an answer set is known.
fn is_open(alloc: Global, desk: &Desk) -> Result<bool, NoMemory> {
    let open = desk.open_candidates(alloc)?;
    Ok(open.as_slice() == [1].as_slice() && desk.counts(1, 0, 1))
}

/// The candidate is proved, and with it the run complete.
fn ends(alloc: Global, desk: &mut Desk) -> Result<bool, NoMemory>
    requires { 1 ≤ length desk.old.names }
    ensures { desk.new ≡ desk.old }
{
    let told = first_round(alloc, desk)?;
    let proved = second_round(alloc, desk)?;
    Ok(told && proved && is_complete(desk))
}

fn is_complete(desk: &Desk) -> bool {
    let pair = desk.pair();
    desk.verdict() == Verdict::Complete
        && desk.counts(1, 1, 1)
        && pair.lower.as_slice() == [true].as_slice()
        && pair.upper.as_slice() == [true].as_slice()
}

fn one_run_ends(alloc: Global, normal: &Normal) -> Result<bool, NoMemory>
    requires normal { IsNormal normal.now }
    requires some { 1 ≤ length normal.now.names }
{
    let mut desk = Desk::open(alloc, normal)?;
    ends(alloc, &mut desk)
}

/// A record to which another tells what it proved is complete too.
fn ends_by_another(alloc: Global, normal: &Normal) -> Result<bool, NoMemory>
    requires normal { IsNormal normal.now }
    requires some { 1 ≤ length normal.now.names }
{
    let mut desk = Desk::open(alloc, normal)?;
    is_told_by_another(alloc, normal, &mut desk)
}

fn is_told_by_another(alloc: Global, normal: &Normal, desk: &mut Desk) -> Result<bool, NoMemory>
    requires normal { IsNormal normal.now }
    requires some { 1 ≤ length normal.now.names }
    requires same { desk.old ≡ normal.now }
{
    let mut other = Desk::open(alloc, normal)?;
    is_told(alloc, desk, &mut other)
}

fn is_told(alloc: Global, desk: &mut Desk, other: &mut Desk) -> Result<bool, NoMemory>
    requires same { other.old ≡ desk.old }
    requires some { 1 ≤ length other.old.names }
{
    let began = first_round(alloc, desk)?;
    let ended = ends(alloc, other)?;
    let lines = desk.take_from(alloc, other)?;
    Ok(began && ended && is_settled_in(lines.as_slice(), 1) && is_complete(desk))
}

/// All of it, for the normal form of the fact.
fn goes_as_worked_out(alloc: Global, normal: &Normal) -> Result<bool, NoMemory>
    requires { IsNormal normal.now }
{
    if normal.names.len() != 1 {
        return Ok(false);
    }
    let begun = begins(alloc, normal)? && goes_on(alloc, normal)?;
    Ok(begun && one_run_ends(alloc, normal)? && ends_by_another(alloc, normal)?)
}

fn is_as_worked_out(alloc: Global) -> Result<bool, NoMemory> {
    match normal_of(alloc, FACT) {
        Some(normal) => goes_as_worked_out(alloc, &normal),
        None => Ok(false),
    }
}

#[test]
fn a_fact_is_asked_for_and_proved(rt: HostRuntime) -> Result<(), Fail> {
    assert!(rt; is_as_worked_out(rt.alloc())?);
    Ok(())
}
