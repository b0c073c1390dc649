// The test of a job by a tester.
ghost use Rattle.std.specs.Prelude.{◌≡◌, ◌≤◌, ◌<◌, ◌+◌, None, IfOk, OnOk, false, length};
ghost use Rattle.ground_program.specs.declared.program.Mode.{Mode};
ghost use Rattle.ground_program.specs.Bounds.{IsCandidate};
ghost use Rattle.normal_program.specs.Limit.{IsNormal};
ghost use Rattle.worker_jobs.specs.Job.{IsJobOver};
ghost use Rattle.worker_strategies.specs.Disjunction.{disjunction_for};
ghost use Rattle.worker_strategies.specs.Outcome.{IsOutcome};
ghost use Rattle.worker_strategies.specs.Testing.{HasRoomFor, HasTested};

use crate::asking::ask;
use crate::chunk_test::test_chunk;
use crate::gains::nothing;
use crate::outcome::Outcome;
use crate::reduce_test::test_reduce;
use crate::telling::{coherence_told, single_told};
use clause_store::{Budget, Clause};
use coherence_test::{Asked, Tester};
use ground_program::Mode;
use item_list::NoMemory;
use normal_program::Normal;
use std::alloc::Global;
use worker_jobs::{Job, RoundEnd, test_literal};

/// Tests whether there is an answer set.
pub(crate) fn test_coherence(
    alloc: Global,
    tester: &mut Tester<'_>,
    budget: &mut Budget,
    slice: u32,
) -> Result<Outcome, NoMemory>
    requires normal { IsNormal tester.old.normal }
    requires alive { tester.old.dead ≡ false }
    requires some { 1 ≤ slice }
    requires unused { length budget.old.units < budget.old.limit }
    ensures tested { OnOk result (HasTested None tester.old tester.new budget.old budget.new) }
    ensures outcome { IfOk result (λ it. (mode : Mode) → IsOutcome tester.old.normal mode
        Job.Coherence (length budget.old.units + slice) budget.new it) }
{
    let asked = Asked {
        assume: Clause::open(),
        any: None,
    };
    let tested = ask(alloc, tester, &asked, budget, slice)?;
    let outcome = coherence_told(alloc, tested)?;
    Ok(outcome)
}

/// Tests whether some answer set shows the candidate.
pub(crate) fn test_single(
    alloc: Global,
    tester: &mut Tester<'_>,
    normal: &Normal,
    mode: Mode,
    cand: u32,
    budget: &mut Budget,
    slice: u32,
) -> Result<Outcome, NoMemory>
    requires normal { IsNormal normal.now }
    requires candidate { IsCandidate normal.now.names cand }
    requires same { tester.old.normal ≡ normal.now }
    requires alive { tester.old.dead ≡ false }
    requires some { 1 ≤ slice }
    requires unused { length budget.old.units < budget.old.limit }
    ensures tested { OnOk result (HasTested None tester.old tester.new budget.old budget.new) }
    ensures outcome { IfOk result (IsOutcome normal.now mode (Job.Single cand)
        (length budget.old.units + slice) budget.new) }
{
    let mut assume = Clause::open();
    assume.push(alloc, test_literal(normal, mode, cand))?;
    let asked = Asked { assume, any: None };
    let tested = ask(alloc, tester, &asked, budget, slice)?;
    let outcome = single_told(alloc, cand, tested)?;
    Ok(outcome)
}

/// Tests what the job asks.
pub(crate) fn test_job(
    alloc: Global,
    tester: &mut Tester<'_>,
    normal: &Normal,
    mode: Mode,
    job: &Job,
    budget: &mut Budget,
    slice: u32,
) -> Result<Outcome, NoMemory>
    requires normal { IsNormal normal.now }
    requires job { IsJobOver normal.now.names job.now }
    requires same { tester.old.normal ≡ normal.now }
    requires alive { tester.old.dead ≡ false }
    requires room { HasRoomFor tester.old (disjunction_for normal.now.names mode job.now) }
    requires some { 1 ≤ slice }
    requires unused { length budget.old.units < budget.old.limit }
    ensures tested { OnOk result (HasTested (disjunction_for normal.now.names mode job.now)
        tester.old tester.new budget.old budget.new) }
    ensures outcome { IfOk result (IsOutcome normal.now mode job.now
        (length budget.old.units + slice) budget.new) }
{
    match job {
        Job::Idle => Ok(Outcome::Answered(nothing(RoundEnd::Done))),
        Job::Coherence => test_coherence(alloc, tester, budget, slice),
        Job::Single(cand) => test_single(alloc, tester, normal, mode, *cand, budget, slice),
        Job::Reduce(cands) => test_reduce(alloc, tester, normal, mode, cands, budget, slice),
        Job::Chunk(cands) => test_chunk(alloc, tester, normal, mode, cands, budget, slice),
    }
}
