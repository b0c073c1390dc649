// The test of many candidates at once.
ghost use Rattle.std.specs.Prelude.{◌≡◌, ◌≤◌, ◌<◌, ◌+◌, IfOk, None, OnOk, false, length};
ghost use Rattle.coherence_test.specs.Asked.{IsCoreFor};
ghost use Rattle.normal_program.specs.Limit.{IsNormal};
ghost use Rattle.worker_jobs.specs.Job.{AreCandidates};
ghost use Rattle.worker_strategies.specs.Chunks.{IsHalfOf, IsStep, IsStepOf, StepsTo};
ghost use Rattle.worker_strategies.specs.Chunks.{named_by};
ghost use Rattle.worker_strategies.specs.Disjunction.{asked_for};
ghost use Rattle.worker_strategies.specs.Literals.{named_of};
ghost use Rattle.worker_strategies.specs.Outcome.{IsOutcome};
ghost use Rattle.worker_strategies.specs.Testing.{HasTested};

use crate::asking::ask;
use crate::chunks::Step;
use crate::gains::{incoherent, proved, shown};
use crate::literals::{named_in, same_literal, test_literals};
use crate::outcome::Outcome;
use clause_store::Budget;
use coherence_test::{Asked, Core, Tested, Tester};
use ground_program::{Atoms, Mode};
use item_list::NoMemory;
use normal_program::Normal;
use std::alloc::Global;
use worker_jobs::Job;

/// What an answer of a tester says of candidates whose test literals were all assumed. An error
/// says that there was no memory, in the tester or here.
pub fn chunk_told(
    alloc: Global,
    normal: &Normal,
    mode: Mode,
    cands: &Atoms,
    tested: Tested,
) -> Result<Step, NoMemory>
    requires normal { IsNormal normal.now }
    requires candidates { AreCandidates normal.now.names cands.now }
    ensures step { IfOk result (StepsTo normal.now mode cands.now tested) }
    ensures half { IfOk result (IsHalfOf (named_by normal.now.names mode cands.now tested)) }
{
    match tested {
        Tested::Found(set) => {
            let gain = shown(alloc, set)?;
            Ok(Step::Ended(Outcome::Answered(gain)))
        }
        Tested::Core(core) => chunk_refuted(alloc, normal, mode, cands, &core),
        Tested::Paused => Ok(Step::Ended(Outcome::Paused)),
        Tested::Spent => Ok(Step::Ended(Outcome::Spent)),
        Tested::SpentInside { set, units } => {
            Ok(Step::Ended(Outcome::SpentInside { set, units }))
        }
        Tested::NoMemory => Err(NoMemory),
    }
}

/// What a core says of the candidates: with the literals of several of them the first half of
/// these, rounded up, is to be tested next. With one literal the candidates that have it are
/// proved, and without any there is no answer set.
fn chunk_refuted(
    alloc: Global,
    normal: &Normal,
    mode: Mode,
    cands: &Atoms,
    core: &Core,
) -> Result<Step, NoMemory>
    requires normal { IsNormal normal.now }
    requires candidates { AreCandidates normal.now.names cands.now }
    ensures step { IfOk result (λ it.
        IsCoreFor normal.now (asked_for normal.now.names mode (Job.Chunk cands.now)) core.now
        → IsStepOf normal.now mode cands.now it) }
    ensures half { IfOk result
        (IsHalfOf (named_of normal.now.names mode core.now.lits cands.now)) }
{
    let named = named_in(alloc, normal, mode, core.lits.as_slice(), cands.as_slice())?;
    match named.as_slice() {
        [] => Ok(Step::Ended(Outcome::Answered(incoherent()))),
        [one] => {
            let same = same_literal(alloc, normal, mode, *one, cands.as_slice())?;
            Ok(Step::Ended(Outcome::Answered(proved(same))))
        }
        several => {
            let half = several.len() - several.len() / 2;
            let part = Atoms::from_slice(alloc, &several[..half])?;
            Ok(Step::Half(part))
        }
    }
}

/// Looks for an answer set that shows all candidates, and for fewer of them where there is none:
/// each test of a part counts for the same budget and slice. An error says that there was no
/// memory.
pub(crate) fn test_chunk(
    alloc: Global,
    tester: &mut Tester<'_>,
    normal: &Normal,
    mode: Mode,
    cands: &Atoms,
    budget: &mut Budget,
    slice: u32,
) -> Result<Outcome, NoMemory>
    requires normal { IsNormal normal.now }
    requires candidates { AreCandidates normal.now.names cands.now }
    requires same { tester.old.normal ≡ normal.now }
    requires alive { tester.old.dead ≡ false }
    requires some { 1 ≤ slice }
    requires unused { length budget.old.units < budget.old.limit }
    ensures tested { OnOk result (HasTested None tester.old tester.new budget.old budget.new) }
    ensures outcome { IfOk result (IsOutcome normal.now mode (Job.Chunk cands.now)
        (length budget.old.units + slice) budget.new) }
{
    let before = budget.used();
    let mut part = cands.copy(alloc)?;
    'parts: loop {
        let left = slice - (budget.used() - before);
        match try_chunk(alloc, tester, normal, mode, &part, budget, left)? {
            Step::Ended(outcome) => return Ok(outcome),
            Step::Half(half) => part = half,
        }
    }
}

/// Tests all candidates at once.
fn try_chunk(
    alloc: Global,
    tester: &mut Tester<'_>,
    normal: &Normal,
    mode: Mode,
    cands: &Atoms,
    budget: &mut Budget,
    slice: u32,
) -> Result<Step, NoMemory>
    requires normal { IsNormal normal.now }
    requires candidates { AreCandidates normal.now.names cands.now }
    requires same { tester.old.normal ≡ normal.now }
    requires alive { tester.old.dead ≡ false }
    requires some { 1 ≤ slice }
    requires unused { length budget.old.units < budget.old.limit }
    ensures tested { OnOk result (HasTested None tester.old tester.new budget.old budget.new) }
    ensures step { IfOk result
        (IsStep normal.now mode cands.now (length budget.old.units + slice) budget.new) }
{
    let assume = test_literals(alloc, normal, mode, cands.as_slice())?;
    let asked = Asked { assume, any: None };
    let tested = ask(alloc, tester, &asked, budget, slice)?;
    chunk_told(alloc, normal, mode, cands, tested)
}
