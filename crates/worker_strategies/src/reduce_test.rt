// The test of the disjunction of candidates.
ghost use Rattle.std.specs.Prelude.{◌≡◌, ◌≤◌, ◌<◌, ◌+◌, IfOk, OnOk, Some, false, length};
ghost use Rattle.normal_program.specs.Limit.{IsNormal};
ghost use Rattle.worker_jobs.specs.Job.{AreCandidates};
ghost use Rattle.worker_strategies.specs.Disjunction.{disjunction_of};
ghost use Rattle.worker_strategies.specs.Outcome.{IsOutcome};
ghost use Rattle.worker_strategies.specs.Testing.{HasRoomFor, HasTested};

use crate::asking::ask;
use crate::disjunctions::disjunction;
use crate::outcome::Outcome;
use crate::telling::reduce_told;
use clause_store::{Budget, Clause};
use coherence_test::{Asked, Tester};
use ground_program::{Atoms, Mode};
use item_list::NoMemory;
use normal_program::Normal;
use std::alloc::Global;
use worker_jobs::Job;

/// Looks for an answer set that shows one of the candidates. An error says that there was no
/// memory.
pub(crate) fn test_reduce(
    alloc: Global,
    tester: &mut Tester<'_>,
    normal: &Normal,
    mode: Mode,
    cands: &Atoms,
    budget: &mut Budget,
    slice: u32,
) -> Result<Outcome, NoMemory>
    requires normal { IsNormal normal.now }
    requires candidates { AreCandidates normal.now.names cands.now }
    requires same { tester.old.normal ≡ normal.now }
    requires alive { tester.old.dead ≡ false }
    requires room { HasRoomFor tester.old
        (Some (disjunction_of normal.now.names mode cands.now)) }
    requires some { 1 ≤ slice }
    requires unused { length budget.old.units < budget.old.limit }
    ensures tested { OnOk result (HasTested (Some (disjunction_of normal.now.names mode cands.now))
        tester.old tester.new budget.old budget.new) }
    ensures outcome { IfOk result (IsOutcome normal.now mode (Job.Reduce cands.now)
        (length budget.old.units + slice) budget.new) }
{
    let any = disjunction(alloc, normal, mode, cands.as_slice())?;
    let asked = Asked {
        assume: Clause::open(),
        any: Some(any),
    };
    let tested = ask(alloc, tester, &asked, budget, slice)?;
    reduce_told(alloc, cands, tested)
}
