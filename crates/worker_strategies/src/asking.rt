// One question to a tester.
ghost use Rattle.std.specs.Prelude.{◌≡◌, ◌≤◌, ◌<◌, ◌+◌, IfOk, OnOk, false, length};
ghost use Rattle.coherence_test.specs.Asked.{IsTested, IsTestedAt};
ghost use Rattle.coherence_test.specs.Testing.{MayAsk};
ghost use Rattle.worker_strategies.specs.Testing.{HasTested};

use clause_store::Budget;
use coherence_test::{Asked, Tested, Tester};
use item_list::NoMemory;
use std::alloc::Global;

/// Asks a living tester. An error says that there was no memory.
pub(crate) fn ask(
    alloc: Global,
    tester: &mut Tester<'_>,
    asked: &Asked,
    budget: &mut Budget,
    slice: u32,
) -> Result<Tested, NoMemory>
    requires alive { tester.old.dead ≡ false }
    requires may { MayAsk tester.old.normal tester.old.disjunctions asked.now }
    requires some { 1 ≤ slice }
    requires unused { length budget.old.units < budget.old.limit }
    ensures answer { IfOk result (IsTested tester.old.normal asked.now) }
    ensures at { IfOk result (IsTestedAt (length budget.old.units + slice) budget.new) }
    ensures tested { OnOk result
        (HasTested asked.now.any tester.old tester.new budget.old budget.new) }
{
    match tester.test(alloc, asked, budget, slice) {
        Tested::NoMemory => Err(NoMemory),
        tested => Ok(tested),
    }
}
