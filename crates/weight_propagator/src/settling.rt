// Going over the bodies that wait.
ghost use Rattle.std.specs.Prelude.{All, IfOk};
ghost use Rattle.weight_propagator.specs.Rows.{IsRow};
ghost use Rattle.weight_propagator.specs.Sums.{IsInStep};
ghost use Rattle.weight_propagator.specs.Kept.{IsSettled};

use crate::row::Row;
use crate::tally::Tally;
use clause_store::{Clause, Says, Trail};
use item_list::NoMemory;
use std::alloc::Global;

/// Looks at the bodies that wait, until one gives a clause, which is written. A body that gives
/// none waits no more.
pub fn settle(
    alloc: Global,
    rows: &[Row],
    tally: &mut Tally,
    trail: &Trail,
    out: &mut Clause,
) -> Result<Says, NoMemory>
    requires sound { All (IsRow trail.now.vars) rows.now }
    requires in_step { IsInStep rows.now trail.now.steps tally.old }
    ensures settled { IfOk result (IsSettled rows.now trail.now out.new) }
    ensures in_step { IsInStep rows.now trail.now.steps tally.new }
{
    while let Some(number) = tally.waiting.next() {
        let row = &rows[number as usize];
        let sums = tally.sums(row, number);
        if let Says::Clause = row.look(alloc, sums, trail, out)? {
            return Ok(Says::Clause);
        }
        tally.waiting.settle(number);
    }
    Ok(Says::Quiet)
}
