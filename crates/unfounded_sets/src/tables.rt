// Sets of a fixed number of places.
ghost use Rattle.std.specs.Prelude.{length, IfOk};
ghost use Rattle.unfounded_sets.specs.Rounds.{IsEmpty};

use ground_program::Set;
use item_list::{List, NoMemory};
use std::alloc::Global;

/// A set of so many places, all false.
pub fn empty_set(alloc: Global, places: usize) -> Result<Set, NoMemory>
    ensures { IfOk result (IsEmpty places) }
{
    let mut set = List::open();
    for _place in 0..places {
        set.push(alloc, false)?;
    }
    Ok(set)
}

/// Makes all places false.
pub fn clear(set: &mut Set)
    ensures { IsEmpty (length set.old) set.new }
{
    for place in 0..set.len() {
        set.set(place, false);
    }
}
