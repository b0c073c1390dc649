// The parts of the definition of an answer set, one function each.
ghost use Rattle.std.specs.Prelude.{◌≡◌, ◌↔◌, IsTrue, IfOk};
ghost use Rattle.ground_program.specs.Meaning.{IsSetOver};
ghost use Rattle.ground_program.specs.Meaning.{IsAnswerSet};
ghost use Rattle.plain_answer_sets.specs.Candidates.{IsReductModel};

use crate::subsets::{keeps_all, some_smaller_keeps};
use ground_program::{Program, Set, has_atom, meets_compute};
use item_list::NoMemory;
use std::alloc::Global;

/// Whether the set is an answer set of the program. The time doubles with each atom of the set.
pub fn is_answer_set(alloc: Global, program: &Program, set: &Set) -> Result<bool, NoMemory>
    ensures { IfOk result (λ yes. IsTrue yes ↔ IsAnswerSet program.now set.now) }
{
    if !is_reduct_model(program, set) {
        return Ok(false);
    }
    let mut trial = set.copy(alloc)?;
    let smaller = some_smaller_keeps(program.rules.as_slice(), set, &mut trial, 0);
    Ok(!smaller)
}

/// Whether the set is all that an answer set is, but for being least.
fn is_reduct_model(program: &Program, set: &Set) -> bool
    ensures { IsTrue result ↔ IsReductModel program.now set.now }
{
    is_over(program.atoms, set.as_slice())
        && meets_compute(program, set)
        && keeps_all(program.rules.as_slice(), set, set)
}

/// Whether the set has a place for each atom up to `atoms`, and for position 0, which is false.
fn is_over(atoms: u32, set: &[bool]) -> bool
    ensures { IsTrue result ↔ IsSetOver atoms set.now }
{
    set.len() as u64 == atoms as u64 + 1 && !has_atom(set, 0)
}
