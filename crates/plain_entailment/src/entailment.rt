// Goes over the sets of atoms, and asks of each answer set whether the clause holds.
ghost use Rattle.std.specs.Prelude.{◌≤◌, ◌+◌, ◌↔◌, length, IsTrue, IfOk};
ghost use Rattle.normal_program.specs.Normal.{IsNormalFormOf, SameAnswerSets};
ghost use Rattle.normal_program.specs.Clauses.{IsEntailed};
ghost use Rattle.plain_entailment.specs.Search.{HoldsForSet, HoldsFrom};

use crate::choices::holds_with_choices;
use crate::truth::{extended, longer};
use clause_store::{Clause, Lit, Units};
use ground_program::{Program, Set};
use item_list::NoMemory;
use normal_program::{Normal, normal_form_means_the_program};
use plain_answer_sets::is_answer_set;
use std::alloc::Global;

/// Whether the clause holds in each answer set of the program, with each choice of the selectors
/// that have these disjunctions. The time doubles with each atom and each selector.
pub fn is_entailed(
    alloc: Global,
    program: &Program,
    normal: &Normal,
    disjunctions: &Units,
    clause: &Clause,
) -> Result<bool, NoMemory>
    requires { IsNormalFormOf normal.now program.now }
    ensures { IfOk result (λ yes. IsTrue yes ↔ IsEntailed normal.now disjunctions.now clause.now) }
{
    normal_form_means_the_program();
    let start = Set::open();
    holds_from(
        alloc,
        program,
        normal,
        disjunctions.as_slice(),
        clause.as_slice(),
        &start,
    )
}

/// Whether the clause holds for each set over the atoms that begins with these values.
fn holds_from(
    alloc: Global,
    program: &Program,
    normal: &Normal,
    disjunctions: &[Clause],
    clause: &[Lit],
    start: &Set,
) -> Result<bool, NoMemory>
    requires same { SameAnswerSets normal.now program.now }
    requires short { length start.now ≤ normal.now.atoms + 1 }
    ensures { IfOk result
        (λ yes. IsTrue yes ↔ HoldsFrom normal.now disjunctions.now clause.now start.now) }
{
    if start.len() as u64 == u64::from(normal.atoms) + 1 {
        return holds_for(alloc, program, normal, disjunctions, clause, start);
    }
    let without = longer(alloc, start, false)?;
    if !holds_from(alloc, program, normal, disjunctions, clause, &without)? {
        return Ok(false);
    }
    let with = longer(alloc, start, true)?;
    holds_from(alloc, program, normal, disjunctions, clause, &with)
}

/// Whether the set is no answer set, or the clause holds in it with each choice of the selectors.
fn holds_for(
    alloc: Global,
    program: &Program,
    normal: &Normal,
    disjunctions: &[Clause],
    clause: &[Lit],
    set: &Set,
) -> Result<bool, NoMemory>
    requires { SameAnswerSets normal.now program.now }
    ensures { IfOk result
        (λ yes. IsTrue yes ↔ HoldsForSet normal.now disjunctions.now clause.now set.now) }
{
    if !is_answer_set(alloc, program, set)? {
        return Ok(true);
    }
    let values = extended(alloc, normal, set)?;
    holds_with_choices(alloc, &values, disjunctions, clause, &values)
}
