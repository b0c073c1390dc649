// What a test may answer, by the definition: all sets of atoms of a small program are tried.
ghost use Rattle.std.specs.Prelude.{◌<◌};

use clause_store::{Clause, Lit};
use coherence_test::{Asked, Core};
use ground_program::{Program, Set, Sets};
use item_list::NoMemory;
use normal_program::Normal;
use plain_answer_sets::is_answer_set;
use std::alloc::Global;
use trial_inputs::{extension, has_true, is_true, set_of};

/// The extensions of all answer sets of a program.
pub fn all_answers(alloc: Global, program: &Program, normal: &Normal) -> Result<Sets, NoMemory>
    requires { program.now.atoms < 16 }
{
    let mut answers = Sets::open();
    for bits in 0..65536u32 {
        if bits >> program.atoms != 0 {
            break;
        }
        let set = set_of(alloc, program.atoms, bits)?;
        put_answer(alloc, program, normal, &set, &mut answers)?;
    }
    Ok(answers)
}

/// Puts the extension of a set last, where it is an answer set.
fn put_answer(
    alloc: Global,
    program: &Program,
    normal: &Normal,
    set: &Set,
    answers: &mut Sets,
) -> Result<(), NoMemory> {
    if !is_answer_set(alloc, program, set)? {
        return Ok(());
    }
    let values = extension(alloc, normal, set.as_slice(), set.as_slice())?;
    answers.push(alloc, values)
}

/// Whether an extension meets literals and, where it is there, a disjunction.
pub fn meets(values: &[bool], lits: &[Lit], any: &Option<Clause>) -> bool {
    if !lits.iter().all(|lit| is_true(values, *lit)) {
        return false;
    }
    match any {
        None => true,
        Some(any) => has_true(values, any.as_slice()),
    }
}

/// Whether some answer set meets literals and, where it is there, a disjunction.
fn some_meets(answers: &Sets, lits: &[Lit], any: &Option<Clause>) -> bool {
    answers
        .as_slice()
        .iter()
        .any(|values| meets(values.as_slice(), lits, any))
}

/// Whether a core is a part of what was asked that no answer set meets.
pub fn is_core(answers: &Sets, asked: &Asked, core: &Core) -> bool {
    let lits = core.lits.as_slice();
    if !is_part(lits, asked.assume.as_slice()) {
        return false;
    }
    if core.any {
        asked.any.is_some() && !some_meets(answers, lits, &asked.any)
    } else {
        !some_meets(answers, lits, &None)
    }
}

/// Whether each of these literals is among others.
fn is_part(lits: &[Lit], all: &[Lit]) -> bool {
    lits.iter().all(|lit| has(all, *lit))
}

fn has(lits: &[Lit], lit: Lit) -> bool {
    lits.iter().any(|other| other.0 == lit.0)
}
