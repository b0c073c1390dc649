// What is true of a program, by slow checks: which sets are answer sets, and which candidates are
// consequences.
ghost use Rattle.std.specs.Prelude.{◌≡◌, IfOk, IsTrue, length};
ghost use Rattle.ground_program.specs.Bounds.{IsCandidate, atom_of};
ghost use Rattle.normal_program.specs.Normal.{IsAnswerSetN, IsNormalFormOf};
ghost use Rattle.anytime_core.specs.Truth.{IsConsequenceN};

use clause_store::{Clause, Lit, Units};
use ground_program::{Mode, Program, Set, has_atom};
use item_list::NoMemory;
use normal_program::{Normal, normal_form_means_the_program};
use plain_answer_sets::is_answer_set;
use plain_entailment::is_entailed;
use std::alloc::Global;

/// Whether a set is an answer set.
pub fn is_answer(
    alloc: Global,
    program: &Program,
    normal: &Normal,
    set: &Set,
) -> Result<bool, NoMemory>
    requires { IsNormalFormOf normal.now program.now }
    ensures { IfOk result (λ yes. IsTrue yes → IsAnswerSetN normal.now set.now) }
{
    let _ = normal;
    normal_form_means_the_program();
    let answer = is_answer_set(alloc, program, set)?;
    Ok(answer)
}

/// The atom of a candidate.
fn atom_of(normal: &Normal, cand: u32) -> u32
    requires { IsCandidate normal.now.names cand }
    ensures { result ≡ atom_of normal.now.names cand }
{
    normal.names.get(cand as usize - 1).atom
}

/// Whether a candidate is in every answer set. The time doubles with each atom.
pub fn is_in_every(
    alloc: Global,
    program: &Program,
    normal: &Normal,
    cand: u32,
) -> Result<bool, NoMemory>
    requires form { IsNormalFormOf normal.now program.now }
    requires cand { IsCandidate normal.now.names cand }
    ensures { IfOk result (λ yes. IsTrue yes → IsConsequenceN normal.now Mode.Cautious cand) }
{
    let atom = atom_of(normal, cand);
    if atom > normal.atoms {
        return Ok(false);
    }
    if atom > 1000 {
        return Ok(false);
    }
    let clause = Clause::from_slice(alloc, &[Lit(2 * atom)])?;
    let none = Units::open();
    let entailed = is_entailed(alloc, program, normal, &none, &clause)?;
    Ok(entailed)
}

/// Whether a set is an answer set without a candidate.
pub fn is_answer_without(
    alloc: Global,
    program: &Program,
    normal: &Normal,
    set: &Set,
    cand: u32,
) -> Result<bool, NoMemory>
    requires form { IsNormalFormOf normal.now program.now }
    requires cand { IsCandidate normal.now.names cand }
    ensures { IfOk result (λ yes. IsTrue yes → ¬ IsConsequenceN normal.now Mode.Cautious cand) }
{
    if has_atom(set.as_slice(), atom_of(normal, cand)) {
        return Ok(false);
    }
    let answer = is_answer(alloc, program, normal, set)?;
    Ok(answer)
}
