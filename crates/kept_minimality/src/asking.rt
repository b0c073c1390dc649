// An engine for the pairs of a normal form, and how its answers are read.
ghost use Rattle.std.specs.Prelude.{◌≡◌, ◌≤◌, ◌*◌, IfNone, IfOk, IfSome};
ghost use Rattle.normal_program.specs.Limit.{IsNormal};
ghost use Rattle.minimality_test.specs.Search.{MayCome};
ghost use Rattle.kept_minimality.specs.Asking.{read_as};
ghost use Rattle.kept_minimality.specs.Kept.{IsPairForm, IsTooLarge, IsOpened};

use crate::part::part_on;
use crate::theory::PairTheory;
use assumption_engine::{Answer, Engine};
use clause_store::{Store, Trail};
use completion::complete;
use item_list::NoMemory;
use minimality_test::Minimality;
use normal_program::{Normal, base_clauses_are_entailed, base_clauses_are_over_atoms_and_bodies};
use pair_program::{PairError, pairs_of};
use rule_normaliser::{NormalError, normalise};
use std::alloc::Global;

/// The normal form of the pair program. There is none only where that is too large.
pub(crate) fn pair_form(alloc: Global, normal: &Normal) -> Result<Option<Normal>, NoMemory>
    requires { IsNormal normal.now }
    ensures form { IfOk result (λ it. IfSome it (IsPairForm normal.now)) }
    ensures none { IfOk result (λ it. IfNone it (IsTooLarge normal.now)) }
{
    let program = match pairs_of(alloc, normal) {
        Ok(program) => program,
        Err(PairError::TooLarge) => return Ok(None),
        Err(PairError::NoMemory) => return Err(NoMemory),
    };
    match normalise(alloc, &program) {
        Ok(pair) => Ok(Some(pair)),
        Err(NormalError::TooManyVariables(_)) => Ok(None),
        Err(NormalError::NoMemory) => Err(NoMemory),
    }
}

/// An engine whose models are the pairs.
pub(crate) fn open_engine(
    alloc: Global,
    normal: &Normal,
    pair: Normal,
) -> Result<Engine<PairTheory>, NoMemory>
    requires { IsPairForm normal.now pair }
    ensures { IfOk result (IsOpened normal.now pair) }
{
    let _ = normal;
    base_clauses_are_over_atoms_and_bodies();
    base_clauses_are_entailed();
    let mut store = Store::open();
    complete(alloc, &pair, &mut store)?;
    let vars = pair.greatest_body_var();
    let theory = PairTheory::open(alloc, pair)?;
    let engine = Engine::open(alloc, vars, store, theory)?;
    Ok(engine)
}

/// What the engine's answer says of a set over so many atoms. It isn't paused before its budget is
/// used up, and its theory has no check of its own that could be.
pub(crate) fn read_answer(
    alloc: Global,
    trail: &Trail,
    atoms: u32,
    answer: Answer,
) -> Result<Minimality, NoMemory>
    requires over { answer ≡ Answer.Model → 2 * atoms ≤ trail.now.vars }
    requires comes { MayCome answer }
    ensures { IfOk result (λ it. it ≡ read_as atoms trail.now answer) }
{
    match answer {
        Answer::Model => Ok(Minimality::Smaller(part_on(alloc, trail, atoms)?)),
        Answer::Core(_) => Ok(Minimality::Minimal),
        Answer::Spent => Ok(Minimality::Spent),
        Answer::NoMemory => Ok(Minimality::NoMemory),
        Answer::SpentInside { .. } | Answer::Paused => unreachable!(),
    }
}
