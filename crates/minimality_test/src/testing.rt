// The test whether a set is minimal: a search with the clauses for its parts, over their theory.
ghost use Rattle.std.specs.Prelude.{◌≡◌, ◌≢◌, ◌≤◌, ◌<◌, ◌^◌, [], IfOk};
ghost use Rattle.ground_program.specs.Meaning.{IsSetOver};
ghost use Rattle.normal_program.specs.Limit.{IsNormal};
ghost use Rattle.normal_program.specs.Normal.{KeepsAllN};
ghost use Rattle.minimality_test.specs.Search.{IsSearch, IsSearched, MayCome, read_as};
ghost use Rattle.minimality_test.specs.Minimality.{HasAnswered, HasCountedWithin};

use crate::answer::Minimality;
use crate::part::atoms_on;
use crate::theory::PartTheory;
use assumption_engine::{Answer, Engine};
use clause_store::{Budget, Store, Trail};
use completion::complete_within;
use ground_program::Set;
use item_list::NoMemory;
use normal_program::Normal;
use std::alloc::Global;

/// Whether a proper subset of the set keeps the rules of the reduct by the set.
///
/// The set keeps them itself, and the budget is unused. It counts each clause that is learned: a
/// unit beside the clauses for the parts of the set, which unit propagation gives from these, from
/// clauses local within the set and from the units before.
pub fn smaller(alloc: Global, normal: &Normal, set: &Set, budget: &mut Budget) -> Minimality
    requires normal { IsNormal normal.now }
    requires over { IsSetOver normal.now.atoms set.now }
    requires keeps { KeepsAllN normal.now set.now set.now }
    requires unused { budget.old.units ≡ [] }
    requires some { 1 ≤ budget.old.limit }

    // Smaller gives such a subset, at Minimal there is none, and Spent comes just where as many
    // units as the limit were counted.
    ensures answer { HasAnswered normal.now set.now budget.new result }

    // What was counted, at each answer but want of memory.
    ensures counted { result ≢ Minimality.NoMemory
        → HasCountedWithin normal.now set.now budget.old budget.new }
{
    match search_parts(alloc, normal, set, budget) {
        Ok(answer) => answer,
        Err(_) => Minimality::NoMemory,
    }
}

/// Asks an engine for an assignment that comes from a smaller part.
fn search_parts(
    alloc: Global,
    normal: &Normal,
    set: &Set,
    budget: &mut Budget,
) -> Result<Minimality, NoMemory>
    requires normal { IsNormal normal.now }
    requires over { IsSetOver normal.now.atoms set.now }
    requires unused { budget.old.units ≡ [] }
    requires some { 1 ≤ budget.old.limit }
    ensures answer { IfOk result (HasAnswered normal.now set.now budget.new) }
    ensures counted { IfOk result (λ answer. answer ≢ Minimality.NoMemory
        → HasCountedWithin normal.now set.now budget.old budget.new) }
{
    let mut engine = open_engine(alloc, normal, set)?;
    let answer = ask_for_part(alloc, &mut engine, budget);
    read_answer(alloc, normal, engine.trail(), answer)
}

/// What the engine's answer says of the set. It isn't paused before its budget is used up, and its
/// theory has no check of its own that could be.
fn read_answer(
    alloc: Global,
    normal: &Normal,
    trail: &Trail,
    answer: Answer,
) -> Result<Minimality, NoMemory>
    requires few { normal.now.atoms < 2 ^ 31 }
    requires over { answer ≡ Answer.Model → normal.now.atoms ≤ trail.now.vars }
    requires comes { MayCome answer }
    ensures { IfOk result (λ it. it ≡ read_as normal.now trail.now answer) }
{
    match answer {
        Answer::Model => Ok(Minimality::Smaller(atoms_on(alloc, normal, trail)?)),
        Answer::Core(_) => Ok(Minimality::Minimal),
        Answer::Spent => Ok(Minimality::Spent),
        Answer::NoMemory => Ok(Minimality::NoMemory),
        Answer::SpentInside { .. } | Answer::Paused => unreachable!(),
    }
}

/// An engine whose models come from the smaller parts of the set.
fn open_engine<'a>(
    alloc: Global,
    normal: &'a Normal,
    set: &Set,
) -> Result<Engine<PartTheory<'a>>, NoMemory>
    requires normal { IsNormal normal.now }
    requires over { IsSetOver normal.now.atoms set.now }
    ensures theory { IfOk result (λ it. it.theory
        ≡ record { normal = normal.now; set = set.now; followed = [] }) }
    ensures search { IfOk result (λ it. IsSearch it.theory it.state it.defined it.dead) }
{
    let mut store = Store::open();
    complete_within(alloc, normal, set, &mut store)?;
    let theory = PartTheory::open(alloc, normal, set)?;
    Engine::open(alloc, normal.greatest_body_var(), store, theory)
}

/// Asks for a model, with all of an unused budget.
fn ask_for_part<'a>(
    alloc: Global,
    engine: &mut Engine<PartTheory<'a>>,
    budget: &mut Budget,
) -> Answer
    requires search { IsSearch engine.old.theory engine.old.state engine.old.defined
        engine.old.dead }
    requires unused { budget.old.units ≡ [] }
    requires some { 1 ≤ budget.old.limit }
    ensures { result ≢ Answer.NoMemory
        → IsSearched engine.old.theory engine.new.state budget.old budget.new result }
{
    let limit = budget.limit();
    engine.ask(alloc, &[], budget, limit)
}
