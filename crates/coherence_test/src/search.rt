// What a tester does until memory runs out: an engine, and the disjunctions of its selectors.
ghost use Rattle.std.specs.Prelude.{◌≡◌, ◌≢◌, ◌≤◌, ◌<◌, ◌+◌, ◌⊎◌, ◌^◌, ◌↔◌, ◌++◌, ◌∷◌, [], ℕ};
ghost use Rattle.std.specs.Prelude.{All, Contains, IfOk, IfNone, IfSome, IsTrue, OnOk, length};
ghost use Rattle.std.specs.Prelude.{slice_get, Some};
ghost use Rattle.clause_store.specs.Clause.{AreOver, HasNoVariableTwice, IsOver};
ghost use Rattle.clause_store.specs.Counted.{Counted};
ghost use Rattle.normal_program.specs.Normal.{first_selector, greatest_body_var};
ghost use Rattle.normal_program.specs.Limit.{IsNormal};
ghost use Rattle.normal_program.specs.Spent.{selector_clauses};
ghost use Rattle.assumption_engine.specs.Selector.{selector_clause};
ghost use Rattle.coherence_test.specs.Asked.{IsRefuted, IsTested, IsTestedAt};
ghost use Rattle.coherence_test.specs.Selectors.{AreUsed, IsImport};
ghost use Rattle.coherence_test.specs.Searching.{HasGiven, HasSelector, IsSelectorOf, Says};
ghost use Rattle.coherence_test.specs.Searching.{assumed_with, IsAnsweredAt};
ghost use Rattle.coherence_test.specs.Testing.{AreCountedBeside, HasAdded, HasCountedUnits};
ghost use Rattle.coherence_test.specs.Testing.{IsSound, MayAsk};
ghost use Rattle.coherence_test.specs.Testing.{selectors, used_by};

use crate::asked::{Asked, Tested};
use crate::telling::{core_of, core_of_one, false_at_zero, refuted_on, set_on};
use crate::theory::AnswerSetTheory;
use assumption_engine::{Answer, Engine};
use clause_store::{Budget, Clause, Lit, Units, Var};
use item_list::NoMemory;
use normal_program::Normal;
use std::alloc::Global;

/// A normal form, an engine for its answer sets, and what its selectors stand for.
#[derive(Drop)]
pub(crate) struct Search<'a> {
    pub(crate) normal: &'a Normal,
    pub(crate) engine: Engine<AnswerSetTheory<'a>>,
    pub(crate) disjunctions: Units,
}

impl<'a> Search<'a> {
    /// Puts a clause last that holds in every answer set.
    pub(crate) fn import(&mut self, alloc: Global, lits: &[Lit]) -> Result<(), NoMemory>
        requires normal { IsNormal self.old.normal.now }
        requires sound { IsSound self.old.normal.now self.old.engine self.old.disjunctions }
        requires import { IsImport self.old.normal.now lits.now }
        ensures sound { OnOk result
            (IsSound self.new.normal.now self.new.engine self.new.disjunctions) }
        ensures clauses { OnOk result
            (self.new.engine.state.clauses ≡ self.old.engine.state.clauses ++ lits.now ∷ []) }
        ensures disjunctions { self.new.disjunctions ≡ self.old.disjunctions }
        ensures normal { self.new.normal ≡ self.old.normal }
    {
        self.engine.add(alloc, lits)?;
        Ok(())
    }

    /// Looks for an answer set that meets what is asked.
    pub(crate) fn test(
        &mut self,
        alloc: Global,
        asked: &Asked,
        budget: &mut Budget,
        slice: u32,
    ) -> Result<Tested, NoMemory>
        requires normal { IsNormal self.old.normal.now }
        requires few { length self.old.disjunctions ≤ selectors self.old.normal.now }
        requires sound { IsSound self.old.normal.now self.old.engine self.old.disjunctions }
        requires may { MayAsk self.old.normal.now self.old.disjunctions asked.now }
        requires some { 1 ≤ slice }
        requires unused { length budget.old.units < budget.old.limit }
        ensures sound { OnOk result
            (IsSound self.new.normal.now self.new.engine self.new.disjunctions) }
        ensures few { length self.new.disjunctions ≤ selectors self.old.normal.now }
        ensures used { OnOk result
            (AreUsed self.old.disjunctions asked.now.any self.new.disjunctions) }
        ensures added { OnOk result (HasAdded self.old.normal.now self.new.disjunctions
            self.old.engine.state.clauses self.new.engine.state.clauses budget.old budget.new) }
        ensures counted { HasCountedUnits self.old.normal.now self.new.disjunctions
            self.old.engine.state.clauses (used_by asked.now.any self.new.disjunctions)
            budget.old budget.new }
        ensures beside { OnOk result (AreCountedBeside (self.old.engine.state.clauses
            ++ selector_clauses self.old.normal.now self.new.disjunctions)
            budget.old budget.new) }
        ensures answer { IfOk result (IsTested self.old.normal.now asked.now) }
        ensures at { IfOk result (IsTestedAt (length budget.old.units + slice) budget.new) }
        ensures normal { self.new.normal ≡ self.old.normal }
    {
        let selector = self.select(alloc, asked)?;
        let answer = self.ask_with(alloc, asked, selector, budget, slice);
        let tested = self.told(alloc, asked, selector, answer)?;
        Ok(tested)
    }

    /// The selector of what is asked, if it has a disjunction. One that is new gets a selector.
    fn select(&mut self, alloc: Global, asked: &Asked) -> Result<Option<Var>, NoMemory>
        requires normal { IsNormal self.old.normal.now }
        requires few { length self.old.disjunctions ≤ selectors self.old.normal.now }
        requires sound { IsSound self.old.normal.now self.old.engine self.old.disjunctions }
        requires may { MayAsk self.old.normal.now self.old.disjunctions asked.now }
        ensures sound { OnOk result
            (IsSound self.new.normal.now self.new.engine self.new.disjunctions) }
        ensures few { length self.new.disjunctions ≤ selectors self.old.normal.now }
        ensures used { OnOk result
            (AreUsed self.old.disjunctions asked.now.any self.new.disjunctions) }
        ensures selector { IfOk result
            (HasSelector self.old.normal.now self.new.disjunctions asked.now.any) }
        ensures given { OnOk result (HasGiven self.old.normal.now self.new.disjunctions
            self.old.engine.state.clauses self.new.engine.state.clauses) }
        ensures normal { self.new.normal ≡ self.old.normal }
    {
        match &asked.any {
            None => Ok(None),
            Some(any) => Ok(Some(self.selector_of(alloc, any.as_slice())?)),
        }
    }

    /// The selector of a disjunction. One that is new gets a selector.
    fn selector_of(&mut self, alloc: Global, any: &[Lit]) -> Result<Var, NoMemory>
        requires normal { IsNormal self.old.normal.now }
        requires few { length self.old.disjunctions ≤ selectors self.old.normal.now }
        requires sound { IsSound self.old.normal.now self.old.engine self.old.disjunctions }
        requires over { All (IsOver (greatest_body_var self.old.normal.now)) any.now }
        requires once { HasNoVariableTwice any.now }
        requires left { Contains self.old.disjunctions any.now
            ⊎ (length self.old.disjunctions < selectors self.old.normal.now) }
        ensures sound { OnOk result
            (IsSound self.new.normal.now self.new.engine self.new.disjunctions) }
        ensures few { length self.new.disjunctions ≤ selectors self.old.normal.now }
        ensures used { OnOk result
            (AreUsed self.old.disjunctions (Some any.now) self.new.disjunctions) }
        ensures selector { IfOk result
            (λ var. IsSelectorOf self.old.normal.now self.new.disjunctions any.now var.0) }
        ensures given { OnOk result (HasGiven self.old.normal.now self.new.disjunctions
            self.old.engine.state.clauses self.new.engine.state.clauses) }
        ensures normal { self.new.normal ≡ self.old.normal }
    {
        match place_of(self.disjunctions.as_slice(), any) {
            Some(at) => Ok(self.selector(at)),
            None => {
                let var = self.define(alloc, any)?;
                Ok(var)
            }
        }
    }

    /// The selector of the disjunction at a place.
    fn selector(&self, at: usize) -> Var
        requires normal { IsNormal self.now.normal.now }
        requires sound { IsSound self.now.normal.now self.now.engine self.now.disjunctions }
        requires few { at < selectors self.now.normal.now }
        ensures { result.0 ≡ first_selector self.now.normal.now + at }
    {
        Var(self.normal.first_selector().0 + at as u32)
    }

    /// Gives a new disjunction a selector.
    fn define(&mut self, alloc: Global, any: &[Lit]) -> Result<Var, NoMemory>
        requires normal { IsNormal self.old.normal.now }
        requires sound { IsSound self.old.normal.now self.old.engine self.old.disjunctions }
        requires over { All (IsOver (greatest_body_var self.old.normal.now)) any.now }
        requires once { HasNoVariableTwice any.now }
        requires left { length self.old.disjunctions < selectors self.old.normal.now }
        ensures sound { OnOk result
            (IsSound self.new.normal.now self.new.engine self.new.disjunctions) }
        ensures few { length self.new.disjunctions ≤ length self.old.disjunctions + 1 }
        ensures used { OnOk result
            (self.new.disjunctions ≡ self.old.disjunctions ++ any.now ∷ []) }
        ensures selector { IfOk result (λ var. var.0
            ≡ first_selector self.old.normal.now + length self.old.disjunctions) }
        ensures clauses { IfOk result (λ var. self.new.engine.state.clauses
            ≡ self.old.engine.state.clauses ++ selector_clause var.0 any.now ∷ []) }
        ensures normal { self.new.normal ≡ self.old.normal }
    {
        let var = self.selector(self.disjunctions.len());
        let copy = Clause::from_slice(alloc, any)?;
        self.disjunctions.push(alloc, copy)?;
        self.engine.define(alloc, var, any)?;
        Ok(var)
    }

    /// Asks for an answer set that makes the assumed literals true, and the selector. A literal
    /// that is false by the assignments of level 0 is a core, and the engine isn't asked.
    fn ask_with(
        &mut self,
        alloc: Global,
        asked: &Asked,
        selector: Option<Var>,
        budget: &mut Budget,
        slice: u32,
    ) -> Answer
        requires normal { IsNormal self.old.normal.now }
        requires sound { IsSound self.old.normal.now self.old.engine self.old.disjunctions }
        requires few { length self.old.disjunctions ≤ selectors self.old.normal.now }
        requires fits { IfSome selector (λ var. var.0 < 2 ^ 31) }
        requires over { All (IsOver (greatest_body_var self.old.normal.now
            + length self.old.disjunctions)) (assumed_with asked.now.assume selector) }
        requires some { 1 ≤ slice }
        requires unused { length budget.old.units < budget.old.limit }
        ensures sound { result ≢ Answer.NoMemory
            → IsSound self.new.normal.now self.new.engine self.new.disjunctions }
        ensures added { result ≢ Answer.NoMemory → HasAdded self.old.normal.now
            self.old.disjunctions self.old.engine.state.clauses self.new.engine.state.clauses
            budget.old budget.new }
        ensures counted { (used : ℕ) → All (IsOver (greatest_body_var self.old.normal.now + used))
            (assumed_with asked.now.assume selector)
            → HasCountedUnits self.old.normal.now self.old.disjunctions
            self.old.engine.state.clauses used budget.old budget.new }
        ensures says { result ≢ Answer.NoMemory → Says self.old.normal.now self.new.engine
            self.old.disjunctions (assumed_with asked.now.assume selector) result }
        ensures at { result ≢ Answer.NoMemory
            → IsAnsweredAt (length budget.old.units + slice) budget.new result }
        ensures disjunctions { self.new.disjunctions ≡ self.old.disjunctions }
        ensures normal { self.new.normal ≡ self.old.normal }
    {
        let Ok(assumed) = assumed_for(alloc, asked, selector) else {
            return Answer::NoMemory;
        };
        self.engine.vouch();
        match false_at_zero(self.engine.trail(), assumed.as_slice()) {
            Some(lit) => core_of_one(alloc, lit),
            None => self.ask(alloc, assumed.as_slice(), budget, slice),
        }
    }

    /// Asks the engine for an answer set that makes literals true.
    fn ask(&mut self, alloc: Global, assumed: &[Lit], budget: &mut Budget, slice: u32) -> Answer
        requires normal { IsNormal self.old.normal.now }
        requires sound { IsSound self.old.normal.now self.old.engine self.old.disjunctions }
        requires few { length self.old.disjunctions ≤ selectors self.old.normal.now }
        requires over { All (IsOver (greatest_body_var self.old.normal.now
            + length self.old.disjunctions)) assumed.now }
        requires some { 1 ≤ slice }
        requires unused { length budget.old.units < budget.old.limit }
        ensures sound { result ≢ Answer.NoMemory
            → IsSound self.new.normal.now self.new.engine self.new.disjunctions }
        ensures added { result ≢ Answer.NoMemory → HasAdded self.old.normal.now
            self.old.disjunctions self.old.engine.state.clauses self.new.engine.state.clauses
            budget.old budget.new }
        ensures counted { (used : ℕ)
            → All (IsOver (greatest_body_var self.old.normal.now + used)) assumed.now
            → HasCountedUnits self.old.normal.now self.old.disjunctions
            self.old.engine.state.clauses used budget.old budget.new }
        ensures says { result ≢ Answer.NoMemory → Says self.old.normal.now self.new.engine
            self.old.disjunctions assumed.now result }
        ensures at { result ≢ Answer.NoMemory
            → IsAnsweredAt (length budget.old.units + slice) budget.new result }
        ensures disjunctions { self.new.disjunctions ≡ self.old.disjunctions }
        ensures normal { self.new.normal ≡ self.old.normal }
    {
        self.engine.ask(alloc, assumed, budget, slice)
    }

    /// The literal that the assignment at a place makes false, where that is one of level 0.
    pub(crate) fn refuted_at(&self, place: u32) -> Option<Lit>
        requires { IsSound self.now.normal.now self.now.engine self.now.disjunctions }
        ensures { IfSome result (IsRefuted self.now.normal.now) }
    {
        self.engine.vouch();
        refuted_on(self.engine.trail(), place)
    }

    /// What an answer of the engine says of answer sets.
    fn told(
        &self,
        alloc: Global,
        asked: &Asked,
        selector: Option<Var>,
        answer: Answer,
    ) -> Result<Tested, NoMemory>
        requires normal { IsNormal self.now.normal.now }
        requires vars { answer ≢ Answer.NoMemory
            → greatest_body_var self.now.normal.now ≤ self.now.engine.state.trail.vars }
        requires disjunctions { AreOver (greatest_body_var self.now.normal.now)
            self.now.disjunctions }
        requires over { All (IsOver (greatest_body_var self.now.normal.now)) asked.now.assume }
        requires any_over { IfSome asked.now.any
            (All (IsOver (greatest_body_var self.now.normal.now))) }
        requires selector { HasSelector self.now.normal.now self.now.disjunctions asked.now.any
            selector }
        requires says { answer ≢ Answer.NoMemory → Says self.now.normal.now self.now.engine
            self.now.disjunctions (assumed_with asked.now.assume selector) answer }
        ensures tested { IfOk result (IsTested self.now.normal.now asked.now) }
        ensures at { IfOk result (λ it. (stop : ℕ) (after : Counted)
            → IsAnsweredAt stop after answer → IsTestedAt stop after it) }
        ensures some { OnOk result (answer ≢ Answer.NoMemory) }
    {
        match answer {
            Answer::Model => {
                let set = set_on(alloc, self.engine.trail(), self.normal.atoms)?;
                Ok(Tested::Found(set))
            }
            Answer::Core(lits) => {
                let greatest = self.normal.greatest_body_var();
                Ok(Tested::Core(core_of(alloc, lits.as_slice(), greatest)?))
            }
            Answer::Spent => Ok(Tested::Spent),
            Answer::SpentInside { set, units } => Ok(Tested::SpentInside { set, units }),
            Answer::Paused => Ok(Tested::Paused),
            Answer::NoMemory => Err(NoMemory),
        }
    }
}

/// What is assumed: the literals, and the selector last.
fn assumed_for(alloc: Global, asked: &Asked, selector: Option<Var>) -> Result<Clause, NoMemory>
    requires { IfSome selector (λ var. var.0 < 2 ^ 31) }
    ensures { IfOk result (λ it. it ≡ assumed_with asked.now.assume selector) }
{
    let mut assumed = Clause::from_slice(alloc, asked.assume.as_slice())?;
    if let Some(var) = selector {
        assumed.push(alloc, var.positive())?;
    }
    Ok(assumed)
}

/// The first place of a clause in a list.
fn place_of(list: &[Clause], clause: &[Lit]) -> Option<usize>
    ensures none { IfNone result (¬ Contains list.now clause.now) }
    ensures some { IfSome result (λ at. slice_get list.now at ≡ Some clause.now) }
{
    for (at, one) in list.iter().enumerate() {
        if is_same(one.as_slice(), clause) {
            return Some(at);
        }
    }
    None
}

fn is_same(one: &[Lit], two: &[Lit]) -> bool
    ensures { IsTrue result ↔ (one.now ≡ two.now) }
{
    one == two
}
