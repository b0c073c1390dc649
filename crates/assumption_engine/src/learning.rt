// What an engine learns from a clause that is false.
ghost use Rattle.std.specs.Prelude.{◌≡◌, ◌≤◌, ◌<◌, List, OnOk, IfOk, length};
ghost use Rattle.clause_store.specs.declared.literal.Lit.{Lit};
ghost use Rattle.clause_store.specs.Standing.{IsConflict};
ghost use Rattle.propagator.specs.Fixpoint.{IsFixpoint};
ghost use Rattle.assumption_engine.specs.Theory.{MeansTheSame};
ghost use Rattle.assumption_engine.specs.Engine.{GoesOn, HasCounted, IsLearned, IsRight, Taught};
ghost use Rattle.assumption_engine.specs.Engine.{IsLevelOf};
ghost use Rattle.assumption_engine.specs.Sided.{AreInOrder, AreOpposed};
ghost use Rattle.assumption_engine.specs.Down.{IsDown, KeepsPlaces};
ghost use Rattle.assumption_engine.specs.Answer.{HasRoom, HasTaken, IsStopping, IsTurn};

use crate::answer::{Answer, Turn};
use crate::engine::Engine;
use crate::theory::Theory;
use clause_store::{Budget, Clause, ClauseRef, Value};
use conflict_learning::{analyse, greatest_level};
use item_list::NoMemory;
use std::alloc::Global;

impl<T: Theory> Engine<T> {
    /// Goes back over conflicts, until the clauses are met or a clause is learned, which is counted
    /// and put last. The answer is the empty core where a clause is false at level 0.
    pub(crate) fn learn_from(
        &mut self,
        alloc: Global,
        conflict: ClauseRef,
        budget: &mut Budget,
        stop: u32,
    ) -> Result<Turn, NoMemory>
        requires right { IsRight (T.meaning self.old.theory) (T.followed self.old.theory)
            self.old.state self.old.defined }
        requires conflict { IsConflict self.old.state.clauses self.old.state.trail.steps conflict }
        requires room { HasRoom stop budget.old }
        ensures right { OnOk result (IsRight (T.meaning self.new.theory)
            (T.followed self.new.theory) self.new.state self.new.defined) }
        ensures same { MeansTheSame (T.meaning self.old.theory) (T.meaning self.new.theory) }
        ensures defined { self.new.defined ≡ self.old.defined }
        ensures on { OnOk result ((assumed : List Lit)
            → AreInOrder self.old.state.clauses assumed self.old.state.trail.steps
            → GoesOn (T.meaning self.old.theory)
            assumed self.old.state self.new.state budget.old budget.new) }
        ensures counted { (assumed : List Lit)
            → AreInOrder self.old.state.clauses assumed self.old.state.trail.steps
            → HasCounted (T.meaning self.old.theory) assumed self.old.defined
            self.old.state.clauses budget.old budget.new }
        ensures turn { IfOk result (λ turn. (assumed : List Lit) → IsTurn
            (T.meaning self.old.theory) self.old.defined assumed stop self.old.state
            self.new.state budget.new turn) }
        ensures keeps { OnOk result
            (KeepsPlaces self.old.state.trail.steps self.new.state.trail.steps) }
        ensures places { self.new.steering.places ≡ self.old.steering.places }
        ensures dead { self.new.dead ≡ self.old.dead }
    {
        let mut conflict = conflict;
        self.state.vouch();
        'conflicts: loop {
            let level = greatest_level(self.state.trail(), self.state.store().lits(conflict));
            if level == 0 {
                return Ok(Turn::Ended(Answer::Core(Clause::open())));
            }
            self.resolve(alloc, conflict, level)?;
            match self.state.propagate() {
                Some(next) => conflict = next,
                None => return self.take_learned(alloc, budget, stop),
            }
        }
    }

    /// Learns from a clause that is false, and goes back to the level where what it learned forces
    /// a literal.
    fn resolve(&mut self, alloc: Global, conflict: ClauseRef, level: u32) -> Result<(), NoMemory>
        requires right { IsRight (T.meaning self.old.theory) (T.followed self.old.theory)
            self.old.state self.old.defined }
        requires conflict { IsConflict self.old.state.clauses self.old.state.trail.steps conflict }
        requires level { IsLevelOf self.old.state conflict level }
        requires above { 0 < level }
        ensures right { IsRight (T.meaning self.new.theory) (T.followed self.new.theory)
            self.new.state self.new.defined }
        ensures same { MeansTheSame (T.meaning self.old.theory) (T.meaning self.new.theory) }
        ensures defined { self.new.defined ≡ self.old.defined }
        ensures taught { OnOk result (Taught self.old.state self.new.state self.new.learned) }
        ensures places { self.new.steering.places ≡ self.old.steering.places }
        ensures dead { self.new.dead ≡ self.old.dead }
    {
        self.go_back(level);
        analyse(
            alloc,
            self.state.store(),
            self.state.trail(),
            conflict,
            &mut self.learned,
        )?;
        self.steering
            .note_learned(self.state.trail(), &self.learned);
        self.go_back(self.learned.back);
        Ok(())
    }

    /// Counts what was learned and puts it last, unless its asserting literal was assigned by now.
    fn take_learned(
        &mut self,
        alloc: Global,
        budget: &mut Budget,
        stop: u32,
    ) -> Result<Turn, NoMemory>
        requires right { IsRight (T.meaning self.old.theory) (T.followed self.old.theory)
            self.old.state self.old.defined }
        requires fixpoint { IsFixpoint self.old.state.clauses self.old.state.trail.steps }
        requires learned { IsLearned self.old.state.clauses self.old.state.trail
            self.old.learned.clause self.old.learned.asserting }
        requires room { HasRoom stop budget.old }
        ensures right { OnOk result (IsRight (T.meaning self.new.theory)
            (T.followed self.new.theory) self.new.state self.new.defined) }
        ensures same { MeansTheSame (T.meaning self.old.theory) (T.meaning self.new.theory) }
        ensures defined { self.new.defined ≡ self.old.defined }
        ensures on { OnOk result ((assumed : List Lit)
            → AreOpposed self.old.state.clauses assumed self.old.learned.clause
            → GoesOn (T.meaning self.old.theory)
            assumed self.old.state self.new.state budget.old budget.new) }
        ensures counted { (assumed : List Lit)
            → AreOpposed self.old.state.clauses assumed self.old.learned.clause
            → HasCounted (T.meaning self.old.theory) assumed self.old.defined
            self.old.state.clauses budget.old budget.new }
        ensures turn { IfOk result (HasTaken stop self.old.state self.new.state
            self.old.learned.asserting budget.new) }
        ensures keeps { OnOk result
            (KeepsPlaces self.old.state.trail.steps self.new.state.trail.steps) }
        ensures places { self.new.steering.places ≡ self.old.steering.places }
        ensures dead { self.new.dead ≡ self.old.dead }
    {
        match self.state.trail().value(self.learned.asserting) {
            Value::Unset => {
                budget.count(alloc, self.learned.clause.as_slice())?;
                self.state.add(alloc, self.learned.clause.as_slice())?;
                self.restart_if_due();
                Ok(turn_after(budget, stop))
            }
            _ => Ok(Turn::Going),
        }
    }

    /// Starts anew from level 0 if it is time.
    fn restart_if_due(&mut self)
        requires right { IsRight (T.meaning self.old.theory) (T.followed self.old.theory)
            self.old.state self.old.defined }
        ensures right { IsRight (T.meaning self.new.theory) (T.followed self.new.theory)
            self.new.state self.new.defined }
        ensures same { MeansTheSame (T.meaning self.old.theory) (T.meaning self.new.theory) }
        ensures down { IsDown self.old.state self.new.state }
        ensures defined { self.new.defined ≡ self.old.defined }
        ensures places { self.new.steering.places ≡ self.old.steering.places }
        ensures dead { self.new.dead ≡ self.old.dead }
    {
        self.state.vouch();
        if !self.steering.takes_restart() {
            return;
        }
        self.go_back(0);
    }
}

/// Whether a search goes on after it counted a clause.
fn turn_after(budget: &Budget, stop: u32) -> Turn
    requires within { length budget.now.units ≤ stop }
    requires limit { stop ≤ budget.now.limit }
    ensures { IsStopping stop budget.now result }
{
    if budget.used() < stop {
        return Turn::Going;
    }
    if budget.used() == budget.limit() {
        return Turn::Ended(Answer::Spent);
    }
    Turn::Ended(Answer::Paused)
}
