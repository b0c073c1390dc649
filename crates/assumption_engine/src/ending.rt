// How a search ends where no budget is used up: the core of a false assumed literal, and what the
// theory says of a total assignment.
ghost use Rattle.std.specs.Prelude.{◌≡◌, IfOk, OnOk};
ghost use Rattle.clause_store.specs.Clause.{IsOver};
ghost use Rattle.clause_store.specs.Standing.{IsFalse};
ghost use Rattle.conflict_learning.specs.AssumptionCore.{CannotMeet, IsCore};
ghost use Rattle.assumption_engine.specs.Theory.{MeansTheSame};
ghost use Rattle.assumption_engine.specs.Down.{KeepsPlaces};
ghost use Rattle.assumption_engine.specs.Task.{MayCheck};
ghost use Rattle.assumption_engine.specs.Answer.{HasTurned, MayTurn};

use crate::answer::{Answer, Turn};
use crate::check::Check;
use crate::engine::Engine;
use crate::theory::Theory;
use clause_store::{Budget, Clause, Lit};
use conflict_learning::final_core;
use item_list::NoMemory;
use std::alloc::Global;

impl<T: Theory> Engine<T> {
    /// The core of an assumed literal that is false.
    pub(crate) fn core(&self, alloc: Global, refused: Lit) -> Result<Clause, NoMemory>
        requires over { IsOver self.now.state.trail.vars refused }
        requires is_false { IsFalse self.now.state.trail.steps refused }
        ensures core { IfOk result (IsCore self.now.state.trail.steps refused) }
        ensures unmet { IfOk result (CannotMeet self.now.state.clauses) }
    {
        let mut core = Clause::open();
        final_core(
            alloc,
            self.state.store(),
            self.state.trail(),
            refused,
            &mut core,
        )?;
        Ok(core)
    }

    /// Asks the theory about a total assignment.
    pub(crate) fn check_total(
        &mut self,
        alloc: Global,
        assumed: &[Lit],
        budget: &Budget,
        stop: u32,
    ) -> Result<Turn, NoMemory>
        requires may { MayTurn (T.meaning self.old.theory) (T.followed self.old.theory)
            self.old.state self.old.defined assumed.now stop budget.now }
        requires check { MayCheck self.old.state.clauses assumed.now self.old.state.trail }
        ensures same { MeansTheSame (T.meaning self.old.theory) (T.meaning self.new.theory) }
        ensures defined { self.new.defined ≡ self.old.defined }
        ensures turn { IfOk result (HasTurned (T.meaning self.old.theory)
            (T.meaning self.new.theory) (T.followed self.new.theory) self.old.defined
            self.new.defined assumed.now stop self.old.state self.new.state budget.now budget.now) }
        ensures keeps { OnOk result
            (KeepsPlaces self.old.state.trail.steps self.new.state.trail.steps) }
        ensures places { self.new.steering.places ≡ self.old.steering.places }
        ensures dead { self.new.dead ≡ self.old.dead }
    {
        self.state.vouch();
        match self
            .theory
            .complete_check(self.state.trail(), &mut self.given, budget.limit())
        {
            Check::Accept => {
                self.steering.answered(self.state.trail());
                Ok(Turn::Ended(Answer::Model))
            }
            Check::Clause => self.take_given(alloc),
            Check::Spent { set, units } => { Ok(Turn::Ended(Answer::SpentInside { set, units })) }
            Check::NoMemory => Err(NoMemory),
        }
    }
}
