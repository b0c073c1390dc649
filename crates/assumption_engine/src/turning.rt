// A turn of the search: what comes next, and that it is done.
ghost use Rattle.std.specs.Prelude.{◌≡◌, All, IfOk, OnOk};
ghost use Rattle.clause_store.specs.Clause.{IsOver};
ghost use Rattle.search_heuristics.specs.Places.{AreTrueBefore};
ghost use Rattle.assumption_engine.specs.Theory.{MeansTheSame};
ghost use Rattle.assumption_engine.specs.Engine.{HasCounted, HasPropagated, IsRight};
ghost use Rattle.assumption_engine.specs.Task.{IsTask};
ghost use Rattle.assumption_engine.specs.Answer.{HasTurned, MayTurn};

use crate::answer::{Answer, Turn};
use crate::engine::Engine;
use crate::task::Task;
use crate::theory::Theory;
use clause_store::{Budget, Lit, Says};
use item_list::NoMemory;
use std::alloc::Global;

impl<T: Theory> Engine<T> {
    /// Does what comes next.
    pub(crate) fn turn(
        &mut self,
        alloc: Global,
        assumed: &[Lit],
        budget: &mut Budget,
        stop: u32,
    ) -> Result<Turn, NoMemory>
        requires may { MayTurn (T.meaning self.old.theory) (T.followed self.old.theory)
            self.old.state self.old.defined assumed.now stop budget.old }
        requires places { AreTrueBefore assumed.now self.old.state.trail.steps
            self.old.steering.places }
        ensures same { MeansTheSame (T.meaning self.old.theory) (T.meaning self.new.theory) }
        ensures defined { self.new.defined ≡ self.old.defined }
        ensures turn { IfOk result (HasTurned (T.meaning self.old.theory)
            (T.meaning self.new.theory) (T.followed self.new.theory) self.old.defined
            self.new.defined assumed.now stop self.old.state self.new.state budget.old budget.new) }
        ensures counted { HasCounted (T.meaning self.old.theory) assumed.now self.old.defined
            self.old.state.clauses budget.old budget.new }
        ensures places { OnOk result
            (AreTrueBefore assumed.now self.new.state.trail.steps self.new.steering.places) }
        ensures dead { self.new.dead ≡ self.old.dead }
    {
        match self.next_task(assumed)? {
            Task::Learn(conflict) => self.learn_from(alloc, conflict, budget, stop),
            Task::Take => self.take_given(alloc),
            Task::Refuse(lit) => Ok(Turn::Ended(Answer::Core(self.core(alloc, lit)?))),
            Task::Decide(lit) => {
                self.steering.opens_level(self.state.trail());
                self.state.decide(lit);
                Ok(Turn::Going)
            }
            Task::Check => self.check_total(alloc, assumed, budget, stop),
        }
    }

    /// Propagates the clauses, asks the theory, and looks what comes next.
    fn next_task(&mut self, assumed: &[Lit]) -> Result<Task, NoMemory>
        requires right { IsRight (T.meaning self.old.theory) (T.followed self.old.theory)
            self.old.state self.old.defined }
        requires over { All (IsOver self.old.state.trail.vars) assumed.now }
        requires places { AreTrueBefore assumed.now self.old.state.trail.steps
            self.old.steering.places }
        ensures right { OnOk result (IsRight (T.meaning self.new.theory)
            (T.followed self.new.theory) self.new.state self.new.defined) }
        ensures same { MeansTheSame (T.meaning self.old.theory) (T.meaning self.new.theory) }
        ensures defined { self.new.defined ≡ self.old.defined }
        ensures propagated { HasPropagated self.old.state self.new.state }
        ensures task { IfOk result (IsTask (T.meaning self.new.theory) assumed.now
            self.new.state self.new.given) }
        ensures places { OnOk result
            (AreTrueBefore assumed.now self.new.state.trail.steps self.new.steering.places) }
        ensures dead { self.new.dead ≡ self.old.dead }
    {
        if let Some(conflict) = self.state.propagate() {
            return Ok(Task::Learn(conflict));
        }
        match self.theory.propagate(self.state.trail(), &mut self.given)? {
            Says::Clause => Ok(Task::Take),
            Says::Quiet => Ok(self.steering.choose(&self.state, assumed)),
        }
    }
}
