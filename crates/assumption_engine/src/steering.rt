// What steers a search: which literal is assumed or decided next, and when it starts anew.
ghost use Rattle.std.specs.Prelude.{◌≡◌, ◌≢◌, ◌<◌, ◌^◌, false, All};
ghost use Rattle.clause_store.specs.Clause.{IsOver};
ghost use Rattle.clause_store.specs.Trail.{value_of};
ghost use Rattle.propagator.specs.Fixpoint.{IsFixpoint};
ghost use Rattle.search_heuristics.specs.Places.{AreTrueBefore, BeginsAtZero, OpensLevel};
ghost use Rattle.assumption_engine.specs.Task.{IsAssuming, IsChoice};

use crate::marked_state::MarkedState;
use crate::task::Task;
use clause_store::{Lit, Trail, Value, Var};
use conflict_learning::Learned;
use item_list::NoMemory;
use search_heuristics::{AssumptionPlaces, DecisionOrder, LevelCounter, RestartPace};
use std::alloc::Global;

/// The order of decisions, the pace of restarts, and how far the assumed literals are true.
#[derive(Drop)]
pub struct Steering {
    pub(crate) places: AssumptionPlaces,
    order: DecisionOrder,
    counter: LevelCounter,
    pace: RestartPace,
}

impl Steering {
    /// Of a search over the variables 1 to `vars`. All other calls but `take_after` and `seek` take
    /// no memory.
    pub fn open(alloc: Global, vars: u32) -> Result<Steering, NoMemory>
        requires { vars < 2 ^ 31 }
    {
        Ok(Steering {
            places: AssumptionPlaces::open(alloc, vars)?,
            order: DecisionOrder::open(alloc, vars)?,
            counter: LevelCounter::open(alloc, vars)?,
            pace: RestartPace::open(),
        })
    }

    /// Takes the order of decisions over from another search, whose trail this is. The values on
    /// the trail are the phases of its variables.
    pub fn take_after(
        &mut self,
        alloc: Global,
        other: &Steering,
        trail: &Trail,
    ) -> Result<(), NoMemory>
        ensures { self.new.places ≡ self.old.places }
    {
        let mut order = other.order.copy(alloc)?;
        order.take_back(trail, 0);
        self.order = order;
        Ok(())
    }

    /// A question begins, at level 0, or goes on after so many conflicts.
    pub fn begin(&mut self, trail: &Trail, conflicts: u32)
        ensures { BeginsAtZero self.new.places }
    {
        self.order.begin(trail, conflicts);
        self.places.begin();
    }

    /// The total trail is an answer.
    pub fn answered(&mut self, trail: &Trail)
        ensures { self.new.places ≡ self.old.places }
    {
        self.order.answered(trail);
    }

    /// The next assumed literal, or the next variable in the order of decisions, or the check of a
    /// total assignment.
    pub fn choose(&mut self, state: &MarkedState, assumed: &[Lit]) -> Task
        requires alive { state.now.dead ≡ false }
        requires over { All (IsOver state.now.trail.vars) assumed.now }
        requires fixpoint { IsFixpoint state.now.clauses state.now.trail.steps }
        requires places { AreTrueBefore assumed.now state.now.trail.steps self.old.places }
        ensures choice { IsChoice state.now.clauses assumed.now state.now.trail result }
        ensures places { AreTrueBefore assumed.now state.now.trail.steps self.new.places }
    {
        if let Some(at) = self.places.next(state.trail(), assumed) {
            return assume(state.trail(), assumed[at]);
        }
        match self.order.next(state.trail()) {
            Some(lit) => Task::Decide(state.freely(lit)),
            None => Task::Check,
        }
    }

    /// A decision is to open a level.
    pub fn opens_level(&mut self, trail: &Trail)
        ensures { OpensLevel trail.now.steps self.old.places self.new.places }
    {
        self.places.opens_level(trail);
    }

    /// A clause was learned, and the trail is still where it was.
    pub fn note_learned(&mut self, trail: &Trail, learned: &Learned)
        ensures { self.new.places ≡ self.old.places }
    {
        self.bump_all(learned.visited());
        self.order.conflict();
        self.pace
            .conflict(self.counter.levels_of(trail, learned.clause.as_slice()));
    }

    /// Lets the variables that a conflict came from be decided earlier.
    fn bump_all(&mut self, vars: &[Var])
        ensures { self.new.places ≡ self.old.places }
    {
        'vars: for var in vars {
            self.order.bump(*var);
        }
    }

    /// The trail is to go back to a level.
    pub fn goes_back(&mut self, trail: &Trail, level: u32)
        ensures { self.new.places ≡ self.old.places }
    {
        self.order.take_back(trail, level);
    }

    /// Whether the search is to start anew from level 0. It says so once.
    pub fn takes_restart(&mut self) -> bool
        ensures { self.new.places ≡ self.old.places }
    {
        let due = self.pace.wants_restart();
        if due {
            self.pace.restarted();
        }
        due
    }

    /// Seeks these literals from the next question on.
    pub fn seek(&mut self, alloc: Global, lits: &[Lit]) -> Result<(), NoMemory>
        ensures { self.new.places ≡ self.old.places }
    {
        self.order.seek(alloc, lits)
    }

    /// Lets the variables of these literals come first, as these literals.
    pub fn prefer(&mut self, lits: &[Lit])
        ensures { self.new.places ≡ self.old.places }
    {
        self.order.prefer(lits);
    }
}

/// To make an assumed literal true that isn't, or to refuse it if it is false.
fn assume(trail: &Trail, lit: Lit) -> Task
    requires over { IsOver trail.now.vars lit }
    requires not_true { value_of trail.now.steps lit ≢ Value.Yes }
    ensures { IsAssuming trail.now.steps lit result }
{
    match trail.value(lit) {
        Value::Unset => Task::Decide(lit),
        _ => Task::Refuse(lit),
    }
}
