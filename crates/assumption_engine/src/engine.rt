// An engine, and how it is opened.
ghost use Rattle.std.specs.Prelude.{◌≡◌, ◌≤◌, ◌<◌, ◌^◌, [], Bool, List, false, true, IfOk};
ghost use Rattle.std.specs.Prelude.{OnErr, OnOk};
ghost use Rattle.clause_store.specs.Clause.{AreOver, Meets};
ghost use Rattle.clause_store.specs.Laws.{AreMoreClauses};
ghost use Rattle.clause_store.specs.Trail.{IsTrail, IsTrailOf, present_level};
ghost use Rattle.assumption_engine.specs.Theory.{MeansTheSame};
ghost use Rattle.assumption_engine.specs.Engine.{IsRight, WentBack};

use crate::marked_state::MarkedState;
use crate::steering::Steering;
use crate::theory::Theory;
use clause_store::{Clause, Lit, Store, Trail, Units};
use conflict_learning::Learned;
use item_list::NoMemory;
use std::alloc::Global;

/// A search over a theory, which keeps its clauses and its trail from one question to the next.
#[derive(Drop)]
pub struct Engine<T> {
    pub(crate) state: MarkedState,
    pub(crate) steering: Steering,
    pub(crate) theory: T,
    pub(crate) learned: Learned,
    pub(crate) given: Clause,
    pub(crate) defined: Units,
    pub(crate) dead: bool,
}

impl<T: Theory> Engine<T> {
    /// An engine over the variables 1 to `vars` with these clauses.
    pub fn open(alloc: Global, vars: u32, store: Store, theory: T) -> Result<Engine<T>, NoMemory>
        requires few { vars < 2 ^ 31 }
        requires over { AreOver vars store }
        requires holds { (values : List Bool) → (T.meaning theory).models values
            → Meets values store }
        requires range { (T.meaning theory).greatest ≤ vars }
        requires needs { AreMoreClauses (T.meaning theory).needs store }
        requires follows { T.followed theory ≡ [] }
        ensures right { IfOk result
            (λ it. IsRight (T.meaning it.theory) (T.followed it.theory) it.state it.defined) }
        ensures theory { IfOk result (λ it. it.theory ≡ theory) }
        ensures store { IfOk result (λ it. it.state.clauses ≡ store) }
        ensures trail { IfOk result (λ it. it.state.trail ≡ record { vars = vars; steps = [] }) }
        ensures defined { IfOk result (λ it. it.defined ≡ []) }
        ensures alive { IfOk result (λ it. it.dead ≡ false) }
    {
        let state = MarkedState::open(alloc, vars, store)?;
        Ok(Engine {
            state,
            steering: Steering::open(alloc, vars)?,
            theory,
            learned: Learned::open(),
            given: Clause::open(),
            defined: Units::open(),
            dead: false,
        })
    }

    /// The assignments.
    pub fn trail(&self) -> &Trail
        ensures { result.now ≡ self.now.state.trail }
    {
        self.state.trail()
    }

    /// The clauses.
    pub fn store(&self) -> &Store
        ensures { result.now ≡ self.now.state.clauses }
    {
        self.state.store()
    }

    /// The assignments are a trail of the clauses, as contracts know it then. It does nothing when
    /// it runs.
    pub fn vouch(&self)
        ensures is_trail { IsTrail self.now.state.trail }
        ensures of_store { IsTrailOf self.now.state.trail.steps self.now.state.clauses }
    {
        self.state.vouch();
    }

    /// Lets the variables of these literals be decided first, as these literals, until conflicts
    /// say otherwise. A literal that stands in no clause is made false all the same.
    pub fn prefer(&mut self, lits: &[Lit])
        ensures { self.new ≡ record self.old { steering = self.new.steering } }
    {
        self.steering.prefer(lits);
    }

    /// Seeks these literals from the next question on, and no others: each is decided first, as it
    /// is, until the question has had some conflicts, or for good once a model made it true. After
    /// want of memory all is as before. No answer depends on it.
    pub fn seek(&mut self, alloc: Global, lits: &[Lit]) -> Result<(), NoMemory>
        ensures { self.new ≡ record self.old { steering = self.new.steering } }
    {
        self.steering.seek(alloc, lits)
    }

    /// Lets variables be decided in the order of another engine, and as they were last there. After
    /// want of memory the order is as before.
    pub fn take_after(&mut self, alloc: Global, other: &Engine<T>) -> Result<(), NoMemory>
        ensures { self.new ≡ record self.old { steering = self.new.steering } }
    {
        self.steering
            .take_after(alloc, &other.steering, other.state.trail())
    }

    /// Goes back to a level, and the theory with it.
    pub(crate) fn go_back(&mut self, level: u32)
        requires right { IsRight (T.meaning self.old.theory) (T.followed self.old.theory)
            self.old.state self.old.defined }
        requires level { level ≤ present_level self.old.state.trail.steps }
        ensures right { IsRight (T.meaning self.new.theory) (T.followed self.new.theory)
            self.new.state self.new.defined }
        ensures same { MeansTheSame (T.meaning self.old.theory) (T.meaning self.new.theory) }
        ensures back { WentBack level self.old.state self.new.state }
        ensures learned { self.new.learned ≡ self.old.learned }
        ensures places { self.new.steering.places ≡ self.old.steering.places }
        ensures defined { self.new.defined ≡ self.old.defined }
        ensures dead { self.new.dead ≡ self.old.dead }
    {
        self.state.vouch();
        self.steering.goes_back(self.state.trail(), level);
        self.state.back_to(level);
        self.theory.undo(self.state.trail());
    }

    /// Goes back to level 0, or says that memory ran out before. The engine is dead until its
    /// caller is done.
    pub(crate) fn begin(&mut self) -> Result<(), NoMemory>
        requires right { self.old.dead ≡ false → IsRight (T.meaning self.old.theory)
            (T.followed self.old.theory) self.old.state self.old.defined }
        ensures right { OnOk result (IsRight (T.meaning self.new.theory)
            (T.followed self.new.theory) self.new.state self.new.defined) }
        ensures same { MeansTheSame (T.meaning self.old.theory) (T.meaning self.new.theory) }
        ensures back { OnOk result (WentBack 0 self.old.state self.new.state) }
        ensures clauses { self.new.state.clauses ≡ self.old.state.clauses }
        ensures defined { self.new.defined ≡ self.old.defined }
        ensures alive { OnOk result (self.old.dead ≡ false) }
        ensures err { OnErr result (self.old.dead ≡ true) }
        ensures dead { self.new.dead ≡ true }
    {
        if self.dead {
            return Err(NoMemory);
        }
        self.dead = true;
        self.go_back(0);
        Ok(())
    }
}
