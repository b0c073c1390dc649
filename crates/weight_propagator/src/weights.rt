// The weight bodies with their sums. What the trail has beyond the followed assignments is followed
// first; then only the bodies that were touched are looked at.
ghost use Rattle.std.specs.Prelude.{◌≡◌, ◌≤◌, ◌≢◌, ◌-◌, ◌++◌, ◌∷◌, [], map, length, take};
ghost use Rattle.std.specs.Prelude.{Some, None, All, OnOk, OnErr, IfOk, IfSome};
ghost use Rattle.ground_program.specs.Meaning.{IsSetOver};
ghost use Rattle.clause_store.specs.Clause.{variable};
ghost use Rattle.clause_store.specs.Standing.{AreFollowed, HasGoneBack, as_followed};
ghost use Rattle.normal_program.specs.Limit.{IsNormal};
ghost use Rattle.normal_program.specs.Normal.{greatest_body_var};
ghost use Rattle.weight_propagator.specs.Weighed.{IsSaid};

use crate::build::rows_of;
use crate::gathering::gather;
use crate::occurrences::Occurrences;
use crate::row::Row;
use crate::settling::settle;
use crate::tally::{Tally, Way};
use clause_store::{Clause, Says, Step, Trail};
use ground_program::Set;
use item_list::NoMemory;
use normal_program::Normal;
use std::alloc::Global;
use std::fmt;
use std::marker::Model;
use std::snapshot::Snapshot;

/// The weight bodies of a normal form, and the assignments that are followed.
#[derive(Drop)]
pub struct Weights {
    made_of: Snapshot<Normal>,
    inside: Snapshot<Option<Set>>,
    rows: Vec<Row>,
    occurrences: Occurrences,
    tally: Tally,
    followed: Vec<Step>,
}

impl Model for Weights {
    ghost use Rattle.std.specs.Prelude.{map};
    ghost use Rattle.clause_store.specs.Standing.{as_followed};
    ghost use Rattle.weight_propagator.specs.Weighed.{Weighed};
    ghost use Rattle.weight_propagator.specs.Kept.{AreKept};

    ghost Value = { Weighed };

    ghost view = { λ it. record {
      normal = it.made_of.value;
      inside = it.inside.value;
      followed = map as_followed it.followed.items;
    } };

    ghost invariant = { λ it. AreKept it.inside.value it.made_of.value it.rows.items it.occurrences
        it.tally it.followed.items };
}

impl Weights {
    /// The weight bodies of a normal form. No assignment is followed.
    pub fn open(alloc: Global, normal: &Normal) -> Result<Weights, NoMemory>
        requires { IsNormal normal.now }
        ensures { IfOk result (λ it. it
            ≡ record { normal = normal.now; inside = None; followed = [] }) }
    {
        Weights::judged_by(alloc, normal, None)
    }

    /// The weight bodies of a normal form inside a set, which judges their negative literals. No
    /// assignment is followed.
    pub fn open_within(alloc: Global, normal: &Normal, set: &Set) -> Result<Weights, NoMemory>
        requires normal { IsNormal normal.now }
        requires over { IsSetOver normal.now.atoms set.now }
        ensures { IfOk result (λ it. it
            ≡ record { normal = normal.now; inside = Some set.now; followed = [] }) }
    {
        let set = set.copy(alloc)?;
        Weights::judged_by(alloc, normal, Some(set))
    }

    fn judged_by(alloc: Global, normal: &Normal, inside: Option<Set>) -> Result<Weights, NoMemory>
        requires normal { IsNormal normal.now }
        requires over { IfSome inside (IsSetOver normal.now.atoms) }
        ensures { IfOk result (λ it. it
            ≡ record { normal = normal.now; inside = inside; followed = [] }) }
    {
        let rows = rows_of(alloc, normal, &inside)?;
        let places = gather(alloc, &rows, normal.greatest_body_var())?;
        let occurrences = Occurrences::of(alloc, &places)?;
        let tally = Tally::open(alloc, rows.len() as u32)?;
        Ok(Weights {
            made_of: Snapshot::of(normal),
            inside: Snapshot::of(&inside),
            rows,
            occurrences,
            tally,
            followed: Vec::new(alloc),
        })
    }

    /// Writes a clause that some weight body gives on the trail, where one does. After want of
    /// memory the clause may hold anything.
    pub fn propagate(
        &mut self,
        alloc: Global,
        normal: &Normal,
        trail: &Trail,
        out: &mut Clause,
    ) -> Result<Says, NoMemory>
        requires normal { IsNormal normal.now }
        requires same { self.old.normal ≡ normal.now }
        requires over { greatest_body_var normal.now ≤ trail.now.vars }
        requires followed { AreFollowed trail.now.steps self.old.followed }
        ensures says { IfOk result (IsSaid self.old.inside normal.now trail.now out.new) }
        ensures followed { AreFollowed trail.now.steps self.new.followed }
        ensures rest { self.new ≡ record self.old { followed = self.new.followed } }
    {
        let _ = normal;
        self.follow(trail)?;
        settle(alloc, &self.rows, &mut self.tally, trail, out)
    }

    /// Follows only assignments of the trail. It is called after each going back of the trail, and
    /// takes no memory.
    pub fn undo(&mut self, trail: &Trail)
        requires over { greatest_body_var self.old.normal ≤ trail.now.vars }
        requires back { HasGoneBack trail.now self.old.followed }
        ensures followed { AreFollowed trail.now.steps self.new.followed }
        ensures rest { self.new ≡ record self.old { followed = self.new.followed } }
    {
        let left = trail.steps().len();
        while self.count() > left {
            self.forget();
        }
    }

    // Follows the assignments that the trail has beyond.
    fn follow(&mut self, trail: &Trail) -> Result<(), NoMemory>
        requires { AreFollowed trail.now.steps self.old.followed }
        ensures all { OnOk result (self.new.followed ≡ map as_followed trail.now.steps) }
        ensures followed { AreFollowed trail.now.steps self.new.followed }
        ensures rest { self.new ≡ record self.old { followed = self.new.followed } }
    {
        let steps = trail.steps();
        while self.count() < steps.len() {
            let step = steps[self.count()];
            self.follow_step(step)?;
        }
        Ok(())
    }

    // How many assignments are followed.
    fn count(&self) -> usize
        ensures { result ≡ length self.now.followed }
    {
        self.followed.len()
    }

    // Follows one assignment more.
    fn follow_step(&mut self, step: Step) -> Result<(), NoMemory>
        requires { All (λ one. variable one.lit ≢ variable step.lit) self.old.followed }
        ensures ok { OnOk result (self.new ≡ record self.old {
          followed = self.old.followed ++ as_followed step ∷ [];
        }) }
        ensures err { OnErr result (self.new ≡ self.old) }
    {
        self.followed.push(step)?;
        self.tally.turn(&self.occurrences, step.lit, Way::Comes);
        Ok(())
    }

    // Follows the last assignment no more.
    fn forget(&mut self)
        ensures { self.new ≡ record self.old {
          followed = take (length self.old.followed - 1) self.old.followed;
        } }
    {
        if let Some(step) = self.followed.pop() {
            self.tally.turn(&self.occurrences, step.lit, Way::Leaves);
        }
    }
}

impl fmt::Debug for Weights {
    fn fmt<W: fmt::Write>(&self, f: &mut fmt::Formatter<W>) -> fmt::Result {
        self.rows.fmt(f)
    }
}
