// The sources of founded atoms are kept from call to call. What the trail has beyond the followed
// assignments is followed first; then sources are checked and atoms founded anew only where a
// literal that they rest on became false, or where an atom had no source before. Where an atom is
// left over, a set is grown from it and denied atom by atom; where that fails, rounds over all
// rules find all that are unfounded.
ghost use Rattle.std.specs.Prelude.{◌≡◌, ◌≤◌, ◌-◌, ◌++◌, ◌∷◌, [], map, length, take};
ghost use Rattle.std.specs.Bool.{OnTrue};
ghost use Rattle.std.specs.Prelude.{IfNone, IfOk, IfSome, OnOk, OnErr};
ghost use Rattle.clause_store.specs.Standing.{AreFollowed, HasGoneBack, as_followed};
ghost use Rattle.normal_program.specs.Limit.{IsNormal};
ghost use Rattle.normal_program.specs.Loop.{IsAtomOf};
ghost use Rattle.normal_program.specs.Normal.{greatest_body_var};
ghost use Rattle.unfounded_sets.specs.Found.{AreFounded, IsAnswer, IsGiven, IsLoopWritten};
ghost use Rattle.unfounded_sets.specs.Founding.{KeepsAllOn, LacksOne};
ghost use Rattle.unfounded_sets.specs.Rounds.{IsCovered};
ghost use Rattle.unfounded_sets.specs.Single.{IsSingleAnswer};

use crate::founding::unfounded_atom;
use crate::grown::Grown;
use crate::loops::{mark_open, write_loop};
use crate::places::Places;
use crate::single::mark_supported;
use crate::sources::Sources;
use crate::tables::{clear, empty_set};
use crate::updating::{lost_atom, ranked_atoms};
use crate::values::first_open;
use clause_store::{Clause, Step, Trail};
use ground_program::Set;
use item_list::NoMemory;
use normal_program::Normal;
use std::alloc::Global;
use std::fmt;
use std::marker::Model;
use std::snapshot::Snapshot;

/// What is found.
#[derive(Debug, Drop, Clone, Copy, PartialEq, Eq)]
pub enum Found {
    /// Each atom that isn't false is founded.
    Nothing,
    /// Some atom isn't, and a loop clause was written.
    Loop,
}

/// The founding of the atoms of a normal form. Contracts see it as the normal form with the
/// assignments that are followed.
#[derive(Drop)]
pub struct Unfounded {
    made_of: Snapshot<Normal>,
    founded: Set,
    part: Set,
    wanted: Set,
    places: Places,
    sources: Sources,
    grown: Grown,
    followed: Vec<Step>,
}

impl Model for Unfounded {
    ghost use Rattle.std.specs.Prelude.{map};
    ghost use Rattle.clause_store.specs.Standing.{as_followed};
    ghost use Rattle.unfounded_sets.specs.Followed.{AreKept, Founding};

    ghost Value = { Founding };

    ghost view = { λ it. record {
      normal = it.made_of.value;
      followed = map as_followed it.followed.items;
    } };

    ghost invariant = { λ it. AreKept it.made_of.value it.founded it.part it.wanted it.places
        it.sources it.grown it.followed.items };
}

impl Unfounded {
    /// The founding of the atoms of a normal form. No assignment is followed.
    pub fn open(alloc: Global, normal: &Normal) -> Result<Unfounded, NoMemory>
        requires { IsNormal normal.now }
        ensures { IfOk result (λ it. it ≡ record { normal = normal.now; followed = [] }) }
    {
        let atoms = normal.atoms as usize + 1;
        let variables = normal.greatest_body_var() as usize + 1;
        let founded = empty_set(alloc, atoms)?;
        let part = empty_set(alloc, atoms)?;
        let wanted = empty_set(alloc, variables)?;
        let places = Places::open(alloc, normal)?;
        let sources = Sources::open(alloc, normal)?;
        let grown = Grown::open(alloc, normal)?;
        let followed = Vec::with_capacity(alloc, variables)?;
        Ok(Unfounded {
            made_of: Snapshot::of(normal),
            founded,
            part,
            wanted,
            places,
            sources,
            grown,
            followed,
        })
    }

    /// Writes a loop clause where some atom that isn't false isn't founded on the trail. All its
    /// literals are false, or all but one, which is unset. After want of memory the clause may hold
    /// anything.
    #[tactic(auto, using(crate::proofs::LoopLemmas::covers))]
    pub fn find(
        &mut self,
        alloc: Global,
        normal: &Normal,
        trail: &Trail,
        out: &mut Clause,
    ) -> Result<Found, NoMemory>
        requires normal { IsNormal normal.now }
        requires same { self.old.normal ≡ normal.now }
        requires over { greatest_body_var normal.now ≤ trail.now.vars }
        requires followed { AreFollowed trail.now.steps self.old.followed }
        ensures found { IfOk result (IsAnswer normal.now trail.now out.new) }
        ensures followed { AreFollowed trail.now.steps self.new.followed }
        ensures rest { self.new ≡ record self.old { followed = self.new.followed } }
    {
        self.follow(trail)?;
        if self.writes_kept(alloc, normal, trail, out)? {
            return Ok(Found::Loop);
        }
        let Some(atom) = self.lost_atom(normal, trail) else {
            return Ok(Found::Nothing);
        };
        self.find_by(alloc, normal, trail, atom, out)
    }

    // Writes a loop clause for the set that was grown last, where it still gives one.
    fn writes_kept(
        &mut self,
        alloc: Global,
        normal: &Normal,
        trail: &Trail,
        out: &mut Clause,
    ) -> Result<bool, NoMemory>
        requires covered { IsCovered normal.now trail.now.vars }
        requires same { self.old.normal ≡ normal.now }
        ensures given { IfOk result (λ it. OnTrue it (IsGiven normal.now trail.now out.new)) }
        ensures same { self.new ≡ self.old }
    {
        self.grown.write(alloc, normal, trail, out)
    }

    // An atom that isn't false and isn't founded, unless there is none.
    fn lost_atom(&mut self, normal: &Normal, trail: &Trail) -> Option<u32>
        requires covered { IsCovered normal.now trail.now.vars }
        requires same { self.old.normal ≡ normal.now }
        requires followed { self.old.followed ≡ map as_followed trail.now.steps }
        ensures founded { IfNone result (AreFounded normal.now trail.now.steps) }
        ensures is_atom { IfSome result (IsAtomOf normal.now) }
        ensures same { self.new ≡ self.old }
    {
        lost_atom(normal, trail, &self.places, &mut self.sources)
    }

    // Grows a set from a lost atom.
    fn grow_from(&mut self, normal: &Normal, trail: &Trail, atom: u32)
        requires covered { IsCovered normal.now trail.now.vars }
        requires same { self.old.normal ≡ normal.now }
        requires is_atom { IsAtomOf normal.now atom }
        ensures { self.new ≡ self.old }
    {
        let (places, sources) = (&self.places, &self.sources);
        self.grown.grow_from(normal, trail, places, sources, atom);
    }

    // Writes a loop clause for a set that is grown from a lost atom.
    fn find_by(
        &mut self,
        alloc: Global,
        normal: &Normal,
        trail: &Trail,
        atom: u32,
        out: &mut Clause,
    ) -> Result<Found, NoMemory>
        requires covered { IsCovered normal.now trail.now.vars }
        requires same { self.old.normal ≡ normal.now }
        requires followed { self.old.followed ≡ map as_followed trail.now.steps }
        requires is_atom { IsAtomOf normal.now atom }
        ensures found { IfOk result (IsAnswer normal.now trail.now out.new) }
        ensures same { self.new ≡ self.old }
    {
        self.grow_from(normal, trail, atom);
        if self.writes_kept(alloc, normal, trail, out)? {
            return Ok(Found::Loop);
        }
        self.find_by_rounds(alloc, normal, trail, out)
    }

    // Writes a loop clause for all atoms that rounds over the rules don't found.
    fn find_by_rounds(
        &mut self,
        alloc: Global,
        normal: &Normal,
        trail: &Trail,
        out: &mut Clause,
    ) -> Result<Found, NoMemory>
        requires covered { IsCovered normal.now trail.now.vars }
        requires same { self.old.normal ≡ normal.now }
        requires followed { self.old.followed ≡ map as_followed trail.now.steps }
        ensures found { IfOk result (IsAnswer normal.now trail.now out.new) }
        ensures same { self.new ≡ self.old }
    {
        let (places, sources) = (&self.places, &mut self.sources);
        ranked_atoms(normal, trail, places, sources, &mut self.founded);
        match unfounded_atom(normal, trail, &mut self.founded) {
            None => Ok(Found::Nothing),
            Some(atom) => {
                mark_open(normal, trail, &self.founded, &mut self.part);
                let (part, wanted) = (&self.part, &mut self.wanted);
                write_loop(alloc, normal, trail, part, atom, wanted, out)?;
                Ok(Found::Loop)
            }
        }
    }

    /// Follows only assignments of the trail. It is called after each going back of the trail, and
    /// takes no memory.
    pub fn undo(&mut self, trail: &Trail)
        requires { HasGoneBack trail.now self.old.followed }
        ensures followed { AreFollowed trail.now.steps self.new.followed }
        ensures rest { self.new ≡ record self.old { followed = self.new.followed } }
    {
        let left = trail.steps().len();
        while self.count() > left {
            self.forget();
        }
    }

    /// How many atoms were founded anew, or the greatest number once it is reached.
    pub fn refounded(&self) -> u64 {
        self.sources.hints.refounded()
    }

    // Follows the assignments that the trail has beyond.
    fn follow(&mut self, trail: &Trail) -> Result<(), NoMemory>
        requires { AreFollowed trail.now.steps self.old.followed }
        ensures all { OnOk result (self.new.followed ≡ map as_followed trail.now.steps) }
        ensures followed { AreFollowed trail.now.steps self.new.followed }
        ensures rest { self.new ≡ record self.old { followed = self.new.followed } }
    {
        let steps = trail.steps();
        while self.count() < steps.len() {
            let step = steps[self.count()];
            self.follow_step(step)?;
        }
        Ok(())
    }

    // How many assignments are followed.
    fn count(&self) -> usize
        ensures { result ≡ length self.now.followed }
    {
        self.followed.len()
    }

    // Follows one assignment more.
    fn follow_step(&mut self, step: Step) -> Result<(), NoMemory>
        ensures ok { OnOk result (self.new ≡ record self.old {
          followed = self.old.followed ++ as_followed step ∷ [];
        }) }
        ensures err { OnErr result (self.new ≡ self.old) }
    {
        self.followed.push(step)?;
        self.sources.deny(&self.places, step.lit.negated());
        Ok(())
    }

    // Follows the last assignment no more.
    fn forget(&mut self)
        ensures { self.new ≡ record self.old {
          followed = take (length self.old.followed - 1) self.old.followed;
        } }
    {
        if let Some(step) = self.followed.pop() {
            self.sources.release(step.lit.negated());
        }
    }

    /// Writes a loop clause for one atom that isn't false and that no rule supports: for each rule
    /// its body's variable is false or, where it is disjunctive, another head is true. All its
    /// literals are false, or all but one, which is unset. After want of memory the clause may hold
    /// anything.
    #[tactic(auto, using(crate::proofs::LoopLemmas::covers))]
    pub fn find_single(
        &mut self,
        alloc: Global,
        normal: &Normal,
        trail: &Trail,
        out: &mut Clause,
    ) -> Result<Found, NoMemory>
        requires normal { IsNormal normal.now }
        requires same { self.old.normal ≡ normal.now }
        requires over { greatest_body_var normal.now ≤ trail.now.vars }
        ensures found { IfOk result (IsSingleAnswer normal.now trail.now out.new) }
        ensures same { self.new ≡ self.old }
    {
        clear(&mut self.founded);
        mark_supported(normal, trail, &mut self.founded);
        if let Some(atom) = first_open(normal, trail, &self.founded) {
            clear(&mut self.part);
            self.part.set(atom as usize, true);
            let (part, wanted) = (&self.part, &mut self.wanted);
            write_loop(alloc, normal, trail, part, atom, wanted, out)?;
            return Ok(Found::Loop);
        }
        Ok(Found::Nothing)
    }

    /// Writes a loop clause for the atoms that aren't false and aren't in a set that keeps the
    /// rules on the trail. All its literals are false, or all but one, which is unset. After want
    /// of memory the clause may hold anything.
    #[tactic(auto, using(crate::proofs::LoopLemmas::covers))]
    pub fn deny_others(
        &mut self,
        alloc: Global,
        normal: &Normal,
        trail: &Trail,
        set: &Set,
        out: &mut Clause,
    ) -> Result<(), NoMemory>
        requires normal { IsNormal normal.now }
        requires same { self.old.normal ≡ normal.now }
        requires over { greatest_body_var normal.now ≤ trail.now.vars }
        requires keeps { KeepsAllOn normal.now trail.now.steps set.now }
        requires lacks { LacksOne normal.now trail.now.steps set.now }
        ensures written { IfOk result (λ _. IsLoopWritten normal.now trail.now out.new) }
        ensures same { self.new ≡ self.old }
    {
        match first_open(normal, trail, set) {
            None => unreachable!(),
            Some(atom) => {
                mark_open(normal, trail, set, &mut self.part);
                let (part, wanted) = (&self.part, &mut self.wanted);
                write_loop(alloc, normal, trail, part, atom, wanted, out)
            }
        }
    }
}

impl fmt::Debug for Unfounded {
    fn fmt<W: fmt::Write>(&self, f: &mut fmt::Formatter<W>) -> fmt::Result {
        self.founded.fmt(f)
    }
}
