// Literals that are decided before all others until a question has had some conflicts. Each
// answer settles those that it makes true, so one answer shows many of them.
ghost use Rattle.std.specs.Prelude.{◌≡◌, IfSome, IsTrue};
ghost use Rattle.clause_store.specs.Clause.{IsOver};
ghost use Rattle.clause_store.specs.Trail.{value_of};

use clause_store::{Lit, Trail, Value, Var};
use item_list::NoMemory;
use std::alloc::Global;

/// How many conflicts a question has before its sought literals wait for the next one.
const PATIENCE: u32 = 10;

/// The place of a variable of which no literal is sought.
const ABSENT: u32 = u32::MAX;

/// The literals that are sought, in their order. Which of them come next is a hint: no answer of
/// a search rests on it.
#[derive(Debug, Drop)]
pub struct Sought {
    lits: Vec<Lit>,
    /// For each variable the place of its literal.
    places: Vec<u32>,
    /// Those before this place are assigned at level 0.
    first: usize,
    /// Those before this place are assigned.
    passed: usize,
    /// How many conflicts are left to this question.
    patience: u32,
}

impl Sought {
    /// Nothing is sought. It takes no memory.
    pub fn open(alloc: Global) -> Sought {
        Sought {
            lits: Vec::new(alloc),
            places: Vec::new(alloc),
            first: 0,
            passed: 0,
            patience: 0,
        }
    }

    /// The same literals again.
    pub fn copy(&self, alloc: Global) -> Result<Sought, NoMemory> {
        let lits = Vec::from_slice(alloc, self.lits.as_slice())?;
        let places = Vec::from_slice(alloc, self.places.as_slice())?;
        Ok(Sought {
            lits,
            places,
            first: self.first,
            passed: self.passed,
            patience: self.patience,
        })
    }

    /// Seeks these literals of the first `count` variables, from 0, and no others. They come from
    /// the next question on.
    pub fn seek(&mut self, alloc: Global, count: usize, lits: &[Lit]) -> Result<(), NoMemory> {
        let copied = Vec::from_slice(alloc, lits)?;
        let places = vec![in alloc; ABSENT; count]?;
        self.lits = copied;
        self.places = places;
        self.number_again();
        Ok(())
    }

    /// A question begins on a trail of level 0, or goes on after so many conflicts.
    pub fn begin(&mut self, trail: &Trail, conflicts: u32) {
        self.patience = PATIENCE.saturating_sub(conflicts);
        self.first = first_unset(self.lits.as_slice(), trail, self.first);
        self.passed = self.first;
    }

    /// The next sought literal that is unset, while the question is young.
    pub fn next(&mut self, trail: &Trail) -> Option<Lit>
        ensures over { IfSome result (IsOver trail.now.vars) }
        ensures unset { IfSome result (λ lit. value_of trail.now.steps lit ≡ Value.Unset) }
    {
        if self.patience == 0 {
            return None;
        }
        self.passed = first_unset(self.lits.as_slice(), trail, self.passed);
        let lit = *self.lits.get(self.passed)?;
        if is_unset(trail, lit) {
            return Some(lit);
        }
        None
    }

    /// There was a conflict. Whether it was the one after which sought literals wait.
    pub fn gives_up(&mut self) -> bool {
        if self.patience == 0 {
            return false;
        }
        self.patience -= 1;
        self.patience == 0
    }

    /// A variable is unset again.
    pub fn put_back(&mut self, var: Var) {
        let place = self.places.get(var.0 as usize).copied().unwrap_or(ABSENT);
        self.passed = self.passed.min(place as usize);
    }

    /// Settles the literals that are true on the trail of an answer.
    pub fn settle(&mut self, trail: &Trail) {
        let mut kept = 0;
        for at in 0..self.lits.len() {
            let lit = self.lits[at];
            if is_true(trail, lit) {
                set_place(self.places.as_mut_slice(), lit.var(), ABSENT);
            } else if kept <= at {
                self.lits[kept] = lit;
                kept += 1;
            }
        }
        self.lits.truncate(kept);
        self.number_again();
    }

    /// Numbers the literals by their places. The next question begins with the first of them.
    fn number_again(&mut self) {
        number(self.lits.as_slice(), self.places.as_mut_slice());
        self.first = 0;
        self.passed = 0;
    }
}

/// Keeps for the variable of each literal its place.
fn number(lits: &[Lit], places: &mut [u32]) {
    for (at, lit) in lits.iter().enumerate() {
        set_place(places, lit.var(), at.min(ABSENT as usize) as u32);
    }
}

/// Keeps the place of a variable's literal.
fn set_place(places: &mut [u32], var: Var, place: u32) {
    let at = var.0 as usize;
    if at < places.len() {
        places[at] = place;
    }
}

/// The place of the first literal from a place on that is unset, or the number of the literals.
fn first_unset(lits: &[Lit], trail: &Trail, start: usize) -> usize {
    for at in start..lits.len() {
        if is_unset(trail, lits[at]) {
            return at;
        }
    }
    lits.len()
}

/// Whether a literal is of the trail's variables and unset.
fn is_unset(trail: &Trail, lit: Lit) -> bool
    ensures over { IsTrue result → IsOver trail.now.vars lit }
    ensures unset { IsTrue result → value_of trail.now.steps lit ≡ Value.Unset }
{
    trail.has(lit) && trail.value(lit) == Value::Unset
}

/// Whether a literal is of the trail's variables and true.
fn is_true(trail: &Trail, lit: Lit) -> bool {
    trail.has(lit) && trail.value(lit) == Value::Yes
}
