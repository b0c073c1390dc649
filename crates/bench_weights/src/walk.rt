// A walk: variables are decided as if by chance, and the clauses that weight bodies give are
// followed.
ghost use Rattle.std.specs.Prelude.{◌≡◌, true};
ghost use Rattle.clause_store.specs.declared.literal.Value.TheVariants.{Unset};
ghost use Rattle.clause_store.specs.Clause.{IsOver};
ghost use Rattle.clause_store.specs.Trail.{value_of};
ghost use Rattle.normal_program.specs.Limit.{IsNormal};

use clause_store::{Clause, Lit, Says, Trail, Value};
use item_list::NoMemory;
use normal_program::Normal;
use std::alloc::Global;
use std::marker::Model;
use weight_propagator::Weights;

/// What a walk did.
#[derive(Debug, Drop, Clone, Copy)]
pub struct Counts {
    /// How many clauses were given.
    pub clauses: u64,
    /// How many literals they have together.
    pub literals: u64,
    /// How many variables were assigned, each as often as it was.
    pub assigned: u64,
}

/// A normal form, its weights, and a trail that they follow.
#[derive(Drop)]
pub struct Walk {
    normal: Normal,
    trail: Trail,
    weights: Weights,
    given: Clause,
    counts: Counts,
}

impl Model for Walk {
    ghost use Rattle.std.specs.Prelude.{◌≡◌, ◌≤◌};
    ghost use Rattle.clause_store.specs.Standing.{AreFollowed};
    ghost use Rattle.normal_program.specs.Limit.{IsNormal};
    ghost use Rattle.normal_program.specs.Normal.{greatest_body_var};
    ghost use Rattle.weight_propagator.specs.Weighed.{Weighed};

    ghost Value = { Weighed };

    ghost view = { λ it. it.weights };

    ghost invariant = { λ it. IsNormal it.normal × (it.weights.normal ≡ it.normal)
        × (greatest_body_var it.normal ≤ it.trail.vars)
        × AreFollowed it.trail.steps it.weights.followed };
}

impl Walk {
    /// A walk that has nothing assigned.
    pub fn open(alloc: Global, normal: Normal) -> Result<Walk, NoMemory>
        requires { IsNormal normal }
    {
        let trail = Trail::open(alloc, normal.greatest_body_var())?;
        let weights = Weights::open(alloc, &normal)?;
        let counts = Counts {
            clauses: 0,
            literals: 0,
            assigned: 0,
        };
        Ok(Walk {
            normal,
            trail,
            weights,
            given: Clause::open(),
            counts,
        })
    }

    /// What was done so far.
    pub fn counts(&self) -> Counts {
        self.counts
    }

    /// So many turns: a variable is decided, and what is given is followed. Each 256th turn begins
    /// with going back.
    pub fn run(&mut self, alloc: Global, turns: u32) -> Result<(), NoMemory> {
        let mut state = 1;
        for turn in 0..turns {
            if turn % 256 == 255 {
                self.go_back();
            }
            state = next(state);
            self.decide(self.chosen(state));
            self.settle(alloc)?;
        }
        Ok(())
    }

    // The literal that a number chooses.
    fn chosen(&self, state: u32) -> Lit {
        let var = (state >> 12) % (self.trail.vars() + 1);
        Lit(2 * var + (state >> 11 & 1))
    }

    // Follows what is given, until nothing is.
    fn settle(&mut self, alloc: Global) -> Result<(), NoMemory> {
        for _ in 0..self.trail.vars() {
            let says = self
                .weights
                .propagate(alloc, &self.normal, &self.trail, &mut self.given)?;
            match says {
                Says::Quiet => return Ok(()),
                Says::Clause => self.follow(),
            }
        }
        Ok(())
    }

    // Makes the unset literal of the clause true. Where it has none, the trail goes back.
    fn follow(&mut self) {
        let count = self.given.len() as u64;
        self.counts.clauses = self.counts.clauses.saturating_add(1);
        self.counts.literals = self.counts.literals.saturating_add(count);
        match unset_of(&self.trail, &self.given) {
            None => self.go_back(),
            Some(lit) => self.decide(lit),
        }
    }

    // Makes a literal true, where it is one of the trail's and unset.
    fn decide(&mut self, lit: Lit) {
        if is_unset(&self.trail, lit) {
            self.trail.decide(lit);
            self.counts.assigned = self.counts.assigned.saturating_add(1);
        }
    }

    // Goes back to half of the present level.
    fn go_back(&mut self) {
        let level = self.trail.level() / 2;
        let _ = self.trail.steps().len();
        self.trail.back_to(level);
        self.weights.undo(&self.trail);
    }
}

// Whether a literal is one of the trail's and unset.
fn is_unset(trail: &Trail, lit: Lit) -> bool
    ensures over { result ≡ true → IsOver trail.now.vars lit }
    ensures unset { result ≡ true → value_of trail.now.steps lit ≡ Unset }
{
    trail.has(lit) && matches!(trail.value(lit), Value::Unset)
}

// The unset literal of a clause.
fn unset_of(trail: &Trail, clause: &Clause) -> Option<Lit> {
    for lit in clause.as_slice() {
        if is_unset(trail, *lit) {
            return Some(*lit);
        }
    }
    None
}

// A number that follows another as if by chance.
fn next(state: u32) -> u32 {
    state.wrapping_mul(1_664_525).wrapping_add(1_013_904_223)
}
