// A normal form with its weights and a trail.
ghost use Rattle.std.specs.Prelude.{◌≡◌, ◌≤◌, IfOk};
ghost use Rattle.normal_program.specs.Limit.{IsNormal};
ghost use Rattle.trial_weights.specs.Ready.{IsReady};

use clause_store::{Clause, Lit, Says, Trail, Value};
use item_list::NoMemory;
use normal_program::Normal;
use std::alloc::Global;
use weight_propagator::Weights;

/// A normal form, its weights, and a trail over its atoms and bodies.
#[derive(Drop)]
pub struct Scene {
    pub normal: Normal,
    pub trail: Trail,
    pub weights: Weights,
}

impl Scene {
    /// The scene of a normal form, with nothing assigned.
    pub fn open(alloc: Global, normal: Normal) -> Result<Scene, NoMemory>
        requires { IsNormal normal }
        ensures { IfOk result (λ it. IsReady it.normal it.trail it.weights) }
    {
        let trail = Trail::open(alloc, normal.greatest_body_var())?;
        let weights = Weights::open(alloc, &normal)?;
        Ok(Scene {
            normal,
            trail,
            weights,
        })
    }

    /// Asks for a clause.
    pub fn ask(&mut self, alloc: Global, out: &mut Clause) -> Result<Says, NoMemory>
        requires { IsReady self.old.normal self.old.trail self.old.weights }
        ensures { IsReady self.new.normal self.new.trail self.new.weights }
    {
        self.weights
            .propagate(alloc, &self.normal, &self.trail, out)
    }

    /// Makes a literal true, where it is one of the trail's and unset.
    pub fn decide(&mut self, lit: Lit)
        requires { IsReady self.old.normal self.old.trail self.old.weights }
        ensures { IsReady self.new.normal self.new.trail self.new.weights }
    {
        if self.trail.has(lit) && matches!(self.trail.value(lit), Value::Unset) {
            self.trail.decide(lit);
        }
    }

    /// Goes back to half of the present level.
    pub fn go_back(&mut self)
        requires { IsReady self.old.normal self.old.trail self.old.weights }
        ensures { IsReady self.new.normal self.new.trail self.new.weights }
    {
        let level = self.trail.level() / 2;
        let _ = self.trail.steps().len();
        self.trail.back_to(level);
        self.weights.undo(&self.trail);
    }
}
