// A program with its normal form, and what the test answers about sets of its atoms.
ghost use Rattle.std.specs.Prelude.{◌≡◌, ◌≤◌, ◌<◌, IfOk, IfSome, IsTrue};
ghost use Rattle.ground_program.specs.Meaning.{IsSetOver};
ghost use Rattle.ground_program.specs.Program.{IsProgram};
ghost use Rattle.normal_program.specs.Normal.{KeepsAllN};
ghost use Rattle.trial_minimality.specs.Ready.{IsReady};

use crate::trials::parts::{bits_of, has, keeps_all, smaller_parts};
use crate::trials::units::{are_new, hold_in_parts};
use clause_store::{Budget, Units};
use ground_program::{Atoms, Program, Set};
use item_list::NoMemory;
use minimality_test::{Minimality, smaller};
use normal_program::Normal;
use rule_normaliser::normalise;
use std::alloc::Global;
use trial_inputs::set_of;

/// A program of fewer than 16 atoms and its normal form.
#[derive(Drop)]
pub struct Scene {
    pub program: Program,
    pub normal: Normal,
}

/// How the answer about a set was found.
#[derive(Drop, Clone, Copy, PartialEq, Eq)]
pub enum Shown {
    /// The set doesn't keep the rules of its reduct, so nothing is asked.
    NotAsked,
    /// The answer is right.
    Right,
    /// The budget was used up, and its units are right.
    Spent,
    /// Something is wrong.
    Wrong,
}

impl Scene {
    /// The scene of a program. None is one of too many atoms or variables, or want of memory.
    pub fn of(alloc: Global, program: Program) -> Option<Scene>
        requires { IsProgram program }
        ensures { IfSome result (λ it. IsReady it.program it.normal) }
    {
        if program.atoms >= 16 {
            return None;
        }
        match normalise(alloc, &program) {
            Err(_) => None,
            Ok(normal) => Some(Scene { program, normal }),
        }
    }

    /// Whether a set keeps the rules of its own reduct.
    fn keeps_own(&self, set: &Set) -> bool
        requires { IsReady self.now.program self.now.normal }
        ensures { IsTrue result → KeepsAllN self.now.normal set.now set.now }
    {
        keeps_all(&self.program, set, set)
    }

    /// What is shown of the set of these bits with a limit on its budget.
    pub fn shows(&self, alloc: Global, bits: u32, limit: u32) -> Result<Shown, NoMemory>
        requires ready { IsReady self.now.program self.now.normal }
        requires some { 1 ≤ limit }
    {
        let set = set_of(alloc, self.normal.atoms, bits)?;
        if !self.keeps_own(&set) {
            return Ok(Shown::NotAsked);
        }
        let parts = self.parts(alloc, &set, bits)?;
        let mut budget = Budget::new(limit);
        let answer = smaller(alloc, &self.normal, &set, &mut budget);
        self.judged(alloc, &set, &parts, &answer, budget.units())
    }

    /// The bits of the smaller parts of a set, by the definition.
    pub fn parts(&self, alloc: Global, set: &Set, bits: u32) -> Result<Atoms, NoMemory>
        requires { IsReady self.now.program self.now.normal }
    {
        smaller_parts(alloc, &self.program, set, bits)
    }

    /// What an answer and the units of its budget show, where these are the parts.
    fn judged(
        &self,
        alloc: Global,
        set: &Set,
        parts: &Atoms,
        answer: &Minimality,
        units: &Units,
    ) -> Result<Shown, NoMemory>
        requires ready { IsReady self.now.program self.now.normal }
        requires over { IsSetOver self.now.normal.atoms set.now }
    {
        if !self.are_right(alloc, set, parts, units)? {
            return Ok(Shown::Wrong);
        }
        Ok(told(parts.as_slice(), answer))
    }

    /// Whether units are new and hold in each part.
    fn are_right(
        &self,
        alloc: Global,
        set: &Set,
        parts: &Atoms,
        units: &Units,
    ) -> Result<bool, NoMemory>
        requires ready { IsReady self.now.program self.now.normal }
        requires over { IsSetOver self.now.normal.atoms set.now }
    {
        if !are_new(alloc, &self.normal, set, units)? {
            return Ok(false);
        }
        hold_in_parts(alloc, &self.normal, set, parts.as_slice(), units)
    }
}

/// What an answer shows, where these are the parts.
fn told(parts: &[u32], answer: &Minimality) -> Shown {
    let right = match answer {
        Minimality::Minimal => parts.is_empty(),
        Minimality::Smaller(part) => has(parts, bits_of(part.as_slice())),
        Minimality::Spent => return Shown::Spent,
        Minimality::NoMemory => false,
    };
    if right { Shown::Right } else { Shown::Wrong }
}
