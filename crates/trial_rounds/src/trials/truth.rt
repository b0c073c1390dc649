// What is true of a program, by the definition of an answer set.
ghost use Rattle.std.specs.Prelude.{◌<◌};

use ground_program::{Mode, Program, Set, Sets, has_atom};
use item_list::NoMemory;
use plain_answer_sets::is_answer_set;
use std::alloc::Global;
use trial_inputs::set_of;

/// All answer sets of a program.
#[derive(Drop)]
pub struct Truth {
    sets: Sets,
}

impl Truth {
    /// Tries every set of the atoms.
    pub fn of(alloc: Global, program: &Program) -> Result<Truth, NoMemory>
        requires { program.now.atoms < 32 }
    {
        let mut truth = Truth { sets: Sets::open() };
        for bits in 0..1u32 << program.atoms {
            let set = set_of(alloc, program.atoms, bits)?;
            truth.try_set(alloc, program, set)?;
        }
        Ok(truth)
    }

    /// Keeps a set, if it is an answer set.
    fn try_set(&mut self, alloc: Global, program: &Program, set: Set) -> Result<(), NoMemory> {
        if is_answer_set(alloc, program, &set)? {
            self.sets.push(alloc, set)?;
        }
        Ok(())
    }

    /// There is no answer set.
    pub fn is_incoherent(&self) -> bool {
        self.sets.len() == 0
    }

    /// The set is an answer set.
    pub fn has(&self, set: &[bool]) -> bool {
        self.sets
            .as_slice()
            .iter()
            .any(|known| known.as_slice() == set)
    }

    /// The atom is in every answer set, or in brave mode in some.
    pub fn is_consequence(&self, mode: Mode, atom: u32) -> bool {
        let sets = self.sets.as_slice();
        match mode {
            Mode::Cautious => sets.iter().all(|set| has_atom(set.as_slice(), atom)),
            Mode::Brave => sets.iter().any(|set| has_atom(set.as_slice(), atom)),
        }
    }
}
