// How many levels the literals of a clause were assigned at.
ghost use Rattle.std.specs.Prelude.{◌≡◌, ◌<◌, ◌≤◌, ◌^◌, length};

use clause_store::{Lit, Trail};
use item_list::NoMemory;
use std::alloc::Global;

/// Counts levels. Each count has a number of its own, which it writes down beside the levels that
/// it met, so nothing has to be taken away after it.
#[derive(Debug, Drop)]
pub struct LevelCounter {
    met_in: Vec<u32>,
    count: u32,
}

impl LevelCounter {
    /// A counter of the levels of a trail over the variables 1 to `vars`. `levels_of` takes no
    /// memory.
    pub fn open(alloc: Global, vars: u32) -> Result<LevelCounter, NoMemory>
        requires { vars < 2 ^ 31 }
    {
        let met_in = vec![in alloc; 0; vars as usize + 1]?;
        Ok(LevelCounter { met_in, count: 0 })
    }

    /// The number of levels at which the variables of a clause were assigned.
    pub fn levels_of(&mut self, trail: &Trail, clause: &[Lit]) -> u32 {
        self.begin();
        let mut levels: u32 = 0;
        for lit in clause {
            if self.is_new(trail, *lit) {
                levels = levels.saturating_add(1);
            }
        }
        levels
    }

    /// Gives the next count its number. Where the numbers end, all levels are forgotten first.
    fn begin(&mut self) {
        if self.count == u32::MAX {
            self.met_in.fill(0);
            self.count = 0;
        }
        self.count += 1;
    }

    /// Whether a literal is of a level that this count hasn't met, which it has from then on.
    fn is_new(&mut self, trail: &Trail, lit: Lit) -> bool {
        if !trail.has(lit) {
            return false;
        }
        match trail.level_of(lit.var()) {
            Some(level) => self.meet(level as usize),
            None => false,
        }
    }

    /// Meets a level; answers whether it is new.
    fn meet(&mut self, level: usize) -> bool {
        if level < self.met_in.len() && self.met_in[level] != self.count {
            self.met_in[level] = self.count;
            return true;
        }
        false
    }
}
