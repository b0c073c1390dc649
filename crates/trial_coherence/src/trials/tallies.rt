// What is counted while tests run, so that none of them shows nothing.
use coherence_test::Tested;

/// How often a test stopped before it was done.
#[derive(Debug, Drop, Clone, Copy)]
pub struct Stops {
    /// Spent or Paused.
    pub outside: u32,
    /// Which budgets were spent and which slices were used up so, each number by its bit.
    pub budgets: u32,
    pub slices: u32,
    /// SpentInside.
    pub inside: u32,
}

impl Stops {
    pub fn none() -> Stops {
        Stops {
            outside: 0,
            budgets: 0,
            slices: 0,
            inside: 0,
        }
    }

    /// Counts a stop with a budget and a slice.
    pub fn count(&mut self, tested: &Tested, limit: u32, slice: u32) {
        match tested {
            Tested::Spent => {
                self.outside = self.outside.saturating_add(1);
                self.budgets |= 1 << (limit % 32);
            }
            Tested::Paused => {
                self.outside = self.outside.saturating_add(1);
                self.slices |= 1 << (slice % 32);
            }
            Tested::SpentInside { .. } => self.inside = self.inside.saturating_add(1),
            Tested::Found(_) | Tested::Core(_) | Tested::NoMemory => {}
        }
    }

    pub fn add(&mut self, other: Stops) {
        self.outside = self.outside.saturating_add(other.outside);
        self.budgets |= other.budgets;
        self.slices |= other.slices;
        self.inside = self.inside.saturating_add(other.inside);
    }

    /// Whether budgets of 1, 2 and 3 were spent, and slices of 1 and of 2 were used up.
    pub fn are_of_each_kind(&self) -> bool {
        self.budgets & 0b1110 == 0b1110 && self.slices == 0b110
    }
}

/// What a counted clause is to a tester that hands clauses on.
#[derive(Drop, Clone, Copy)]
pub enum Kind {
    /// One to three literals of atoms and bodies.
    One,
    Two,
    Three,
    /// More of them.
    Long,
    /// It has the literal of a selector.
    Selected,
}

/// How many clauses of each kind were counted.
#[derive(Debug, Drop, Clone, Copy)]
pub struct Kinds {
    pub ones: u32,
    pub twos: u32,
    pub threes: u32,
    pub long: u32,
    pub selected: u32,
}

impl Kinds {
    pub fn none() -> Kinds {
        Kinds {
            ones: 0,
            twos: 0,
            threes: 0,
            long: 0,
            selected: 0,
        }
    }

    pub fn count(&mut self, kind: Kind) {
        match kind {
            Kind::One => self.ones = self.ones.saturating_add(1),
            Kind::Two => self.twos = self.twos.saturating_add(1),
            Kind::Three => self.threes = self.threes.saturating_add(1),
            Kind::Long => self.long = self.long.saturating_add(1),
            Kind::Selected => self.selected = self.selected.saturating_add(1),
        }
    }

    pub fn add(&mut self, other: Kinds) {
        self.ones = self.ones.saturating_add(other.ones);
        self.twos = self.twos.saturating_add(other.twos);
        self.threes = self.threes.saturating_add(other.threes);
        self.long = self.long.saturating_add(other.long);
        self.selected = self.selected.saturating_add(other.selected);
    }

    /// Whether there was each kind.
    pub fn has_each(&self) -> bool {
        self.ones > 0 && self.twos > 0 && self.threes > 0 && self.long > 0 && self.selected > 0
    }
}
