// Which calls of an edge in memory fail.
ghost use Rattle.std.specs.Prelude.{◌≡◌, ◌↔◌, IsTrue};
ghost use Rattle.byte_edges.specs.Faults.{one_more};
ghost use Rattle.byte_edges.specs.Memory.{IsListed};

use crate::Failed;

/// The numbers of the calls that fail, and how many calls were made and failed.
#[derive(Debug, Drop)]
pub struct Schedule {
    pub fails: Vec<u64>,
    pub calls: u64,
    pub faults: u64,
}

impl Schedule {
    /// Counts a call, and says whether its number is one of those that fail.
    pub fn count_call(&mut self) -> bool
        ensures listed { IsTrue result ↔ IsListed self.old.fails.items self.old.calls }
        ensures after { self.new ≡ record self.old { calls = one_more self.old.calls } }
    {
        match self.calls.checked_add(1) {
            Some(number) => {
                self.calls = number;
                self.fails.contains(&number)
            }
            None => false,
        }
    }

    /// Counts a fault.
    pub fn count_fault(&mut self) -> Failed
        ensures after { self.new ≡ record self.old { faults = one_more self.old.faults } }
    {
        self.faults = self.faults.saturating_add(1);
        Failed {}
    }
}
