use clause_store::{Lit, Units};
use ground_program::Set;
use item_list::{Copied, List, NoMemory};
use std::alloc::Global;

/// Tests that used up their budgets.
pub type Tests = List<SpentTest>;

/// A test that used up its budget.
#[derive(Debug, Drop)]
pub struct SpentTest {
    /// The literal of the tested candidate, or none where all candidates or coherence was tested.
    pub literal: Option<Lit>,
    /// The number of the worker that made the test, from 1.
    pub by: u32,
    /// How many clauses could be learned.
    pub budget: u32,
    /// The clauses that were learned.
    pub units: Units,
    /// The set whose minimality test learned the units, or none where the test itself did.
    pub inside: Option<Set>,
}

impl Copied for SpentTest {
    fn copied(&self, alloc: Global) -> Result<SpentTest, NoMemory> {
        let units = self.units.copy(alloc)?;
        let inside = match &self.inside {
            None => None,
            Some(set) => Some(set.copy(alloc)?),
        };
        Ok(SpentTest {
            literal: self.literal,
            by: self.by,
            budget: self.budget,
            units,
            inside,
        })
    }
}
