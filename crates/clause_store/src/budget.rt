// A budget counts the clauses that a search learned.
ghost use Rattle.std.specs.Prelude.{◌≡◌, ◌<◌, [], ◌∷◌, ◌++◌, length, ◌≤◌, OnOk, OnErr};

use crate::{Clause, Lit, Units};
use item_list::{List, NoMemory};
use std::alloc::Global;
use std::marker::Model;

/// How many clauses may be counted, and the clauses that were.
#[derive(Debug, Drop)]
pub struct Budget {
    limit: u32,
    units: Units,
}

impl Model for Budget {
    ghost use Rattle.std.specs.Prelude.{length, ◌≤◌, ◌<◌, ◌^◌};
    ghost use Rattle.clause_store.specs.Counted.{Counted};

    ghost Value = { Counted };

    ghost view = { λ budget. record { limit = budget.limit; units = budget.units } };

    ghost invariant = { λ budget. (length budget.units ≤ budget.limit) × (budget.limit < 2 ^ 32) };
}

impl Budget {
    /// A budget of which nothing is used.
    pub fn new(limit: u32) -> Budget
        ensures { result ≡ record { limit = limit; units = [] } }
    {
        Budget {
            limit,
            units: List::open(),
        }
    }

    /// How many clauses may be counted in all.
    pub fn limit(&self) -> u32
        ensures { result ≡ self.now.limit }
    {
        self.limit
    }

    /// How many were counted.
    pub fn used(&self) -> u32
        ensures used { result ≡ length self.now.units }
        ensures within { result ≤ self.now.limit }
    {
        self.units.len() as u32
    }

    /// The clauses that were counted, in order.
    pub fn units(&self) -> &Units
        ensures { result.now ≡ self.now.units }
    {
        &self.units
    }

    /// The clauses that were counted, in order.
    pub fn into_units(self) -> Units
        ensures { result ≡ self.units }
    {
        self.units
    }

    /// Counts a clause, which is put last. After want of memory the budget is as before.
    pub fn count(&mut self, alloc: Global, unit: &[Lit]) -> Result<(), NoMemory>
        requires { length self.old.units < self.old.limit }
        ensures ok { OnOk result
            (self.new ≡ record self.old { units = self.old.units ++ unit.now ∷ [] }) }
        ensures err { OnErr result (self.new ≡ self.old) }
    {
        let copy = Clause::from_slice(alloc, unit)?;
        self.units.push(alloc, copy)
    }
}
