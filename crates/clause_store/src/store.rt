// A store that has no clause has no arrays, so that opening one takes no memory and no allocator.
ghost use Rattle.std.specs.Prelude.{◌≡◌, ◌<◌, ◌^◌, [], ◌∷◌, ◌++◌, length, slice_get, Some, IfOk};
ghost use Rattle.std.specs.Prelude.{OnOk, OnErr};
ghost use Rattle.clause_store.specs.Clause.{IsClause};
ghost use Rattle.clause_store.specs.Trail.{KeepsTrails};

use crate::clause_arrays::ClauseArrays;
use crate::{ClauseRef, Lit};
use item_list::NoMemory;
use std::alloc::Global;
use std::marker::Model;

/// A list of clauses that only grows.
///
/// It holds at most 4,294,967,295 clauses, with as many literals in all.
#[derive(Debug, Drop)]
pub struct Store {
    held: Option<ClauseArrays>,
}

impl Model for Store {
    ghost use Rattle.std.specs.Prelude.{List, []};
    ghost use Rattle.std.specs.Option.{option_map_or};
    ghost use Rattle.clause_store.specs.declared.literal.Lit.{Lit};

    ghost Value = { List (List Lit) };

    ghost view = { λ store. option_map_or (λ arrays. arrays) store.held [] };
}

impl Store {
    /// The store with no clause. It takes no memory.
    pub fn open() -> Store
        ensures { result ≡ [] }
    {
        Store { held: None }
    }

    /// Puts the clause last. A trail of the store stays one. After want of memory the store is as
    /// before. A clause for which the store has no number or no place left is want of memory too.
    pub fn add(&mut self, alloc: Global, lits: &[Lit]) -> Result<ClauseRef, NoMemory>
        requires { IsClause lits.now }
        ensures at { IfOk result (λ at. at.0 ≡ length self.old) }
        ensures ok { OnOk result (self.new ≡ self.old ++ lits.now ∷ []) }
        ensures err { OnErr result (self.new ≡ self.old) }
        ensures trails { KeepsTrails self.old self.new }
    {
        self.put(alloc, lits)
    }

    /// The literals of a clause, in the order in which they were added.
    pub fn lits(&self, at: ClauseRef) -> &[Lit]
        requires { at.0 < length self.now }
        ensures lits { slice_get self.now at.0 ≡ Some result.now }
        ensures clause { IsClause result.now }
    {
        match &self.held {
            Some(arrays) => arrays.lits(at),
            None => unreachable!(),
        }
    }

    /// The number of clauses.
    pub fn len(&self) -> usize
        ensures len { result ≡ length self.now }
        ensures few { result < 2 ^ 32 }
    {
        match &self.held {
            Some(arrays) => arrays.len(),
            None => 0,
        }
    }

    /// A store with the same clauses.
    pub fn copy(&self, alloc: Global) -> Result<Store, NoMemory>
        ensures { IfOk result (λ it. it ≡ self.now) }
    {
        match &self.held {
            Some(arrays) => {
                let again = arrays.copy(alloc)?;
                Ok(Store { held: Some(again) })
            }
            None => Ok(Store::open()),
        }
    }
    /// Puts the clause last.
    fn put(&mut self, alloc: Global, lits: &[Lit]) -> Result<ClauseRef, NoMemory>
        requires { IsClause lits.now }
        ensures at { IfOk result (λ at. at.0 ≡ length self.old) }
        ensures ok { OnOk result (self.new ≡ self.old ++ lits.now ∷ []) }
        ensures err { OnErr result (self.new ≡ self.old) }
    {
        match &mut self.held {
            Some(arrays) => arrays.add(lits),
            None => {
                let mut arrays = ClauseArrays::open(alloc)?;
                let at = arrays.add(lits)?;
                self.held = Some(arrays);
                Ok(at)
            }
        }
    }
}
