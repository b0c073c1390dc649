// A clause keeps up to four literals in place. One that holds nothing has no vector, so that
// opening it takes no memory and no allocator.
ghost use Rattle.std.specs.Prelude.{◌≡◌, [], ◌∷◌, ◌++◌, ◌<◌, length, take, slice_get, slice_set};
ghost use Rattle.std.specs.Prelude.{Some, OnOk, OnErr, IfOk};

use crate::Lit;
use item_list::{Copied, List, NoMemory};
use smallvec::SmallVec;
use std::alloc::Global;
use std::marker::Model;

/// Clauses in order.
pub type Units = List<Clause>;

/// A disjunction of literals, which contracts see as their list.
#[derive(Debug, Drop)]
pub struct Clause {
    held: Option<SmallVec<Lit, 4>>,
}

impl Model for Clause {
    ghost use Rattle.std.specs.Prelude.{List, []};
    ghost use Rattle.std.specs.Option.{option_map_or};
    ghost use Rattle.clause_store.specs.declared.literal.Lit.{Lit};

    ghost Value = { List Lit };

    ghost view = { λ it. option_map_or (λ v. v.items) it.held [] };
}

impl Clause {
    /// The empty clause. It takes no memory.
    pub fn open() -> Clause
        ensures { result ≡ [] }
    {
        Clause { held: None }
    }

    /// The number of literals.
    pub fn len(&self) -> usize
        ensures { result ≡ length self.now }
    {
        match &self.held {
            None => 0,
            Some(lits) => lits.len(),
        }
    }

    /// The literal at place `at`, from 0.
    pub fn get(&self, at: usize) -> &Lit
        requires { at < length self.now }
        ensures { slice_get self.now at ≡ Some result.now }
    {
        &self.as_slice()[at]
    }

    /// All literals in order.
    pub fn as_slice(&self) -> &[Lit]
        ensures { result.now ≡ self.now }
    {
        match &self.held {
            None => &[],
            Some(lits) => lits.as_slice(),
        }
    }

    /// Puts the literal last. After want of memory the clause is as before.
    pub fn push(&mut self, alloc: Global, lit: Lit) -> Result<(), NoMemory>
        ensures ok { OnOk result (self.new ≡ self.old ++ lit ∷ []) }
        ensures err { OnErr result (self.new ≡ self.old) }
    {
        match &mut self.held {
            Some(lits) => match lits.push(lit) {
                Ok(()) => Ok(()),
                Err(_) => Err(NoMemory),
            },
            None => {
                let mut lits = SmallVec::new(alloc);
                match lits.push(lit) {
                    Ok(()) => {
                        self.held = Some(lits);
                        Ok(())
                    }
                    Err(_) => Err(NoMemory),
                }
            }
        }
    }

    /// Puts a literal in the place of the one at place `at`, from 0.
    pub fn set(&mut self, at: usize, lit: Lit)
        requires { at < length self.old }
        ensures { self.new ≡ slice_set self.old at lit }
    {
        match &mut self.held {
            Some(lits) => lits[at] = lit,
            None => unreachable!(),
        }
    }

    /// Keeps the first `len` literals.
    pub fn truncate(&mut self, len: usize)
        ensures { self.new ≡ take len self.old }
    {
        if let Some(lits) = &mut self.held {
            lits.truncate(len);
        }
    }

    /// Leaves the empty clause.
    pub fn clear(&mut self)
        ensures { self.new ≡ [] }
    {
        if let Some(lits) = &mut self.held {
            lits.clear();
        }
    }

    /// The same clause again.
    pub fn copy(&self, alloc: Global) -> Result<Clause, NoMemory>
        ensures { IfOk result (λ it. it ≡ self.now) }
    {
        Clause::from_slice(alloc, self.as_slice())
    }

    /// The clause of these literals.
    pub fn from_slice(alloc: Global, lits: &[Lit]) -> Result<Clause, NoMemory>
        ensures { IfOk result (λ it. it ≡ lits.now) }
    {
        let held = SmallVec::from_slice(alloc, lits)?;
        Ok(Clause { held: Some(held) })
    }
}

impl Copied for Clause {
    fn copied(&self, alloc: Global) -> Result<Clause, NoMemory> {
        self.copy(alloc)
    }
}
