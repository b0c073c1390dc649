// The literals of all clauses stand in one array, one clause behind the other. A second array says
// where each begins and where the last one ends: the end of a clause is the beginning of the next.
ghost use Rattle.std.specs.Prelude.{◌≡◌, ◌<◌, ◌≤◌, ◌^◌, ◌+◌, [], ◌∷◌, ◌++◌, length, slice_get};
ghost use Rattle.std.specs.Prelude.{Some, IfOk, OnOk, OnErr, slice_range};
ghost use Rattle.clause_store.specs.Clause.{IsClause};

use crate::{ClauseRef, Lit};
use item_list::NoMemory;
use std::alloc::Global;
use std::marker::Model;

/// The greatest number of clauses, and of literals of all clauses.
const MOST: usize = 4294967295;

/// The clauses of a store.
#[derive(Debug, Drop)]
pub struct ClauseArrays {
    lits: Vec<Lit>,
    bounds: Vec<u32>,
}

impl Model for ClauseArrays {
    ghost use Rattle.std.specs.Prelude.{List, vec_len};
    ghost use Rattle.clause_store.specs.declared.literal.Lit.{Lit};
    ghost use Rattle.clause_store.specs.Layout.{clauses_of, IsLaidOut};

    ghost Value = { List (List Lit) };

    ghost view = { λ it. clauses_of it.lits.items it.bounds.items };

    ghost invariant = { λ it. IsLaidOut it.lits.items it.bounds.items };
}

impl ClauseArrays {
    /// No clause.
    pub fn open(alloc: Global) -> Result<ClauseArrays, NoMemory>
        ensures { IfOk result (λ it. it ≡ []) }
    {
        let bounds = Vec::from_slice(alloc, &[0])?;
        Ok(ClauseArrays {
            lits: Vec::new(alloc),
            bounds,
        })
    }

    /// The number of clauses.
    pub fn len(&self) -> usize
        ensures len { result ≡ length self.now }
        ensures few { result < 2 ^ 32 }
    {
        self.bounds.len() - 1
    }

    /// The literals of a clause.
    pub fn lits(&self, at: ClauseRef) -> &[Lit]
        requires { at.0 < length self.now }
        ensures lits { slice_get self.now at.0 ≡ Some result.now }
        ensures clause { IsClause result.now }
    {
        let start = self.bounds[at.0];
        let end = self.bounds[at.0 + 1];
        part(self.lits.as_slice(), start, end)
    }

    /// Puts the clause last. After want of memory nothing has changed.
    pub fn add(&mut self, lits: &[Lit]) -> Result<ClauseRef, NoMemory>
        requires { IsClause lits.now }
        ensures at { IfOk result (λ at. at.0 ≡ length self.old) }
        ensures ok { OnOk result (self.new ≡ self.old ++ lits.now ∷ []) }
        ensures err { OnErr result (self.new ≡ self.old) }
    {
        let at = self.len();
        if at == MOST || MOST - self.lits.len() < lits.len() {
            return Err(NoMemory);
        }
        self.bounds.reserve(1)?;
        self.lits.extend_from_slice(lits)?;
        self.bounds.push_reserved(self.lits.len() as u32);
        Ok(ClauseRef(at))
    }

    /// The same clauses again.
    pub fn copy(&self, alloc: Global) -> Result<ClauseArrays, NoMemory>
        ensures { IfOk result (λ it. it ≡ self.now) }
    {
        let lits = Vec::from_slice(alloc, self.lits.as_slice())?;
        let bounds = Vec::from_slice(alloc, self.bounds.as_slice())?;
        Ok(ClauseArrays { lits, bounds })
    }
}

/// The literals from one place up to another.
fn part(lits: &[Lit], start: u32, end: u32) -> &[Lit]
    requires order { start ≤ end }
    requires within { end ≤ length lits.now }
    ensures { result.now ≡ slice_range lits.now start end }
{
    &lits[start as usize..end as usize]
}
