// The atoms of the pair program that stand for the whole of a pair, assumed to be a set.
ghost use Rattle.std.specs.Prelude.{◌≡◌, ◌≤◌, ◌<◌, ◌^◌, length, OnOk};
ghost use Rattle.kept_minimality.specs.Asking.{assumed_for, literal_in};

use clause_store::{Clause, Lit, Var};
use ground_program::Set;
use item_list::NoMemory;
use std::alloc::Global;

/// Leaves the literals that make the whole of a pair the set: each atom from 1 on, as it is in the
/// set. After want of memory there may be any.
pub(crate) fn assume(alloc: Global, set: &Set, lits: &mut Clause) -> Result<(), NoMemory>
    requires some { 1 ≤ length set.now }
    requires few { length set.now ≤ 2 ^ 31 }
    ensures { OnOk result (lits.new ≡ assumed_for set.now) }
{
    lits.clear();
    for atom in 1..set.len() as u32 {
        lits.push(alloc, literal_for(set, atom))?;
    }
    Ok(())
}

/// An atom where it is in the set, else its negation.
fn literal_for(set: &Set, atom: u32) -> Lit
    requires within { atom < length set.now }
    requires few { atom < 2 ^ 31 }
    ensures { result ≡ literal_in set.now atom }
{
    if *set.get(atom as usize) {
        Var(atom).positive()
    } else {
        Var(atom).negative()
    }
}
