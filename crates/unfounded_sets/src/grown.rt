// The set that was grown last, with the literals that shut it. As long as these are false, each
// atom of the set can be denied by the same clause but for one literal. So the set is kept for the
// next call.
ghost use Rattle.std.specs.Prelude.{◌≡◌, ◌++◌, ◌∷◌, [], All, IfOk, IfSome, length, map};
ghost use Rattle.std.specs.Prelude.{if◌then◌else◌};
ghost use Rattle.std.specs.Bool.{OnTrue};
ghost use Rattle.clause_store.specs.Clause.{IsOver};
ghost use Rattle.clause_store.specs.Standing.{IsFalse};
ghost use Rattle.ground_program.specs.Meaning.{has};
ghost use Rattle.normal_program.specs.Limit.{IsNormal};
ghost use Rattle.normal_program.specs.Loop.{IsAtomOf};
ghost use Rattle.unfounded_sets.specs.Found.{IsGiven};
ghost use Rattle.unfounded_sets.specs.Grown.{IsGrown, IsOpenIn, coded};
ghost use Rattle.unfounded_sets.specs.Members.{IsListed};
ghost use Rattle.unfounded_sets.specs.Placed.{ArePlaces};
ghost use Rattle.unfounded_sets.specs.Rounds.{IsCovered};
ghost use Rattle.unfounded_sets.specs.Sources.{AreSized};

use crate::growing::grow;
use crate::members::Members;
use crate::places::Places;
use crate::shutting::shut_all;
use crate::sources::Sources;
use crate::values::{is_false, is_false_atom};
use clause_store::{Clause, Lit, Trail, Var};
use item_list::NoMemory;
use normal_program::Normal;
use std::alloc::Global;

/// A set of atoms with literals that shut it, by their codes. It is empty where none is kept.
#[derive(Debug, Drop)]
pub struct Grown {
    /// The atoms.
    pub atoms: Members,
    /// The literals.
    pub lits: Members,
    /// Where the first atom stands that may not be false.
    pub next: usize,
}

impl Grown {
    /// The empty set.
    pub fn open(alloc: Global, normal: &Normal) -> Result<Grown, NoMemory>
        requires { IsNormal normal.now }
        ensures { IfOk result (IsGrown normal.now) }
    {
        let codes = 2 * (normal.greatest_body_var() as usize + 1);
        let atoms = Members::open(alloc, normal.atoms as usize + 1)?;
        let lits = Members::open(alloc, codes)?;
        Ok(Grown {
            atoms,
            lits,
            next: 0,
        })
    }

    /// Grows the set anew from a lost atom. It is empty where it can't be shut.
    pub fn grow_from(
        &mut self,
        normal: &Normal,
        trail: &Trail,
        places: &Places,
        sources: &Sources,
        atom: u32,
    )
        requires covered { IsCovered normal.now trail.now.vars }
        requires places { ArePlaces normal.now places.now }
        requires sized { AreSized normal.now sources.now }
        requires is_atom { IsAtomOf normal.now atom }
        requires grown { IsGrown normal.now self.old }
        ensures { IsGrown normal.now self.new }
    {
        self.atoms.clear();
        self.lits.clear();
        self.next = 0;
        self.atoms.add(atom);
        grow(normal, trail, places, sources, &mut self.atoms);
        if !shut_all(normal, trail, places, &self.atoms, &mut self.lits) {
            self.atoms.clear();
        }
    }

    /// Writes a loop clause for the set, where it is shut and has an atom that isn't false. Where
    /// it isn't or has none, it is given up.
    pub fn write(
        &mut self,
        alloc: Global,
        normal: &Normal,
        trail: &Trail,
        out: &mut Clause,
    ) -> Result<bool, NoMemory>
        requires covered { IsCovered normal.now trail.now.vars }
        requires grown { IsGrown normal.now self.old }
        ensures given { IfOk result (λ it. OnTrue it (IsGiven normal.now trail.now out.new)) }
        ensures grown { IsGrown normal.now self.new }
    {
        if are_false(trail, self.lits.list()) {
            if let Some(atom) = self.next_open(normal, trail) {
                write_denial(alloc, &self.lits, Var(atom).negative(), out)?;
                return Ok(true);
            }
        }
        self.atoms.clear();
        Ok(false)
    }

    // The next atom that isn't false.
    fn next_open(&mut self, normal: &Normal, trail: &Trail) -> Option<u32>
        requires covered { IsCovered normal.now trail.now.vars }
        requires atoms { All (IsAtomOf normal.now) self.old.atoms.list }
        ensures some { IfSome result (IsOpenIn trail.now.steps self.old.atoms.list) }
        ensures listed { IsListed self.old.atoms }
        ensures same { self.new ≡ record self.old { next = self.new.next } }
    {
        for place in self.next..self.atoms.list().len() {
            let atom = self.atoms.list()[place];
            if !is_false_atom(normal, trail, atom) {
                self.next = place;
                return Some(atom);
            }
        }
        None
    }
}

// Whether all literals of these codes are false.
fn are_false(trail: &Trail, codes: &[u32]) -> bool
    requires { All (λ code. IsOver trail.now.vars (coded code)) codes.now }
    ensures { OnTrue result (All (λ code. IsFalse trail.now.steps (coded code)) codes.now) }
{
    for code in codes {
        if !is_false(trail, Lit(*code)) {
            return false;
        }
    }
    true
}

// Writes the literals, and the denial of an atom if it isn't among them.
fn write_denial(
    alloc: Global,
    lits: &Members,
    denial: Lit,
    out: &mut Clause,
) -> Result<(), NoMemory>
    ensures { IfOk result (λ _. out.new ≡ map coded lits.now.list
        ++ (if has lits.now.marks denial.0 then [] else (denial ∷ []))) }
{
    out.clear();
    for code in lits.list() {
        out.push(alloc, Lit(*code))?;
    }
    if !lits.has(denial.0) {
        out.push(alloc, denial)?;
    }
    Ok(())
}
