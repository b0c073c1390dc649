// The sources of founded atoms. Each has a body that fires by its negative literals and by founded
// atoms of smaller ranks alone.
ghost use Rattle.std.specs.Prelude.{◌≡◌, ◌≤◌, ◌<◌, ◌+◌, ◌^◌, ◌↔◌, [], ◌∷◌, length, IfOk};
ghost use Rattle.std.specs.Prelude.{IsTrue};
ghost use Rattle.normal_program.specs.Range.{IsInRange};
ghost use Rattle.unfounded_sets.specs.Sources.{AreAllLost, AreMarked, AreSources, Drops, IsDenied};
ghost use Rattle.unfounded_sets.specs.Sources.{IsReleased};
ghost use Rattle.unfounded_sets.specs.Sources.{IsDoubtedAround, MayGetSource, rank_of, source_of};

use crate::hints::Hints;
use crate::places::Places;
use crate::waiting::Waiting;
use clause_store::{Lit, Var};
use item_list::NoMemory;
use normal_program::Normal;
use std::alloc::Global;

/// The rank of an atom without a source.
pub const NO_RANK: u64 = u64::MAX;

/// The sources and ranks of the atoms.
#[derive(Debug, Drop)]
pub struct Sources {
    /// The body by which each atom is founded, for those with a rank.
    pub bodies: Vec<u32>,
    /// The rank of each atom, or `NO_RANK`.
    pub ranks: Vec<u64>,
    /// The next rank.
    pub next: u64,
    /// The bodies of which it isn't known whether they still fire.
    pub doubted: Waiting,
    /// The atoms that may lack a source and not be false.
    pub lost: Waiting,
    /// Which bodies to try.
    pub hints: Hints,
}

impl Sources {
    /// No atom has a source.
    pub fn open(alloc: Global, normal: &Normal) -> Result<Sources, NoMemory>
        requires { IsInRange normal.now }
        ensures { IfOk result (AreSources normal.now []) }
    {
        let atoms = normal.atoms as usize + 1;
        let bodies = vec![in alloc; 0; atoms]?;
        let ranks = vec![in alloc; NO_RANK; atoms]?;
        let doubted = Waiting::open(alloc, normal.bodies.len())?;
        let lost = all_lost(alloc, normal.atoms)?;
        let hints = Hints::open(alloc, normal)?;
        Ok(Sources {
            bodies,
            ranks,
            next: 0,
            doubted,
            lost,
            hints,
        })
    }

    /// Whether an atom has a source.
    pub fn has(&self, atom: u32) -> bool
        requires { atom < length self.now.ranks.items }
        ensures { IsTrue result ↔ (rank_of self.now atom < self.now.next) }
    {
        self.ranks[atom as usize] < self.next
    }

    /// Whether an atom has this body as its source.
    pub fn is_by(&self, atom: u32, body: u32) -> bool
        requires ranks { atom < length self.now.ranks.items }
        requires bodies { atom < length self.now.bodies.items }
        ensures { IsTrue result
            ↔ ((rank_of self.now atom < self.now.next) × (source_of self.now atom ≡ body)) }
    {
        self.has(atom) && self.bodies[atom as usize] == body
    }

    /// Takes into account that a literal is false.
    pub fn deny(&mut self, places: &Places, lit: Lit)
        requires lost { length self.old.lost.waits ≡ length self.old.ranks.items }
        requires few { length self.old.ranks.items < 2 ^ 31 }
        requires most { self.old.next ≤ NO_RANK }
        ensures { IsDenied places.now.occurrences lit self.old self.new }
    {
        let var = lit.var();
        let atoms = self.ranks.len() as u32;
        if var.0 >= atoms {
            if !lit.is_negated() {
                doubt(var.0 - atoms, &mut self.doubted);
            }
        } else if lit.is_negated() {
            doubt_all(places.occurrences.at(lit.0), &mut self.doubted);
        } else {
            self.drop_source(places, var.0);
        }
    }

    /// Takes into account that a literal is false no more.
    pub fn release(&mut self, lit: Lit)
        requires { length self.old.lost.waits ≡ length self.old.ranks.items }
        ensures { IsReleased lit self.old self.new }
    {
        let var = lit.var();
        if (var.0 as usize) < self.ranks.len() && !lit.is_negated() {
            self.lost.mark(var.0);
        }
    }

    /// Takes the source of an atom away. It is lost, and the bodies that it stands in are doubted.
    pub fn drop_source(&mut self, places: &Places, atom: u32)
        requires within { atom < length self.old.ranks.items }
        requires lost { length self.old.lost.waits ≡ length self.old.ranks.items }
        requires few { length self.old.ranks.items < 2 ^ 31 }
        requires most { self.old.next ≤ NO_RANK }
        ensures { Drops places.now.occurrences atom self.old self.new }
    {
        self.doubt_around(places, atom);
        self.ranks[atom as usize] = NO_RANK;
        self.lost.mark(atom);
    }

    // Doubts the bodies in which an atom with a source stands.
    fn doubt_around(&mut self, places: &Places, atom: u32)
        requires within { atom < length self.old.ranks.items }
        requires few { length self.old.ranks.items < 2 ^ 31 }
        ensures same { self.new
            ≡ record self.old { doubted = self.new.doubted; hints = self.new.hints } }
        ensures more { AreMarked [] self.old.doubted self.new.doubted }
        ensures all { IsDoubtedAround places.now.occurrences self.old self.new atom }
    {
        if self.has(atom) {
            let bodies = places.occurrences.at(Var(atom).positive().0);
            doubt_all(bodies, &mut self.doubted);
            self.hints.lower_all(bodies);
        }
    }

    /// The next founded atom that is still to be counted.
    pub fn next_founded(&mut self) -> Option<u32>
        ensures { self.new ≡ record self.old { hints = self.new.hints } }
    {
        self.hints.next()
    }

    /// Counts a founded atom for a body. Whether the body may fire.
    pub fn raise(&mut self, body: u32) -> bool
        ensures { self.new ≡ record self.old { hints = self.new.hints } }
    {
        self.hints.raise(body)
    }

    /// Gives an atom that isn't false a source, if it has none.
    pub fn give(&mut self, atom: u32, body: u32)
        requires ranks { atom < length self.old.ranks.items }
        requires bodies { atom < length self.old.bodies.items }
        ensures { MayGetSource atom body self.old self.new }
    {
        if !self.has(atom) && self.next < NO_RANK {
            self.bodies[atom as usize] = body;
            self.ranks[atom as usize] = self.next;
            self.next += 1;
            self.hints.note(atom);
        }
    }
}

// All of so many atoms are lost.
fn all_lost(alloc: Global, atoms: u32) -> Result<Waiting, NoMemory>
    requires { atoms < 2 ^ 31 }
    ensures count { IfOk result (λ it. length it.waits ≡ atoms + 1) }
    ensures all { IfOk result (λ it. AreAllLost atoms it) }
{
    let mut lost = Waiting::open(alloc, atoms as usize + 1)?;
    for atom in 1..atoms + 1 {
        lost.mark(atom);
    }
    Ok(lost)
}

// Doubts a body, if there is one of this number.
fn doubt(body: u32, doubted: &mut Waiting)
    ensures { AreMarked (body ∷ []) doubted.old doubted.new }
{
    if (body as usize) < doubted.count() {
        doubted.mark(body);
    }
}

// Doubts some bodies.
fn doubt_all(bodies: &[u32], doubted: &mut Waiting)
    ensures { AreMarked bodies.now doubted.old doubted.new }
{
    for body in bodies {
        doubt(*body, doubted);
    }
}
