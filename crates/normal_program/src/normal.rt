// The normal form. Atom a has variable a, body j, from 0, has variable atoms + 1 + j, and the
// selectors are the variables after the bodies, one more than there are candidates.
use ground_program::{AtomLit, Atoms, Heads, Kind, Names};
use item_list::{Copied, List, NoMemory};
use std::alloc::Global;

/// How many variables a normal form may have.
pub const MOST_VARIABLES: u64 = 1_048_575;

/// The literals of a normal body, in order.
pub type Parts = List<Part>;
/// The bodies of a normal form, in order of first occurrence.
pub type Bodies = List<BodyOf>;
/// The rules of a normal form, in the order of the program's rules.
pub type NormalRules = List<NormalRule>;

/// A literal of a normal body with the sum of its weights.
#[derive(Debug, Drop, Clone, Copy, PartialEq, Eq, Hash)]
pub struct Part {
    /// The literal.
    pub lit: AtomLit,
    /// What it adds to the body where it holds.
    pub weight: u64,
}

/// A body: each literal once, by atom and then the negative one first.
#[derive(Debug, Drop, PartialEq, Eq, Hash)]
pub struct BodyOf {
    /// What the weights must reach.
    pub bound: u32,
    /// The literals with their weights.
    pub parts: Parts,
}

/// A rule whose body is given by its number.
#[derive(Debug, Drop)]
pub struct NormalRule {
    /// What the heads and the body mean.
    pub kind: Kind,
    /// The head atoms.
    pub heads: Heads,
    /// The number of the body, from 0.
    pub body: u32,
}

/// The normal form of a program.
#[derive(Debug, Drop)]
pub struct Normal {
    /// The greatest atom that occurs, or 0.
    pub atoms: u32,
    /// The bodies.
    pub bodies: Bodies,
    /// The rules.
    pub rules: NormalRules,
    /// The symbol table.
    pub names: Names,
    /// Atoms that every answer set has.
    pub must: Atoms,
    /// Atoms that no answer set has.
    pub must_not: Atoms,
}

impl Copied for Part {
    fn copied(&self, _alloc: Global) -> Result<Part, NoMemory> {
        Ok(*self)
    }
}

impl Copied for BodyOf {
    fn copied(&self, alloc: Global) -> Result<BodyOf, NoMemory> {
        let parts = self.parts.copy(alloc)?;
        Ok(BodyOf {
            bound: self.bound,
            parts,
        })
    }
}

impl Copied for NormalRule {
    fn copied(&self, alloc: Global) -> Result<NormalRule, NoMemory> {
        let heads = self.heads.copy(alloc)?;
        Ok(NormalRule {
            kind: self.kind,
            heads,
            body: self.body,
        })
    }
}

impl Copied for Normal {
    fn copied(&self, alloc: Global) -> Result<Normal, NoMemory> {
        let bodies = self.bodies.copy(alloc)?;
        let rules = self.rules.copy(alloc)?;
        let names = self.names.copy(alloc)?;
        let must = self.must.copy(alloc)?;
        let must_not = self.must_not.copy(alloc)?;
        Ok(Normal {
            atoms: self.atoms,
            bodies,
            rules,
            names,
            must,
            must_not,
        })
    }
}
