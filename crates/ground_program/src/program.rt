// A ground program as the numeric format of lparse and smodels has it, with disjunction.
use crate::{Body, Heads, Pair};
use item_list::{Copied, List, NoMemory};
use std::alloc::Global;

/// Atoms by their numbers.
pub type Atoms = List<u32>;
/// A truth value for each position from 0 to the greatest atom. Position 0 belongs to no atom.
pub type Set = List<bool>;
/// A truth value for each candidate: place c - 1 is candidate c.
pub type Bits = List<bool>;
/// The bytes of a name.
pub type Name = List<u8>;
/// The rules of a program in the order of its text.
pub type Rules = List<Rule>;
/// The symbol table. Its places, counted from 1, are the candidates.
pub type Names = List<Named>;
/// Atom sets.
pub type Sets = List<Set>;
/// Pairs of bounds.
pub type Pairs = List<Pair>;

/// Which consequences are asked for.
#[derive(Debug, Drop, Clone, Copy, PartialEq, Eq)]
pub enum Mode {
    /// Those that are true in every answer set.
    Cautious,
    /// Those that are true in some answer set.
    Brave,
}

/// The kinds of rule. The numeric format writes them as 1, 2, 3, 5 and 8.
#[derive(Debug, Drop, Clone, Copy, PartialEq, Eq)]
pub enum Kind {
    /// One head, and a body of which all literals must hold.
    Basic,
    /// One head, and a body of which at least `bound` literals must hold.
    Constraint,
    /// Any heads, each of which may be true where the body holds.
    Choice,
    /// One head, and a body whose true literals must weigh at least `bound`.
    Weight,
    /// Any heads, of which one must be true where the body holds.
    Disjunctive,
}

/// An atom or its negation.
#[derive(Debug, Drop, Clone, Copy, PartialEq, Eq, Hash)]
pub struct AtomLit {
    /// The atom, at least 1.
    pub atom: u32,
    /// Whether this is the negation.
    pub negated: bool,
}

/// A literal of a body with its weight, which is 1 outside weight rules.
#[derive(Debug, Drop, Clone, Copy, PartialEq, Eq)]
pub struct Weighted {
    /// The literal.
    pub lit: AtomLit,
    /// What it adds to the body where it holds.
    pub weight: u32,
}

/// One rule.
#[derive(Debug, Drop)]
pub struct Rule {
    /// What the heads and the body mean.
    pub kind: Kind,
    /// What the weights must reach. For basic, choice and disjunctive rules the number of literals.
    pub bound: u32,
    /// The head atoms, exactly one for basic, constraint and weight rules.
    pub heads: Heads,
    /// The negative literals and then the positive ones.
    pub body: Body,
}

/// An entry of the symbol table.
#[derive(Debug, Drop)]
pub struct Named {
    /// The atom, at least 1.
    pub atom: u32,
    /// Its name: at least one byte, no line feed, no carriage return at its end.
    pub name: Name,
}

/// A ground program.
#[derive(Debug, Drop)]
pub struct Program {
    /// The greatest atom that occurs, or 0.
    pub atoms: u32,
    /// The rules.
    pub rules: Rules,
    /// The symbol table.
    pub names: Names,
    /// Atoms that every answer set has.
    pub must: Atoms,
    /// Atoms that no answer set has.
    pub must_not: Atoms,
    /// The number of models that the text asks for. It is kept and has no effect.
    pub models: u32,
}

/// What a set that is no model breaks.
#[derive(Debug, Drop, Clone, Copy, PartialEq, Eq)]
pub enum Broken {
    /// The first rule that fails, from 0.
    Rule(u32),
    /// No rule fails, and this is the first atom of the compute statement that isn't met.
    Compute(u32),
}

impl Copied for Weighted {
    fn copied(&self, _alloc: Global) -> Result<Weighted, NoMemory> {
        Ok(*self)
    }
}

impl Copied for Rule {
    fn copied(&self, alloc: Global) -> Result<Rule, NoMemory> {
        let heads = self.heads.copy(alloc)?;
        let body = self.body.copy(alloc)?;
        Ok(Rule {
            kind: self.kind,
            bound: self.bound,
            heads,
            body,
        })
    }
}

impl Copied for Named {
    fn copied(&self, alloc: Global) -> Result<Named, NoMemory> {
        let name = self.name.copy(alloc)?;
        Ok(Named {
            atom: self.atom,
            name,
        })
    }
}
