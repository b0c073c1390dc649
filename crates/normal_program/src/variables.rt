// The variables of a normal form, its kinds of bodies and its literals. No call takes memory.
ghost use Rattle.std.specs.Prelude.{◌≡◌, ◌≤◌, ◌<◌, ◌^◌, length};
ghost use Rattle.normal_program.specs.declared.normal.TheConstants.{MOST_VARIABLES};
ghost use Rattle.normal_program.specs.Body.{is_conjunctive};
ghost use Rattle.normal_program.specs.Normal.{body_var, greatest_body_var, first_selector};
ghost use Rattle.normal_program.specs.Normal.{variables};
ghost use Rattle.normal_program.specs.Clauses.{literal_of};

use crate::{BodyOf, Normal};
use clause_store::{Lit, Var};
use ground_program::AtomLit;

impl Normal {
    /// How many variables there are: those of atoms, bodies and selectors. They are numbered from
    /// 1.
    pub fn variables(&self) -> u32
        requires { variables self.now ≤ MOST_VARIABLES }
        ensures { result ≡ variables self.now }
    {
        self.greatest_body_var() + self.names.len() as u32 + 1
    }

    /// The greatest variable of an atom or a body, or 0 where there is none.
    pub fn greatest_body_var(&self) -> u32
        requires { variables self.now ≤ MOST_VARIABLES }
        ensures { result ≡ greatest_body_var self.now }
    {
        self.atoms + self.bodies.len() as u32
    }

    /// The first selector. The selectors are the variables from it on.
    pub fn first_selector(&self) -> Var
        requires { variables self.now ≤ MOST_VARIABLES }
        ensures is { result.0 ≡ first_selector self.now }

        // It has literals.
        ensures fits { result.0 < 2 ^ 31 }
    {
        Var(self.greatest_body_var() + 1)
    }

    /// The variable of the body of a number, from 0. That of an atom is the atom.
    pub fn body_var(&self, number: u32) -> Var
        requires few { variables self.now ≤ MOST_VARIABLES }
        requires number { number < length self.now.bodies }
        ensures is { result.0 ≡ body_var self.now number }

        // It has literals.
        ensures fits { result.0 < 2 ^ 31 }
    {
        Var(self.atoms + 1 + number)
    }
}

impl BodyOf {
    /// Whether the body asks for all its literals. Any other body is a weight body.
    pub fn is_conjunctive(&self) -> bool
        ensures { result ≡ is_conjunctive self.now }
    {
        let mut left = u64::from(self.bound);
        for part in self.parts.as_slice() {
            if part.weight == 0 || part.weight > left {
                return false;
            }
            left -= part.weight;
        }
        left == 0
    }
}

/// An atom or its negation as a literal of a clause.
pub fn literal_of(lit: AtomLit) -> Lit
    requires { lit.atom < 2 ^ 31 }
    ensures { result ≡ literal_of lit }
{
    let var = Var(lit.atom);
    if lit.negated {
        var.negative()
    } else {
        var.positive()
    }
}
