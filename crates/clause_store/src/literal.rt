// Literals by their codes: two codes for each variable, so that arrays can be indexed by them.
ghost use Rattle.std.specs.Prelude.{◌≡◌, ◌+◌, ◌*◌, ◌<◌, ◌↔◌, ◌^◌, IsTrue};
ghost use Rattle.clause_store.specs.Clause.{variable, negation, is_negated};

use item_list::{Copied, NoMemory};
use std::alloc::Global;

/// A variable. Variable 0 isn't used.
#[derive(Debug, Drop, Clone, Copy, PartialEq, Eq)]
pub struct Var(pub u32);

/// A literal: twice its variable, plus 1 where negated.
#[derive(Debug, Default, Drop, Clone, Copy, PartialEq, Eq)]
pub struct Lit(pub u32);

/// A place in a store.
#[derive(Debug, Drop, Clone, Copy, PartialEq, Eq)]
pub struct ClauseRef(pub usize);

/// What is known of a literal.
#[derive(Debug, Drop, Clone, Copy, PartialEq, Eq)]
pub enum Value {
    /// It is true.
    Yes,
    /// It is false.
    No,
    /// Its variable isn't assigned.
    Unset,
}

impl Lit {
    /// The variable.
    pub fn var(self) -> Var
        ensures { result.0 ≡ variable self }
    {
        Var(self.0 / 2)
    }

    /// The opposite literal.
    pub fn negated(self) -> Lit
        ensures { result ≡ negation self }
    {
        Lit(self.0 ^ 1)
    }

    /// Whether the literal is the negation of its variable.
    pub fn is_negated(self) -> bool
        ensures { result ≡ is_negated self }
    {
        self.0 % 2 == 1
    }
}

impl Var {
    /// The literal that says that the variable is true.
    pub fn positive(self) -> Lit
        requires { self.0 < 2 ^ 31 }
        ensures { result.0 ≡ 2 * self.0 }
    {
        Lit(2 * self.0)
    }

    /// The literal that says that the variable is false.
    pub fn negative(self) -> Lit
        requires { self.0 < 2 ^ 31 }
        ensures { result.0 ≡ 2 * self.0 + 1 }
    {
        Lit(2 * self.0 + 1)
    }
}

impl Copied for Lit {
    fn copied(&self, _alloc: Global) -> Result<Lit, NoMemory> {
        Ok(*self)
    }
}
