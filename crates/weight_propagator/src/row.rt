// Weight bodies as they are kept.
ghost use Rattle.std.specs.Prelude.{◌≡◌};
ghost use Rattle.weight_propagator.specs.Rows.{IsSized, head, goal_of};

use crate::side::Side;
use clause_store::{Lit, Var};
use item_list::List;

/// A literal of a body with its weight.
#[derive(Debug, Drop, Clone, Copy)]
pub struct Term {
    /// The literal.
    pub lit: Lit,
    /// What it adds to the body where it is true.
    pub weight: u64,
}

/// A weight body.
#[derive(Debug, Drop)]
pub struct Row {
    /// The variable that is true exactly where the weights of the true literals reach the bound.
    pub var: Var,
    /// What the weights must reach.
    pub bound: u64,
    /// The sum of all weights.
    pub full: u64,
    /// The literals with their weights, greater weights first.
    pub terms: List<Term>,
}

impl Row {
    /// How much on a side decides the variable.
    pub fn goal(&self, side: Side) -> u64
        requires { IsSized self.now }
        ensures { result ≡ goal_of side self.now }
    {
        match side {
            Side::Reached => self.bound,
            Side::Missed => (self.full + 1).saturating_sub(self.bound),
        }
    }

    /// What follows for the variable.
    pub fn head(&self, side: Side) -> Lit
        requires { IsSized self.now }
        ensures { result ≡ head side self.now }
    {
        match side {
            Side::Reached => self.var.positive(),
            Side::Missed => self.var.negative(),
        }
    }
}
