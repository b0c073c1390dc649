// The two sides of a bound.
ghost use Rattle.std.specs.Prelude.{◌≡◌};
ghost use Rattle.clause_store.specs.Clause.{IsOver};
ghost use Rattle.weight_propagator.specs.Rows.{is_on, is_extra, is_taken, denial};

use clause_store::{Lit, Trail, Value};

/// What a sum of weights shows of a body.
#[derive(Debug, Drop, Clone, Copy)]
pub enum Side {
    /// The true literals reach the bound.
    Reached,
    /// The literals that aren't false stay below it.
    Missed,
}

impl Side {
    /// Whether a literal of that value is on this side.
    pub fn is_on(self, value: Value) -> bool
        ensures { result ≡ is_on self value }
    {
        match self {
            Side::Reached => matches!(value, Value::Yes),
            Side::Missed => matches!(value, Value::No),
        }
    }

    /// The literal that is false where `lit` is on this side.
    pub fn denial(self, lit: Lit) -> Lit
        ensures { result ≡ denial self lit }
    {
        match self {
            Side::Reached => lit.negated(),
            Side::Missed => lit,
        }
    }
}
