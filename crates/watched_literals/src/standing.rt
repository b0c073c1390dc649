// How one clause stands on a trail.
ghost use Rattle.std.specs.Prelude.{◌≡◌, ◌≢◌, All};
ghost use Rattle.clause_store.specs.Clause.{IsOver, IsClause};
ghost use Rattle.watched_literals.specs.Standings.{IsStanding};

use clause_store::{Lit, Trail, Value};

/// How a clause stands on a trail.
#[derive(Debug, Drop, Clone, Copy, PartialEq, Eq)]
pub enum Standing {
    /// A literal is true.
    Satisfied,
    /// No literal is true, and at least two are unset.
    Open,
    /// This literal is unset, and all others are false.
    Unit(Lit),
    /// All literals are false.
    False,
}

impl Standing {
    /// How a clause stands.
    pub fn of(clause: &[Lit], trail: &Trail) -> Standing
        requires clause { IsClause clause.now }
        requires over { All (IsOver trail.now.vars) clause.now }
        ensures { IsStanding trail.now.steps clause.now result }
    {
        let mut standing = Standing::False;
        for lit in clause {
            match trail.value(*lit) {
                Value::Yes => return Standing::Satisfied,
                Value::No => {}
                Value::Unset => standing = standing.with_unset(*lit),
            }
        }
        standing
    }

    /// How a clause of which no literal is true stands with one more literal, which is unset.
    fn with_unset(self, lit: Lit) -> Standing
        ensures first { self ≡ Standing.False → result ≡ Standing.Unit lit }
        ensures later { self ≢ Standing.False → result ≡ Standing.Open }
    {
        match self {
            Standing::False => Standing::Unit(lit),
            _ => Standing::Open,
        }
    }
}
