// What level 0 leaves of a clause.
ghost use Rattle.std.specs.Prelude.{All};
ghost use Rattle.clause_store.specs.Clause.{IsOver};
ghost use Rattle.watched_literals.specs.Laying.{IsLeft};

use crate::settled::holds_for_good;
use crate::visit::place_to_watch;
use clause_store::{Lit, Trail};

/// What level 0 leaves of a clause.
#[derive(Debug, Drop, Clone, Copy)]
pub enum Left {
    /// A literal is true.
    True,
    /// These two literals aren't false, and maybe others.
    Open(Lit, Lit),
    /// These two literals aren't false, and all others are.
    Pair(Lit, Lit),
    /// Fewer than two literals aren't false.
    Few,
}

impl Left {
    /// What level 0 leaves of a clause. The trail is at that level.
    pub fn of(clause: &[Lit], trail: &Trail) -> Left
        requires over { All (IsOver trail.now.vars) clause.now }
        ensures { IsLeft trail.now.steps clause.now result }
    {
        if holds_for_good(trail, clause) {
            return Left::True;
        }
        let end = clause.len();
        let first = place_to_watch(clause, trail, Lit(0), 0, end);
        if first == end {
            return Left::Few;
        }
        let one = clause[first];
        let second = place_to_watch(clause, trail, one, first + 1, end);
        if second == end {
            return Left::Few;
        }
        let two = clause[second];
        if place_to_watch(clause, trail, two, second + 1, end) == end {
            Left::Pair(one, two)
        } else {
            Left::Open(one, two)
        }
    }
}
