// At which literals a clause is watched first: at those that aren't false, then at those of high
// levels. The choice says only how often the clause is looked at.
ghost use Rattle.std.specs.Prelude.{◌≡◌, ◌≢◌, ◌≤◌, ◌<◌, length, All};
ghost use Rattle.clause_store.specs.Clause.{IsClause, IsOver};
ghost use Rattle.watched_literals.specs.Watching.{IsChoice};

use crate::visit::is_false;
use clause_store::{Lit, Trail};

/// The two literals at which a clause is watched, or twice the literal that no clause has.
#[derive(Debug, Drop, Clone, Copy)]
pub struct Choice {
    pub one: Lit,
    pub two: Lit,
}

/// The literals at which a clause is watched first.
pub fn choose(clause: &[Lit], trail: &Trail) -> Choice
    requires clause { IsClause clause.now }
    requires over { All (IsOver trail.now.vars) clause.now }
    ensures { IsChoice trail.now.vars clause.now result }
{
    if clause.len() < 2 {
        return Choice {
            one: Lit(0),
            two: Lit(0),
        };
    }
    let first = best_place(clause, trail, clause.len());
    let second = best_place(clause, trail, first);
    Choice {
        one: clause[first],
        two: clause[second],
    }
}

/// The place of the literal that is best to be watched, another one than `but`.
fn best_place(clause: &[Lit], trail: &Trail, but: usize) -> usize
    requires two { 2 ≤ length clause.now }
    requires over { All (IsOver trail.now.vars) clause.now }
    ensures within { result < length clause.now }
    ensures other { result ≢ but }
{
    let mut best = if but == 0 { 1 } else { 0 };
    for at in 0..clause.len() {
        if at != but && rank(trail, clause[best]) < rank(trail, clause[at]) {
            best = at;
        }
    }
    best
}

/// How good a literal is to be watched.
fn rank(trail: &Trail, lit: Lit) -> u32
    requires { IsOver trail.now.vars lit }
{
    if !is_false(trail, lit) {
        return u32::MAX;
    }
    trail.level_of(lit.var()).unwrap_or(0)
}
