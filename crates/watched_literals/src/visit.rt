// What becomes of a clause one of whose watched literals is false.
ghost use Rattle.std.specs.Prelude.{◌≡◌, ◌≢◌, ◌≤◌, ◌<◌, ◌↔◌, length, All, IsTrue};
ghost use Rattle.clause_store.specs.Clause.{IsOver};
ghost use Rattle.clause_store.specs.Standing.{IsFalse};
ghost use Rattle.watched_literals.specs.Chains.{none};
ghost use Rattle.watched_literals.specs.Visits.{IsByOther, IsOpenAt, IsVisited};
ghost use Rattle.watched_literals.specs.Visits.{AreFalseWithin};

use crate::tables::BINARY;
use clause_store::{Lit, Trail, Value};

/// What becomes of a clause one of whose watched literals is false.
#[derive(Debug, Drop, Clone, Copy)]
pub enum Visit {
    /// The other watched literal is true at a level that isn't higher.
    Stays,
    /// This literal isn't false and isn't the other watched one. The look ended at that place.
    Moves(Lit, u32),
    /// All literals but the other watched one are false.
    Implies,
    /// All literals are false.
    IsFalse,
}

/// Looks at the literals of a clause, from the place on where the last look ended.
pub fn visit_clause(clause: &[Lit], trail: &Trail, start: usize, other: Lit) -> Visit
    requires over { All (IsOver trail.now.vars) clause.now }
    requires other { IsOver trail.now.vars other }
    ensures { IsVisited trail.now.steps clause.now other result }
{
    let end = clause.len();
    let start = start.min(end);
    let later = place_to_watch(clause, trail, other, start, end);
    if later < end {
        return Visit::Moves(clause[later], short_place(later));
    }
    let earlier = place_to_watch(clause, trail, other, 0, start);
    if earlier < start {
        return Visit::Moves(clause[earlier], short_place(earlier));
    }
    without_others(trail, other)
}

/// A place as it is kept: any will do, as looks go round.
fn short_place(place: usize) -> u32
    ensures { result ≢ none }
{
    if place < BINARY as usize {
        place as u32
    } else {
        0
    }
}

/// What becomes of a clause whose literals but the other watched one are false.
pub fn without_others(trail: &Trail, other: Lit) -> Visit
    requires { IsOver trail.now.vars other }
    ensures { IsByOther trail.now.steps other result }
{
    if is_false(trail, other) {
        Visit::IsFalse
    } else {
        Visit::Implies
    }
}

/// The first place from `from` up to `end` whose literal isn't false and isn't the other watched
/// one, or `end`.
pub fn place_to_watch(clause: &[Lit], trail: &Trail, other: Lit, from: usize, end: usize) -> usize
    requires order { from ≤ end }
    requires within { end ≤ length clause.now }
    requires over { All (IsOver trail.now.vars) clause.now }
    ensures found { result < end → IsOpenAt trail.now.steps other clause.now result }
    ensures none { end ≤ result → AreFalseWithin trail.now.steps other clause.now from end }
    ensures before { AreFalseWithin trail.now.steps other clause.now from result }
    ensures last { result ≤ end }
{
    for at in from..end {
        let lit = clause[at];
        if lit.0 != other.0 && !is_false(trail, lit) {
            return at;
        }
    }
    end
}

/// Whether a literal is false.
pub fn is_false(trail: &Trail, lit: Lit) -> bool
    requires { IsOver trail.now.vars lit }
    ensures { IsTrue result ↔ IsFalse trail.now.steps lit }
{
    match trail.value(lit) {
        Value::No => true,
        Value::Yes | Value::Unset => false,
    }
}
