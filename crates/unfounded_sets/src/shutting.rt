// Which literals shut a set of atoms: where all of them are false, no rule for an atom of the set
// fires without the set.
ghost use Rattle.std.specs.Prelude.{◌≡◌, ◌≤◌, ◌<◌, ◌+◌, ◌-◌, All, length};
ghost use Rattle.std.specs.Bool.{OnTrue};
ghost use Rattle.normal_program.specs.Loop.{IsAtomOf};
ghost use Rattle.unfounded_sets.specs.Grown.{AddsLits, AreLits, IsShut, IsShutFor};
ghost use Rattle.unfounded_sets.specs.Grown.{apart_of, possible_of, weight_apart};
ghost use Rattle.unfounded_sets.specs.Placed.{ArePlaces};
ghost use Rattle.unfounded_sets.specs.Rounds.{HasAtoms, IsCovered};
ghost use Rattle.unfounded_sets.specs.Wanted.{weight_possible};

use crate::loops::stays_below;
use crate::members::Members;
use crate::places::Places;
use crate::values::{is_false, is_false_part, is_over};
use clause_store::Trail;
use normal_program::{BodyOf, Normal, Part, literal_of};

/// Adds the false literals that shut a set. Whether there are such.
pub fn shut_all(
    normal: &Normal,
    trail: &Trail,
    places: &Places,
    atoms: &Members,
    lits: &mut Members,
) -> bool
    requires covered { IsCovered normal.now trail.now.vars }
    requires places { ArePlaces normal.now places.now }
    requires lits { AreLits normal.now lits.old }
    ensures adds { AddsLits normal.now lits.old lits.new }
    ensures shut { OnTrue result
        (All (IsShutFor normal.now atoms.now.marks lits.new.marks) atoms.now.list) }
{
    for atom in atoms.list() {
        if !shut_rules(normal, trail, places, *atom, atoms.marks(), lits) {
            return false;
        }
    }
    true
}

// Adds those that shut the bodies of the rules for an atom. Whether there are such.
fn shut_rules(
    normal: &Normal,
    trail: &Trail,
    places: &Places,
    atom: u32,
    set: &[bool],
    lits: &mut Members,
) -> bool
    requires covered { IsCovered normal.now trail.now.vars }
    requires places { ArePlaces normal.now places.now }
    requires lits { AreLits normal.now lits.old }
    ensures adds { AddsLits normal.now lits.old lits.new }
    ensures shut { OnTrue result (IsShutFor normal.now set.now lits.new.marks atom) }
{
    for body in places.supports.at(atom) {
        if !shut_body(normal, trail, *body, set, lits) {
            return false;
        }
    }
    true
}

// Adds those that shut a body: none where the set alone holds it below its bound, its variable
// where that is false, or else false literals of it. Whether there are such.
fn shut_body(normal: &Normal, trail: &Trail, number: u32, set: &[bool], lits: &mut Members) -> bool
    requires covered { IsCovered normal.now trail.now.vars }
    requires within { number < length normal.now.bodies }
    requires lits { AreLits normal.now lits.old }
    ensures adds { AddsLits normal.now lits.old lits.new }
    ensures shut { OnTrue result (IsShut normal.now set.now lits.new.marks number) }
{
    let body = normal.bodies.get(number as usize);
    if stays_below(body, set) {
        return true;
    }
    let holds = normal.body_var(number).positive();
    if is_false(trail, holds) {
        lits.add(holds.0);
        return true;
    }
    let left = lacks(normal, trail, body, set);
    if left > 0 {
        pick(normal, trail, body, set, left, lits);
    }
    left > 0
}

// What the literals of a body that are neither false nor over the set lack of its bound.
fn lacks(normal: &Normal, trail: &Trail, body: &BodyOf, set: &[bool]) -> u64
    requires covered { IsCovered normal.now trail.now.vars }
    requires atoms { HasAtoms normal.now body.now }
    ensures { result ≡ body.now.bound - weight_possible trail.now.steps set.now body.now.parts }
{
    let mut left = u64::from(body.bound);
    for part in body.parts.as_slice() {
        if !is_over(set, part.lit) && !is_false_part(normal, trail, part.lit) {
            left = left.saturating_sub(part.weight);
        }
    }
    left
}

// Picks false literals of a body so that the others don't make up what it lacks.
fn pick(
    normal: &Normal,
    trail: &Trail,
    body: &BodyOf,
    set: &[bool],
    lacked: u64,
    lits: &mut Members,
)
    requires covered { IsCovered normal.now trail.now.vars }
    requires atoms { HasAtoms normal.now body.now }
    requires some { 1 ≤ lacked }
    requires lits { AreLits normal.now lits.old }
    ensures adds { AddsLits normal.now lits.old lits.new }
    ensures below { weight_apart set.now lits.new.marks body.now.parts
        < weight_possible trail.now.steps set.now body.now.parts + lacked }
{
    let mut left = lacked;
    for part in body.parts.as_slice() {
        left = pick_one(normal, trail, part, set, left, lits);
    }
}

// Picks a literal of a body if it is false and its weight makes up what is lacking. What is lacking
// then.
fn pick_one(
    normal: &Normal,
    trail: &Trail,
    part: &Part,
    set: &[bool],
    left: u64,
    lits: &mut Members,
) -> u64
    requires covered { IsCovered normal.now trail.now.vars }
    requires is_atom { IsAtomOf normal.now part.now.lit.atom }
    requires some { 1 ≤ left }
    requires lits { AreLits normal.now lits.old }
    ensures adds { AddsLits normal.now lits.old lits.new }
    ensures some { 1 ≤ result }
    ensures step { apart_of set.now lits.new.marks part.now + result
        ≤ possible_of trail.now.steps set.now part.now + left }
{
    if is_over(set, part.lit) || !is_false_part(normal, trail, part.lit) {
        return left;
    }
    if part.weight < left {
        return left - part.weight;
    }
    lits.add(literal_of(part.lit).0);
    left
}
