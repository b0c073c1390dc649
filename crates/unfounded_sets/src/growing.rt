// A set of atoms is grown from one that is lost. For each rule with a head in the set whose body
// could fire by founded atoms and by lost ones outside, lost atoms of the body join it, until what
// stays outside is below the bound. Whether the set can really be shut is found out later, so that
// all this only says what to try.
ghost use Rattle.std.specs.Prelude.{◌≡◌, ◌<◌, ◌+◌, All, length};
ghost use Rattle.normal_program.specs.Loop.{IsAtomOf};
ghost use Rattle.unfounded_sets.specs.Grown.{AreAtoms};
ghost use Rattle.unfounded_sets.specs.Placed.{ArePlaces};
ghost use Rattle.unfounded_sets.specs.Rounds.{HasAtoms, IsCovered};
ghost use Rattle.unfounded_sets.specs.Sources.{AreSized};

use crate::firing::is_false_number;
use crate::members::Members;
use crate::places::Places;
use crate::sources::Sources;
use crate::values::is_false_part;
use clause_store::Trail;
use ground_program::{AtomLit, has_atom};
use normal_program::{BodyOf, Normal};

/// Adds the atoms that the ones in the set need.
pub fn grow(normal: &Normal, trail: &Trail, places: &Places, sources: &Sources, atoms: &mut Members)
    requires covered { IsCovered normal.now trail.now.vars }
    requires places { ArePlaces normal.now places.now }
    requires sized { AreSized normal.now sources.now }
    requires atoms { AreAtoms normal.now atoms.old }
    ensures { AreAtoms normal.now atoms.new }
{
    for place in 0..normal.atoms as usize + 1 {
        match atoms.list().get(place).copied() {
            None => return,
            Some(atom) => add_needed(normal, trail, places, sources, atom, atoms),
        }
    }
}

// Adds the atoms that one of the set needs.
fn add_needed(
    normal: &Normal,
    trail: &Trail,
    places: &Places,
    sources: &Sources,
    atom: u32,
    atoms: &mut Members,
)
    requires covered { IsCovered normal.now trail.now.vars }
    requires places { ArePlaces normal.now places.now }
    requires sized { AreSized normal.now sources.now }
    requires atoms { AreAtoms normal.now atoms.old }
    ensures { AreAtoms normal.now atoms.new }
{
    for body in places.supports.at(atom) {
        add_lost(normal, trail, sources, *body, atoms);
    }
}

// Adds lost atoms of a body until those that stay outside leave it below its bound.
fn add_lost(normal: &Normal, trail: &Trail, sources: &Sources, number: u32, atoms: &mut Members)
    requires covered { IsCovered normal.now trail.now.vars }
    requires sized { AreSized normal.now sources.now }
    requires within { number < length normal.now.bodies }
    requires atoms { AreAtoms normal.now atoms.old }
    ensures { AreAtoms normal.now atoms.new }
{
    if is_false_number(normal, trail, number) {
        return;
    }
    let body = normal.bodies.get(number as usize);
    let mut left = lacks(normal, trail, sources, body);
    for part in body.parts.as_slice() {
        if is_lost(normal, trail, sources, atoms.marks(), part.lit) {
            if part.weight < left {
                left -= part.weight;
            } else {
                atoms.add(part.lit.atom);
            }
        }
    }
}

// What a body lacks beside its negative literals and atoms with a source.
fn lacks(normal: &Normal, trail: &Trail, sources: &Sources, body: &BodyOf) -> u64
    requires covered { IsCovered normal.now trail.now.vars }
    requires sized { AreSized normal.now sources.now }
    requires body { HasAtoms normal.now body.now }
{
    let mut left = u64::from(body.bound);
    for part in body.parts.as_slice() {
        if is_firm(normal, trail, sources, part.lit) {
            left = left.saturating_sub(part.weight);
        }
    }
    left
}

// Whether a literal of a body counts without a lost atom.
fn is_firm(normal: &Normal, trail: &Trail, sources: &Sources, lit: AtomLit) -> bool
    requires covered { IsCovered normal.now trail.now.vars }
    requires sized { AreSized normal.now sources.now }
    requires is_atom { IsAtomOf normal.now lit.atom }
{
    (lit.negated || sources.has(lit.atom)) && !is_false_part(normal, trail, lit)
}

// Whether a literal of a body is a lost atom outside the set.
fn is_lost(normal: &Normal, trail: &Trail, sources: &Sources, set: &[bool], lit: AtomLit) -> bool
    requires covered { IsCovered normal.now trail.now.vars }
    requires sized { AreSized normal.now sources.now }
    requires is_atom { IsAtomOf normal.now lit.atom }
{
    !lit.negated
        && !sources.has(lit.atom)
        && !has_atom(set, lit.atom)
        && !is_false_part(normal, trail, lit)
}
