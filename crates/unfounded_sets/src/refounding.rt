// Atoms without a source are founded anew: first those that are lost, then along a queue the heads
// of bodies in which founded atoms stand.
ghost use Rattle.std.specs.Prelude.{◌≡◌, ◌<◌, All, false, length, IfNone, IfSome};
ghost use Rattle.std.specs.Bool.{OnTrue, OnFalse};
ghost use Rattle.clause_store.specs.Standing.{IsFalse};
ghost use Rattle.normal_program.specs.Clauses.{positive};
ghost use Rattle.normal_program.specs.Loop.{IsAtomOf};
ghost use Rattle.unfounded_sets.specs.Found.{AreFounded};
ghost use Rattle.unfounded_sets.specs.Placed.{ArePlaces, IsHead};
ghost use Rattle.unfounded_sets.specs.Rounds.{IsCovered};
ghost use Rattle.unfounded_sets.specs.Sources.{AreSized, AreSources, Fires, IsSettledAtom};
ghost use Rattle.unfounded_sets.specs.Sources.{earlier};

use crate::firing::fires;
use crate::places::Places;
use crate::sources::Sources;
use crate::values::{is_false, is_false_atom};
use clause_store::{Trail, Var};
use normal_program::Normal;

/// Founds lost atoms anew, as far as the hints go.
pub fn found_anew(normal: &Normal, trail: &Trail, places: &Places, sources: &mut Sources)
    requires covered { IsCovered normal.now trail.now.vars }
    requires places { ArePlaces normal.now places.now }
    requires sources { AreSources normal.now trail.now.steps sources.old }
    ensures sources { AreSources normal.now trail.now.steps sources.new }
    ensures doubted { sources.new.doubted ≡ sources.old.doubted }
{
    for place in 0..sources.lost.len() {
        if let Some(atom) = sources.lost.at(place) {
            found_lost(normal, trail, places, atom, sources);
        }
    }
    for _atom in 0..normal.atoms + 1 {
        match sources.next_founded() {
            None => return,
            Some(atom) => found_with(normal, trail, places, atom, sources),
        }
    }
}

// Founds a lost atom by one of its rules.
fn found_lost(normal: &Normal, trail: &Trail, places: &Places, atom: u32, sources: &mut Sources)
    requires covered { IsCovered normal.now trail.now.vars }
    requires places { ArePlaces normal.now places.now }
    requires sources { AreSources normal.now trail.now.steps sources.old }
    requires within { atom < length sources.old.lost.waits }
    ensures sources { AreSources normal.now trail.now.steps sources.new }
    ensures doubted { sources.new.doubted ≡ sources.old.doubted }
{
    if is_left(normal, trail, sources, atom) {
        for body in places.supports.at(atom) {
            if found_by(normal, trail, *body, atom, sources) {
                return;
            }
        }
    }
}

// Whether an atom isn't false and has no source.
fn is_left(normal: &Normal, trail: &Trail, sources: &Sources, atom: u32) -> bool
    requires covered { IsCovered normal.now trail.now.vars }
    requires sized { AreSized normal.now sources.now }
    requires within { atom < length sources.now.lost.waits }
    ensures left { OnTrue result (¬ IsFalse trail.now.steps (positive atom)) }
    ensures is_atom { OnTrue result (IsAtomOf normal.now atom) }
    ensures other { OnFalse result (IsSettledAtom normal.now trail.now.steps sources.now atom) }
{
    atom >= 1 && !sources.has(atom) && !is_false_atom(normal, trail, atom)
}

// Founds an atom by a body of a rule for it, where that fires. Whether it does.
fn found_by(normal: &Normal, trail: &Trail, body: u32, atom: u32, sources: &mut Sources) -> bool
    requires covered { IsCovered normal.now trail.now.vars }
    requires sources { AreSources normal.now trail.now.steps sources.old }
    requires head { IsHead normal.now body atom }
    requires possible { ¬ IsFalse trail.now.steps (positive atom) }
    ensures sources { AreSources normal.now trail.now.steps sources.new }
    ensures doubted { sources.new.doubted ≡ sources.old.doubted }
{
    if sources.hints.may_fire(body)
        && fires(normal, trail, body, sources.ranks.as_slice(), sources.next)
    {
        sources.give(atom, body);
        return true;
    }
    false
}

// Counts a founded atom for the bodies in which it stands, and founds by those that may fire.
fn found_with(normal: &Normal, trail: &Trail, places: &Places, atom: u32, sources: &mut Sources)
    requires covered { IsCovered normal.now trail.now.vars }
    requires places { ArePlaces normal.now places.now }
    requires sources { AreSources normal.now trail.now.steps sources.old }
    ensures sources { AreSources normal.now trail.now.steps sources.new }
    ensures doubted { sources.new.doubted ≡ sources.old.doubted }
{
    if atom > normal.atoms {
        return;
    }
    for body in places.occurrences.at(Var(atom).positive().0) {
        if sources.raise(*body) {
            found_heads(normal, trail, places, *body, sources);
        }
    }
}

// Founds the heads of a body that aren't false, where it fires.
fn found_heads(normal: &Normal, trail: &Trail, places: &Places, body: u32, sources: &mut Sources)
    requires covered { IsCovered normal.now trail.now.vars }
    requires places { ArePlaces normal.now places.now }
    requires sources { AreSources normal.now trail.now.steps sources.old }
    requires within { body < length normal.now.bodies }
    ensures sources { AreSources normal.now trail.now.steps sources.new }
    ensures doubted { sources.new.doubted ≡ sources.old.doubted }
{
    if fires(normal, trail, body, sources.ranks.as_slice(), sources.next) {
        for head in places.heads.at(body) {
            found_head(normal, trail, body, *head, sources);
        }
    }
}

// Founds an atom by a body that fires, unless it is false.
fn found_head(normal: &Normal, trail: &Trail, body: u32, head: u32, sources: &mut Sources)
    requires covered { IsCovered normal.now trail.now.vars }
    requires sources { AreSources normal.now trail.now.steps sources.old }
    requires head { IsHead normal.now body head }
    requires is_atom { IsAtomOf normal.now head }
    requires fires { Fires normal.now trail.now.steps
        (earlier sources.old.next sources.old.ranks.items) body }
    ensures sources { AreSources normal.now trail.now.steps sources.new }
    ensures fires { Fires normal.now trail.now.steps
        (earlier sources.new.next sources.new.ranks.items) body }
    ensures doubted { sources.new.doubted ≡ sources.old.doubted }
{
    if !is_false_atom(normal, trail, head) {
        sources.give(head, body);
    }
}

/// An atom that isn't false and has no source, if there is one. It is still lost.
pub fn one_lost(normal: &Normal, trail: &Trail, sources: &mut Sources) -> Option<u32>
    requires covered { IsCovered normal.now trail.now.vars }
    requires sources { AreSources normal.now trail.now.steps sources.old }
    requires none { All (λ waits. waits ≡ false) sources.old.doubted.waits }
    ensures founded { IfNone result (AreFounded normal.now trail.now.steps) }
    ensures is_atom { IfSome result (IsAtomOf normal.now) }
    ensures sources { AreSources normal.now trail.now.steps sources.new }
    ensures doubted { sources.new.doubted ≡ sources.old.doubted }
{
    'lost: while let Some(atom) = sources.lost.next() {
        if is_left(normal, trail, sources, atom) {
            return Some(atom);
        }
        sources.lost.settle(atom);
    }
    None
}

/// A true atom without a source, if there is one among the lost ones.
pub fn true_lost(normal: &Normal, trail: &Trail, sources: &Sources) -> Option<u32>
    requires covered { IsCovered normal.now trail.now.vars }
    requires sized { AreSized normal.now sources.now }
    ensures { IfSome result (IsAtomOf normal.now) }
{
    for place in 0..sources.lost.len() {
        if let Some(atom) = sources.lost.at(place) {
            if is_true_left(normal, trail, sources, atom) {
                return Some(atom);
            }
        }
    }
    None
}

// Whether an atom is true and has no source.
fn is_true_left(normal: &Normal, trail: &Trail, sources: &Sources, atom: u32) -> bool
    requires covered { IsCovered normal.now trail.now.vars }
    requires sized { AreSized normal.now sources.now }
    requires within { atom < length sources.now.lost.waits }
    ensures { OnTrue result (IsAtomOf normal.now atom) }
{
    is_left(normal, trail, sources, atom) && is_false(trail, Var(atom).negative())
}
