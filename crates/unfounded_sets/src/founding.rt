// Founding by rounds over the rules, from atoms that are known to be founded.
ghost use Rattle.std.specs.Prelude.{◌≡◌, ◌≤◌, ◌<◌, ◌+◌, ◌-◌, ◌↔◌, [], ◌∷◌, All, IsTrue, length};
ghost use Rattle.std.specs.Prelude.{MatchOption};
ghost use Rattle.normal_program.specs.Loop.{IsAtomOf};
ghost use Rattle.unfounded_sets.specs.Found.{AreFounded};
ghost use Rattle.unfounded_sets.specs.Founding.{founding_weight, IsReached};
ghost use Rattle.unfounded_sets.specs.Rounds.{IsCovered, HasAtoms, IsRuleIn, AddsHeads, Tries};
ghost use Rattle.unfounded_sets.specs.Rounds.{IsEmpty, IsBelow, IsSettled};
ghost use Rattle.unfounded_sets.specs.Wanted.{IsLeft};

use crate::values::{counts, first_open, is_false_atom, is_false_body};
use clause_store::Trail;
use ground_program::{Heads, Set, has_atom};
use normal_program::{BodyOf, Normal, NormalRule};

/// Founds what can be founded, from a set of founded atoms. An atom that isn't false and isn't
/// founded, if there is one; then all that can be founded is.
pub fn unfounded_atom(normal: &Normal, trail: &Trail, founded: &mut Set) -> Option<u32>
    requires covered { IsCovered normal.now trail.now.vars }
    requires below { IsBelow normal.now trail.now.steps founded.old }
    ensures answer { MatchOption result (AreFounded normal.now trail.now.steps)
        (IsLeft normal.now trail.now.steps founded.new) }
    ensures places { length founded.new ≡ length founded.old }
{
    found_all(normal, trail, founded);
    first_open(normal, trail, founded)
}

/// Founds by rounds over the rules until none founds an atom.
fn found_all(normal: &Normal, trail: &Trail, founded: &mut Set)
    requires covered { IsCovered normal.now trail.now.vars }
    requires below { IsBelow normal.now trail.now.steps founded.old }
    ensures { IsSettled normal.now trail.now.steps founded.new }
{
    'rounds: while found_round(normal, trail, founded) {}
}

/// One round over the rules. Whether an atom was founded.
fn found_round(normal: &Normal, trail: &Trail, founded: &mut Set) -> bool
    requires covered { IsCovered normal.now trail.now.vars }
    requires places { length founded.old ≡ normal.now.atoms + 1 }
    ensures { Tries normal.now trail.now.steps normal.now.rules founded.old founded.new result }
{
    let mut grew = false;
    for rule in normal.rules.as_slice() {
        if found_by(normal, trail, rule, founded) {
            grew = true;
        }
    }
    grew
}

/// Founds the heads of a rule that is reached. Whether an atom was founded.
fn found_by(normal: &Normal, trail: &Trail, rule: &NormalRule, founded: &mut Set) -> bool
    requires covered { IsCovered normal.now trail.now.vars }
    requires rule { IsRuleIn normal.now rule.now }
    requires places { length founded.old ≡ normal.now.atoms + 1 }
    ensures { Tries normal.now trail.now.steps (rule.now ∷ []) founded.old founded.new result }
{
    if is_reached(normal, trail, rule, founded) {
        add_heads(normal, trail, &rule.heads, founded)
    } else {
        false
    }
}

fn is_reached(normal: &Normal, trail: &Trail, rule: &NormalRule, founded: &Set) -> bool
    requires covered { IsCovered normal.now trail.now.vars }
    requires rule { IsRuleIn normal.now rule.now }
    ensures { IsTrue result ↔ IsReached normal.now trail.now.steps founded.now rule.now }
{
    let body = normal.bodies.get(rule.body as usize);
    !is_false_body(normal, trail, rule) && lacks(normal, trail, body, founded.as_slice()) == 0
}

/// What the literals of a body that count with a set lack of its bound.
fn lacks(normal: &Normal, trail: &Trail, body: &BodyOf, set: &[bool]) -> u64
    requires covered { IsCovered normal.now trail.now.vars }
    requires atoms { HasAtoms normal.now body.now }
    ensures { result ≡ body.now.bound
        - founding_weight trail.now.steps set.now body.now.parts }
{
    let mut left = u64::from(body.bound);
    for part in body.parts.as_slice() {
        if counts(normal, trail, set, part.lit) {
            left = left.saturating_sub(part.weight);
        }
    }
    left
}

/// Adds the heads that aren't false. Whether one of them was new.
fn add_heads(normal: &Normal, trail: &Trail, heads: &Heads, founded: &mut Set) -> bool
    requires covered { IsCovered normal.now trail.now.vars }
    requires heads { All (IsAtomOf normal.now) heads.now }
    requires places { length founded.old ≡ normal.now.atoms + 1 }
    ensures { AddsHeads trail.now.steps heads.now founded.old founded.new result }
{
    let mut grew = false;
    for head in heads.as_slice() {
        let head = *head;
        if !has_atom(founded.as_slice(), head) && !is_false_atom(normal, trail, head) {
            founded.set(head as usize, true);
            grew = true;
        }
    }
    grew
}
