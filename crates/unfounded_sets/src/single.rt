// Which atoms some rule supports: one whose body isn't false and of which, where it is disjunctive,
// no other head is true.
ghost use Rattle.std.specs.Prelude.{◌≡◌, ◌<◌, ◌+◌, ◌↔◌, All, Any, IsTrue, length};
ghost use Rattle.normal_program.specs.Loop.{IsAtomOf};
ghost use Rattle.unfounded_sets.specs.Rounds.{IsCovered, IsRuleIn};
ghost use Rattle.unfounded_sets.specs.Single.{AddsAll, IsOtherTrue, Marks, MarksOne};

use crate::loops::other_head;
use crate::values::{is_false, is_false_body};
use clause_store::{Trail, Var};
use ground_program::Set;
use normal_program::{Normal, NormalRule};

/// Marks the atoms that some rule supports.
pub fn mark_supported(normal: &Normal, trail: &Trail, supported: &mut Set)
    requires covered { IsCovered normal.now trail.now.vars }
    requires places { length supported.old ≡ normal.now.atoms + 1 }
    ensures { Marks normal.now trail.now.steps normal.now.rules supported.old supported.new }
{
    for rule in normal.rules.as_slice() {
        mark_heads(normal, trail, rule, supported);
    }
}

/// Marks the heads that a rule supports. A true head of a disjunctive rule leaves out all others.
fn mark_heads(normal: &Normal, trail: &Trail, rule: &NormalRule, supported: &mut Set)
    requires covered { IsCovered normal.now trail.now.vars }
    requires rule { IsRuleIn normal.now rule.now }
    requires places { length supported.old ≡ normal.now.atoms + 1 }
    ensures { MarksOne normal.now trail.now.steps rule.now supported.old supported.new }
{
    if is_false_body(normal, trail, rule) {
        return;
    }
    let heads = rule.heads.as_slice();
    if let Some(head) = other_head(normal, trail, rule, &[]) {
        if !has_other_true(normal, trail, heads, head) {
            supported.set(head as usize, true);
        }
    } else {
        mark_all(heads, supported);
    }
}

/// Whether one of the atoms is true and isn't this one.
fn has_other_true(normal: &Normal, trail: &Trail, atoms: &[u32], than: u32) -> bool
    requires covered { IsCovered normal.now trail.now.vars }
    requires atoms { All (IsAtomOf normal.now) atoms.now }
    ensures { IsTrue result ↔ Any (IsOtherTrue trail.now.steps than) atoms.now }
{
    for atom in atoms {
        if is_other_true(normal, trail, *atom, than) {
            return true;
        }
    }
    false
}

fn is_other_true(normal: &Normal, trail: &Trail, atom: u32, than: u32) -> bool
    requires covered { IsCovered normal.now trail.now.vars }
    requires is_atom { IsAtomOf normal.now atom }
    ensures { IsTrue result ↔ IsOtherTrue trail.now.steps than atom }
{
    let _ = normal;
    is_false(trail, Var(atom).negative()) && atom != than
}

/// Adds atoms to a set.
fn mark_all(atoms: &[u32], set: &mut Set)
    requires { All (λ atom. atom < length set.old) atoms.now }
    ensures { AddsAll atoms.now set.old set.new }
{
    for atom in atoms {
        set.set(*atom as usize, true);
    }
}
