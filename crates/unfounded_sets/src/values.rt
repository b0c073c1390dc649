// What a trail and an atom set say of literals.
ghost use Rattle.std.specs.Prelude.{◌≡◌, ◌≤◌, ◌<◌, MatchOption};
ghost use Rattle.clause_store.specs.Clause.{IsOver};
ghost use Rattle.normal_program.specs.Clauses.{positive, literal_of};
ghost use Rattle.normal_program.specs.Normal.{body_var};
ghost use Rattle.normal_program.specs.Loop.{IsAtomOf};
ghost use Rattle.unfounded_sets.specs.Founding.{is_no, is_false, counts_with, IsOpen};
ghost use Rattle.unfounded_sets.specs.Rounds.{IsCovered, IsRuleIn, HasValued, IsOutside};
ghost use Rattle.unfounded_sets.specs.Wanted.{is_over, IsFalseOf, HasNoFalse, HasOpen};

use clause_store::{Lit, Trail, Value, Var};
use ground_program::{AtomLit, Set, has_atom};
use normal_program::{Normal, NormalRule, literal_of};

/// Whether a literal is false.
pub fn is_false(trail: &Trail, lit: Lit) -> bool
    requires { IsOver trail.now.vars lit }
    ensures { result ≡ is_false trail.now.steps lit }
{
    is_no(trail.value(lit))
}

fn is_no(value: Value) -> bool
    ensures { result ≡ is_no value }
{
    match value {
        Value::Yes => false,
        Value::No => true,
        Value::Unset => false,
    }
}

/// Whether an atom is false.
pub fn is_false_atom(normal: &Normal, trail: &Trail, atom: u32) -> bool
    requires covered { IsCovered normal.now trail.now.vars }
    requires is_atom { IsAtomOf normal.now atom }
    ensures { result ≡ is_false trail.now.steps (positive atom) }
{
    let _ = normal;
    is_false(trail, Var(atom).positive())
}

/// Whether a literal of a body is false.
pub fn is_false_part(normal: &Normal, trail: &Trail, lit: AtomLit) -> bool
    requires covered { IsCovered normal.now trail.now.vars }
    requires is_atom { IsAtomOf normal.now lit.atom }
    ensures { result ≡ is_false trail.now.steps (literal_of lit) }
{
    let _ = normal;
    is_false(trail, literal_of(lit))
}

/// Whether the variable of a rule's body is false.
pub fn is_false_body(normal: &Normal, trail: &Trail, rule: &NormalRule) -> bool
    requires covered { IsCovered normal.now trail.now.vars }
    requires rule { IsRuleIn normal.now rule.now }
    ensures { result ≡ is_false trail.now.steps (positive (body_var normal.now rule.now.body)) }
{
    is_false(trail, normal.body_var(rule.body).positive())
}

/// Whether a literal of a body counts towards founding with a set.
pub fn counts(normal: &Normal, trail: &Trail, set: &[bool], lit: AtomLit) -> bool
    requires covered { IsCovered normal.now trail.now.vars }
    requires is_atom { IsAtomOf normal.now lit.atom }
    ensures { result ≡ counts_with trail.now.steps set.now lit }
{
    if lit.negated {
        !is_false_part(normal, trail, lit)
    } else {
        has_atom(set, lit.atom)
    }
}

/// Whether a literal of a body is a positive one over the part.
pub fn is_over(part: &[bool], lit: AtomLit) -> bool
    ensures { result ≡ is_over part.now lit }
{
    if lit.negated {
        false
    } else {
        has_atom(part, lit.atom)
    }
}

/// The false literal of a variable, if it has one.
pub fn false_literal(trail: &Trail, var: Var) -> Option<Lit>
    requires first { 1 ≤ var.0 }
    requires last { var.0 ≤ trail.now.vars }
    ensures { MatchOption result (HasNoFalse trail.now.steps var.0)
        (IsFalseOf trail.now.steps var.0) }
{
    let vars = trail.vars();
    let _ = vars;
    if is_false(trail, var.positive()) {
        Some(var.positive())
    } else if is_false(trail, var.negative()) {
        Some(var.negative())
    } else {
        None
    }
}

/// The first atom with this value that isn't founded.
pub fn outside(normal: &Normal, trail: &Trail, founded: &Set, value: Value) -> Option<u32>
    requires covered { IsCovered normal.now trail.now.vars }
    ensures { MatchOption result (HasValued normal.now trail.now.steps founded.now value)
        (IsOutside normal.now trail.now.steps founded.now value) }
{
    for atom in 1..normal.atoms + 1 {
        if trail.value(Var(atom).positive()) == value && !has_atom(founded.as_slice(), atom) {
            return Some(atom);
        }
    }
    None
}

/// An atom that isn't false and isn't founded, a true one where there is one.
pub fn first_open(normal: &Normal, trail: &Trail, founded: &Set) -> Option<u32>
    requires { IsCovered normal.now trail.now.vars }
    ensures { MatchOption result (HasOpen normal.now trail.now.steps founded.now)
        (IsOpen normal.now trail.now.steps founded.now) }
{
    match outside(normal, trail, founded, Value::Yes) {
        Some(atom) => Some(atom),
        None => outside(normal, trail, founded, Value::Unset),
    }
}
