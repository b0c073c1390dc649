// The loop clause of an unfounded set. The false literals that it wants are marked by their
// variables and then written in order, so that none is written twice.
ghost use Rattle.std.specs.Prelude.{◌≡◌, ◌≤◌, ◌<◌, ◌+◌, ◌↔◌, [], ◌∷◌, All, Any, IsTrue, length};
ghost use Rattle.std.specs.Prelude.{Contains, IfNone, IfOk, IfSome};
ghost use Rattle.ground_program.specs.Meaning.{IsIn};
ghost use Rattle.normal_program.specs.Loop.{IsAtomOf};
ghost use Rattle.normal_program.specs.Normal.{greatest_body_var};
ghost use Rattle.unfounded_sets.specs.Founding.{IsOpen};
ghost use Rattle.unfounded_sets.specs.Rounds.{IsCovered, HasAtoms, IsRuleIn};
ghost use Rattle.unfounded_sets.specs.Wanted.{IsOpenPart, BlocksIn, weight_off};
ghost use Rattle.unfounded_sets.specs.Wanted.{HasOther, IsOther, IsTrueOutside};
ghost use Rattle.unfounded_sets.specs.Wanted.{Wants, MarksFalse, AreWritten, PutsFalse};
ghost use Rattle.unfounded_sets.specs.Wanted.{IsLoopPart};
ghost use Rattle.unfounded_sets.specs.Found.{IsLoopWritten};

use crate::tables::clear;
use crate::values::{
    false_literal, is_false, is_false_atom, is_false_body, is_false_part, is_over,
};
use clause_store::{Clause, Trail, Value, Var};
use ground_program::{Kind, Set, has_atom};
use item_list::NoMemory;
use normal_program::{BodyOf, Normal, NormalRule};
use std::alloc::Global;

/// Makes the part that of the atoms that aren't false and aren't founded.
pub fn mark_open(normal: &Normal, trail: &Trail, founded: &Set, part: &mut Set)
    requires covered { IsCovered normal.now trail.now.vars }
    requires places { length part.old ≡ normal.now.atoms + 1 }
    ensures { IsOpenPart normal.now trail.now.steps founded.now part.new }
{
    for atom in 0..normal.atoms + 1 {
        let open = is_open(normal, trail, founded, atom);
        part.set(atom as usize, open);
    }
}

fn is_open(normal: &Normal, trail: &Trail, founded: &Set, atom: u32) -> bool
    requires covered { IsCovered normal.now trail.now.vars }
    requires small { atom ≤ normal.now.atoms }
    ensures { IsTrue result ↔ IsOpen normal.now trail.now.steps founded.now atom }
{
    atom >= 1 && !has_atom(founded.as_slice(), atom) && !is_false_atom(normal, trail, atom)
}

/// Marks the false literals that the rules with a head in the part need.
pub fn mark_answers(normal: &Normal, trail: &Trail, part: &Set, wanted: &mut Set)
    requires covered { IsCovered normal.now trail.now.vars }
    requires blocked { All (BlocksIn normal.now trail.now.steps part.now) normal.now.rules }
    requires places { length wanted.old ≡ greatest_body_var normal.now + 1 }
    ensures { Wants normal.now trail.now.steps part.now normal.now.rules wanted.old wanted.new }
{
    for rule in normal.rules.as_slice() {
        mark_answer(normal, trail, rule, part.as_slice(), wanted);
    }
}

/// Marks what a rule needs: nothing where literals over the part hold it below its bound, its
/// body's variable where that is false, another head where it is disjunctive and that is true, or
/// else the false literals of its body.
fn mark_answer(normal: &Normal, trail: &Trail, rule: &NormalRule, part: &[bool], wanted: &mut Set)
    requires covered { IsCovered normal.now trail.now.vars }
    requires rule { IsRuleIn normal.now rule.now }
    requires blocked { BlocksIn normal.now trail.now.steps part.now rule.now }
    requires places { length wanted.old ≡ greatest_body_var normal.now + 1 }
    ensures { Wants normal.now trail.now.steps part.now (rule.now ∷ []) wanted.old wanted.new }
{
    let body = normal.bodies.get(rule.body as usize);
    if !has_head(rule, part) || stays_below(body, part) {
        return;
    }
    if is_false_body(normal, trail, rule) {
        let var = normal.body_var(rule.body);
        wanted.set(var.0 as usize, true);
    } else if let Some(head) = other_head(normal, trail, rule, part) {
        wanted.set(head as usize, true);
    } else {
        mark_false(normal, trail, body, wanted);
    }
}

/// A true head outside the part, of a disjunctive rule.
pub fn other_head(normal: &Normal, trail: &Trail, rule: &NormalRule, part: &[bool]) -> Option<u32>
    requires covered { IsCovered normal.now trail.now.vars }
    requires rule { IsRuleIn normal.now rule.now }
    ensures none { IfNone result (¬ HasOther trail.now.steps part.now rule.now) }
    ensures some { IfSome result (IsOther trail.now.steps part.now rule.now) }
{
    match rule.kind {
        Kind::Basic | Kind::Constraint | Kind::Choice | Kind::Weight => None,
        Kind::Disjunctive => true_outside(normal, trail, rule.heads.as_slice(), part),
    }
}

/// The first of these atoms that is true and outside the part.
fn true_outside(normal: &Normal, trail: &Trail, atoms: &[u32], part: &[bool]) -> Option<u32>
    requires covered { IsCovered normal.now trail.now.vars }
    requires atoms { All (IsAtomOf normal.now) atoms.now }
    ensures none { IfNone result
        (All (λ atom. ¬ IsTrueOutside trail.now.steps part.now atom) atoms.now) }
    ensures among { IfSome result (Contains atoms.now) }
    ensures some { IfSome result (IsTrueOutside trail.now.steps part.now) }
{
    for atom in atoms {
        if is_true_outside(normal, trail, *atom, part) {
            return Some(*atom);
        }
    }
    None
}

fn is_true_outside(normal: &Normal, trail: &Trail, atom: u32, part: &[bool]) -> bool
    requires covered { IsCovered normal.now trail.now.vars }
    requires is_atom { IsAtomOf normal.now atom }
    ensures { IsTrue result ↔ IsTrueOutside trail.now.steps part.now atom }
{
    let _ = normal;
    is_false(trail, Var(atom).negative()) && !has_atom(part, atom)
}

fn has_head(rule: &NormalRule, part: &[bool]) -> bool
    ensures { IsTrue result ↔ Any (IsIn part.now) rule.now.heads }
{
    rule.heads
        .as_slice()
        .iter()
        .any(|head| has_atom(part, *head))
}

/// Whether the literals of a body that aren't over the part stay below its bound.
pub fn stays_below(body: &BodyOf, part: &[bool]) -> bool
    ensures { IsTrue result ↔ weight_off part.now body.now.parts < body.now.bound }
{
    let mut left = u64::from(body.bound);
    for it in body.parts.as_slice() {
        if !is_over(part, it.lit) {
            left = left.saturating_sub(it.weight);
        }
    }
    left > 0
}

fn mark_false(normal: &Normal, trail: &Trail, body: &BodyOf, wanted: &mut Set)
    requires covered { IsCovered normal.now trail.now.vars }
    requires atoms { HasAtoms normal.now body.now }
    requires places { length wanted.old ≡ greatest_body_var normal.now + 1 }
    ensures { MarksFalse trail.now.steps body.now.parts wanted.old wanted.new }
{
    for it in body.parts.as_slice() {
        if is_false_part(normal, trail, it.lit) {
            wanted.set(it.lit.atom as usize, true);
        }
    }
}

/// Writes a loop clause for the part, with the negation of an atom of it.
pub fn write_loop(
    alloc: Global,
    normal: &Normal,
    trail: &Trail,
    part: &Set,
    atom: u32,
    wanted: &mut Set,
    out: &mut Clause,
) -> Result<(), NoMemory>
    requires covered { IsCovered normal.now trail.now.vars }
    requires part { IsLoopPart normal.now trail.now.steps part.now atom }
    requires places { length wanted.old ≡ greatest_body_var normal.now + 1 }
    ensures written { IfOk result (λ _. IsLoopWritten normal.now trail.now out.new) }
    ensures places { length wanted.new ≡ length wanted.old }
{
    clear(wanted);
    wanted.set(atom as usize, true);
    mark_answers(normal, trail, part, wanted);
    write_wanted(alloc, trail, wanted, out)?;
    let denial = Var(atom).negative();
    if let Value::Unset = trail.value(denial) {
        out.push(alloc, denial)?;
    }
    Ok(())
}

/// Writes the false literals of the wanted variables.
pub fn write_wanted(
    alloc: Global,
    trail: &Trail,
    wanted: &Set,
    out: &mut Clause,
) -> Result<(), NoMemory>
    requires some { 1 ≤ length wanted.now }
    requires few { length wanted.now ≤ trail.now.vars + 1 }
    ensures { IfOk result (λ _. AreWritten trail.now.steps wanted.now (length wanted.now) out.new) }
{
    let vars = trail.vars();
    out.clear();
    let _ = vars;
    for var in 1..wanted.len() as u32 {
        if has_atom(wanted.as_slice(), var) {
            write_false(alloc, trail, Var(var), out)?;
        }
    }
    Ok(())
}

/// Puts the false literal of a variable last, if it has one.
fn write_false(alloc: Global, trail: &Trail, var: Var, out: &mut Clause) -> Result<(), NoMemory>
    requires first { 1 ≤ var.0 }
    requires last { var.0 ≤ trail.now.vars }
    ensures { IfOk result (λ _. PutsFalse trail.now.steps var.0 out.old out.new) }
{
    match false_literal(trail, var) {
        None => Ok(()),
        Some(lit) => {
            out.push(alloc, lit)?;
            Ok(())
        }
    }
}
