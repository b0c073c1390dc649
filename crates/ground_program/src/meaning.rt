// Which rules of a reduct a set keeps, and what a set that is no model breaks first.
ghost use Rattle.std.specs.Prelude.{◌≡◌, ◌≤◌, ◌+◌, ◌↔◌, length, sum_by, find, not, map};
ghost use Rattle.std.specs.Prelude.{option_copied, All, IsTrue, IsOk, IfErr, MatchOption};
ghost use Rattle.ground_program.specs.Meaning.{has, counts, weight_in, HeadHolds, Keeps, KeepsAll};
ghost use Rattle.ground_program.specs.Meaning.{IsIn, MeetsCompute};
ghost use Rattle.ground_program.specs.Models.{IsModel, IsFirstFailing, IsFirstUnmet, BreaksFirst};
ghost use Rattle.ground_program.specs.Program.{IsProgram};

use crate::{AtomLit, Broken, Kind, Program, Rule, Set, Weighted};

/// Whether `set` keeps the rule of the reduct by `by`. An atom past the end of a set isn't in it.
pub fn holds_in(rule: &Rule, by: &Set, set: &Set) -> bool
    ensures { IsTrue result ↔ Keeps by.now set.now rule.now }
{
    keeps(rule, by.as_slice(), set.as_slice())
}

/// Whether the set keeps each rule of its own reduct and meets the compute statement, and else
/// what it breaks first.
pub fn is_model(program: &Program, set: &Set) -> Result<(), Broken>
    requires valid { IsProgram program.now }
    requires positions { length set.now ≡ program.now.atoms + 1 }
    ensures model { IsOk result ↔ IsModel program.now set.now }
    ensures broken { IfErr result (BreaksFirst program.now set.now) }
{
    let set = set.as_slice();
    if let Some(at) = first_failing(program.rules.as_slice(), set) {
        return Err(Broken::Rule(at));
    }
    match first_unmet(program, set) {
        None => Ok(()),
        Some(atom) => Err(Broken::Compute(atom)),
    }
}

/// Whether the set has each atom that the program asks for and none that it forbids.
pub fn meets_compute(program: &Program, set: &Set) -> bool
    ensures { IsTrue result ↔ MeetsCompute program.now set.now }
{
    let set = set.as_slice();
    has_all(set, program.must.as_slice()) && has_none(set, program.must_not.as_slice())
}

fn has_all(set: &[bool], atoms: &[u32]) -> bool
    ensures { IsTrue result ↔ All (IsIn set.now) atoms.now }
{
    atoms.iter().all(|atom| has_atom(set, *atom))
}

fn has_none(set: &[bool], atoms: &[u32]) -> bool
    ensures { IsTrue result ↔ All (λ atom. ¬ IsIn set.now atom) atoms.now }
{
    atoms.iter().all(|atom| !has_atom(set, *atom))
}

/// The first rule that fails by the set in the set.
fn first_failing(rules: &[Rule], set: &[bool]) -> Option<u32>
    requires { length rules.now ≤ 2147483647 }
    ensures { MatchOption result (KeepsAll set.now set.now rules.now)
        (IsFirstFailing set.now rules.now) }
{
    for (at, rule) in rules.iter().enumerate() {
        if !keeps(rule, set, set) {
            return Some(at as u32);
        }
    }
    None
}

/// The first atom of the compute statement that isn't met.
fn first_unmet(program: &Program, set: &[bool]) -> Option<u32>
    ensures { MatchOption result (MeetsCompute program.now set.now)
        (IsFirstUnmet program.now set.now) }
{
    match first_missing(program.must.as_slice(), set) {
        None => first_present(program.must_not.as_slice(), set),
        Some(atom) => Some(atom),
    }
}

/// The first of the atoms that isn't in the set.
fn first_missing(atoms: &[u32], set: &[bool]) -> Option<u32>
    ensures { result ≡ find (λ atom. not (has set.now atom)) atoms.now }
{
    atoms.iter().copied().find(|atom| !has_atom(set, *atom))
}

/// The first of the atoms that is in the set.
fn first_present(atoms: &[u32], set: &[bool]) -> Option<u32>
    ensures { result ≡ find (has set.now) atoms.now }
{
    atoms.iter().copied().find(|atom| has_atom(set, *atom))
}

fn keeps(rule: &Rule, by: &[bool], set: &[bool]) -> bool
    ensures { IsTrue result ↔ Keeps by.now set.now rule.now }
{
    !body_holds(rule.bound, rule.body.as_slice(), by, set)
        || head_holds(rule.kind, rule.heads.as_slice(), by, set)
}

/// Whether the weights of the literals that count reach the bound. The bound is counted down,
/// since the sum of the weights may pass 2^32.
fn body_holds(bound: u32, body: &[Weighted], by: &[bool], set: &[bool]) -> bool
    ensures { IsTrue result ↔ (bound ≤ sum_by (weight_in by.now set.now) body.now) }
{
    let mut left = bound;
    for part in body {
        if lit_counts(part.lit, by, set) {
            left = left.saturating_sub(part.weight);
        }
    }
    left == 0
}

fn head_holds(kind: Kind, heads: &[u32], by: &[bool], set: &[bool]) -> bool
    ensures { IsTrue result ↔ HeadHolds kind by.now set.now heads.now }
{
    match kind {
        Kind::Basic | Kind::Constraint | Kind::Weight => {
            heads.iter().all(|atom| has_atom(set, *atom))
        }
        Kind::Choice => heads
            .iter()
            .all(|atom| !has_atom(by, *atom) || has_atom(set, *atom)),
        Kind::Disjunctive => heads.iter().any(|atom| has_atom(set, *atom)),
    }
}

fn lit_counts(lit: AtomLit, by: &[bool], set: &[bool]) -> bool
    ensures { result ≡ counts by.now set.now lit }
{
    if lit.negated {
        !has_atom(by, lit.atom)
    } else {
        has_atom(set, lit.atom)
    }
}

/// Whether the atom is in the set. One past its end isn't.
pub fn has_atom(set: &[bool], atom: u32) -> bool
    ensures { result ≡ has set.now atom }
{
    set.get(atom as usize).copied().unwrap_or(false)
}
