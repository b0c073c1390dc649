// Truth values: of literals and clauses, and of the bodies of a normal form.
ghost use Rattle.std.specs.Prelude.{◌≡◌, ◌↔◌, ◌∷◌, [], ◌++◌, IsTrue, IfOk};
ghost use Rattle.clause_store.specs.Clause.{makes_true, HoldsIn};
ghost use Rattle.ground_program.specs.Meaning.{counts};
ghost use Rattle.normal_program.specs.Body.{body_holds};
ghost use Rattle.normal_program.specs.Normal.{extension};

use clause_store::Lit;
use ground_program::{AtomLit, Set, has_atom};
use item_list::NoMemory;
use normal_program::{BodyOf, Normal};
use std::alloc::Global;

/// Whether some literal of the clause is true.
pub fn holds(values: &[bool], clause: &[Lit]) -> bool
    ensures { IsTrue result ↔ HoldsIn values.now clause.now }
{
    clause.iter().any(|lit| is_true(values, *lit))
}

fn is_true(values: &[bool], lit: Lit) -> bool
    ensures { result ≡ makes_true values.now lit }
{
    let truth = has_atom(values, lit.var().0);
    if lit.is_negated() { !truth } else { truth }
}

/// The values of the atoms of a set, then of each body whether it holds in the set.
pub fn extended(alloc: Global, normal: &Normal, set: &Set) -> Result<Set, NoMemory>
    ensures { IfOk result (λ values. values ≡ extension normal.now set.now set.now) }
{
    let mut values = set.copy(alloc)?;
    for body in normal.bodies.as_slice() {
        values.push(alloc, is_met(body, set.as_slice()))?;
    }
    Ok(values)
}

/// Whether the weights of the literals that are true reach the bound. The bound is counted down,
/// so that no sum can be too great.
fn is_met(body: &BodyOf, set: &[bool]) -> bool
    ensures { result ≡ body_holds set.now set.now body.now }
{
    let mut left = u64::from(body.bound);
    for part in body.parts.as_slice() {
        if is_literal_true(part.lit, set) {
            left = left.saturating_sub(part.weight);
        }
    }
    left == 0
}

fn is_literal_true(lit: AtomLit, set: &[bool]) -> bool
    ensures { result ≡ counts set.now set.now lit }
{
    let truth = has_atom(set, lit.atom);
    if lit.negated { !truth } else { truth }
}

/// The values with one more at the end.
pub fn longer(alloc: Global, values: &Set, last: bool) -> Result<Set, NoMemory>
    ensures { IfOk result (λ more. more ≡ values.now ++ last ∷ []) }
{
    let mut more = values.copy(alloc)?;
    more.push(alloc, last)?;
    Ok(more)
}
