// What an engine's answers tell of answer sets.
ghost use Rattle.std.specs.Prelude.{◌≡◌, ◌≢◌, ◌≤◌, ◌<◌, ◌+◌, ◌↔◌, ◌∷◌, [], filter, take, All};
ghost use Rattle.std.specs.Prelude.{Any, IfOk, IfSome, IsTrue, Some};
ghost use Rattle.clause_store.specs.Clause.{IsOver, variable};
ghost use Rattle.clause_store.specs.Trail.{is_yes, level_of, value_of, values_of};
ghost use Rattle.coherence_test.specs.Searching.{IsFalseAtZero, IsRefusedAtZero, is_low};

use crate::asked::Core;
use assumption_engine::Answer;
use clause_store::{Clause, Lit, Trail, Value, Var};
use ground_program::Set;
use item_list::NoMemory;
use std::alloc::Global;

/// The atoms that are true on a trail.
pub(crate) fn set_on(alloc: Global, trail: &Trail, atoms: u32) -> Result<Set, NoMemory>
    requires { atoms ≤ trail.now.vars }
    ensures { IfOk result (λ set. set ≡ take (atoms + 1) (values_of trail.now)) }
{
    trail.vouch();
    let mut set = Set::open();
    set.push(alloc, false)?;
    let _vars = trail.vars();
    for atom in 1..atoms + 1 {
        let is_in = is_true(trail, Var(atom).positive());
        set.push(alloc, is_in)?;
    }
    Ok(set)
}

fn is_true(trail: &Trail, lit: Lit) -> bool
    requires { IsOver trail.now.vars lit }
    ensures { result ≡ is_yes (value_of trail.now.steps lit) }
{
    match trail.value(lit) {
        Value::Yes => true,
        _ => false,
    }
}

/// A core of the engine as one of what was asked: the variables up to the greatest belong to the
/// literals, and any other is the selector.
pub(crate) fn core_of(alloc: Global, found: &[Lit], greatest: u32) -> Result<Core, NoMemory>
    ensures lits { IfOk result (λ core. core.lits ≡ filter (is_low greatest) found.now) }
    ensures any { IfOk result (λ core. IsTrue core.any
        ↔ Any (λ lit. greatest < variable lit) found.now) }
{
    let lits = low_literals(alloc, found, greatest)?;
    Ok(Core {
        lits,
        any: has_high(found, greatest),
    })
}

fn low_literals(alloc: Global, found: &[Lit], greatest: u32) -> Result<Clause, NoMemory>
    ensures { IfOk result (λ lits. lits ≡ filter (is_low greatest) found.now) }
{
    let mut lits = Clause::open();
    for lit in found {
        if lit.var().0 <= greatest {
            lits.push(alloc, *lit)?;
        }
    }
    Ok(lits)
}

fn has_high(found: &[Lit], greatest: u32) -> bool
    ensures { IsTrue result ↔ Any (λ lit. greatest < variable lit) found.now }
{
    found.iter().any(|lit| lit.var().0 > greatest)
}

/// The first literal of a list that is false by the assignments of level 0.
pub(crate) fn false_at_zero(trail: &Trail, lits: &[Lit]) -> Option<Lit>
    requires { All (IsOver trail.now.vars) lits.now }
    ensures { IfSome result (IsRefusedAtZero trail.now.steps lits.now) }
{
    trail.vouch();
    for lit in lits {
        if is_false_at_zero(trail, *lit) {
            return Some(*lit);
        }
    }
    None
}

/// Whether a literal is false by the assignments of level 0.
fn is_false_at_zero(trail: &Trail, lit: Lit) -> bool
    requires { IsOver trail.now.vars lit }
    ensures { IsTrue result → IsFalseAtZero trail.now.steps lit }
{
    match trail.value(lit) {
        Value::No => is_of_level_zero(trail, lit),
        _ => false,
    }
}

/// Whether the variable of a literal was assigned at level 0.
fn is_of_level_zero(trail: &Trail, lit: Lit) -> bool
    requires { IsOver trail.now.vars lit }
    ensures { IsTrue result → level_of trail.now.steps (variable lit) ≡ Some 0 }
{
    match trail.level_of(lit.var()) {
        Some(0) => true,
        _ => false,
    }
}

/// The literal that the assignment at a place makes false, where that is one of level 0.
pub(crate) fn refuted_on(trail: &Trail, place: u32) -> Option<Lit>
    ensures { IfSome result (IsFalseAtZero trail.now.steps) }
{
    let step = trail.steps().get(place as usize)?;
    if step.level == 0 {
        Some(step.lit.negated())
    } else {
        None
    }
}

/// The core of one literal.
pub(crate) fn core_of_one(alloc: Global, lit: Lit) -> Answer
    ensures { result ≢ Answer.NoMemory → result ≡ Answer.Core (lit ∷ []) }
{
    let mut core = Clause::open();
    match core.push(alloc, lit) {
        Ok(()) => Answer::Core(core),
        Err(_) => Answer::NoMemory,
    }
}
