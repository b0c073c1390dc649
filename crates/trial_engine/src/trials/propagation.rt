// What propagation does to small states. Literal 2 says that variable 1 is true, literal 3 that it
// is false, and so on.
ghost use Rattle.std.specs.Prelude.{◌≡◌, ◌<◌, ◌^◌, false, IfOk};

use crate::trials::clauses::{clause_over, lits_of};
use clause_store::{ClauseRef, Lit, Store, Value, Var};
use item_list::NoMemory;
use search_state::SearchState;
use std::alloc::Global;
use std::test::Fail;

/// The state of clauses over the variables 1 to `vars`. It is opened with the first clause, and the
/// others are added to it.
fn state_of(alloc: Global, vars: u32, clauses: &[&[u32]]) -> Result<SearchState, NoMemory>
    requires { vars < 2 ^ 31 }
    ensures alive { IfOk result (λ it. it.dead ≡ false) }
    ensures vars { IfOk result (λ it. it.trail.vars ≡ vars) }
{
    let mut state = SearchState::open(alloc, vars, Store::open())?;
    for codes in clauses {
        let lits = lits_of(alloc, codes)?;
        let clause = clause_over(alloc, vars, lits.as_slice())?;
        state.add(alloc, clause.as_slice())?;
    }
    Ok(state)
}

/// Makes a literal true if it is unset.
fn decide(state: &mut SearchState, lit: Lit)
    requires { state.old.dead ≡ false }
    ensures alive { state.new.dead ≡ false }
    ensures vars { state.new.trail.vars ≡ state.old.trail.vars }
{
    if state.trail().has(lit) {
        if let Value::Unset = state.trail().value(lit) {
            state.decide(lit);
        }
    }
}

/// Whether a literal is true on a trail because of the clause `why`, at a level.
fn is_forced(state: &SearchState, lit: Lit, why: usize, level: u32) -> bool {
    let trail = state.trail();
    trail.has(lit)
        && trail.value(lit) == Value::Yes
        && trail.reason(lit.var()) == Some(ClauseRef(why))
        && trail.level_of(lit.var()) == Some(level)
}

/// Whether a unit is assigned with its clause as the reason, and unset after going back.
fn a_unit_comes_and_goes(alloc: Global) -> Result<bool, NoMemory> {
    let mut state = state_of(alloc, 2, &[&[3, 4]])?;
    decide(&mut state, Lit(2));
    let settled = state.propagate().is_none();
    let forced = is_forced(&state, Lit(4), 0, 1);
    state.back_to(0);
    let again = state.propagate().is_none() && state.trail().steps().is_empty();
    Ok(settled && forced && again)
}

/// Whether a chain against the order of the clauses goes on to the end, and then ends in a clause
/// that is added and false.
fn a_chain_ends_in_a_false_clause(alloc: Global) -> Result<bool, NoMemory> {
    let mut state = state_of(alloc, 3, &[&[5, 6], &[3, 4]])?;
    decide(&mut state, Lit(2));
    let settled = state.propagate().is_none();
    let forced = is_forced(&state, Lit(4), 1, 1) && is_forced(&state, Lit(6), 0, 1);
    let refuted = state.add(alloc, &[Lit(3), Lit(7)])?;
    Ok(settled && forced && state.propagate() == Some(refuted))
}

/// Whether a clause of one literal stands at level 0, and the empty clause is false.
fn a_unit_stands_at_level_0(alloc: Global) -> Result<bool, NoMemory> {
    let mut state = state_of(alloc, 1, &[&[3]])?;
    let settled = state.propagate().is_none();
    let forced = is_forced(&state, Lit(3), 0, 0);
    let empty = state.add(alloc, &[])?;
    Ok(settled && forced && state.propagate() == Some(empty) && !state.is_dead())
}

#[test]
fn units_come_and_go(rt: HostRuntime) -> Result<(), Fail> {
    assert!(rt; a_unit_comes_and_goes(rt.alloc())?);
    Ok(())
}

#[test]
fn chains_end_in_a_false_clause(rt: HostRuntime) -> Result<(), Fail> {
    assert!(rt; a_chain_ends_in_a_false_clause(rt.alloc())?);
    Ok(())
}

#[test]
fn units_stand_at_level_0(rt: HostRuntime) -> Result<(), Fail> {
    assert!(rt; a_unit_stands_at_level_0(rt.alloc())?);
    Ok(())
}
