// What stores, lists of clauses, budgets and trails give back.
use clause_store::{Budget, Clause, Lit, Store, Trail, Units, Value, Var};
use item_list::NoMemory;
use std::alloc::Global;
use std::mem::size_of;
use std::test::Fail;

/// Whether clauses come back from a store and from a copy of it.
fn clauses_come_back(alloc: Global) -> Result<bool, NoMemory> {
    let mut store = Store::open();
    let first = store.add(alloc, &[Lit(4), Lit(7)])?;
    let again = store.copy(alloc)?;
    let second = store.add(alloc, &[Lit(3)])?;
    let kept = store.lits(first) == [Lit(4), Lit(7)].as_slice();
    let copied = again.len() == 1 && again.lits(first) == [Lit(4), Lit(7)].as_slice();
    Ok(kept && copied && store.len() == 2 && store.lits(second) == [Lit(3)].as_slice())
}

/// Whether a copy of a list of clauses stays when the list grows.
fn lists_of_clauses_are_copied(alloc: Global) -> Result<bool, NoMemory> {
    let clause = Clause::from_slice(alloc, &[Lit(4), Lit(7)])?;
    let mut units = Units::open();
    units.push(alloc, clause)?;
    let again = units.copy(alloc)?;
    units.push(alloc, Clause::open())?;
    Ok(
        units.len() == 2
            && again.len() == 1
            && again.get(0).as_slice() == [Lit(4), Lit(7)].as_slice(),
    )
}

/// Whether a clause takes what is put into it and gives up what is cut off.
fn clauses_change(alloc: Global) -> Result<bool, NoMemory> {
    let mut clause = Clause::open();
    clause.push(alloc, Lit(4))?;
    clause.push(alloc, Lit(7))?;
    clause.set(1, Lit(6));
    let both = clause.as_slice() == [Lit(4), Lit(6)].as_slice();
    clause.truncate(1);
    let one = clause.as_slice() == [Lit(4)].as_slice();
    clause.clear();
    Ok(both && one && clause.len() == 0)
}

/// Whether a budget gives back what it counted.
fn a_budget_counts(alloc: Global) -> Result<bool, NoMemory> {
    let mut budget = Budget::new(2);
    budget.count(alloc, &[Lit(3)])?;
    let told = budget.used() == 1 && budget.limit() == 2;
    let units = budget.into_units();
    Ok(told && units.get(0).as_slice() == [Lit(3)].as_slice())
}

/// Whether assignments answer what they are, and nothing once they are gone.
fn assignments_come_and_go(alloc: Global) -> Result<bool, NoMemory> {
    let mut store = Store::open();
    let why = store.add(alloc, &[Lit(3), Lit(4)])?;
    let mut trail = Trail::open(alloc, 3)?;
    trail.decide(Lit(2));
    trail.assign(&store, Lit(4), why);
    let values = trail.value(Lit(3)) == Value::No && trail.value(Lit(4)) == Value::Yes;
    let reasons = trail.reason(Var(1)).is_none() && trail.reason(Var(2)) == Some(why);
    let places = trail.level_of(Var(2)) == Some(1) && trail.place_of(Var(2)) == Some(1);
    let unset = trail.value(Lit(7)) == Value::Unset && trail.level_of(Var(3)).is_none();
    trail.back_to(0);
    let gone = trail.steps().is_empty() && trail.value(Lit(4)) == Value::Unset;
    Ok(values && reasons && places && unset && gone)
}

/// Whether what is known of a literal takes one byte.
fn values_are_small() -> bool {
    size_of::<Value>() == 1
}

#[test]
fn stores_give_clauses_back(rt: HostRuntime) -> Result<(), Fail> {
    assert!(rt; clauses_come_back(rt.alloc())?);
    Ok(())
}

#[test]
fn copies_of_lists_stay(rt: HostRuntime) -> Result<(), Fail> {
    assert!(rt; lists_of_clauses_are_copied(rt.alloc())?);
    Ok(())
}

#[test]
fn clauses_take_what_is_put(rt: HostRuntime) -> Result<(), Fail> {
    assert!(rt; clauses_change(rt.alloc())?);
    Ok(())
}

#[test]
fn budgets_give_back_what_they_counted(rt: HostRuntime) -> Result<(), Fail> {
    assert!(rt; a_budget_counts(rt.alloc())?);
    Ok(())
}

#[test]
fn trails_tell_their_assignments(rt: HostRuntime) -> Result<(), Fail> {
    assert!(rt; assignments_come_and_go(rt.alloc())?);
    Ok(())
}

#[test]
fn values_take_one_byte(rt: HostRuntime) -> Result<(), Fail> {
    assert!(rt; values_are_small());
    Ok(())
}
