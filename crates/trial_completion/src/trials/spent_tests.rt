// Lists of spent tests.
use clause_store::{Lit, Units};
use ground_program::Set;
use item_list::NoMemory;
use normal_program::{SpentTest, Tests};
use std::alloc::Global;
use std::test::Fail;
use trial_inputs::clause_of;

/// A spent test, which learned one unit inside a set.
fn spent_test(alloc: Global) -> Result<SpentTest, NoMemory> {
    let mut units = Units::open();
    units.push(alloc, clause_of(alloc, &[4, 7])?)?;
    let mut set = Set::open();
    set.push(alloc, false)?;
    set.push(alloc, true)?;
    Ok(SpentTest {
        literal: Some(Lit(5)),
        by: 3,
        budget: 1,
        units,
        inside: Some(set),
    })
}

/// Whether a copy of a list with that test has just that test.
fn is_copied(alloc: Global) -> Result<bool, NoMemory> {
    let mut tests = Tests::open();
    tests.push(alloc, spent_test(alloc)?)?;
    let copy = tests.copy(alloc)?;
    Ok(match copy.as_slice() {
        [only] => is_that_test(only),
        _ => false,
    })
}

/// Whether this is the test in `spent_test`.
fn is_that_test(test: &SpentTest) -> bool {
    let inside = match &test.inside {
        Some(set) => set.as_slice() == [false, true].as_slice(),
        None => false,
    };
    let units = match test.units.as_slice() {
        [only] => only.as_slice() == [Lit(4), Lit(7)].as_slice(),
        _ => false,
    };
    inside && units && test.literal == Some(Lit(5)) && test.by == 3 && test.budget == 1
}

#[test]
fn spent_tests_are_copied(rt: HostRuntime) -> Result<(), Fail> {
    assert!(rt; is_copied(rt.alloc())?);
    Ok(())
}

/// Takes only what threads may share and hand on.
fn crosses<T: Send + Sync>(_: &T) {}

#[test]
fn threads_may_share_spent_tests_and_hand_them_on(rt: HostRuntime) -> Result<(), Fail> {
    crosses(&spent_test(rt.alloc())?);
    Ok(())
}
