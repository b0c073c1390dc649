// A list that is written, emptied and filled again, and copies of lists of lists.
use super::scene::set_of;
use ground_program::{Atoms, Named, Names, Pair, Pairs, Sets};
use item_list::NoMemory;
use std::alloc::Global;
use std::test::Fail;

/// The items after a place was written.
fn is_written(alloc: Global) -> Result<bool, NoMemory> {
    let mut atoms = Atoms::from_slice(alloc, &[7, 8, 9])?;
    atoms.set(1, 5);
    Ok(atoms.as_slice() == [7, 5, 9].as_slice())
}

/// The items after the list was emptied and got one.
fn is_filled_again(alloc: Global) -> Result<bool, NoMemory> {
    let mut atoms = Atoms::from_slice(alloc, &[7, 8])?;
    atoms.clear();
    if atoms.len() != 0 {
        return Ok(false);
    }
    atoms.push(alloc, 4)?;
    Ok(atoms.as_slice() == [4].as_slice())
}

/// Lists with the same items are equal, one of which has no vector.
fn are_equal_by_items(alloc: Global) -> Result<bool, NoMemory> {
    let mut emptied = Atoms::from_slice(alloc, &[7])?;
    let before = emptied == Atoms::open();
    emptied.clear();
    Ok(!before && emptied == Atoms::open())
}

/// A copy of a list of sets.
fn sets_are_copied(alloc: Global) -> Result<bool, NoMemory> {
    let mut sets = Sets::open();
    sets.push(alloc, set_of(alloc, 3, &[2])?)?;
    let again = sets.copy(alloc)?;
    Ok(sets == again && again.len() == 1)
}

/// A copy of a list of pairs, as its length.
fn pairs_are_copied(alloc: Global) -> Result<bool, NoMemory> {
    let mut pairs = Pairs::open();
    pairs.push(alloc, Pair::open(alloc, 3)?)?;
    let again = pairs.copy(alloc)?;
    Ok(again.len() == 1)
}

/// A copy of a symbol table, as its length.
fn names_are_copied(alloc: Global) -> Result<bool, NoMemory> {
    let mut names = Names::open();
    let name = item_list::List::from_slice(alloc, b"a")?;
    names.push(alloc, Named { atom: 2, name })?;
    let again = names.copy(alloc)?;
    Ok(again.len() == 1)
}

#[test]
fn a_place_is_written(rt: HostRuntime) -> Result<(), Fail> {
    let shown = is_written(rt.alloc())?;
    assert!(rt; shown);
    Ok(())
}

#[test]
fn an_emptied_list_is_filled_again(rt: HostRuntime) -> Result<(), Fail> {
    let shown = is_filled_again(rt.alloc())?;
    assert!(rt; shown);
    Ok(())
}

#[test]
fn lists_are_equal_by_their_items(rt: HostRuntime) -> Result<(), Fail> {
    let shown = are_equal_by_items(rt.alloc())?;
    assert!(rt; shown);
    Ok(())
}

#[test]
fn lists_of_sets_are_copied(rt: HostRuntime) -> Result<(), Fail> {
    let shown = sets_are_copied(rt.alloc())?;
    assert!(rt; shown);
    Ok(())
}

#[test]
fn lists_of_pairs_are_copied(rt: HostRuntime) -> Result<(), Fail> {
    let shown = pairs_are_copied(rt.alloc())?;
    assert!(rt; shown);
    Ok(())
}

#[test]
fn symbol_tables_are_copied(rt: HostRuntime) -> Result<(), Fail> {
    let shown = names_are_copied(rt.alloc())?;
    assert!(rt; shown);
    Ok(())
}
