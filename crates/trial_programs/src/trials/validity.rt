// Which rules and names the format can write.
use super::scene::rule_of;
use ground_program::{Atoms, Kind, Name, Named, Names, Program, Rules, greatest_atom, is_valid};
use item_list::NoMemory;
use std::alloc::Global;
use std::test::Fail;

/// `a | b.` with the atoms 2 and 3 and a forbidden atom.
fn either(alloc: Global, forbidden: u32) -> Result<Program, NoMemory> {
    let mut rules = Rules::open();
    rules.push(alloc, rule_of(alloc, Kind::Disjunctive, &[2, 3], 0, &[])?)?;
    Ok(Program {
        atoms: 3,
        rules,
        names: Names::open(),
        must: Atoms::open(),
        must_not: Atoms::from_slice(alloc, &[forbidden])?,
        models: 1,
    })
}

/// Whether the program with this rule besides is one of the format.
fn fits(
    alloc: Global,
    kind: Kind,
    heads: &[u32],
    bound: u32,
    weight: u32,
) -> Result<bool, NoMemory> {
    let mut program = either(alloc, 1)?;
    let rule = rule_of(alloc, kind, heads, bound, &[(3, false, weight)])?;
    program.rules.push(alloc, rule)?;
    Ok(is_valid(&program))
}

/// Whether the program with this name besides is one of the format.
fn name_fits(alloc: Global, letters: &[u8]) -> Result<bool, NoMemory> {
    let mut program = either(alloc, 1)?;
    let name = Name::from_slice(alloc, letters)?;
    program.names.push(alloc, Named { atom: 3, name })?;
    Ok(is_valid(&program))
}

const RULES: [(Kind, &'static [u32], u32, u32, bool); 9] = [
    (Kind::Basic, &[2], 1, 1, true),
    (Kind::Basic, &[2], 0, 1, false),
    (Kind::Basic, &[2], 1, 2, false),
    (Kind::Basic, &[2, 3], 1, 1, false),
    (Kind::Basic, &[0], 1, 1, false),
    (Kind::Choice, &[], 1, 1, true),
    (Kind::Constraint, &[2], 9, 1, true),
    (Kind::Weight, &[2], 9, 2147483647, true),
    (Kind::Weight, &[2], 9, 2147483648, false),
];

fn rules_fit(alloc: Global) -> Result<bool, NoMemory> {
    for (kind, heads, bound, weight, want) in &RULES {
        if fits(alloc, *kind, heads, *bound, *weight)? != *want {
            return Ok(false);
        }
    }
    Ok(true)
}

const NAMES: [(&'static [u8], bool); 4] = [
    (b"", false),
    (b"a\n", false),
    (b"a\r", false),
    (b"\ra", true),
];

fn names_fit(alloc: Global) -> Result<bool, NoMemory> {
    for (name, want) in &NAMES {
        if name_fits(alloc, name)? != *want {
            return Ok(false);
        }
    }
    Ok(true)
}

/// The greatest atom stands in a rule, and then in the compute statement alone.
fn greatest_is_found(alloc: Global) -> Result<bool, NoMemory> {
    let low = greatest_atom(&either(alloc, 1)?);
    let high = greatest_atom(&either(alloc, 7)?);
    Ok(low == 3 && high == 7)
}

#[test]
fn rules_that_the_format_cannot_write_are_told(rt: HostRuntime) -> Result<(), Fail> {
    let shown = rules_fit(rt.alloc())?;
    assert!(rt; shown);
    Ok(())
}

#[test]
fn names_that_the_format_cannot_write_are_told(rt: HostRuntime) -> Result<(), Fail> {
    let shown = names_fit(rt.alloc())?;
    assert!(rt; shown);
    Ok(())
}

#[test]
fn the_greatest_atom_may_be_one_that_is_forbidden(rt: HostRuntime) -> Result<(), Fail> {
    let shown = greatest_is_found(rt.alloc())?;
    assert!(rt; shown);
    Ok(())
}
