// Where atoms and bodies stand in the rules.
ghost use Rattle.std.specs.Prelude.{◌≡◌, ◌<◌, ◌+◌, ◌*◌, ◌^◌, [], All, Contains, length, replicate};
ghost use Rattle.std.specs.Prelude.{IfOk};
ghost use Rattle.normal_program.specs.Range.{IsInRange};
ghost use Rattle.unfounded_sets.specs.Placed.{AreJust, ArePlaces, ArePut};
ghost use Rattle.unfounded_sets.specs.Placed.{IsHead, IsOccurrence, StandsAt};

use crate::lists::Lists;
use item_list::{List, NoMemory};
use normal_program::{Normal, NormalRule, Part, literal_of};
use std::alloc::Global;

/// Where the atoms and bodies of a normal form stand.
#[derive(Debug, Drop)]
pub struct Places {
    /// For each literal of an atom, by its code, the bodies in which it stands.
    pub occurrences: Lists,
    /// For each body the heads of its rules.
    pub heads: Lists,
    /// For each atom the bodies of the rules for it.
    pub supports: Lists,
}

impl Places {
    /// Those of a normal form.
    pub fn open(alloc: Global, normal: &Normal) -> Result<Places, NoMemory>
        requires { IsInRange normal.now }
        ensures { IfOk result (ArePlaces normal.now) }
    {
        let occurrences = occurrences_of(alloc, normal)?;
        let heads = heads_of(alloc, normal)?;
        let supports = supports_of(alloc, normal)?;
        Ok(Places {
            occurrences,
            heads,
            supports,
        })
    }
}

// For each literal of an atom the bodies in which it stands.
fn occurrences_of(alloc: Global, normal: &Normal) -> Result<Lists, NoMemory>
    requires { IsInRange normal.now }
    ensures { IfOk result (AreJust (IsOccurrence normal.now.bodies) (2 * normal.now.atoms + 2)) }
{
    let mut lists = empty_lists(alloc, 2 * normal.atoms as usize + 2)?;
    for (number, body) in normal.bodies.as_slice().iter().enumerate() {
        enter_parts(alloc, &mut lists, number as u32, body.parts.as_slice())?;
    }
    let lists = Lists::of(alloc, &lists)?;
    Ok(lists)
}

// For each body the heads of its rules.
fn heads_of(alloc: Global, normal: &Normal) -> Result<Lists, NoMemory>
    requires { IsInRange normal.now }
    ensures { IfOk result (AreJust (IsHead normal.now) (length normal.now.bodies)) }
{
    let mut lists = empty_lists(alloc, normal.bodies.len())?;
    for rule in normal.rules.as_slice() {
        enter_heads(alloc, &mut lists, rule)?;
    }
    let lists = Lists::of(alloc, &lists)?;
    Ok(lists)
}

// For each atom the bodies of the rules for it.
fn supports_of(alloc: Global, normal: &Normal) -> Result<Lists, NoMemory>
    requires { IsInRange normal.now }
    ensures { IfOk result
        (AreJust (λ atom number. IsHead normal.now number atom) (normal.now.atoms + 1)) }
{
    let mut lists = empty_lists(alloc, normal.atoms as usize + 1)?;
    for rule in normal.rules.as_slice() {
        enter_support(alloc, &mut lists, rule)?;
    }
    let lists = Lists::of(alloc, &lists)?;
    Ok(lists)
}

// As many empty lists.
fn empty_lists(alloc: Global, count: usize) -> Result<Vec<List<u32>>, NoMemory>
    ensures { IfOk result (λ lists. lists.items ≡ replicate count []) }
{
    let mut lists = Vec::new(alloc);
    for _ in 0..count {
        lists.push(List::open())?;
    }
    Ok(lists)
}

// Enters a body for each of its literals.
fn enter_parts(
    alloc: Global,
    lists: &mut Vec<List<u32>>,
    number: u32,
    parts: &[Part],
) -> Result<(), NoMemory>
    requires within { All (λ part. 2 * part.lit.atom + 1 < length lists.old.items) parts.now }
    requires few { length lists.old.items < 2 ^ 32 }
    ensures { IfOk result (λ _. ArePut
        (λ place item. (item ≡ number) × StandsAt parts.now place)
        lists.old.items lists.new.items) }
{
    for part in parts {
        enter(alloc, lists, literal_of(part.lit).0, number)?;
    }
    Ok(())
}

// Enters the heads of a rule for its body.
fn enter_heads(alloc: Global, lists: &mut Vec<List<u32>>, rule: &NormalRule) -> Result<(), NoMemory>
    requires { rule.now.body < length lists.old.items }
    ensures { IfOk result (λ _. ArePut
        (λ place item. (place ≡ rule.now.body) × Contains rule.now.heads item)
        lists.old.items lists.new.items) }
{
    for head in rule.heads.as_slice() {
        enter(alloc, lists, rule.body, *head)?;
    }
    Ok(())
}

// Enters the body of a rule for each of its heads.
fn enter_support(
    alloc: Global,
    lists: &mut Vec<List<u32>>,
    rule: &NormalRule,
) -> Result<(), NoMemory>
    requires { All (λ head. head < length lists.old.items) rule.now.heads }
    ensures { IfOk result (λ _. ArePut
        (λ place item. (item ≡ rule.now.body) × Contains rule.now.heads place)
        lists.old.items lists.new.items) }
{
    for head in rule.heads.as_slice() {
        enter(alloc, lists, *head, rule.body)?;
    }
    Ok(())
}

// Puts a number last in the list at a place.
fn enter(alloc: Global, lists: &mut Vec<List<u32>>, place: u32, number: u32) -> Result<(), NoMemory>
    requires { place < length lists.old.items }
    ensures { IfOk result (λ _. ArePut (λ at item. (at ≡ place) × (item ≡ number))
        lists.old.items lists.new.items) }
{
    let list = &mut lists[place as usize];
    list.push(alloc, number)?;
    Ok(())
}
