// Merging a body: its literals are sorted, and neighbours with one literal become one part.
ghost use Rattle.std.specs.Prelude.{◌≡◌, ◌+◌, ◌^◌, ◌<◌, ◌≤◌, ◌↔◌, [], ◌∷◌, ◌++◌, List, length, All};
ghost use Rattle.std.specs.Prelude.{IsTrue, IfOk, OnOk, IsPermutation};
ghost use Rattle.std.specs.List.Sorted.{IsNonDecreasingBy};
ghost use Rattle.ground_program.specs.declared.program.Weighted.{Weighted};
ghost use Rattle.ground_program.specs.Program.{IsNumber};
ghost use Rattle.normal_program.specs.Body.{rank, IsMerged};
ghost use Rattle.rule_normaliser.specs.Merging.{KeepsMerged};

use crate::{Part, Parts};
use ground_program::{AtomLit, Weighted};
use item_list::NoMemory;
use std::alloc::Global;

/// The parts of a body.
pub fn merged(alloc: Global, body: &[Weighted]) -> Result<Parts, NoMemory>
    requires short { IsNumber (length body.now) }
    requires weights { All (λ item. IsNumber item.weight) body.now }
    ensures { IfOk result (IsMerged body.now) }
{
    let items = in_order(alloc, body)?;
    joined(alloc, &items)
}

// The place of a literal in the order of bodies.
fn rank_of(lit: &AtomLit) -> u64
    ensures { result ≡ rank lit.now }
{
    let place = u64::from(lit.atom) + u64::from(lit.atom);
    if lit.negated { place } else { place + 1 }
}

// The literals of a body in order.
fn in_order(alloc: Global, body: &[Weighted]) -> Result<Vec<Weighted>, NoMemory>
    ensures same { IfOk result (λ items. IsPermutation body.now items.items) }
    ensures order { IfOk result (λ items. IsNonDecreasingBy (λ item. rank item.lit) items.items) }
{
    let mut items = Vec::from_slice(alloc, body)?;
    items.sort_unstable_by_key(|item| rank_of(&item.lit));
    Ok(items)
}

// The parts of literals that stand in order.
fn joined(alloc: Global, items: &[Weighted]) -> Result<Parts, NoMemory>
    requires order { IsNonDecreasingBy (λ item. rank item.lit) items.now }
    requires short { IsNumber (length items.now) }
    requires weights { All (λ item. IsNumber item.weight) items.now }
    ensures { IfOk result (IsMerged items.now) }
{
    let mut parts = Parts::open();
    for item in items {
        add_item(alloc, &mut parts, item)?;
    }
    Ok(parts)
}

// One more literal, none of whose predecessors comes after it.
fn add_item(alloc: Global, parts: &mut Parts, item: &Weighted) -> Result<(), NoMemory>
    requires { All (λ part. part.weight + item.now.weight < 2 ^ 64) parts.old }
    ensures { OnOk result (KeepsMerged parts.old item.now parts.new) }
{
    let count = parts.len();
    if count > 0 && is_of(parts.get(count - 1), &item.lit) {
        let last = parts.get(count - 1);
        let weight = last.weight + u64::from(item.weight);
        let lit = item.lit;
        parts.set(count - 1, Part { lit, weight });
        return Ok(());
    }
    parts.push(alloc, part_of(item))?;
    Ok(())
}

// Whether a part has the literal.
fn is_of(part: &Part, lit: &AtomLit) -> bool
    ensures { IsTrue result ↔ (part.now.lit ≡ lit.now) }
{
    part.lit.atom == lit.atom && part.lit.negated == lit.negated
}

// The part of one occurrence of a literal.
fn part_of(item: &Weighted) -> Part
    ensures lit { result.lit ≡ item.now.lit }
    ensures weight { result.weight ≡ item.now.weight }
{
    Part {
        lit: item.lit,
        weight: u64::from(item.weight),
    }
}
