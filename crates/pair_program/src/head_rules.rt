// What the rules of the normal form ask of the part.
ghost use Rattle.std.specs.Prelude.{◌≡◌, ◌≤◌, ◌<◌, ◌+◌, ◌++◌, map, flat_map, All, OnOk, IfOk};
ghost use Rattle.normal_program.specs.Clauses.{is_choice};
ghost use Rattle.pair_program.specs.Rules.{AreFew, part_atom, choice_rule, rules_of_rule};
ghost use Rattle.pair_program.specs.Rules.{FitsRule};

use crate::pair_atoms::{PairAtoms, push_one, push_two};
use ground_program::{Heads, Kind, Rules};
use item_list::NoMemory;
use normal_program::NormalRule;
use std::alloc::Global;

/// Puts last what all rules ask of the part.
pub fn push_rules(
    alloc: Global,
    atoms: PairAtoms,
    normals: &[NormalRule],
    rules: &mut Rules,
) -> Result<(), NoMemory>
    requires few { AreFew atoms.atoms atoms.bodies }
    requires rules { All (FitsRule atoms.atoms atoms.bodies) normals.now }
    ensures { OnOk result
        (rules.new ≡ rules.old ++ flat_map (rules_of_rule atoms.atoms) normals.now) }
{
    for normal in normals {
        push_rule(alloc, atoms, normal, rules)?;
    }
    Ok(())
}

// What one rule asks of the part.
fn push_rule(
    alloc: Global,
    atoms: PairAtoms,
    normal: &NormalRule,
    rules: &mut Rules,
) -> Result<(), NoMemory>
    requires few { AreFew atoms.atoms atoms.bodies }
    requires fits { FitsRule atoms.atoms atoms.bodies normal.now }
    ensures { OnOk result (rules.new ≡ rules.old ++ rules_of_rule atoms.atoms normal.now) }
{
    let body = atoms.of_body(normal.body);
    if is_choice_rule(normal.kind) {
        return push_choices(alloc, atoms, body, normal.heads.as_slice(), rules);
    }
    let heads = part_heads(alloc, atoms, normal.heads.as_slice())?;
    push_one(alloc, heads, body, rules)
}

/// Whether the kind is that of choice rules.
pub fn is_choice_rule(kind: Kind) -> bool
    ensures { result ≡ is_choice kind }
{
    match kind {
        Kind::Choice => true,
        Kind::Basic | Kind::Constraint | Kind::Weight | Kind::Disjunctive => false,
    }
}

// What the heads of a choice rule ask for: where the whole has one the part has it.
fn push_choices(
    alloc: Global,
    atoms: PairAtoms,
    body: u32,
    heads: &[u32],
    rules: &mut Rules,
) -> Result<(), NoMemory>
    requires few { AreFew atoms.atoms atoms.bodies }
    requires heads { All (λ head. head ≤ atoms.atoms) heads.now }
    ensures { OnOk result (rules.new ≡ rules.old ++ map (choice_rule atoms.atoms body) heads.now) }
{
    for head in heads {
        push_two(alloc, atoms.in_part(*head), [body, *head], rules)?;
    }
    Ok(())
}

// The heads in the part.
fn part_heads(alloc: Global, atoms: PairAtoms, heads: &[u32]) -> Result<Heads, NoMemory>
    requires few { AreFew atoms.atoms atoms.bodies }
    requires heads { All (λ head. head ≤ atoms.atoms) heads.now }
    ensures { IfOk result (λ made. made ≡ map (part_atom atoms.atoms) heads.now) }
{
    let mut made = Heads::open();
    for head in heads {
        made.push(alloc, atoms.in_part(*head))?;
    }
    Ok(made)
}
