// The rules that speak of the atoms alone.
ghost use Rattle.std.specs.Prelude.{◌≡◌, ◌≤◌, ◌<◌, ◌+◌, ◌++◌, [], ◌∷◌, OnOk, IfOk};
ghost use Rattle.pair_program.specs.Rules.{AreFew, free_rule, rules_of_atom, atom_rules};
ghost use Rattle.pair_program.specs.Rules.{proper_rule};

use crate::pair_atoms::{PairAtoms, count_up, push_fact, push_one, push_two};
use ground_program::{Body, Heads, Kind, Rule, Rules};
use item_list::NoMemory;
use std::alloc::Global;

/// Any atom may be true.
pub fn free_rule(alloc: Global, atoms: PairAtoms) -> Result<Rule, NoMemory>
    requires { AreFew atoms.atoms atoms.bodies }
    ensures { IfOk result (λ rule. rule ≡ free_rule atoms.atoms atoms.bodies) }
{
    let heads = count_up(alloc, 1, atoms.last())?;
    Ok(Rule {
        kind: Kind::Choice,
        bound: 0,
        heads,
        body: Body::open(),
    })
}

/// Puts the rules of all atoms last.
pub fn push_atoms(alloc: Global, atoms: PairAtoms, rules: &mut Rules) -> Result<(), NoMemory>
    requires { AreFew atoms.atoms atoms.bodies }
    ensures { OnOk result
        (rules.new ≡ rules.old ++ atom_rules atoms.atoms atoms.bodies atoms.atoms) }
{
    for at in 0..atoms.atoms {
        push_atom(alloc, atoms, at + 1, rules)?;
    }
    Ok(())
}

// The part is within the whole, what is in the whole alone is in the whole, and isn't in the part.
fn push_atom(alloc: Global, atoms: PairAtoms, atom: u32, rules: &mut Rules) -> Result<(), NoMemory>
    requires few { AreFew atoms.atoms atoms.bodies }
    requires atom { atom ≤ atoms.atoms }
    ensures { OnOk result
        (rules.new ≡ rules.old ++ rules_of_atom atoms.atoms atoms.bodies atom) }
{
    let in_part = atoms.in_part(atom);
    let alone = atoms.alone(atom);
    push_one(alloc, Heads::one(atom), in_part, rules)?;
    push_one(alloc, Heads::one(atom), alone, rules)?;
    push_two(alloc, atoms.last(), [in_part, alone], rules)
}

/// Puts the rule last by which some atom is in the whole alone.
pub fn push_proper(alloc: Global, atoms: PairAtoms, rules: &mut Rules) -> Result<(), NoMemory>
    requires { AreFew atoms.atoms atoms.bodies }
    ensures { OnOk result (rules.new ≡ rules.old ++ proper_rule atoms.atoms ∷ []) }
{
    let heads = count_up(alloc, 2 * atoms.atoms + 1, atoms.atoms)?;
    push_fact(alloc, heads, rules)
}
