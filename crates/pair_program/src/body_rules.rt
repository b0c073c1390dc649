// The rules of the bodies: where a body holds its atom is true.
ghost use Rattle.std.specs.Prelude.{◌≡◌, ◌<◌, ◌++◌, length, All, OnOk, IfOk};
ghost use Rattle.pair_program.specs.Rules.{AreFew, pair_lit, has_sign, lits_of, body_rule};
ghost use Rattle.pair_program.specs.Rules.{body_rules, FitsAtoms};

use crate::pair_atoms::PairAtoms;
use ground_program::{AtomLit, Body, Heads, Kind, Rule, Rules, Weighted};
use item_list::NoMemory;
use normal_program::{BodyOf, Part};
use std::alloc::Global;

/// Puts the rules of all bodies last.
pub fn push_bodies(
    alloc: Global,
    atoms: PairAtoms,
    bodies: &[BodyOf],
    rules: &mut Rules,
) -> Result<(), NoMemory>
    requires few { AreFew atoms.atoms atoms.bodies }
    requires count { atoms.bodies ≡ length bodies.now }
    requires parts { All (λ body. All (FitsAtoms atoms.atoms) body.parts) bodies.now }
    ensures { OnOk result (rules.new ≡ rules.old ++ body_rules atoms.atoms 0 bodies.now) }
{
    for (number, body) in bodies.iter().enumerate() {
        let rule = body_rule(alloc, atoms, number as u32, body)?;
        rules.push(alloc, rule)?;
    }
    Ok(())
}

// The rule of a body.
fn body_rule(alloc: Global, atoms: PairAtoms, number: u32, body: &BodyOf) -> Result<Rule, NoMemory>
    requires few { AreFew atoms.atoms atoms.bodies }
    requires number { number < atoms.bodies }
    requires parts { All (FitsAtoms atoms.atoms) body.now.parts }
    ensures { IfOk result (λ rule. rule ≡ body_rule atoms.atoms number body.now) }
{
    let mut lits = Body::open();
    push_lits(alloc, atoms, true, body.parts.as_slice(), &mut lits)?;
    push_lits(alloc, atoms, false, body.parts.as_slice(), &mut lits)?;
    Ok(Rule {
        kind: Kind::Weight,
        bound: body.bound,
        heads: Heads::one(atoms.of_body(number)),
        body: lits,
    })
}

// Puts the literals of one sign last.
fn push_lits(
    alloc: Global,
    atoms: PairAtoms,
    negated: bool,
    parts: &[Part],
    lits: &mut Body,
) -> Result<(), NoMemory>
    requires few { AreFew atoms.atoms atoms.bodies }
    requires parts { All (FitsAtoms atoms.atoms) parts.now }
    ensures { OnOk result (lits.new ≡ lits.old ++ lits_of atoms.atoms negated parts.now) }
{
    for part in parts {
        if has_sign(negated, part) {
            lits.push(alloc, pair_lit(atoms, part))?;
        }
    }
    Ok(())
}

// Whether a literal is negative, or whether it is positive.
fn has_sign(negated: bool, part: &Part) -> bool
    ensures { result ≡ has_sign negated part.now }
{
    if negated {
        part.lit.negated
    } else {
        !part.lit.negated
    }
}

// A literal of a body: a negative one speaks of the whole, a positive one of the part.
fn pair_lit(atoms: PairAtoms, part: &Part) -> Weighted
    requires few { AreFew atoms.atoms atoms.bodies }
    requires part { FitsAtoms atoms.atoms part.now }
    ensures { result ≡ pair_lit atoms.atoms part.now }
{
    let atom = if part.lit.negated {
        part.lit.atom
    } else {
        atoms.in_part(part.lit.atom)
    };
    Weighted {
        lit: AtomLit {
            atom,
            negated: part.lit.negated,
        },
        weight: part.weight as u32,
    }
}
