// The atoms of the pair program, and rules over them.
ghost use Rattle.std.specs.Prelude.{◌≡◌, ◌≤◌, ◌<◌, ◌+◌, ◌^◌, [], ◌∷◌, ◌++◌, IfOk, OnOk};
ghost use Rattle.pair_program.specs.Rules.{AreFew, part_atom, alone_atom, body_atom, last_atom};
ghost use Rattle.pair_program.specs.Rules.{holds, disjunction, count_up};

use ground_program::{AtomLit, Body, Heads, Kind, Rule, Rules, Weighted};
use item_list::NoMemory;
use std::alloc::Global;

/// How many atoms and bodies the normal form has, which give the atoms of its pair program.
#[derive(Debug, Clone, Copy)]
pub struct PairAtoms {
    pub atoms: u32,
    pub bodies: u32,
}

impl PairAtoms {
    /// The atom for 'in the part'.
    pub fn in_part(self, atom: u32) -> u32
        requires few { AreFew self.atoms self.bodies }
        requires atom { atom ≤ self.atoms }
        ensures { result ≡ part_atom self.atoms atom }
    {
        self.atoms + atom
    }

    /// The atom for 'in the whole alone'.
    pub fn alone(self, atom: u32) -> u32
        requires few { AreFew self.atoms self.bodies }
        requires atom { atom ≤ self.atoms }
        ensures { result ≡ alone_atom self.atoms atom }
    {
        2 * self.atoms + atom
    }

    /// The atom of a body.
    pub fn of_body(self, number: u32) -> u32
        requires few { AreFew self.atoms self.bodies }
        requires number { number < self.bodies }
        ensures { result ≡ body_atom self.atoms number }
    {
        3 * self.atoms + 1 + number
    }

    /// The last atom, which is in no model.
    pub fn last(self) -> u32
        requires { AreFew self.atoms self.bodies }
        ensures { result ≡ last_atom self.atoms self.bodies }
    {
        3 * self.atoms + self.bodies + 1
    }
}

/// An atom as a literal of weight 1.
pub fn holds(atom: u32) -> Weighted
    ensures { result ≡ holds atom }
{
    Weighted {
        lit: AtomLit {
            atom,
            negated: false,
        },
        weight: 1,
    }
}

/// Puts the rule last by which one of the heads is true.
pub fn push_fact(alloc: Global, heads: Heads, rules: &mut Rules) -> Result<(), NoMemory>
    ensures { OnOk result (rules.new ≡ rules.old ++ disjunction heads [] ∷ []) }
{
    let rule = Rule {
        kind: Kind::Disjunctive,
        bound: 0,
        heads,
        body: Body::open(),
    };
    rules.push(alloc, rule)
}

/// Puts the rule last by which one of the heads is true where the atom is.
pub fn push_one(alloc: Global, heads: Heads, atom: u32, rules: &mut Rules) -> Result<(), NoMemory>
    ensures { OnOk result (rules.new ≡ rules.old ++ disjunction heads (atom ∷ []) ∷ []) }
{
    let rule = Rule {
        kind: Kind::Disjunctive,
        bound: 1,
        heads,
        body: Body::one(holds(atom)),
    };
    rules.push(alloc, rule)
}

/// Puts the rule last by which the head is true where both atoms are.
pub fn push_two(
    alloc: Global,
    head: u32,
    atoms: [u32; 2],
    rules: &mut Rules,
) -> Result<(), NoMemory>
    ensures { OnOk result (rules.new ≡ rules.old ++ disjunction (head ∷ []) atoms ∷ []) }
{
    let [one, two] = atoms;
    let body = Body::from_slice(alloc, &[holds(one), holds(two)])?;
    let rule = Rule {
        kind: Kind::Disjunctive,
        bound: 2,
        heads: Heads::one(head),
        body,
    };
    rules.push(alloc, rule)
}

/// So many numbers from the first on.
pub fn count_up(alloc: Global, first: u32, count: u32) -> Result<Heads, NoMemory>
    requires { first + count < 2 ^ 32 }
    ensures { IfOk result (λ heads. heads ≡ count_up first count) }
{
    let mut heads = Heads::open();
    for at in 0..count {
        heads.push(alloc, first + at)?;
    }
    Ok(heads)
}
