// Whether a body fires by its negative literals and by atoms of smaller ranks.
ghost use Rattle.std.specs.Prelude.{◌≡◌, ◌<◌, ◌+◌, ◌-◌, ◌↔◌, IsTrue, length};
ghost use Rattle.ground_program.specs.Meaning.{has};
ghost use Rattle.normal_program.specs.Clauses.{positive};
ghost use Rattle.normal_program.specs.Loop.{IsAtomOf};
ghost use Rattle.normal_program.specs.Normal.{body_var};
ghost use Rattle.unfounded_sets.specs.Founding.{counts_with, founding_weight, is_false};
ghost use Rattle.unfounded_sets.specs.Rounds.{IsCovered, HasAtoms};
ghost use Rattle.unfounded_sets.specs.Sources.{Fires, earlier};

use crate::values::{is_false, is_false_part};
use clause_store::Trail;
use ground_program::AtomLit;
use normal_program::{BodyOf, Normal};

/// Whether the body of this number isn't false and is reached by its negative literals that aren't
/// false and by atoms of ranks below this one.
pub fn fires(normal: &Normal, trail: &Trail, number: u32, ranks: &[u64], rank: u64) -> bool
    requires covered { IsCovered normal.now trail.now.vars }
    requires within { number < length normal.now.bodies }
    requires places { length ranks.now ≡ normal.now.atoms + 1 }
    ensures { IsTrue result ↔ Fires normal.now trail.now.steps (earlier rank ranks.now) number }
{
    let body = normal.bodies.get(number as usize);
    !is_false_number(normal, trail, number) && lacks(normal, trail, body, ranks, rank) == 0
}

/// Whether the variable of the body of this number is false.
pub fn is_false_number(normal: &Normal, trail: &Trail, number: u32) -> bool
    requires covered { IsCovered normal.now trail.now.vars }
    requires within { number < length normal.now.bodies }
    ensures { result ≡ is_false trail.now.steps (positive (body_var normal.now number)) }
{
    is_false(trail, normal.body_var(number).positive())
}

// What these lack of the bound of a body.
fn lacks(normal: &Normal, trail: &Trail, body: &BodyOf, ranks: &[u64], rank: u64) -> u64
    requires covered { IsCovered normal.now trail.now.vars }
    requires atoms { HasAtoms normal.now body.now }
    requires places { length ranks.now ≡ normal.now.atoms + 1 }
    ensures { result ≡ body.now.bound
        - founding_weight trail.now.steps (earlier rank ranks.now) body.now.parts }
{
    let mut left = u64::from(body.bound);
    for part in body.parts.as_slice() {
        if counts_below(normal, trail, ranks, rank, part.lit) {
            left = left.saturating_sub(part.weight);
        }
    }
    left
}

fn counts_below(normal: &Normal, trail: &Trail, ranks: &[u64], rank: u64, lit: AtomLit) -> bool
    requires covered { IsCovered normal.now trail.now.vars }
    requires is_atom { IsAtomOf normal.now lit.atom }
    requires places { length ranks.now ≡ normal.now.atoms + 1 }
    ensures { result ≡ counts_with trail.now.steps (earlier rank ranks.now) lit }
{
    if lit.negated {
        !is_false_part(normal, trail, lit)
    } else {
        is_below(ranks, rank, lit.atom)
    }
}

fn is_below(ranks: &[u64], rank: u64, atom: u32) -> bool
    requires { atom < length ranks.now }
    ensures { result ≡ has (earlier rank ranks.now) atom }
{
    ranks[atom as usize] < rank
}
