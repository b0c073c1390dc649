// Whether the format can write the pair program.
ghost use Rattle.std.specs.Prelude.{◌≡◌, ◌-◌, ◌↔◌, sum_by, All, IsTrue};
ghost use Rattle.ground_program.specs.Program.{IsNumber};
ghost use Rattle.normal_program.specs.Range.{IsInRange};
ghost use Rattle.pair_program.specs.Pairs.{rules_for, pair_rules, FitsFormat};

use crate::head_rules::is_choice_rule;
use normal_program::{BodyOf, Normal, NormalRule, Part};

/// The greatest number of the format.
const MOST: u64 = 2147483647;

/// Whether all weights and the number of rules are numbers of the format.
pub fn fits_format(normal: &Normal) -> bool
    requires { IsInRange normal.now }
    ensures { IsTrue result ↔ FitsFormat normal.now }
{
    have_weights(normal.bodies.as_slice()) && has_few_rules(normal)
}

fn have_weights(bodies: &[BodyOf]) -> bool
    ensures { IsTrue result ↔
        All (λ body. All (λ part. IsNumber part.weight) body.parts) bodies.now }
{
    bodies.iter().all(|body| has_weights(body.parts.as_slice()))
}

fn has_weights(parts: &[Part]) -> bool
    ensures { IsTrue result ↔ All (λ part. IsNumber part.weight) parts.now }
{
    parts.iter().all(|part| part.weight <= MOST)
}

fn has_few_rules(normal: &Normal) -> bool
    requires { IsInRange normal.now }
    ensures { IsTrue result ↔ IsNumber (pair_rules normal.now) }
{
    let others = normal.bodies.len() as u64 + 3 * u64::from(normal.atoms) + 2;
    let left = MOST + 1 - others;
    left_of(left, normal.rules.as_slice()) > 0
}

// What is left of so many rules.
fn left_of(most: u64, rules: &[NormalRule]) -> u64
    ensures { result ≡ most - sum_by rules_for rules.now }
{
    let mut left = most;
    for rule in rules {
        left = left.saturating_sub(rules_for(rule));
    }
    left
}

// How many rules of the pair program a rule gives.
fn rules_for(rule: &NormalRule) -> u64
    ensures { result ≡ rules_for rule.now }
{
    if is_choice_rule(rule.kind) {
        rule.heads.len() as u64
    } else {
        1
    }
}
