// The weight bodies of a normal form as they are kept.
ghost use Rattle.std.specs.Prelude.{◌≡◌, ◌<◌, ◌^◌, All, IfOk, IfSome, IsPermutation};
ghost use Rattle.ground_program.specs.Meaning.{IsSetOver};
ghost use Rattle.normal_program.specs.Body.{full_weight};
ghost use Rattle.normal_program.specs.Limit.{IsNormal};
ghost use Rattle.weight_propagator.specs.Rows.{AreRows, IsRowFor, IsDescending, judged};

use crate::row::{Row, Term};
use clause_store::Var;
use ground_program::{AtomLit, Set};
use item_list::{List, NoMemory};
use normal_program::{BodyOf, Normal, literal_of};
use std::alloc::Global;

/// The weight bodies. Where there is a set, it judges their negative literals.
pub fn rows_of(alloc: Global, normal: &Normal, inside: &Option<Set>) -> Result<Vec<Row>, NoMemory>
    requires normal { IsNormal normal.now }
    requires over { IfSome inside.now (IsSetOver normal.now.atoms) }
    ensures { IfOk result (λ rows. AreRows inside.now normal.now rows.items) }
{
    let mut rows = Vec::new(alloc);
    for (number, body) in normal.bodies.as_slice().iter().enumerate() {
        if !body.is_conjunctive() {
            let var = normal.body_var(number as u32);
            let row = row_of(alloc, body, var, inside)?;
            rows.push(row)?;
        }
    }
    Ok(rows)
}

// A body with its variable.
fn row_of(alloc: Global, body: &BodyOf, var: Var, inside: &Option<Set>) -> Result<Row, NoMemory>
    requires few { full_weight body.now < 2 ^ 62 }
    requires small { All (λ part. part.lit.atom < 2 ^ 31) body.now.parts }
    ensures { IfOk result (IsRowFor inside.now body.now var.0) }
{
    let mut bound = u64::from(body.bound);
    let mut full = 0;
    let mut terms = List::open();
    for part in body.parts.as_slice() {
        match judged(inside, part.lit) {
            None => {
                let lit = literal_of(part.lit);
                terms.push(
                    alloc,
                    Term {
                        lit,
                        weight: part.weight,
                    },
                )?;
                full += part.weight;
            }
            Some(true) => bound = bound.saturating_sub(part.weight),
            Some(false) => {}
        }
    }
    let terms = descending(alloc, terms.as_slice())?;
    Ok(Row {
        var,
        bound,
        full,
        terms,
    })
}

// The literals, greater weights first. Those of one weight stay in their order.
fn descending(alloc: Global, terms: &[Term]) -> Result<List<Term>, NoMemory>
    ensures same { IfOk result (IsPermutation terms.now) }
    ensures order { IfOk result IsDescending }
{
    let mut sorted = Vec::from_slice(alloc, terms)?;
    sorted.sort_by(|one, two| two.weight.cmp(&one.weight))?;
    let terms = List::from_slice(alloc, &sorted)?;
    Ok(terms)
}

// What a set makes of a literal. None is a literal that the trail judges.
fn judged(inside: &Option<Set>, lit: AtomLit) -> Option<bool>
    ensures { result ≡ judged inside.now lit }
{
    match inside {
        None => None,
        Some(set) => {
            if lit.negated {
                let within = set
                    .as_slice()
                    .get(lit.atom as usize)
                    .copied()
                    .unwrap_or(false);
                Some(!within)
            } else {
                None
            }
        }
    }
}
