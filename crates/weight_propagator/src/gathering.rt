// The places of all literals, gathered body by body.
ghost use Rattle.std.specs.Prelude.{◌≡◌, ◌<◌, ◌+◌, ◌*◌, ◌^◌, ◌∷◌, [], All, length, replicate, IfOk};
ghost use Rattle.weight_propagator.specs.Rows.{IsRow};
ghost use Rattle.weight_propagator.specs.Sums.{AreOccurrences, AreEntered, looked_at};

use crate::occurrences::Occurrence;
use crate::row::{Row, Term};
use item_list::{List, NoMemory};
use std::alloc::Global;

/// A list of places for each literal of the variables up to `vars`, by its code.
pub fn gather(alloc: Global, rows: &[Row], vars: u32) -> Result<Vec<List<Occurrence>>, NoMemory>
    requires each { All (IsRow vars) rows.now }
    requires few { vars < 2 ^ 31 }
    requires few_rows { length rows.now < 2 ^ 32 }
    ensures { IfOk result (λ lists. AreOccurrences rows.now lists.items) }
{
    let mut lists = empty_lists(alloc, 2 * vars as usize + 2)?;
    for (number, row) in rows.iter().enumerate() {
        enter_row(alloc, &mut lists, number as u32, row)?;
    }
    Ok(lists)
}

// As many empty lists.
fn empty_lists(alloc: Global, count: usize) -> Result<Vec<List<Occurrence>>, NoMemory>
    ensures { IfOk result (λ lists. lists.items ≡ replicate count []) }
{
    let mut lists = Vec::new(alloc);
    for _ in 0..count {
        lists.push(List::open())?;
    }
    Ok(lists)
}

// Enters the literals of a body, and those of its variable.
fn enter_row(
    alloc: Global,
    lists: &mut Vec<List<Occurrence>>,
    number: u32,
    row: &Row,
) -> Result<(), NoMemory>
    requires few { row.now.var.0 < 2 ^ 31 }
    requires small { 2 * row.now.var.0 + 1 < length lists.old.items }
    requires within { All (λ term. term.lit.0 < length lists.old.items) row.now.terms }
    ensures entered { IfOk result
        (λ _. AreEntered number (looked_at row.now) lists.old.items lists.new.items) }
    ensures same { length lists.new.items ≡ length lists.old.items }
{
    let var = row.var;
    let yes = Term {
        lit: var.positive(),
        weight: 0,
    };
    let no = Term {
        lit: var.negative(),
        weight: 0,
    };
    enter(alloc, lists, number, yes)?;
    enter(alloc, lists, number, no)?;
    enter_terms(alloc, lists, number, row.terms.as_slice())?;
    Ok(())
}

// Enters literals of a body.
fn enter_terms(
    alloc: Global,
    lists: &mut Vec<List<Occurrence>>,
    number: u32,
    terms: &[Term],
) -> Result<(), NoMemory>
    requires { All (λ term. term.lit.0 < length lists.old.items) terms.now }
    ensures entered { IfOk result
        (λ _. AreEntered number terms.now lists.old.items lists.new.items) }
    ensures same { length lists.new.items ≡ length lists.old.items }
{
    for term in terms {
        enter(alloc, lists, number, *term)?;
    }
    Ok(())
}

// Enters a literal of a body.
fn enter(
    alloc: Global,
    lists: &mut Vec<List<Occurrence>>,
    number: u32,
    term: Term,
) -> Result<(), NoMemory>
    requires { term.lit.0 < length lists.old.items }
    ensures entered { IfOk result
        (λ _. AreEntered number (term ∷ []) lists.old.items lists.new.items) }
    ensures same { length lists.new.items ≡ length lists.old.items }
{
    let list = &mut lists[term.lit.0 as usize];
    list.push(
        alloc,
        Occurrence {
            row: number,
            weight: term.weight,
        },
    )
}
