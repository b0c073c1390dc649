// The test literals of candidates, and the candidates of literals. Each list is made in one pass.
ghost use Rattle.std.specs.Prelude.{◌≡◌, All, IfOk, filter, map};
ghost use Rattle.ground_program.specs.Bounds.{IsCandidate};
ghost use Rattle.normal_program.specs.Limit.{IsNormal};
ghost use Rattle.worker_jobs.specs.Job.{test_literal};
ghost use Rattle.worker_strategies.specs.Literals.{has_same_literal, named_of};

use crate::marks::{marks_of, take_mark};
use clause_store::{Clause, Lit};
use ground_program::{Atoms, Mode};
use item_list::NoMemory;
use normal_program::Normal;
use std::alloc::Global;
use worker_jobs::test_literal;

/// The test literals of candidates, in their order.
pub fn test_literals(
    alloc: Global,
    normal: &Normal,
    mode: Mode,
    cands: &[u32],
) -> Result<Clause, NoMemory>
    requires normal { IsNormal normal.now }
    requires candidates { All (IsCandidate normal.now.names) cands.now }
    ensures { IfOk result (λ it. it ≡ map (test_literal normal.now.names mode) cands.now) }
{
    let mut lits = Clause::open();
    for cand in cands {
        lits.push(alloc, test_literal(normal, mode, *cand))?;
    }
    Ok(lits)
}

/// The test literals of all candidates, in their order.
pub(crate) fn all_test_literals(
    alloc: Global,
    normal: &Normal,
    mode: Mode,
) -> Result<Clause, NoMemory>
    requires { IsNormal normal.now }
{
    let mut lits = Clause::open();
    for before in 0..normal.names.len() as u32 {
        lits.push(alloc, test_literal(normal, mode, before + 1))?;
    }
    Ok(lits)
}

/// The candidates whose test literals are in a clause, the first one for each literal.
pub fn named_in(
    alloc: Global,
    normal: &Normal,
    mode: Mode,
    clause: &[Lit],
    cands: &[u32],
) -> Result<Atoms, NoMemory>
    requires normal { IsNormal normal.now }
    requires candidates { All (IsCandidate normal.now.names) cands.now }
    ensures { IfOk result (λ it. it ≡ named_of normal.now.names mode clause.now cands.now) }
{
    let mut marks = marks_of(alloc, normal, clause)?;
    let mut named = Atoms::open();
    for cand in cands {
        if take_mark(&mut marks, test_literal(normal, mode, *cand)) {
            named.push(alloc, *cand)?;
        }
    }
    Ok(named)
}

/// The candidates that have the test literal of a candidate.
pub fn same_literal(
    alloc: Global,
    normal: &Normal,
    mode: Mode,
    one: u32,
    cands: &[u32],
) -> Result<Atoms, NoMemory>
    requires normal { IsNormal normal.now }
    requires one { IsCandidate normal.now.names one }
    requires candidates { All (IsCandidate normal.now.names) cands.now }
    ensures { IfOk result (λ it.
        it ≡ filter (has_same_literal normal.now.names mode one) cands.now) }
{
    let lit = test_literal(normal, mode, one);
    let mut same = Atoms::open();
    for cand in cands {
        if test_literal(normal, mode, *cand).0 == lit.0 {
            same.push(alloc, *cand)?;
        }
    }
    Ok(same)
}
