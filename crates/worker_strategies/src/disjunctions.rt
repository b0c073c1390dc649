// The disjunction that is asked for a list of candidates.
ghost use Rattle.std.specs.Prelude.{◌≡◌, All, IfOk};
ghost use Rattle.ground_program.specs.Bounds.{IsCandidate};
ghost use Rattle.normal_program.specs.Limit.{IsNormal};
ghost use Rattle.worker_strategies.specs.Disjunction.{disjunction_of};

use crate::marks::{mark_new, no_marks};
use clause_store::Clause;
use ground_program::Mode;
use item_list::NoMemory;
use normal_program::Normal;
use std::alloc::Global;
use worker_jobs::test_literal;

/// The test literals of candidates, each once, in the order in which they come first. It is made
/// in one pass.
pub fn disjunction(
    alloc: Global,
    normal: &Normal,
    mode: Mode,
    cands: &[u32],
) -> Result<Clause, NoMemory>
    requires normal { IsNormal normal.now }
    requires candidates { All (IsCandidate normal.now.names) cands.now }
    ensures { IfOk result (λ it. it ≡ disjunction_of normal.now.names mode cands.now) }
{
    let mut marks = no_marks(alloc, normal)?;
    let mut lits = Clause::open();
    for cand in cands {
        let lit = test_literal(normal, mode, *cand);
        if mark_new(&mut marks, lit) {
            lits.push(alloc, lit)?;
        }
    }
    Ok(lits)
}
