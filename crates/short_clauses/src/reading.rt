// The literals of a short clause.
ghost use Rattle.std.specs.Prelude.{◌≡◌, IfOk};
ghost use Rattle.short_clauses.specs.Short.{literals_of_short};

use clause_store::{Clause, Lit, Short};
use item_list::NoMemory;
use std::alloc::Global;

/// The clause of the literals of a short clause, in the order of their codes.
pub fn clause_of(alloc: Global, short: &Short) -> Result<Clause, NoMemory>
    ensures { IfOk result (λ clause. clause ≡ literals_of_short short.now) }
{
    let mut clause = Clause::open();
    for code in &short.lits {
        if *code != 0 {
            clause.push(alloc, Lit(*code))?;
        }
    }
    Ok(clause)
}
