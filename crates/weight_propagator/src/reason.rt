// The literals of a reason.
ghost use Rattle.std.specs.Prelude.{◌≡◌, ◌≤◌, ◌++◌, ◌∷◌, [], IfOk, IfSome};
ghost use Rattle.clause_store.specs.declared.literal.Value.TheVariants.{Unset};
ghost use Rattle.clause_store.specs.Trail.{value_of};
ghost use Rattle.weight_propagator.specs.Rows.{IsRow, IsReason, goal_of, taken_sum, is_extra};

use crate::row::Row;
use crate::side::Side;
use clause_store::{Clause, Lit, Trail};
use item_list::NoMemory;
use std::alloc::Global;

/// Puts denials of literals last that are on the side, and that of the extra one, until they decide
/// the variable. Greater weights come first, so that no fewer of them would do.
pub fn collect(
    alloc: Global,
    row: &Row,
    trail: &Trail,
    side: Side,
    extra: Option<Lit>,
    out: &mut Clause,
) -> Result<(), NoMemory>
    requires row { IsRow trail.now.vars row.now }
    requires unset { IfSome extra (λ lit. value_of trail.now.steps lit ≡ Unset) }
    requires enough { goal_of side row.now ≤ taken_sum side trail.now.steps extra row.now.terms }
    ensures { IfOk result (λ _. IsReason side trail.now.steps extra row.now.terms
        (goal_of side row.now) out.old out.new) }
{
    let goal = row.goal(side);
    let mut reached = 0;
    for term in row.terms.as_slice() {
        if reached >= goal {
            return Ok(());
        }
        if side.is_on(trail.value(term.lit)) || is_extra(extra, term.lit) {
            out.push(alloc, side.denial(term.lit))?;
            reached += term.weight;
        }
    }
    Ok(())
}

// Whether a literal is the extra one.
fn is_extra(extra: Option<Lit>, lit: Lit) -> bool
    ensures { result ≡ is_extra extra lit }
{
    match extra {
        None => false,
        Some(it) => it.0 == lit.0,
    }
}
