// Goes over the choices of selectors. Each selector may be off, or on where its disjunction is
// true.
ghost use Rattle.std.specs.Prelude.{◌↔◌, IsTrue, IfOk};
ghost use Rattle.plain_entailment.specs.Search.{HoldsWithChoices};

use crate::truth::{holds, longer};
use clause_store::{Clause, Lit};
use ground_program::Set;
use item_list::NoMemory;
use std::alloc::Global;

/// Whether the clause is true by `values` with each choice of the selectors that come after them,
/// which have these disjunctions. The disjunctions are judged by `base`.
pub fn holds_with_choices(
    alloc: Global,
    base: &Set,
    disjunctions: &[Clause],
    clause: &[Lit],
    values: &Set,
) -> Result<bool, NoMemory>
    ensures { IfOk result
        (λ yes. IsTrue yes ↔ HoldsWithChoices base.now disjunctions.now clause.now values.now) }
{
    match disjunctions {
        [] => Ok(holds(values.as_slice(), clause)),
        [first, rest @ ..] => {
            let off = longer(alloc, values, false)?;
            if !holds_with_choices(alloc, base, rest, clause, &off)? {
                return Ok(false);
            }
            if !holds(base.as_slice(), first.as_slice()) {
                return Ok(true);
            }
            let on = longer(alloc, values, true)?;
            holds_with_choices(alloc, base, rest, clause, &on)
        }
    }
}
