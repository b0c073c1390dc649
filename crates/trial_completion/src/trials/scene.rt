// The base clauses of a normal form in a search state, and values on a trail.
ghost use Rattle.std.specs.Prelude.{◌≡◌, false, IfOk};
ghost use Rattle.normal_program.specs.Limit.{IsNormal};

use clause_store::{Lit, Store, Trail, Value};
use completion::complete;
use item_list::NoMemory;
use normal_program::Normal;
use search_state::SearchState;
use std::alloc::Global;

/// The base clauses of a normal form over its variables, with nothing assigned.
pub fn state_of(alloc: Global, normal: &Normal) -> Result<SearchState, NoMemory>
    requires { IsNormal normal.now }
    ensures { IfOk result (λ it. it.dead ≡ false) }
{
    let mut store = Store::open();
    complete(alloc, normal, &mut store)?;
    SearchState::open(alloc, normal.variables(), store)
}

/// Whether literals, by their codes, have these values on a trail.
pub fn has_values(trail: &Trail, values: &[(u32, Value)]) -> bool {
    for (code, value) in values {
        if !trail.has(Lit(*code)) || trail.value(Lit(*code)) != *value {
            return false;
        }
    }
    true
}
