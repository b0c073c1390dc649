// Marks at variables that stand unnegated in some clause.
ghost use Rattle.std.specs.Prelude.{◌≡◌, ◌<◌, ◌^◌, ◌↔◌, [], ◌∷◌, IfOk, IsTrue};
ghost use Rattle.assumption_engine.specs.Marks.{AreMarkedIn, IsMarked, MarksOne, MarksOnly};

use clause_store::{ClauseRef, Lit, Store, Var};
use item_list::NoMemory;
use std::alloc::Global;

/// Marks the variables that stand unnegated in a clause of the store.
pub fn marks_of(alloc: Global, vars: u32, store: &Store) -> Result<Vec<bool>, NoMemory>
    requires { vars < 2 ^ 31 }
    ensures { IfOk result (λ it. AreMarkedIn store.now it.items) }
{
    let mut marks = vec![in alloc; false; vars as usize + 1]?;
    'clauses: for at in 0..store.len() {
        mark(&mut marks, store.lits(ClauseRef(at)));
    }
    Ok(marks)
}

/// Marks the variables that stand unnegated in a clause. Those without a place stay unmarked.
pub fn mark(marks: &mut Vec<bool>, clause: &[Lit])
    ensures { MarksOnly clause.now marks.old.items marks.new.items }
{
    'lits: for lit in clause {
        mark_lit(marks, *lit);
    }
}

/// Marks the variable of a literal that isn't negated.
fn mark_lit(marks: &mut Vec<bool>, lit: Lit)
    ensures { MarksOnly (lit ∷ []) marks.old.items marks.new.items }
{
    if lit.is_negated() {
        return;
    }
    mark_one(marks, lit.var());
}

/// Marks a variable, if it has a place.
fn mark_one(marks: &mut Vec<bool>, var: Var)
    ensures { MarksOne var.0 marks.old.items marks.new.items }
{
    let at = var.0 as usize;
    if at < marks.len() {
        marks[at] = true;
    }
}

/// Whether a variable is marked.
pub fn is_marked(marks: &[bool], var: Var) -> bool
    ensures { IsTrue result ↔ IsMarked marks.now var.0 }
{
    marks.get(var.0 as usize).copied().unwrap_or(false)
}
