// Marks on variables. The table of a walk is kept for the next one, and each walk takes its own
// marks away again. So a walk pays for what it visits, and not for each variable.
ghost use Rattle.std.specs.Prelude.{◌≡◌, ◌<◌, ◌≤◌, [], ℕ, All, false, length, map, IfOk, OnOk};
ghost use Rattle.clause_store.specs.Clause.{variable};
ghost use Rattle.conflict_learning.specs.Marks.{HasNoMark, IsMarked, ListsVariables, is_marked};

use clause_store::{Lit, Step, Var};
use item_list::{List, NoMemory};
use std::alloc::Global;
use std::marker::Model;

/// A table with a mark for each variable, while no walk has it. It has no mark set.
#[derive(Debug, Drop)]
pub struct Marks {
    table: Option<Vec<bool>>,
}

impl Model for Marks {
    ghost use Rattle.std.specs.Prelude.{List, [], Bool};
    ghost use Rattle.std.specs.Option.{option_map_or};
    ghost use Rattle.conflict_learning.specs.Marks.{HasNoMark};

    ghost Value = { List Bool };

    ghost view = { λ marks. option_map_or (λ table. table.items) marks.table [] };

    ghost invariant = { λ marks. HasNoMark (option_map_or (λ table. table.items) marks.table []) };
}

impl Marks {
    /// No table yet. It takes no memory.
    pub fn open() -> Marks
        ensures { result ≡ [] }
    {
        Marks { table: None }
    }

    /// Takes the table out, with room for the variables up to `vars`. Only a first table and a
    /// longer one take memory. After want of memory there is no table.
    pub fn take(&mut self, alloc: Global, vars: u32) -> Result<Vec<bool>, NoMemory>
        ensures sized { IfOk result (λ table. vars < length table.items) }
        ensures unmarked { IfOk result (λ table. HasNoMark table.items) }
    {
        let count = vars as usize + 1;
        match self.table.take() {
            None => {
                let table = vec![in alloc; false; count]?;
                Ok(table)
            }
            Some(table) => lengthen(table, count),
        }
    }

    /// Puts a table back for the next walk.
    pub fn put_back(&mut self, table: Vec<bool>)
        requires { HasNoMark table.items }
        ensures { self.new ≡ table.items }
    {
        self.table = Some(table);
    }
}

/// The table with at least `count` marks.
fn lengthen(table: Vec<bool>, count: usize) -> Result<Vec<bool>, NoMemory>
    requires { HasNoMark table.items }
    ensures sized { IfOk result (λ longer. count ≤ length longer.items) }
    ensures unmarked { IfOk result (λ longer. HasNoMark longer.items) }
{
    let mut longer = table;
    if longer.len() < count {
        longer.resize(count, false)?;
    }
    Ok(longer)
}

/// Takes the marks of the variables of assignments away.
pub fn unmark_steps(steps: &[Step], marks: &mut [bool])
    requires { All (λ step. variable step.lit < length marks.old) steps.now }
    ensures fewer { (var : ℕ) → IsMarked marks.new var → IsMarked marks.old var }
    ensures gone { All (λ step. is_marked marks.new (variable step.lit) ≡ false) steps.now }
{
    for step in steps {
        marks[step.lit.var().0 as usize] = false;
    }
}

/// Takes the marks of the variables of literals away.
pub fn unmark_lits(lits: &[Lit], marks: &mut [bool])
    requires { All (λ lit. variable lit < length marks.old) lits.now }
    ensures fewer { (var : ℕ) → IsMarked marks.new var → IsMarked marks.old var }
    ensures gone { All (λ lit. is_marked marks.new (variable lit) ≡ false) lits.now }
{
    for lit in lits {
        marks[lit.var().0 as usize] = false;
    }
}

/// Lists the variables of assignments that are marked.
pub fn list_steps(
    alloc: Global,
    steps: &[Step],
    marks: &[bool],
    visited: &mut List<Var>,
) -> Result<(), NoMemory>
    requires { All (λ step. variable step.lit < length marks.now) steps.now }
    ensures { OnOk result
        (ListsVariables (map (λ step. step.lit) steps.now) visited.old visited.new) }
{
    for step in steps {
        let var = step.lit.var();
        if marks[var.0 as usize] {
            visited.push(alloc, var)?;
        }
    }
    Ok(())
}

/// Lists the variables of literals.
pub fn list_lits(alloc: Global, lits: &[Lit], visited: &mut List<Var>) -> Result<(), NoMemory>
    ensures { OnOk result (ListsVariables lits.now visited.old visited.new) }
{
    for lit in lits {
        visited.push(alloc, lit.var())?;
    }
    Ok(())
}
