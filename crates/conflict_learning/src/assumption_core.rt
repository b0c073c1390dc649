// Why an assumption is failed: the decisions that led to its being false. The core is the table
// while they are sought. Behind the failed literal it has a cell for each assignment above level 0,
// from the one of its variable back, the latest first. A cell is blank or has the literal of its
// assignment. From the front on, each literal that a clause forced gives way to those that forced
// it.
ghost use Rattle.std.specs.Prelude.{◌≡◌, ◌≤◌, ◌<◌, [], ◌∷◌, ◌+◌, ℕ, All, Some, length, filter, not};
ghost use Rattle.std.specs.Prelude.{OnOk};
ghost use Rattle.clause_store.specs.Clause.{variable, IsOver};
ghost use Rattle.clause_store.specs.Standing.{IsFalse};
ghost use Rattle.clause_store.specs.Trail.{IsTrailOf, level_of, place_of};
ghost use Rattle.conflict_learning.specs.AssumptionCore.{IsCore, CannotMeet};
ghost use Rattle.conflict_learning.specs.Cells.{AddsDecisions, AddsBlanks, AreCells, is_blank};
ghost use Rattle.conflict_learning.specs.Cells.{IsMarkable, MarksCell, MarksAll, Explains};
ghost use Rattle.conflict_learning.specs.Cells.{ExplainsAll};

use clause_store::{Clause, Lit, Store, Trail};
use item_list::NoMemory;
use std::alloc::Global;

/// What stands in a cell that has no literal.
const BLANK: Lit = Lit(0);

/// Why a false literal can't be true as well. It takes memory for the core alone, and looks at the
/// assignments above level 0 from the literal's back and at their reasons. After want of memory
/// `core` may hold any clause.
pub fn final_core(
    alloc: Global,
    store: &Store,
    trail: &Trail,
    failed: Lit,
    core: &mut Clause,
) -> Result<(), NoMemory>
    requires of_store { IsTrailOf trail.now.steps store.now }
    requires over { IsOver trail.now.vars failed }
    requires is_false { IsFalse trail.now.steps failed }
    ensures core { OnOk result (IsCore trail.now.steps failed core.new) }
    ensures unmet { OnOk result (CannotMeet store.now core.new) }
    ensures alone { OnOk result
        (level_of trail.now.steps (variable failed) ≡ Some 0 → core.new ≡ failed ∷ []) }
{
    core.clear();
    core.push(alloc, failed)?;
    match trail.place_of(failed.var()) {
        None => Ok(()),
        Some(last) => add_decisions(alloc, store, trail, failed, last, core),
    }
}

/// Adds the decisions that made a literal false: none where it is false at level 0.
fn add_decisions(
    alloc: Global,
    store: &Store,
    trail: &Trail,
    failed: Lit,
    last: usize,
    core: &mut Clause,
) -> Result<(), NoMemory>
    requires of_store { IsTrailOf trail.now.steps store.now }
    requires over { IsOver trail.now.vars failed }
    requires is_false { IsFalse trail.now.steps failed }
    requires at { place_of trail.now.steps (variable failed) ≡ Some last }
    requires alone { core.old ≡ failed ∷ [] }
    ensures { OnOk result (AddsDecisions store.now trail.now.steps failed core.new) }
{
    add_blanks(alloc, trail, last, core)?;
    mark(trail, last, failed, core);
    explain_all(store, trail, last, core);
    drop_blanks(core);
    Ok(())
}

/// Adds a blank for each assignment above level 0, from the one at `last` back.
fn add_blanks(alloc: Global, trail: &Trail, last: usize, core: &mut Clause) -> Result<(), NoMemory>
    requires { last < length trail.now.steps }
    ensures { OnOk result (AddsBlanks trail.now last core.old core.new) }
{
    let steps = trail.steps();
    let mut low = last + 1;
    while low > 0 && steps[low - 1].level > 0 {
        core.push(alloc, BLANK)?;
        low -= 1;
    }
    Ok(())
}

/// Replaces literals that were forced by their reasons, until only decisions are left.
fn explain_all(store: &Store, trail: &Trail, last: usize, core: &mut Clause)
    requires of_store { IsTrailOf trail.now.steps store.now }
    requires within { last < length trail.now.steps }
    requires cells { AreCells trail.now.steps last core.old }
    ensures { ExplainsAll store.now trail.now.steps last core.old core.new }
{
    for at in 1..core.len() {
        explain(store, trail, last, at, core);
    }
}

/// Replaces the literal of a cell by its reason, if it has one.
fn explain(store: &Store, trail: &Trail, last: usize, at: usize, core: &mut Clause)
    requires of_store { IsTrailOf trail.now.steps store.now }
    requires within { last < length trail.now.steps }
    requires cells { AreCells trail.now.steps last core.old }
    requires first { 1 ≤ at }
    requires here { at < length core.old }
    ensures { Explains store.now trail.now.steps last at core.old core.new }
{
    if is_blank(*core.get(at)) {
        return;
    }
    let steps = trail.steps();
    match steps[last + 1 - at].reason {
        None => {}
        Some(why) => {
            mark_all(trail, last, store.lits(why), core);
            core.set(at, BLANK);
        }
    }
}

/// Marks the assignments of the variables of a clause.
fn mark_all(trail: &Trail, last: usize, lits: &[Lit], core: &mut Clause)
    requires within { last < length trail.now.steps }
    requires markable { All (IsMarkable trail.now last) lits.now }
    ensures { MarksAll trail.now.steps last lits.now core.old core.new }
{
    for lit in lits {
        mark(trail, last, *lit, core);
    }
}

/// Puts the literal of the assignment of a variable into its cell, if it has one.
fn mark(trail: &Trail, last: usize, lit: Lit, core: &mut Clause)
    requires within { last < length trail.now.steps }
    requires markable { IsMarkable trail.now last lit }
    ensures { MarksCell trail.now.steps last lit core.old core.new }
{
    let steps = trail.steps();
    if let Some(place) = trail.place_of(lit.var()) {
        let cell = last + 1 - place;
        if cell < core.len() {
            core.set(cell, steps[place].lit);
        }
    }
}

/// Takes the blanks out.
fn drop_blanks(core: &mut Clause)
    ensures { core.new ≡ filter (λ lit. not (is_blank lit)) core.old }
{
    let mut kept = 0;
    for at in 0..core.len() {
        let lit = *core.get(at);
        if !is_blank(lit) {
            core.set(kept, lit);
            kept += 1;
        }
    }
    core.truncate(kept);
}

/// Whether there is no literal.
fn is_blank(lit: Lit) -> bool
    ensures { result ≡ is_blank lit }
{
    lit == BLANK
}
