// Tables with a mark at the codes of some literals.
ghost use Rattle.std.specs.Prelude.{◌≡◌, ◌<◌, [], false, length, not, slice_index_or, slice_set};
ghost use Rattle.std.specs.Prelude.{true, IfOk};
ghost use Rattle.normal_program.specs.Limit.{IsNormal};
ghost use Rattle.worker_strategies.specs.Literals.{AreMarked, HasPlaces};

use clause_store::Lit;
use item_list::NoMemory;
use normal_program::Normal;
use std::alloc::Global;

/// A table with a place for each literal of atoms and bodies, none of which is marked.
pub(crate) fn no_marks(alloc: Global, normal: &Normal) -> Result<Vec<bool>, NoMemory>
    requires { IsNormal normal.now }
    ensures places { IfOk result (λ it. HasPlaces normal.now it.items) }
    ensures marks { IfOk result (λ it. AreMarked it.items []) }
{
    let codes = 2 * normal.greatest_body_var() as usize + 2;
    let marks = vec![in alloc; false; codes]?;
    Ok(marks)
}

/// A table that marks the literals of a clause.
pub(crate) fn marks_of(
    alloc: Global,
    normal: &Normal,
    clause: &[Lit],
) -> Result<Vec<bool>, NoMemory>
    requires { IsNormal normal.now }
    ensures places { IfOk result (λ it. HasPlaces normal.now it.items) }
    ensures marks { IfOk result (λ it. AreMarked it.items clause.now) }
{
    let mut marks = no_marks(alloc, normal)?;
    for lit in clause {
        mark(&mut marks, *lit);
    }
    Ok(marks)
}

/// Marks a literal, if it has a place.
fn mark(marks: &mut Vec<bool>, lit: Lit)
    ensures { marks.new.items ≡ slice_set marks.old.items lit.0 true }
{
    let at = lit.0 as usize;
    if at < marks.len() {
        marks[at] = true;
    }
}

/// Whether a literal has no mark. It has one then.
pub(crate) fn mark_new(marks: &mut Vec<bool>, lit: Lit) -> bool
    requires { lit.0 < length marks.old.items }
    ensures is { result ≡ not (slice_index_or marks.old.items lit.0 false) }
    ensures marks { marks.new.items ≡ slice_set marks.old.items lit.0 true }
{
    let at = lit.0 as usize;
    let is_new = !marks[at];
    marks[at] = true;
    is_new
}

/// Whether a literal has a mark. It has none then.
pub(crate) fn take_mark(marks: &mut Vec<bool>, lit: Lit) -> bool
    requires { lit.0 < length marks.old.items }
    ensures is { result ≡ slice_index_or marks.old.items lit.0 false }
    ensures marks { marks.new.items ≡ slice_set marks.old.items lit.0 false }
{
    let at = lit.0 as usize;
    let is_marked = marks[at];
    marks[at] = false;
    is_marked
}
