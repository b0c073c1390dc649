// Which of the clauses that tests counted a tester hands on: just those of one to three literals
// without a selector, each once, the last one first.
ghost use Rattle.trial_coherence.specs.Ready.{IsReady};

use crate::trials::scene::Scene;
use crate::trials::tallies::Kind;
use clause_store::{Clause, Lit, Short, Units};
use item_list::NoMemory;
use short_clauses::clause_of;
use std::alloc::Global;
use std::mem;

/// Whether the tester of a scene hands on just what it is to, of what was counted since this was
/// last asked.
pub fn hands_on(alloc: Global, scene: &mut Scene) -> Result<bool, NoMemory>
    requires { IsReady scene.old.program.now scene.old.normal.now scene.old.tester }
    ensures { IsReady scene.new.program.now scene.new.normal.now scene.new.tester }
{
    let counted = mem::replace(&mut scene.counted, Units::open());
    hands_on_those(alloc, scene, counted.as_slice())
}

/// Whether it hands on just those of these clauses that it is to.
fn hands_on_those(alloc: Global, scene: &mut Scene, counted: &[Clause]) -> Result<bool, NoMemory>
    requires { IsReady scene.old.program.now scene.old.normal.now scene.old.tester }
    ensures { IsReady scene.new.program.now scene.new.normal.now scene.new.tester }
{
    for clause in counted.iter().rev() {
        if !hands_on_one(alloc, scene, clause.as_slice())? {
            return Ok(false);
        }
    }
    Ok(scene.tester.take_shareable().is_none())
}

/// Whether it hands on a clause, if it is to.
fn hands_on_one(alloc: Global, scene: &mut Scene, clause: &[Lit]) -> Result<bool, NoMemory>
    requires { IsReady scene.old.program.now scene.old.normal.now scene.old.tester }
    ensures { IsReady scene.new.program.now scene.new.normal.now scene.new.tester }
{
    let kind = kind_of(scene.greatest(), clause);
    scene.kinds.count(kind);
    match kind {
        Kind::Long | Kind::Selected => Ok(true),
        Kind::One | Kind::Two | Kind::Three => {
            is_short_of(alloc, scene.tester.take_shareable(), clause)
        }
    }
}

/// What a clause is to a tester whose greatest variable of a body this is.
fn kind_of(greatest: u32, clause: &[Lit]) -> Kind {
    if clause.iter().any(|lit| lit.var().0 > greatest) {
        return Kind::Selected;
    }
    match clause.len() {
        1 => Kind::One,
        2 => Kind::Two,
        3 => Kind::Three,
        _ => Kind::Long,
    }
}

/// Whether a short clause is there, and has just the literals of a clause, ascending.
fn is_short_of(alloc: Global, short: Option<Short>, clause: &[Lit]) -> Result<bool, NoMemory> {
    let Some(short) = short else {
        return Ok(false);
    };
    let lits = clause_of(alloc, &short)?;
    Ok(is_sorted_from(lits.as_slice(), clause))
}

/// Whether literals are those of a clause without a literal twice, ascending.
fn is_sorted_from(lits: &[Lit], clause: &[Lit]) -> bool {
    lits.len() == clause.len() && ascend(lits) && clause.iter().all(|lit| has(lits, *lit))
}

/// Whether up to three literals ascend.
fn ascend(lits: &[Lit]) -> bool {
    match lits {
        [_] => true,
        [one, two] => one.0 < two.0,
        [one, two, three] => one.0 < two.0 && two.0 < three.0,
        _ => false,
    }
}

fn has(lits: &[Lit], lit: Lit) -> bool {
    lits.iter().any(|other| other.0 == lit.0)
}
