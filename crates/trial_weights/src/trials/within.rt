// Weight bodies inside a set, which judges their negative literals.
ghost use Rattle.ground_program.specs.Meaning.{IsSetOver};
ghost use Rattle.normal_program.specs.Limit.{IsNormal};

use clause_store::{Clause, Says, Trail};
use ground_program::Set;
use item_list::NoMemory;
use normal_program::Normal;
use std::alloc::Global;
use std::test::Fail;
use trial_inputs::{normal_of, set_of};
use weight_propagator::Weights;

// 2 and 3 may be chosen, and 4 holds where not 3 with weight 2 and 2 with weight 1 reach 2.
// Variable 6 is that of the weight body.
static NEGATIVE: &[u8] = b"3 2 2 3 0 0\n5 4 2 2 1 3 2 2 1\n0\n0\nB+\n0\nB-\n1\n0\n1\n";

/// What is said inside a set where nothing is assigned.
fn said_within(
    alloc: Global,
    normal: &Normal,
    set: &Set,
    out: &mut Clause,
) -> Result<Says, NoMemory>
    requires normal { IsNormal normal.now }
    requires over { IsSetOver normal.now.atoms set.now }
{
    let trail = Trail::open(alloc, normal.greatest_body_var())?;
    let mut weights = Weights::open_within(alloc, normal, set)?;
    weights.propagate(alloc, normal, &trail, out)
}

/// Whether a clause has this one literal.
fn is_unit(clause: &Clause, code: u32) -> bool {
    match clause.as_slice() {
        [one] => one.0 == code,
        _ => false,
    }
}

/// Whether the clause of this one literal is given inside the set of the atoms whose bits are on.
fn gives_unit(alloc: Global, bits: u32, code: u32) -> Result<bool, NoMemory> {
    let Some(normal) = normal_of(alloc, NEGATIVE) else {
        return Ok(false);
    };
    if normal.atoms >= 32 {
        return Ok(false);
    }
    let set = set_of(alloc, normal.atoms, bits)?;
    let mut out = Clause::open();
    let says = said_within(alloc, &normal, &set, &mut out)?;
    Ok(matches!(says, Says::Clause) && is_unit(&out, code))
}

#[test]
fn a_set_judges_the_negative_literals(rt: HostRuntime) -> Result<(), Fail> {
    // In the set of 2 alone, not 3 reaches the bound; in that of 2 and 3 nothing can.
    assert!(rt; gives_unit(rt.alloc(), 0b010, 12)?);
    assert!(rt; gives_unit(rt.alloc(), 0b110, 13)?);
    Ok(())
}
