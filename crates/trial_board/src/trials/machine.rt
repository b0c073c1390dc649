// The machine of events, in which an actor reports that a candidate isn't a consequence.
ghost use Rattle.std.specs.Prelude.{◌≡◌, length};
ghost use Rattle.normal_program.specs.Limit.{IsNormal};
ghost use Rattle.normal_program.specs.Normal.{IsNormalFormOf};
ghost use Rattle.anytime_core.specs.Truth.{IsConsequenceN};

use crate::trials::facts::is_answer_without;
use crate::trials::scene::ONE_OF_TWO;
use anytime_core::{Core, Event};
use ground_program::{Mode, Pair, Program};
use item_list::NoMemory;
use normal_program::Normal;
use rule_normaliser::normalise;
use std::alloc::Global;
use std::test::Fail;
use trial_inputs::{program_of, set_of};

/// Whether after a report that candidate 1 is outside, the pair of the actor lacks just that.
fn is_seen(alloc: Global, normal: &Normal) -> Result<bool, NoMemory>
    requires normal { IsNormal normal.now }
    requires three { length normal.now.names ≡ 3 }
    requires outside { ¬ IsConsequenceN normal.now Mode.Cautious 1 }
{
    let mut core = Core::open(alloc, normal, Mode::Cautious, 1, 1)?;
    core.step(Event::ReportOut {
        actor: 0,
        word: 0,
        mask: 1,
    });
    let mut pair = Pair::open(alloc, 3)?;
    core.pair_of(0, &mut pair);
    let lower = pair.lower.as_slice() == [false, false, false].as_slice();
    let upper = pair.upper.as_slice() == [false, true, true].as_slice();
    Ok(lower && upper)
}

fn is_seen_for(alloc: Global, program: &Program, normal: &Normal) -> Result<bool, NoMemory>
    requires normal { IsNormal normal.now }
    requires form { IsNormalFormOf normal.now program.now }
{
    if normal.names.len() != 3 {
        return Ok(false);
    }
    let set = set_of(alloc, 4, 0b1100)?;
    if !is_answer_without(alloc, program, normal, &set, 1)? {
        return Ok(false);
    }
    is_seen(alloc, normal)
}

fn is_shown(alloc: Global) -> Result<bool, NoMemory> {
    let Some(program) = program_of(alloc, ONE_OF_TWO) else {
        return Ok(false);
    };
    match normalise(alloc, &program) {
        Err(_) => Ok(false),
        Ok(normal) => is_seen_for(alloc, &program, &normal),
    }
}

#[test]
fn an_actor_sees_what_it_reports(rt: HostRuntime) -> Result<(), Fail> {
    assert!(rt; is_shown(rt.alloc())?);
    Ok(())
}
