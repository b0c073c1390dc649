// What one seat reports, reads, and tells another.
ghost use Rattle.std.specs.Prelude.{OnOk};
ghost use Rattle.trial_board.specs.Ready.{IsReady};

use crate::trials::scene::{ONE_OF_TWO, Scene, is_candidate};
use bounds_board::Settled;
use ground_program::Mode;
use item_list::NoMemory;
use std::alloc::Global;
use std::test::Fail;
use trial_inputs::program_of;

/// Whether after a report on candidate 3 a read gives it alone as inside, and nothing as outside.
fn is_read(alloc: Global, scene: &mut Scene) -> Result<bool, NoMemory>
    requires { IsReady scene.old.mode scene.old.program scene.old.normal scene.old.board
        scene.old.seat scene.old.pair }
    ensures { OnOk result (IsReady scene.new.mode scene.new.program scene.new.normal
        scene.new.board scene.new.seat scene.new.pair) }
{
    let reported = scene.report_in(alloc, 3)?;
    scene.read();
    let lower = scene.pair.lower.as_slice() == [false, false, true].as_slice();
    let upper = scene.pair.upper.as_slice() == [true, true, true].as_slice();
    Ok(reported && lower && upper)
}

/// Whether a second seat that was told all knows candidate 3.
fn is_told(scene: &mut Scene) -> bool
    requires { IsReady scene.old.mode scene.old.program scene.old.normal scene.old.board
        scene.old.seat scene.old.pair }
{
    if !is_candidate(&scene.normal, 3) {
        return false;
    }
    scene.is_settled_for_another(3) == Settled::Inside
}

fn is_read_and_told(alloc: Global) -> Result<bool, NoMemory> {
    let Some(program) = program_of(alloc, ONE_OF_TWO) else {
        return Ok(false);
    };
    match Scene::open(alloc, program, Mode::Cautious) {
        None => Ok(false),
        Some(mut scene) => Ok(is_read(alloc, &mut scene)? && is_told(&mut scene)),
    }
}

#[test]
fn a_report_is_read_and_told(rt: HostRuntime) -> Result<(), Fail> {
    assert!(rt; is_read_and_told(rt.alloc())?);
    Ok(())
}
