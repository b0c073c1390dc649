// What the answers of a tester say of candidates.
ghost use Rattle.std.specs.Prelude.{IfOk};
ghost use Rattle.ground_program.specs.declared.program.Mode.{Mode};
ghost use Rattle.normal_program.specs.declared.normal.Normal.{Normal};
ghost use Rattle.worker_strategies.specs.Outcome.{ComesOf, SaysOf};

use crate::gains::{coherent, incoherent, proved, shown};
use crate::outcome::Outcome;
use coherence_test::{Core, Tested};
use ground_program::Atoms;
use item_list::NoMemory;
use std::alloc::Global;
use worker_jobs::{Gain, Job};

/// What an answer of a tester says of coherence, where nothing was assumed: a set, or that there is
/// none. An error says that there was no memory, in the tester or here.
pub fn coherence_told(alloc: Global, tested: Tested) -> Result<Outcome, NoMemory>
    ensures { IfOk result (λ it. (normal : Normal) (mode : Mode)
        → ComesOf normal mode Job.Coherence tested it) }
{
    match tested {
        Tested::Found(set) => {
            let gain = coherent(alloc, set)?;
            Ok(Outcome::Answered(gain))
        }
        Tested::Core(_) => Ok(Outcome::Answered(incoherent())),
        Tested::Paused => Ok(Outcome::Paused),
        Tested::Spent => Ok(Outcome::Spent),
        Tested::SpentInside { set, units } => Ok(Outcome::SpentInside { set, units }),
        Tested::NoMemory => Err(NoMemory),
    }
}

/// What an answer of a tester says of a candidate whose test literal was assumed: a set shows it, a
/// core with the literal proves it, and one without literals says that there is no answer set. An
/// error says that there was no memory, in the tester or here.
pub fn single_told(alloc: Global, cand: u32, tested: Tested) -> Result<Outcome, NoMemory>
    ensures { IfOk result (λ it. (normal : Normal) (mode : Mode)
        → ComesOf normal mode (Job.Single cand) tested it) }
{
    match tested {
        Tested::Found(set) => {
            let gain = shown(alloc, set)?;
            Ok(Outcome::Answered(gain))
        }
        Tested::Core(core) => {
            let gain = single_refuted(alloc, cand, &core)?;
            Ok(Outcome::Answered(gain))
        }
        Tested::Paused => Ok(Outcome::Paused),
        Tested::Spent => Ok(Outcome::Spent),
        Tested::SpentInside { set, units } => Ok(Outcome::SpentInside { set, units }),
        Tested::NoMemory => Err(NoMemory),
    }
}

/// What a core says of one candidate.
fn single_refuted(alloc: Global, cand: u32, core: &Core) -> Result<Gain, NoMemory>
    ensures { IfOk result (λ it. (normal : Normal) (mode : Mode)
        → SaysOf normal mode (Job.Single cand) core.now it) }
{
    if core.lits.len() == 0 {
        return Ok(incoherent());
    }
    let mut cands = Atoms::open();
    cands.push(alloc, cand)?;
    Ok(proved(cands))
}

/// What an answer of a tester says of candidates whose disjunction was asked for: a set shows one
/// of them, a core with the disjunction proves them all, and one without it says that there is no
/// answer set. An error says that there was no memory, in the tester or here.
pub fn reduce_told(alloc: Global, cands: &Atoms, tested: Tested) -> Result<Outcome, NoMemory>
    ensures { IfOk result (λ it. (normal : Normal) (mode : Mode)
        → ComesOf normal mode (Job.Reduce cands.now) tested it) }
{
    match tested {
        Tested::Found(set) => {
            let gain = shown(alloc, set)?;
            Ok(Outcome::Answered(gain))
        }
        Tested::Core(core) => {
            let gain = reduce_refuted(alloc, cands, &core)?;
            Ok(Outcome::Answered(gain))
        }
        Tested::Paused => Ok(Outcome::Paused),
        Tested::Spent => Ok(Outcome::Spent),
        Tested::SpentInside { set, units } => Ok(Outcome::SpentInside { set, units }),
        Tested::NoMemory => Err(NoMemory),
    }
}

/// What a core says of the candidates.
fn reduce_refuted(alloc: Global, cands: &Atoms, core: &Core) -> Result<Gain, NoMemory>
    ensures { IfOk result (λ it. (normal : Normal) (mode : Mode)
        → SaysOf normal mode (Job.Reduce cands.now) core.now it) }
{
    if core.any {
        let all = cands.copy(alloc)?;
        return Ok(proved(all));
    }
    Ok(incoherent())
}
