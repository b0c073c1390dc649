// What a round gained.
ghost use Rattle.std.specs.Prelude.{◌≡◌, ◌∷◌, [], false, true, None, Some, IfOk};
ghost use Rattle.worker_strategies.specs.Rounds.{nothing_gained};

use ground_program::{Atoms, Set, Sets};
use item_list::NoMemory;
use std::alloc::Global;
use worker_jobs::{Gain, RoundEnd};

/// Nothing, with this end. It takes no memory.
pub(crate) fn nothing(ended: RoundEnd) -> Gain
    ensures { result ≡ nothing_gained ended }
{
    Gain {
        sets: Sets::open(),
        proved: Atoms::open(),
        coherent: None,
        ended,
    }
}

/// An answer set.
pub(crate) fn shown(alloc: Global, set: Set) -> Result<Gain, NoMemory>
    ensures { IfOk result (λ it. it ≡ record {
      sets = set ∷ [];
      proved = [];
      coherent = None;
      ended = RoundEnd.Done;
    }) }
{
    let mut gain = nothing(RoundEnd::Done);
    gain.sets.push(alloc, set)?;
    Ok(gain)
}

/// An answer set, by which the program is coherent.
pub(crate) fn coherent(alloc: Global, set: Set) -> Result<Gain, NoMemory>
    ensures { IfOk result (λ it. it ≡ record {
      sets = set ∷ [];
      proved = [];
      coherent = Some true;
      ended = RoundEnd.Done;
    }) }
{
    let mut gain = shown(alloc, set)?;
    gain.coherent = Some(true);
    Ok(gain)
}

/// That there is no answer set. It takes no memory.
pub(crate) fn incoherent() -> Gain
    ensures { result ≡ record {
      sets = [];
      proved = [];
      coherent = Some false;
      ended = RoundEnd.Done;
    } }
{
    let mut gain = nothing(RoundEnd::Done);
    gain.coherent = Some(false);
    gain
}

/// Proved candidates. It takes no memory.
pub(crate) fn proved(cands: Atoms) -> Gain
    ensures { result ≡ record {
      sets = [];
      proved = cands;
      coherent = None;
      ended = RoundEnd.Done;
    } }
{
    let mut gain = nothing(RoundEnd::Done);
    gain.proved = cands;
    gain
}
