// Which answer sets are given.
ghost use Rattle.std.specs.Prelude.{◌≡◌, ◌↔◌, ◌<◌, ◌+◌, ◌^◌, IsTrue, IfOk, length};
ghost use Rattle.ground_program.specs.Bounds.{IsCandidate, Shows};
ghost use Rattle.report.specs.declared.lines.Line.TheVariants.{Answer};
ghost use Rattle.master_record.specs.Settling.{ShowsOpenIn, IsNews, AreAnswers};

use crate::candidates::Candidates;
use ground_program::{Mode, Names, Set, has_atom};
use item_list::NoMemory;
use report::Line;
use std::alloc::Global;

/// Whether an answer set shows a candidate.
pub(crate) fn shows(names: &Names, mode: Mode, set: &Set, cand: u32) -> bool
    requires { IsCandidate names.now cand }
    ensures { IsTrue result ↔ Shows names.now mode set.now cand }
{
    let atom = names.get(cand as usize - 1).atom;
    let is_in = has_atom(set.as_slice(), atom);
    match mode {
        Mode::Cautious => !is_in,
        Mode::Brave => is_in,
    }
}

/// Whether an answer set shows an open candidate.
fn shows_open(names: &Names, mode: Mode, candidates: &Candidates, set: &Set) -> bool
    requires { length candidates.now.left ≡ length names.now }
    ensures { IsTrue result ↔ ShowsOpenIn names.now mode candidates.now.pair set.now }
{
    for place in candidates.least_open()..candidates.count() {
        if candidates.is_open(place + 1) && shows(names, mode, set, place + 1) {
            return true;
        }
    }
    false
}

/// Whether an answer set is given, once so many were.
fn is_news(names: &Names, mode: Mode, candidates: &Candidates, given: u32, set: &Set) -> bool
    requires { length candidates.now.left ≡ length names.now }
    ensures { IsTrue result ↔ IsNews names.now mode candidates.now.pair given set.now }
{
    given == 0 || shows_open(names, mode, candidates, set)
}

/// The line of an answer set that is given, once so many were. There are fewer numbers than 2^32.
fn answer_line(alloc: Global, given: u32, set: &Set) -> Result<Line, NoMemory>
    ensures line { IfOk result (λ line. line ≡ Answer (given + 1) set.now) }
    ensures fits { IfOk result (λ line. given + 1 < 2 ^ 32) }
{
    if given == u32::MAX {
        return Err(NoMemory);
    }
    let set = set.copy(alloc)?;
    Ok(Line::Answer {
        number: given + 1,
        set,
    })
}

/// The lines of those answer sets that are given, once so many were.
pub(crate) fn answer_lines(
    alloc: Global,
    names: &Names,
    mode: Mode,
    candidates: &Candidates,
    count: u32,
    sets: &[Set],
) -> Result<Vec<Line>, NoMemory>
    requires { length candidates.now.left ≡ length names.now }
    ensures answers { IfOk result
        (λ lines. AreAnswers names.now mode candidates.now.pair count sets.now lines.items) }
    ensures fits { IfOk result (λ lines. count + length lines.items < 2 ^ 32) }
{
    let mut lines = Vec::new(alloc);
    let mut given = count;
    for set in sets {
        if is_news(names, mode, candidates, given, set) {
            let line = answer_line(alloc, given, set)?;
            lines.push(line)?;
            given += 1;
        }
    }
    Ok(lines)
}
