// Which lines settle candidates.
ghost use Rattle.std.specs.Prelude.{◌≡◌, ◌↔◌, ◌⊎◌, ℕ, IsTrue, IfOk, MatchOption, All, Contains};
ghost use Rattle.std.specs.List.Sorted.{IsNonDecreasing};
ghost use Rattle.ground_program.specs.Bounds.{IsCandidate};
ghost use Rattle.report.specs.Legal.{GivesShown};
ghost use Rattle.master_record.specs.Course.{IsOpenIn};
ghost use Rattle.master_record.specs.Settling.{IsShownIn, IsFirstShown, IsTold, IsDue, IsDueLine};
ghost use Rattle.master_record.specs.Settling.{AreSettledAmong, shown_line, proved_line};

use crate::answers::shows;
use crate::candidates::Candidates;
use ground_program::{Mode, Names};
use item_list::NoMemory;
use report::Line;
use std::alloc::Global;

/// The number of the answer set that a line gives, where that shows the candidate.
fn shown_number(names: &Names, mode: Mode, line: &Line, cand: u32) -> Option<u32>
    requires { IsCandidate names.now cand }
    ensures { MatchOption result
        ((by : ℕ) → ¬ GivesShown names.now mode cand by line.now)
        (λ by. GivesShown names.now mode cand by line.now) }
{
    let Line::Answer { number, set } = line else {
        return None;
    };
    if shows(names, mode, set, cand) {
        Some(*number)
    } else {
        None
    }
}

/// The number of the first of these answer sets that shows the candidate.
fn first_shown(names: &Names, mode: Mode, answers: &[Line], cand: u32) -> Option<u32>
    requires { IsCandidate names.now cand }
    ensures { MatchOption result
        (¬ IsShownIn names.now mode answers.now cand)
        (IsFirstShown names.now mode answers.now cand) }
{
    for line in answers {
        if let Some(by) = shown_number(names, mode, line, cand) {
            return Some(by);
        }
    }
    None
}

/// Whether a number is among these, which ascend.
fn has_number(numbers: &[u32], number: u32) -> bool
    requires { IsNonDecreasing numbers.now }
    ensures { IsTrue result ↔ Contains numbers.now number }
{
    numbers.binary_search(&number).is_ok()
}

/// The line of a candidate that the answer set with this number shows.
fn shown_line(mode: Mode, cand: u32, by: u32) -> Line
    ensures { result ≡ shown_line mode cand by }
{
    match mode {
        Mode::Cautious => Line::SettledOut { cand, by },
        Mode::Brave => Line::SettledIn { cand, by },
    }
}

/// The line of a candidate that was proved.
fn proved_line(mode: Mode, cand: u32) -> Line
    ensures { result ≡ proved_line mode cand }
{
    match mode {
        Mode::Cautious => Line::SettledIn { cand, by: 0 },
        Mode::Brave => Line::SettledOut { cand, by: 0 },
    }
}

/// The line of a candidate that one of the answer sets shows or that was proved.
fn line_of(names: &Names, mode: Mode, answers: &[Line], proved: &[u32], cand: u32) -> Option<Line>
    requires candidate { IsCandidate names.now cand }
    requires sorted { IsNonDecreasing proved.now }
    ensures { MatchOption result
        (¬ (IsShownIn names.now mode answers.now cand ⊎ Contains proved.now cand))
        (IsTold names.now mode answers.now proved.now cand) }
{
    if let Some(by) = first_shown(names, mode, answers, cand) {
        return Some(shown_line(mode, cand, by));
    }
    if has_number(proved, cand) {
        return Some(proved_line(mode, cand));
    }
    None
}

/// The line of a candidate, where that is open and due.
fn due_line(
    names: &Names,
    mode: Mode,
    candidates: &Candidates,
    answers: &[Line],
    proved: &[u32],
    cand: u32,
) -> Option<Line>
    requires candidate { IsCandidate names.now cand }
    requires sorted { IsNonDecreasing proved.now }
    ensures { MatchOption result
        (¬ IsDue names.now mode candidates.now.pair answers.now proved.now cand)
        (IsDueLine names.now mode candidates.now.pair answers.now proved.now cand) }
{
    if !candidates.is_open(cand) {
        return None;
    }
    let line = line_of(names, mode, answers, proved, cand)?;
    Some(line)
}

/// The lines of those candidates that are due, ascending as the candidates do.
pub(crate) fn settled_lines(
    alloc: Global,
    names: &Names,
    mode: Mode,
    candidates: &Candidates,
    answers: &[Line],
    looked: &[u32],
    proved: &[u32],
) -> Result<Vec<Line>, NoMemory>
    requires candidates { All (IsCandidate names.now) looked.now }
    requires ascending { IsNonDecreasing looked.now }
    requires sorted { IsNonDecreasing proved.now }
    ensures { IfOk result (λ lines. AreSettledAmong names.now mode candidates.now.pair answers.now
        proved.now looked.now lines.items) }
{
    let mut lines = Vec::new(alloc);
    let mut last = 0;
    for cand in looked {
        if *cand <= last {
            continue;
        }
        if let Some(line) = due_line(names, mode, candidates, answers, proved, *cand) {
            lines.push(line)?;
            last = *cand;
        }
    }
    Ok(lines)
}
