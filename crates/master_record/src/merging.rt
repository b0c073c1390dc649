// What workers found goes into the record.
ghost use Rattle.std.specs.Prelude.{◌≡◌, ◌≤◌, ◌<◌, ◌+◌, ◌^◌, [], All, IfOk, OnErr};
ghost use Rattle.std.specs.Prelude.{IsPermutation};
ghost use Rattle.std.specs.List.Sorted.{IsNonDecreasing};
ghost use Rattle.ground_program.specs.Bounds.{IsCandidate};
ghost use Rattle.anytime_core.specs.Truth.{EnclosesN, IsCoherent};
ghost use Rattle.worker_jobs.specs.Gain.{IsTrueGain};
ghost use Rattle.worker_jobs.specs.Spent.{IsTrueEnd};
ghost use Rattle.master_record.specs.Books.{IsOwed, job_of, open_list};
ghost use Rattle.master_record.specs.Settling.{AreSettled, AreSettledAmong};
ghost use Rattle.master_record.specs.Merging.{HasMerged, HasTaken, AreGained, IsApart, IsTrueLine};
ghost use Rattle.master_record.specs.Merging.{settled_by, proved_list, is_proved_in};

use crate::answers::answer_lines;
use crate::candidates::{has, open_list};
use crate::master::Master;
use crate::settling::settled_lines;
use ground_program::{Mode, Pair};
use item_list::NoMemory;
use report::Line;
use std::alloc::Global;
use worker_jobs::Gain;

/// What a job asks by itself.
#[derive(Drop, Clone, Copy)]
pub enum Asked {
    /// Coherence.
    Coherence,
    /// One candidate.
    Single(u32),
    /// Neither.
    Other,
}

impl Master<'_> {
    /// Merges what the worker with this number gained in its round, and gives the lines of it: the
    /// answer sets that show something new, and then the candidates that are settled now. After
    /// want of memory the record is as before.
    pub fn merge(&mut self, alloc: Global, worker: u32, gain: Gain) -> Result<Vec<Line>, NoMemory>
        requires owed { IsOwed self.old worker }
        requires gain { IsTrueGain self.old.normal self.old.mode gain }
        requires ended { IsTrueEnd self.old.normal self.old.mode worker self.old.budget
            (job_of self.old worker) gain.ended }
        requires apart { IsApart self.old worker (job_of self.old worker) gain.ended }
        ensures ok { IfOk result (λ lines. HasMerged self.old worker gain lines.items self.new) }
        ensures err { OnErr result (self.new ≡ self.old) }
    {
        let (given, lines) = self.gained(alloc, &gain)?;
        let incoherent = gain.coherent == Some(false);
        self.end_round(worker, gain.ended)?;
        self.settle(given, &lines);
        if incoherent {
            self.incoherent = true;
        }
        Ok(lines)
    }

    /// Takes in a pair that encloses the consequences, and gives the lines of the candidates that
    /// it settles by its proved side. After want of memory the record is as before.
    pub fn take_proved(&mut self, alloc: Global, pair: &Pair) -> Result<Vec<Line>, NoMemory>
        requires { EnclosesN self.old.normal self.old.mode pair.now }
        ensures ok { IfOk result (λ lines. HasTaken self.old pair.now lines.items self.new) }
        ensures err { OnErr result (self.new ≡ self.old) }
    {
        let _ = &self.budget;
        let proved = self.proved_in(alloc, pair)?;
        let lines = self.proved_lines(alloc, &proved)?;
        self.settle(0, &lines);
        Ok(lines)
    }

    /// The open candidates, ascending.
    pub fn open_candidates(&self, alloc: Global) -> Result<Vec<u32>, NoMemory>
        ensures { IfOk result (λ cands. cands.items ≡ open_list self.now) }
    {
        let cands = open_list(alloc, &self.candidates)?;
        Ok(cands)
    }

    /// The number of answer sets that were given.
    pub fn answers(&self) -> u32
        ensures { result ≡ self.now.answers }
    {
        self.answers
    }

    /// The lines of a gain, with the number of answer sets among them.
    fn gained(&self, alloc: Global, gain: &Gain) -> Result<(u32, Vec<Line>), NoMemory>
        requires { All (IsCandidate self.now.normal.names) gain.now.proved }
        ensures { IfOk result (λ made. AreGained self.now gain.now made.0 made.1.items) }
    {
        let names = &self.normal.names;
        let sets = gain.sets.as_slice();
        let mut lines = answer_lines(
            alloc,
            names,
            self.mode,
            &self.candidates,
            self.answers,
            sets,
        )?;
        let given = lines.len() as u32;
        let mut settled = self.gained_lines(alloc, &lines, gain.proved.as_slice())?;
        lines.append(&mut settled)?;
        Ok((given, lines))
    }

    /// The lines of the open candidates that these answer sets show or that were proved.
    fn gained_lines(
        &self,
        alloc: Global,
        answers: &[Line],
        proved: &[u32],
    ) -> Result<Vec<Line>, NoMemory>
        requires { All (IsCandidate self.now.normal.names) proved.now }
        ensures { IfOk result (λ lines. AreSettled self.now.normal.names self.now.mode
            self.now.pair answers.now proved.now lines.items) }
    {
        let proved = sorted(alloc, proved)?;
        if answers.is_empty() {
            let lines = self.proved_lines(alloc, &proved)?;
            return Ok(lines);
        }
        let looked = self.open_candidates(alloc)?;
        let lines = self.lines_among(alloc, answers, &looked, &proved)?;
        Ok(lines)
    }

    /// The lines of those candidates among the looked ones that are due.
    fn lines_among(
        &self,
        alloc: Global,
        answers: &[Line],
        looked: &[u32],
        proved: &[u32],
    ) -> Result<Vec<Line>, NoMemory>
        requires candidates { All (IsCandidate self.now.normal.names) looked.now }
        requires ascending { IsNonDecreasing looked.now }
        requires sorted { IsNonDecreasing proved.now }
        ensures { IfOk result (λ lines. AreSettledAmong self.now.normal.names self.now.mode
            self.now.pair answers.now proved.now looked.now lines.items) }
    {
        let names = &self.normal.names;
        let lines = settled_lines(
            alloc,
            names,
            self.mode,
            &self.candidates,
            answers,
            looked,
            proved,
        )?;
        Ok(lines)
    }

    /// The lines of the open candidates among these, which were proved and ascend.
    fn proved_lines(&self, alloc: Global, proved: &[u32]) -> Result<Vec<Line>, NoMemory>
        requires candidates { All (IsCandidate self.now.normal.names) proved.now }
        requires sorted { IsNonDecreasing proved.now }
        ensures { IfOk result (λ lines. AreSettled self.now.normal.names self.now.mode
            self.now.pair [] proved.now lines.items) }
    {
        let lines = self.lines_among(alloc, &[], proved, proved)?;
        Ok(lines)
    }

    /// The open candidates that a pair has on the proved side.
    fn proved_in(&self, alloc: Global, pair: &Pair) -> Result<Vec<u32>, NoMemory>
        ensures { IfOk result (λ cands. cands.items ≡ proved_list self.now pair.now) }
    {
        let mut cands = self.open_candidates(alloc)?;
        let mode = self.mode;
        cands.retain(
            |cand: &u32| -> bool
                ensures { result ≡ is_proved_in mode pair.entry.now cand.now }
            { is_proved_in(mode, pair, *cand) },
        );
        Ok(cands)
    }

    /// What these lines settle is settled, and so many answer sets more are given.
    fn settle(&mut self, answers: u32, lines: &[Line])
        requires fits { self.old.answers + answers < 2 ^ 32 }
        requires coherent { 1 ≤ answers → IsCoherent self.old.normal }
        requires holds { All (IsTrueLine self.old.normal self.old.mode) lines.now }
        ensures { self.new ≡ settled_by self.old answers lines.now }
    {
        self.candidates.settle(lines);
        self.answers += answers;
    }
}

/// Whether a pair has a candidate on the proved side.
fn is_proved_in(mode: Mode, pair: &Pair, cand: u32) -> bool
    ensures { result ≡ is_proved_in mode pair.now cand }
{
    let place = cand.saturating_sub(1) as usize;
    match mode {
        Mode::Cautious => has(&pair.lower, place),
        Mode::Brave => !has(&pair.upper, place),
    }
}

/// These numbers, sorted.
fn sorted(alloc: Global, numbers: &[u32]) -> Result<Vec<u32>, NoMemory>
    ensures permutation { IfOk result (λ again. IsPermutation numbers.now again.items) }
    ensures sorted { IfOk result (λ again. IsNonDecreasing again.items) }
{
    let mut again = Vec::from_slice(alloc, numbers)?;
    again.sort_unstable();
    Ok(again)
}
