// The record of a run.
ghost use Rattle.std.specs.Prelude.{◌≡◌, ◌≤◌, count_by, replicate, IfOk};
ghost use Rattle.normal_program.specs.Limit.{IsNormal};
ghost use Rattle.anytime_core.specs.Truth.{EnclosesN};
ghost use Rattle.master_record.specs.Books.{opened, IsStrategy};
ghost use Rattle.master_record.specs.Rounds.{newcomer};
ghost use Rattle.master_record.specs.Verdicts.{IsVerdict, AreSpent};
ghost use Rattle.master_record.specs.Sound.{IsSound};

use crate::candidates::Candidates;
use crate::own::{OwnTest, only_test, open_tests};
use crate::verdict::Verdict;
use crate::worker::Worker;
use ground_program::{Mode, Pair};
use item_list::NoMemory;
use normal_program::{Normal, SpentTest, Tests, normal_form_is_in_range};
use std::alloc::Global;
use std::marker::Model;
use worker_jobs::Strategy;

/// What is known of a run with any number of workers: which candidates are settled, which tests were
/// spent, and what each worker does. Workers have numbers from 1.
#[derive(Drop)]
pub struct Master<'a> {
    pub(crate) normal: &'a Normal,
    pub(crate) mode: Mode,
    pub(crate) strategy: Strategy,
    pub(crate) budget: u32,
    pub(crate) answers: u32,
    pub(crate) candidates: Candidates,
    pub(crate) coherence: Option<SpentTest>,
    /// Own tests of candidates, as they came. Some of the candidates may be settled by now.
    pub(crate) own: Vec<OwnTest>,
    /// Room for as many tests, and one.
    pub(crate) room: Vec<SpentTest>,
    pub(crate) incoherent: bool,
    pub(crate) workers: Vec<Worker>,
}

impl<'a> Model for Master<'a> {
    ghost use Rattle.master_record.specs.Books.{Books, open_own};
    ghost use Rattle.master_record.specs.Sound.{IsKept};

    ghost Value = { Books };

    ghost view = { λ it. record {
      normal = it.normal.now;
      mode = it.mode;
      strategy = it.strategy;
      budget = it.budget;
      answers = it.answers;
      pair = it.candidates.pair;
      coherence = it.coherence;
      own = open_own it.candidates.pair it.own.items;
      incoherent = it.incoherent;
      workers = it.workers.items;
    } };

    ghost invariant = { λ it. IsKept
        (record {
          normal = it.normal.now;
          mode = it.mode;
          strategy = it.strategy;
          budget = it.budget;
          answers = it.answers;
          pair = it.candidates.pair;
          coherence = it.coherence;
          own = open_own it.candidates.pair it.own.items;
          incoherent = it.incoherent;
          workers = it.workers.items;
        })
        it.candidates.left it.own it.room };
}

impl<'a> Master<'a> {
    /// The record of a run that begins. The size of chunks is at least 1.
    pub fn open(
        alloc: Global,
        normal: &'a Normal,
        mode: Mode,
        strategy: Strategy,
        workers: u32,
        budget: u32,
    ) -> Result<Master<'a>, NoMemory>
        requires normal { IsNormal normal.now }
        requires strategy { IsStrategy strategy }
        requires some { 1 ≤ workers }
        requires few { workers ≤ 64 }
        requires budget { 1 ≤ budget }
        ensures { IfOk result (λ it. it ≡ opened normal.now mode strategy workers budget) }
    {
        normal_form_is_in_range();
        let candidates = Candidates::open(alloc, normal.names.len() as u32)?;
        let room = Vec::with_capacity(alloc, 1)?;
        let workers = newcomers(alloc, workers)?;
        Ok(Master {
            normal,
            mode,
            strategy,
            budget,
            answers: 0,
            candidates,
            coherence: None,
            own: Vec::new(alloc),
            room,
            incoherent: false,
            workers,
        })
    }

    /// The pair that the lines so far make.
    pub fn pair(&self) -> &Pair
        ensures same { result.now ≡ self.now.pair }
        ensures encloses { EnclosesN self.now.normal self.now.mode result.now }
    {
        self.candidates.pair()
    }

    /// The sizes of its lower and its upper bound.
    pub fn sizes(&self) -> (u32, u32)
        ensures lower { result.0 ≡ count_by (λ bit. bit) self.now.pair.lower }
        ensures upper { result.1 ≡ count_by (λ bit. bit) self.now.pair.upper }
    {
        self.candidates.sizes()
    }

    /// How far the run has come.
    pub fn verdict(&self) -> Verdict
        ensures { IsVerdict self.now result }
    {
        if self.is_finished() {
            Verdict::Complete
        } else if self.incoherent {
            Verdict::Incoherent
        } else if self.is_spent_out() {
            Verdict::Partial
        } else if self.are_dead() {
            Verdict::NoMemory
        } else {
            Verdict::Running
        }
    }

    /// The tests on which a Partial verdict rests: the own tests of the open candidates, ascending,
    /// or the test of coherence where no answer set was given.
    pub fn into_spent(self) -> Tests
        ensures { AreSpent self.entry result }
    {
        if self.answers == 0 {
            return only_test(self.coherence, self.room);
        }
        open_tests(self.candidates, self.own, self.room)
    }

    /// What is true of the record, as contracts know it then. It does nothing when it runs.
    pub fn vouch(&self)
        ensures { IsSound self.now }
    {
        let _ = &self.budget;
    }
}

/// So many workers that had no job yet.
fn newcomers(alloc: Global, count: u32) -> Result<Vec<Worker>, NoMemory>
    ensures { IfOk result (λ workers. workers.items ≡ replicate count newcomer) }
{
    let mut workers = Vec::with_capacity(alloc, count as usize)?;
    for _number in 0..count {
        workers.push(Worker::open())?;
    }
    Ok(workers)
}
