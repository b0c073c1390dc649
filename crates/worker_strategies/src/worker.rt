// A worker.
ghost use Rattle.std.specs.Prelude.{◌≡◌, ◌≢◌, ◌≤◌, IfOk, false, true};
ghost use Rattle.normal_program.specs.Limit.{IsNormal};
ghost use Rattle.worker_jobs.specs.Gain.{IsNothing, IsTrueGain};
ghost use Rattle.worker_jobs.specs.Job.{IsJobOver};
ghost use Rattle.worker_strategies.specs.Facts.{AreFactsOf};
ghost use Rattle.worker_strategies.specs.Laws.{IsRound};
ghost use Rattle.worker_strategies.specs.Rounds.{IsReady, working};
ghost use Rattle.worker_strategies.specs.Working.{HasBegun, HasRounded, HasSelectorFor};
ghost use Rattle.worker_strategies.specs.Working.{IsSameWorker, hired};

use crate::facts::{Facts, complete};
use crate::gains::nothing;
use crate::rounds::Rounds;
use ground_program::Mode;
use item_list::NoMemory;
use normal_program::Normal;
use std::alloc::Global;
use std::marker::Model;
use worker_jobs::{Gain, Job, RoundEnd};

/// A worker does jobs in rounds. What one test learned serves the next, and a test that was paused
/// goes on where the next round has the same job. After want of memory it answers that alone.
#[derive(Drop)]
pub struct Worker<'a> {
    rounds: Rounds<'a>,
    facts: Option<Facts<'a>>,
    dead: bool,
}

impl<'a> Model for Worker<'a> {
    ghost use Rattle.worker_strategies.specs.Facts.{AreFactsOf};
    ghost use Rattle.worker_strategies.specs.Working.{Working};
    ghost use Rattle.worker_strategies.specs.Rounds.{IsAtWork, working};

    ghost Value = { Working };

    ghost view = { λ it. working it.rounds it.dead };

    ghost invariant = { λ it.
        IsAtWork it.rounds it.dead × AreFactsOf it.rounds.normal it.rounds.mode it.facts };
}

impl<'a> Worker<'a> {
    /// A worker with this number for a normal form, each of whose tests may count so many clauses.
    /// It has no tester yet.
    pub fn open(
        alloc: Global,
        normal: &'a Normal,
        mode: Mode,
        number: u32,
        budget: u32,
    ) -> Result<Worker<'a>, NoMemory>
        requires normal { IsNormal normal.now }
        requires some { 1 ≤ budget }
        ensures { IfOk result (λ it. it ≡ hired normal.now mode number budget) }
    {
        let facts = Facts::open(alloc, normal, mode)?;
        let rounds = Rounds::open(alloc, normal, mode, number, budget)?;
        Ok(Worker {
            rounds,
            facts,
            dead: false,
        })
    }

    /// Works on a job until it is answered, its budget is used up, or so many clauses were counted
    /// as `slice` says. After want of memory it gains nothing, in this round and in all later ones.
    pub fn round(&mut self, alloc: Global, job: &Job, slice: u32) -> Gain
        requires job { IsJobOver self.old.normal.names job.now }
        requires selector { self.old.dead ≡ false → HasSelectorFor self.old job.now }
        requires some { 1 ≤ slice }
        ensures is_true { IsTrueGain self.old.normal self.old.mode result }
        ensures round { result.ended ≢ RoundEnd.NoMemory
            → HasRounded self.old job.now slice self.new result }
        ensures alive { result.ended ≢ RoundEnd.NoMemory → self.new.dead ≡ false }
        ensures nothing { result.ended ≡ RoundEnd.NoMemory → IsNothing result }
        ensures dead { result.ended ≡ RoundEnd.NoMemory → self.new.dead ≡ true }
        ensures stays_dead { self.old.dead ≡ true → result.ended ≡ RoundEnd.NoMemory }
        ensures same { IsSameWorker self.old self.new }
    {
        if self.dead {
            return nothing(RoundEnd::NoMemory);
        }
        self.dead = true;
        match work(alloc, &mut self.rounds, &mut self.facts, job, slice) {
            Ok(gain) => {
                self.dead = false;
                gain
            }
            Err(_) => nothing(RoundEnd::NoMemory),
        }
    }

    /// What is true of a worker, as contracts know it then. It does nothing when it runs.
    pub fn vouch(&self)
        ensures normal { IsNormal self.now.normal }
        ensures some { 1 ≤ self.now.budget }
        ensures begun { self.now.dead ≡ false → HasBegun self.now }
    {
        let _ = &self.dead;
    }
}

/// One round, and what comes of it by facts. An error says that there was no memory.
fn work(
    alloc: Global,
    rounds: &mut Rounds<'_>,
    facts: &mut Option<Facts<'_>>,
    job: &Job,
    slice: u32,
) -> Result<Gain, NoMemory>
    requires ready { IsReady rounds.old }
    requires job { IsJobOver rounds.old.normal.names job.now }
    requires selector { HasSelectorFor (working rounds.old false) job.now }
    requires some { 1 ≤ slice }
    requires facts { AreFactsOf rounds.old.normal rounds.old.mode facts.old }
    ensures round { IfOk result (IsRound rounds.old rounds.new job.now slice) }
    ensures same { IsSameWorker (working rounds.old false) (working rounds.new false) }
    ensures facts { AreFactsOf rounds.new.normal rounds.new.mode facts.new }
{
    let mut gain = rounds.round(alloc, job, slice)?;
    complete(alloc, facts, rounds, &mut gain)?;
    Ok(gain)
}
