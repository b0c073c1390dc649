// What is kept of a worker.
ghost use Rattle.std.specs.Prelude.{◌≡◌, ◌↔◌, IsTrue, IfOk, Some};
ghost use Rattle.master_record.specs.Rounds.{newcomer, mark_of, marked, with_job, follow};
ghost use Rattle.master_record.specs.Rounds.{HasRoomFor};
ghost use Rattle.master_record.specs.Jobs.{IsNewList, IsTaking};

use ground_program::Atoms;
use item_list::{Copied, NoMemory};
use std::alloc::Global;
use worker_jobs::{Job, RoundEnd};

/// What the end of a round says of its worker.
#[derive(Drop, Clone, Copy)]
pub enum Mark {
    /// Nothing.
    Plain,
    /// It is paused.
    Paused,
    /// It used up the budget of a test of several candidates.
    Wide,
    /// It ran out of memory.
    Dead,
}

/// The mark of the end of a round.
pub(crate) fn mark_of(ended: &RoundEnd) -> Mark
    ensures { result ≡ mark_of ended.now }
{
    match ended {
        RoundEnd::Paused => Mark::Paused,
        RoundEnd::SpentWide(_) => Mark::Wide,
        RoundEnd::NoMemory => Mark::Dead,
        _ => Mark::Plain,
    }
}

/// What a worker is to do next.
#[derive(Drop)]
pub enum Plan {
    /// It goes on with its job.
    GoOn,
    /// It takes another job, with its list where that is new.
    Take { job: Job, list: Option<Atoms> },
}

/// A worker: its job and what it ever answered.
#[derive(Drop)]
pub struct Worker {
    /// The job that it has, or had last.
    pub(crate) job: Job,
    /// Whether the round of this job is still to be merged.
    pub(crate) owed: bool,
    /// Whether its last round was paused at this job.
    pub(crate) paused: bool,
    /// Whether it ever used up the budget of a test of several candidates.
    pub(crate) wide: bool,
    /// Whether it ever ran out of memory.
    pub(crate) dead: bool,
    /// How many different Reduce lists it was given.
    pub(crate) reduces: u32,
    /// The last of them.
    pub(crate) last: Option<Atoms>,
}

impl Worker {
    /// A worker that had no job yet.
    pub(crate) fn open() -> Worker
        ensures { result ≡ newcomer }
    {
        Worker {
            job: Job::Idle,
            owed: false,
            paused: false,
            wide: false,
            dead: false,
            reduces: 0,
            last: None,
        }
    }

    /// Its round ended with this mark.
    pub(crate) fn mark(&mut self, mark: Mark)
        ensures { self.new ≡ marked self.old mark }
    {
        self.owed = false;
        self.paused = false;
        match mark {
            Mark::Plain => {}
            Mark::Paused => self.paused = true,
            Mark::Wide => self.wide = true,
            Mark::Dead => self.dead = true,
        }
    }

    /// Whether this is the Reduce list that it was given last.
    pub(crate) fn has_had(&self, cands: &Atoms) -> bool
        ensures { IsTrue result ↔ (self.now.last ≡ Some cands.now) }
    {
        match &self.last {
            None => false,
            Some(last) => same_numbers(last.as_slice(), cands.as_slice()),
        }
    }

    /// A copy of the list of a job, where it isn't the one that the worker was given last.
    fn new_list(&self, alloc: Global, job: &Job) -> Result<Option<Atoms>, NoMemory>
        ensures { IfOk result (IsNewList self.now.last job.now) }
    {
        match job {
            Job::Reduce(cands) => {
                if self.has_had(cands) {
                    return Ok(None);
                }
                let again = cands.copy(alloc)?;
                Ok(Some(again))
            }
            _ => Ok(None),
        }
    }

    /// What it is to do with another job.
    pub(crate) fn plan(&self, alloc: Global, job: &Job) -> Result<Plan, NoMemory>
        ensures plan { IfOk result (IsTaking self.now.last job.now) }
        ensures room { IfOk result (HasRoomFor self.now) }
    {
        if self.reduces == u32::MAX {
            return Err(NoMemory);
        }
        let list = self.new_list(alloc, job)?;
        let job = job.copied(alloc)?;
        Ok(Plan::Take { job, list })
    }

    /// It does as planned.
    pub(crate) fn follow(&mut self, plan: Plan)
        requires { HasRoomFor self.old plan }
        ensures { self.new ≡ follow self.old plan }
    {
        match plan {
            Plan::GoOn => self.owed = true,
            Plan::Take { job, list } => self.take(job, list),
        }
    }

    /// It takes another job.
    fn take(&mut self, job: Job, list: Option<Atoms>)
        requires { HasRoomFor self.old (Plan.Take job list) }
        ensures { self.new ≡ with_job self.old job list }
    {
        self.job = job;
        self.owed = true;
        self.paused = false;
        if let Some(cands) = list {
            self.reduces += 1;
            self.last = Some(cands);
        }
    }
}

/// Whether two lists of numbers are the same.
fn same_numbers(one: &[u32], other: &[u32]) -> bool
    ensures { IsTrue result ↔ (one.now ≡ other.now) }
{
    one == other
}
