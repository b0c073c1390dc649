// Which jobs the workers get.
ghost use Rattle.std.specs.Prelude.{◌≡◌, ◌≤◌, ◌<◌, ◌+◌, ◌↔◌, IsTrue, IfOk, take, length, filter};
ghost use Rattle.std.specs.Prelude.{false};
ghost use Rattle.std.specs.List.{range_with_len};
ghost use Rattle.master_record.specs.Course.{is_open};
ghost use Rattle.master_record.specs.Books.{open_list};
ghost use Rattle.master_record.specs.Jobs.{IsSingle, IsReduction, IsChunk, IsByStrategy, IsJob};
ghost use Rattle.master_record.specs.Jobs.{HasJobs, MayBeWide, LooksForOne, IsTaken, IsUntested};
ghost use Rattle.worker_jobs.specs.declared.job.Job.TheVariants.{Single};
ghost use Rattle.worker_jobs.specs.declared.job.Strategy.TheVariants.{Mix};

use crate::candidates::Candidates;
use crate::master::Master;
use crate::worker::Worker;
use ground_program::Atoms;
use item_list::{Copied, List, NoMemory};
use std::alloc::Global;
use worker_jobs::{Job, Strategy};

impl Master<'_> {
    /// Whether the candidate's own test is to be done, and nobody does it.
    fn is_free(&self, earlier: &[Job], later: &[Worker], cand: u32) -> bool
        requires { 1 ≤ cand }
        ensures free { IsTrue result → IsUntested self.now cand
            × (¬ IsTaken self.now earlier.now later.now (Single cand)) }
        ensures taken { result ≡ false → IsUntested self.now cand
            → IsTaken self.now earlier.now later.now (Single cand) }
    {
        self.is_untested(cand) && !self.is_taken(earlier, later, Some(cand))
    }

    /// The job of the least candidate that is free, or none.
    fn single(&self, earlier: &[Job], later: &[Worker]) -> Job
        ensures { IsSingle self.now earlier.now later.now result }
    {
        for place in self.tested_up_to()..self.candidate_count() {
            let cand = place + 1;
            if self.is_free(earlier, later, cand) {
                return Job::Single(cand);
            }
        }
        Job::Idle
    }

    /// Whether the worker may get a job of several candidates.
    fn may_be_wide(&self, worker: &Worker) -> bool
        ensures { IsTrue result ↔ MayBeWide self.now worker.now }
    {
        !worker.wide && self.has_open()
    }

    /// The first open candidates, so many at most.
    fn first_open(&self, alloc: Global, size: u32) -> Result<Atoms, NoMemory>
        ensures { IfOk result (λ cands. cands ≡ take size (open_list self.now)) }
    {
        let cands = first_unsettled(alloc, &self.candidates, size)?;
        Ok(cands)
    }

    /// All open candidates.
    fn all_open(&self, alloc: Global) -> Result<Atoms, NoMemory>
        ensures { IfOk result (λ cands. cands ≡ open_list self.now) }
    {
        let cands = self.first_open(alloc, self.candidate_count())?;
        Ok(cands)
    }

    /// The job of all open candidates, otherwise as with single ones.
    fn reduction(
        &self,
        alloc: Global,
        earlier: &[Job],
        worker: &Worker,
        later: &[Worker],
    ) -> Result<Job, NoMemory>
        ensures { IfOk result (IsReduction self.now earlier.now worker.now later.now) }
    {
        if !self.may_be_wide(worker) {
            return Ok(self.single(earlier, later));
        }
        let cands = self.all_open(alloc)?;
        if worker.has_had(&cands) || worker.reduces as usize <= self.normal.names.len() {
            Ok(Job::Reduce(cands))
        } else {
            Ok(self.single(earlier, later))
        }
    }

    /// The job of the first open candidates, otherwise as with single ones.
    fn chunk(
        &self,
        alloc: Global,
        size: u32,
        earlier: &[Job],
        worker: &Worker,
        later: &[Worker],
    ) -> Result<Job, NoMemory>
        ensures { IfOk result (IsChunk self.now size earlier.now worker.now later.now) }
    {
        if self.may_be_wide(worker) {
            let cands = self.first_open(alloc, size)?;
            Ok(Job::Chunk(cands))
        } else {
            Ok(self.single(earlier, later))
        }
    }

    /// The job by the strategy, for the worker with this number.
    fn job_by(
        &self,
        alloc: Global,
        earlier: &[Job],
        worker: &Worker,
        later: &[Worker],
        number: usize,
    ) -> Result<Job, NoMemory>
        ensures { IfOk result (IsByStrategy self.now self.now.strategy earlier.now worker.now
            later.now number) }
    {
        let job = match self.strategy {
            Strategy::Single => self.single(earlier, later),
            Strategy::Reduction => self.reduction(alloc, earlier, worker, later)?,
            Strategy::Chunks(size) => self.chunk(alloc, size, earlier, worker, later)?,
            Strategy::Mix => self.mixed(alloc, earlier, worker, later, number)?,
        };
        Ok(job)
    }

    /// The job in a mix of strategies, for the worker with this number.
    fn mixed(
        &self,
        alloc: Global,
        earlier: &[Job],
        worker: &Worker,
        later: &[Worker],
        number: usize,
    ) -> Result<Job, NoMemory>
        ensures { IfOk result (IsByStrategy self.now Mix earlier.now worker.now later.now number) }
    {
        let job = match number % 3 {
            1 => self.single(earlier, later),
            2 => self.reduction(alloc, earlier, worker, later)?,
            _ => self.chunk(alloc, 16, earlier, worker, later)?,
        };
        Ok(job)
    }

    /// Whether the worker is to look for an answer set.
    fn looks_for_one(&self, earlier: &[Job], later: &[Worker]) -> bool
        ensures { IsTrue result ↔ LooksForOne self.now earlier.now later.now }
    {
        self.answers == 0 && self.coherence.is_none() && !self.is_taken(earlier, later, None)
    }

    /// The job of the worker with this number, by those of the workers before it.
    fn job(
        &self,
        alloc: Global,
        earlier: &[Job],
        worker: &Worker,
        later: &[Worker],
        number: usize,
    ) -> Result<Job, NoMemory>
        ensures { IfOk result (IsJob self.now earlier.now worker.now later.now number) }
    {
        if worker.dead {
            return Ok(Job::Idle);
        }
        if self.goes_on(worker) {
            let job = worker.job.copied(alloc)?;
            return Ok(job);
        }
        if self.looks_for_one(earlier, later) {
            return Ok(Job::Coherence);
        }
        let job = self.job_by(alloc, earlier, worker, later, number)?;
        Ok(job)
    }

    /// The job of each worker.
    pub(crate) fn jobs(&self, alloc: Global) -> Result<Vec<Job>, NoMemory>
        ensures { IfOk result (λ jobs. HasJobs self.now jobs.items) }
    {
        let workers = self.workers.as_slice();
        let mut jobs = Vec::with_capacity(alloc, workers.len())?;
        for (at, worker) in workers.iter().enumerate() {
            let job = self.job(alloc, &jobs, worker, &workers[at + 1..], at + 1)?;
            jobs.push(job)?;
        }
        Ok(jobs)
    }
}

/// The first open candidates, so many at most, ascending.
fn first_unsettled(alloc: Global, candidates: &Candidates, size: u32) -> Result<Atoms, NoMemory>
    ensures { IfOk result (λ cands. cands ≡ take size (filter (is_open candidates.now.pair)
        (range_with_len 1 (length candidates.now.left)))) }
{
    let mut cands = Vec::new(alloc);
    for place in candidates.least_open()..candidates.count() {
        if cands.len() == size as usize {
            return Ok(List::from_vec(cands));
        }
        if candidates.is_open(place + 1) {
            cands.push(place + 1)?;
        }
    }
    Ok(List::from_vec(cands))
}
