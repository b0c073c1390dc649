// The rounds of a run.
ghost use Rattle.std.specs.Prelude.{◌≡◌, ◌≤◌, ◌∷◌, [], length, false, IfOk};
ghost use Rattle.worker_jobs.specs.Gain.{IsTrueGain};
ghost use Rattle.worker_jobs.specs.Job.{IsJobOver};
ghost use Rattle.worker_strategies.specs.Working.{HasSelectorFor};
ghost use Rattle.worker_jobs.specs.Spent.{IsTrueEnd};
ghost use Rattle.master_record.specs.Books.{IsOwed, job_of};
ghost use Rattle.master_record.specs.Jobs.{HasGiven};
ghost use Rattle.master_record.specs.Merging.{HasMerged, IsApart};
ghost use Rattle.master_record.specs.Sound.{IsSound};
ghost use Rattle.master_record.specs.Verdicts.{IsVerdict};
ghost use Rattle.master_record.specs.declared.verdict.Verdict.TheVariants.{Running};
ghost use Rattle.query_run.specs.Agreed.{HasWorked};
ghost use Rattle.query_run.specs.Way.{HasGone, HasReached, IsOnWay, IsSameRun, Stands};

use crate::rounds::Rounds;
use byte_edges::{Sink, WriteFault};
use item_list::NoMemory;
use master_record::Verdict;
use report::Line;
use std::alloc::Global;
use worker_jobs::{Gain, Job};

impl Rounds<'_> {
    /// The worker's next job.
    fn give(&mut self, alloc: Global) -> Result<Job, NoMemory>
        requires { length self.old.books.workers ≡ 1 }
        ensures given { IfOk result (λ job. HasGiven self.old.books (job ∷ []) self.new.books) }
        ensures sound { IsSound self.new.books }
        ensures same { IsSameRun self.old.books self.new.books }
        ensures rest { self.new ≡ record self.old { books = self.new.books } }
    {
        let given = self.master.next_jobs(alloc);
        self.master.vouch();
        let jobs = given?;
        Ok(only_job(jobs))
    }

    /// The worker's round with this job.
    fn work(&mut self, alloc: Global, job: &Job) -> Gain
        requires job { IsJobOver self.old.worker.normal.names job.now }
        requires selector { self.old.worker.dead ≡ false → HasSelectorFor self.old.worker job.now }
        requires some { 1 ≤ self.old.slice }
        ensures worked { HasWorked self.old.worker job.now self.old.slice self.new.worker result }
        ensures is_true { IsTrueGain self.old.worker.normal self.old.worker.mode result }
        ensures rest { self.new ≡ record self.old { worker = self.new.worker } }
    {
        let gain = self.worker.round(alloc, job, self.slice);
        self.worker.vouch();
        gain
    }

    /// One round, and its lines.
    fn go(&mut self, alloc: Global) -> Result<Vec<Line>, NoMemory>
        requires running { IsVerdict self.old.books Running }
        requires on { IsOnWay self.old }
        ensures gone { IfOk result (λ told. HasGone self.old told.items self.new) }
        ensures same { IsSameRun self.old.books self.new.books }
    {
        let job = self.give(alloc)?;
        let gain = self.work(alloc, &job);
        self.take(alloc, gain)
    }

    /// The record takes in what the worker gained, and gives the lines of it.
    fn take(&mut self, alloc: Global, gain: Gain) -> Result<Vec<Line>, NoMemory>
        requires owed { IsOwed self.old.books 1 }
        requires gain { IsTrueGain self.old.books.normal self.old.books.mode gain }
        requires ended { IsTrueEnd self.old.books.normal self.old.books.mode 1
            self.old.books.budget (job_of self.old.books 1) gain.ended }
        requires apart { IsApart self.old.books 1 (job_of self.old.books 1) gain.ended }
        ensures merged { IfOk result
            (λ lines. HasMerged self.old.books 1 gain lines.items self.new.books) }
        ensures sound { IsSound self.new.books }
        ensures same { IsSameRun self.old.books self.new.books }
        ensures rest { self.new ≡ record self.old { books = self.new.books } }
    {
        let merged = self.master.merge(alloc, 1, gain);
        self.master.vouch();
        merged
    }

    /// Goes on until the verdict is known or memory runs out, and writes the lines of each round.
    pub(crate) fn to_verdict<K: Sink>(
        &mut self,
        alloc: Global,
        sink: &mut K,
    ) -> Result<Verdict, WriteFault>
        requires on { IsOnWay self.old }
        requires stands { Stands [] self.old }
        ensures { HasReached K.written K.faults sink.old sink.new self.old self.new result }
    {
        let mut verdict = self.verdict();
        while let Verdict::Running = verdict {
            let Ok(told) = self.go(alloc) else {
                return Ok(Verdict::NoMemory);
            };
            self.tell(told.as_slice(), sink)?;
            verdict = self.verdict();
        }
        Ok(verdict)
    }

    /// How far the run has come.
    fn verdict(&self) -> Verdict
        ensures { IsVerdict self.now.books result }
    {
        self.master.verdict()
    }
}

/// The one job of a list.
fn only_job(jobs: Vec<Job>) -> Job
    requires { length jobs.items ≡ 1 }
    ensures { jobs.items ≡ result ∷ [] }
{
    let mut jobs = jobs;
    match jobs.pop() {
        Some(job) => job,
        None => unreachable!(),
    }
}
