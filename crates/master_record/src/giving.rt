// What each worker is told to do.
ghost use Rattle.std.specs.Prelude.{◌≡◌, IfOk, OnErr, length};
ghost use Rattle.master_record.specs.Jobs.{HavePlans, IsPlan, CanFollow, HaveFollowed, HasGiven};
ghost use Rattle.master_record.specs.Rounds.{HasRoomFor};

use crate::master::Master;
use crate::worker::{Plan, Worker};
use item_list::NoMemory;
use std::alloc::Global;
use worker_jobs::Job;

impl Master<'_> {
    /// The jobs of the workers in order, which they begin or go on with. After want of memory the
    /// record is as before.
    pub fn next_jobs(&mut self, alloc: Global) -> Result<Vec<Job>, NoMemory>
        ensures ok { IfOk result (λ jobs. HasGiven self.old jobs.items self.new) }
        ensures err { OnErr result (self.new ≡ self.old) }
    {
        let jobs = self.jobs(alloc)?;
        let plans = self.plans(alloc, &jobs)?;
        follow_all(&mut self.workers, plans);
        Ok(jobs)
    }

    /// What each worker is to do with its job.
    fn plans(&self, alloc: Global, jobs: &[Job]) -> Result<Vec<Plan>, NoMemory>
        requires { length jobs.now ≡ length self.now.workers }
        ensures { IfOk result (λ plans. HavePlans self.now jobs.now plans.items) }
    {
        let workers = self.workers.as_slice();
        let mut plans = Vec::with_capacity(alloc, workers.len())?;
        for (at, worker) in workers.iter().enumerate() {
            let plan = self.plan(alloc, worker, &jobs[at])?;
            plans.push(plan)?;
        }
        Ok(plans)
    }

    /// What a worker is to do with its job.
    fn plan(&self, alloc: Global, worker: &Worker, job: &Job) -> Result<Plan, NoMemory>
        ensures plan { IfOk result (IsPlan self.now worker.now job.now) }
        ensures room { IfOk result (HasRoomFor worker.now) }
    {
        if self.goes_on(worker) {
            return Ok(Plan::GoOn);
        }
        let plan = worker.plan(alloc, job)?;
        Ok(plan)
    }
}

/// Each worker does as planned.
fn follow_all(workers: &mut Vec<Worker>, plans: Vec<Plan>)
    requires { CanFollow workers.old.items plans.items }
    ensures { HaveFollowed workers.old.items plans.items workers.new.items }
{
    let mut plans = plans;
    while let Some(plan) = plans.pop() {
        workers[plans.len()].follow(plan);
    }
}
