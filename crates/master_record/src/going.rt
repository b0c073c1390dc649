// Which jobs go on, and which are taken.
ghost use Rattle.std.specs.Prelude.{◌≡◌, ◌≤◌, ◌<◌, ◌^◌, ◌↔◌, ℕ, IsTrue, length, All};
ghost use Rattle.std.specs.Prelude.{Any, Contains};
ghost use Rattle.master_record.specs.Books.{IsOpenCandidate, open_list};
ghost use Rattle.master_record.specs.Jobs.{CanGoOn, GoesOn, IsTaken, IsUntested, alone};

use crate::master::Master;
use crate::worker::Worker;
use worker_jobs::Job;

impl Master<'_> {
    /// Whether the candidate is open.
    fn is_unsettled(&self, cand: u32) -> bool
        ensures { IsTrue result ↔ IsOpenCandidate self.now cand }
    {
        cand > 0 && self.candidates.is_open(cand)
    }

    /// Whether the candidates are all open.
    fn are_open(&self, cands: &[u32]) -> bool
        ensures { IsTrue result ↔ All (IsOpenCandidate self.now) cands.now }
    {
        cands.iter().all(|cand| self.is_unsettled(*cand))
    }

    /// Whether a job can go on.
    fn can_go_on(&self, job: &Job) -> bool
        ensures { IsTrue result ↔ CanGoOn self.now job.now }
    {
        match job {
            Job::Idle => false,
            Job::Coherence => self.answers == 0,
            Job::Single(cand) => self.is_unsettled(*cand),
            Job::Reduce(cands) => self.are_open(cands.as_slice()),
            Job::Chunk(cands) => self.are_open(cands.as_slice()),
        }
    }

    /// Whether the worker's job goes on.
    pub(crate) fn goes_on(&self, worker: &Worker) -> bool
        ensures { IsTrue result ↔ GoesOn self.now worker.now }
    {
        !worker.dead && worker.paused && self.can_go_on(&worker.job)
    }

    /// Whether a worker goes on with the job of coherence, or with that of one candidate.
    fn goes_on_alone(&self, worker: &Worker, single: Option<u32>) -> bool
        ensures { IsTrue result ↔ (GoesOn self.now worker.now × (worker.now.job ≡ alone single)) }
    {
        is_alone(&worker.job, single) && self.goes_on(worker)
    }

    /// Whether one of the workers goes on with that job.
    fn is_kept(&self, later: &[Worker], single: Option<u32>) -> bool
        ensures { IsTrue result
            ↔ Any (λ worker. GoesOn self.now worker × (worker.job ≡ alone single)) later.now }
    {
        later
            .iter()
            .any(|worker| self.goes_on_alone(worker, single))
    }

    /// Whether that job is among those given so far, or a worker behind goes on with it.
    pub(crate) fn is_taken(&self, earlier: &[Job], later: &[Worker], single: Option<u32>) -> bool
        ensures { IsTrue result ↔ IsTaken self.now earlier.now later.now (alone single) }
    {
        has_alone(earlier, single) || self.is_kept(later, single)
    }

    /// Whether the candidate is open and its own test isn't spent.
    pub(crate) fn is_untested(&self, cand: u32) -> bool
        requires { 1 ≤ cand }
        ensures { IsTrue result ↔ IsUntested self.now cand }
    {
        self.candidates.is_left(cand)
    }

    /// A number up to which no candidate is untested, one less than the least one or the number of
    /// candidates.
    pub(crate) fn tested_up_to(&self) -> u32
        ensures within { result ≤ length self.now.normal.names }
        ensures none { (cand : ℕ) → cand ≤ result → ¬ IsUntested self.now cand }
    {
        self.candidates.least_left()
    }

    /// Whether some candidate is open.
    pub(crate) fn has_open(&self) -> bool
        ensures { IsTrue result ↔ (1 ≤ length (open_list self.now)) }
    {
        self.candidates.least_open() < self.candidates.count()
    }

    /// The number of candidates.
    pub(crate) fn candidate_count(&self) -> u32
        ensures count { result ≡ length self.now.normal.names }
        ensures few { result < 2 ^ 31 }
    {
        self.candidates.count()
    }
}

/// Whether this is the job of coherence, or that of one candidate.
fn is_alone(job: &Job, single: Option<u32>) -> bool
    ensures { IsTrue result ↔ (job.now ≡ alone single) }
{
    match job {
        Job::Coherence => single.is_none(),
        Job::Single(cand) => single == Some(*cand),
        _ => false,
    }
}

/// Whether the job of coherence, or that of one candidate, is among these.
fn has_alone(jobs: &[Job], single: Option<u32>) -> bool
    ensures { IsTrue result ↔ Contains jobs.now (alone single) }
{
    jobs.iter().any(|job| is_alone(job, single))
}
