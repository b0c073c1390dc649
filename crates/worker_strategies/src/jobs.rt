// Jobs compared, and the literal of one.
ghost use Rattle.std.specs.Prelude.{◌≡◌, ◌↔◌, IsTrue};
ghost use Rattle.normal_program.specs.Limit.{IsNormal};
ghost use Rattle.worker_jobs.specs.Job.{IsJobOver};
ghost use Rattle.worker_strategies.specs.Disjunction.{literal_for};

use clause_store::Lit;
use ground_program::Mode;
use normal_program::Normal;
use worker_jobs::{Job, test_literal};

/// Whether two jobs are the same.
pub(crate) fn is_same(one: &Job, two: &Job) -> bool
    ensures { IsTrue result ↔ one.now ≡ two.now }
{
    one == two
}

/// The test literal of a job, if it tests one candidate.
pub(crate) fn literal_for(normal: &Normal, mode: Mode, job: &Job) -> Option<Lit>
    requires normal { IsNormal normal.now }
    requires job { IsJobOver normal.now.names job.now }
    ensures { result ≡ literal_for normal.now.names mode job.now }
{
    match job {
        Job::Single(cand) => Some(test_literal(normal, mode, *cand)),
        Job::Idle | Job::Coherence | Job::Reduce(_) | Job::Chunk(_) => None,
    }
}
