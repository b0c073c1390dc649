// A record with its only worker, in rounds that are done at once.
ghost use Rattle.std.specs.Prelude.{◌≡◌, IfOk, IsTrue, None};
ghost use Rattle.ground_program.specs.declared.program.Mode.TheVariants.{Cautious};
ghost use Rattle.normal_program.specs.Limit.{IsNormal};
ghost use Rattle.worker_jobs.specs.Job.{IsJobOver};
ghost use Rattle.worker_jobs.specs.declared.gain.RoundEnd.TheVariants.{Done};
ghost use Rattle.worker_strategies.specs.Disjunction.{disjunction_for};

use ground_program::{Mode, Pair};
use item_list::NoMemory;
use master_record::{Master, Verdict};
use normal_program::Normal;
use report::Line;
use std::alloc::Global;
use std::marker::Model;
use worker_jobs::{Gain, Job, RoundEnd, Strategy};
use worker_strategies::Worker;

// The defaults of the program.
const BUDGET: u32 = 100_000;

const SLICE: u32 = 256;

/// What a round that is done has to gain.
#[derive(Drop)]
pub struct Wanted {
    pub sets: &'static [&'static [bool]],
    pub proved: &'static [u32],
    pub coherent: bool,
}

impl Wanted {
    fn is_gained(&self, gain: &Gain) -> bool
        ensures { IsTrue result → gain.now.ended ≡ Done }
    {
        match gain.ended {
            RoundEnd::Done => self.is_in(gain),
            _ => false,
        }
    }

    fn is_in(&self, gain: &Gain) -> bool {
        let coherent = gain.coherent == Some(true);
        coherent == self.coherent
            && gain.proved.as_slice() == self.proved
            && are_sets(gain.sets.as_slice(), self.sets)
    }
}

/// The record of a cautious run with one worker, and the worker. Clauses see the normal form.
#[derive(Drop)]
pub struct Desk<'a> {
    normal: &'a Normal,
    master: Master<'a>,
    worker: Box<Worker<'a>>,
}

impl<'a> Model for Desk<'a> {
    ghost use Rattle.normal_program.specs.declared.normal.Normal.{Normal};
    ghost use Rattle.std.specs.Prelude.{box_value};
    ghost use Rattle.trial_rounds.specs.Desk.{IsDesk};

    ghost Value = { Normal };

    ghost view = { λ it. it.normal.now };

    ghost invariant = { λ it. IsDesk it.normal.now it.master (box_value it.worker) };
}

impl<'a> Desk<'a> {
    pub fn open(alloc: Global, normal: &'a Normal) -> Result<Desk<'a>, NoMemory>
        requires { IsNormal normal.now }
        ensures { IfOk result (λ desk. desk ≡ normal.now) }
    {
        let mode = Mode::Cautious;
        let master = Master::open(alloc, normal, mode, Strategy::Single, 1, BUDGET)?;
        let worker = Box::new(alloc, Worker::open(alloc, normal, mode, 1, BUDGET)?)?;
        Ok(Desk {
            normal,
            master,
            worker,
        })
    }

    /// The worker's next job.
    pub fn jobs(&mut self, alloc: Global) -> Result<Vec<Job>, NoMemory>
        ensures { self.new ≡ self.old }
    {
        self.master.next_jobs(alloc)
    }

    /// Gives out jobs and does a round with this one, and gives the lines of it. None is a round
    /// that gained anything else.
    pub fn round(
        &mut self,
        alloc: Global,
        job: &Job,
        wanted: &Wanted,
    ) -> Result<Option<Vec<Line>>, NoMemory>
        requires over { IsJobOver self.old.names job.now }
        requires narrow { disjunction_for self.old.names Cautious job.now ≡ None }
        ensures { self.new ≡ self.old }
    {
        self.master.next_jobs(alloc)?;
        let gain = self.worker.round(alloc, job, SLICE);
        if !wanted.is_gained(&gain) {
            return Ok(None);
        }
        let lines = self.master.merge(alloc, 1, gain)?;
        Ok(Some(lines))
    }

    /// Takes in the pair of another record of the same normal form.
    pub fn take_from(&mut self, alloc: Global, other: &Desk) -> Result<Vec<Line>, NoMemory>
        requires { other.now ≡ self.old }
        ensures { self.new ≡ self.old }
    {
        self.master.take_proved(alloc, other.master.pair())
    }

    pub fn open_candidates(&self, alloc: Global) -> Result<Vec<u32>, NoMemory> {
        self.master.open_candidates(alloc)
    }

    pub fn verdict(&self) -> Verdict {
        self.master.verdict()
    }

    pub fn pair(&self) -> &Pair {
        self.master.pair()
    }

    /// Whether these are the numbers of answer sets, of lower and of upper candidates.
    pub fn counts(&self, answers: u32, lower: u32, upper: u32) -> bool {
        self.master.answers() == answers && self.master.sizes() == (lower, upper)
    }
}

fn are_sets(sets: &[ground_program::Set], wanted: &[&[bool]]) -> bool {
    if sets.len() != wanted.len() {
        return false;
    }
    for at in 0..wanted.len() {
        if sets[at].as_slice() != wanted[at] {
            return false;
        }
    }
    true
}
