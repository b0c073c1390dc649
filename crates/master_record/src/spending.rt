// What the end of a round makes of the record.
ghost use Rattle.std.specs.Prelude.{◌≡◌, ◌≤◌, ◌<◌, ◌+◌, ◌-◌, ◌++◌, All, OnOk, OnErr, slice_set};
ghost use Rattle.std.specs.Prelude.{vec_len, vec_capacity, length, Some};
ghost use Rattle.normal_program.specs.Spent.{AreApart};
ghost use Rattle.worker_jobs.specs.Spent.{IsSpentIn, IsTrueEnd};
ghost use Rattle.worker_jobs.specs.declared.gain.RoundEnd.TheVariants.{Spent};
ghost use Rattle.master_record.specs.Books.{IsWorker, worker_of, job_of, open_own};
ghost use Rattle.master_record.specs.Rounds.{marked};
ghost use Rattle.master_record.specs.Sound.{IsOwn, IsSpentByOne};
ghost use Rattle.master_record.specs.Merging.{new_own, asked_by, with_spent, round_ended};
ghost use Rattle.master_record.specs.Merging.{IsApart};

use crate::master::Master;
use crate::merging::Asked;
use crate::own::OwnTest;
use crate::worker::{Mark, mark_of};
use item_list::NoMemory;
use normal_program::SpentTest;
use worker_jobs::{Job, RoundEnd};

impl Master<'_> {
    /// The round of a worker ended. After want of memory the record is as before.
    pub(crate) fn end_round(&mut self, worker: u32, ended: RoundEnd) -> Result<(), NoMemory>
        requires known { IsWorker self.old worker }
        requires ended { IsTrueEnd self.old.normal self.old.mode worker self.old.budget
            (job_of self.old worker) ended }
        requires apart { IsApart self.old worker (job_of self.old worker) ended }
        ensures ok { OnOk result (self.new ≡ round_ended self.old worker ended) }
        ensures err { OnErr result (self.new ≡ self.old) }
    {
        let mark = mark_of(&ended);
        self.keep_ended(worker, ended)?;
        self.mark(worker, mark);
        Ok(())
    }

    /// The test that a round may have spent is kept.
    fn keep_ended(&mut self, worker: u32, ended: RoundEnd) -> Result<(), NoMemory>
        requires known { IsWorker self.old worker }
        requires ended { IsTrueEnd self.old.normal self.old.mode worker self.old.budget
            (job_of self.old worker) ended }
        requires apart { IsApart self.old worker (job_of self.old worker) ended }
        ensures ok { OnOk result (self.new ≡ with_spent self.old worker ended) }
        ensures err { OnErr result (self.new ≡ self.old) }
    {
        let _ = &self.budget;
        let RoundEnd::Spent(test) = ended else {
            return Ok(());
        };
        self.keep_spent(worker, test)?;
        Ok(())
    }

    /// The test that a round spent is kept.
    fn keep_spent(&mut self, worker: u32, test: SpentTest) -> Result<(), NoMemory>
        requires known { IsWorker self.old worker }
        requires spent { IsSpentIn self.old.normal self.old.mode worker self.old.budget
            (job_of self.old worker) test }
        requires apart { IsApart self.old worker (job_of self.old worker) (Spent test) }
        ensures ok { OnOk result (self.new ≡ with_spent self.old worker (Spent test)) }
        ensures err { OnErr result (self.new ≡ self.old) }
    {
        let _ = &self.budget;
        match self.asked(worker) {
            Asked::Coherence => self.keep_coherence(test),
            Asked::Single(cand) => self.spend(cand, test)?,
            Asked::Other => {}
        }
        Ok(())
    }

    /// The test of coherence is spent.
    fn keep_coherence(&mut self, test: SpentTest)
        requires { IsSpentByOne self.old.normal self.old.budget (length self.old.workers) test }
        ensures { self.new ≡ record self.old { coherence = Some test } }
    {
        self.coherence = Some(test);
    }

    /// What the job of a worker asks by itself.
    fn asked(&self, worker: u32) -> Asked
        requires { IsWorker self.now worker }
        ensures { result ≡ asked_by (job_of self.now worker) }
    {
        match &self.workers[worker as usize - 1].job {
            Job::Coherence => Asked::Coherence,
            Job::Single(cand) => Asked::Single(*cand),
            _ => Asked::Other,
        }
    }

    /// The own test of a candidate is spent.
    fn spend(&mut self, cand: u32, test: SpentTest) -> Result<(), NoMemory>
        requires own { IsOwn self.old.normal self.old.mode self.old.budget
            (length self.old.workers) (record { cand = cand; test = test }) }
        requires apart { All
            (λ one. one.test.by ≡ test.by → AreApart self.old.normal one.test test)
            self.old.own }
        ensures ok { OnOk result (self.new ≡ record self.old {
          own = open_own self.old.pair
              (self.old.own ++ new_own self.old.own (record { cand = cand; test = test }));
        }) }
        ensures err { OnErr result (self.new ≡ self.old) }
    {
        if !self.candidates.is_left(cand) {
            return Ok(());
        }
        make_room(&mut self.own, &mut self.room)?;
        self.own.push_reserved(OwnTest { cand, test });
        self.candidates.spend(cand);
        Ok(())
    }

    /// The round of a worker ended with this mark.
    fn mark(&mut self, worker: u32, mark: Mark)
        requires { IsWorker self.old worker }
        ensures { self.new ≡ record self.old {
          workers = slice_set self.old.workers (worker - 1)
              (marked (worker_of self.old worker) mark);
        } }
    {
        self.workers[worker as usize - 1].mark(mark);
    }
}

/// Makes room for one own test more, and for as many tests and one.
fn make_room(own: &mut Vec<OwnTest>, room: &mut Vec<SpentTest>) -> Result<(), NoMemory>
    requires { vec_len room.old ≡ 0 }
    ensures own { own.new.items ≡ own.old.items }
    ensures own_len { vec_len own.new ≡ vec_len own.old }
    ensures room { room.new.items ≡ room.old.items }
    ensures room_len { vec_len room.new ≡ vec_len room.old }
    ensures more { OnOk result (vec_len own.new < vec_capacity own.new) }
    ensures space { OnOk result (vec_len own.new + 2 ≤ vec_capacity room.new) }
    ensures kept { vec_capacity room.old ≤ vec_capacity room.new }
{
    own.reserve(1)?;
    room.reserve(own.len() + 2)?;
    Ok(())
}
