// What a worker does until memory runs out: rounds, each with a test that begins or goes on.
ghost use Rattle.std.specs.Prelude.{◌≡◌, ◌≢◌, ◌≤◌, ◌<◌, ◌+◌, None, Some, IfNone, IfOk, IfSome};
ghost use Rattle.std.specs.Prelude.{OnOk, false, length, true};
ghost use Rattle.normal_program.specs.Clauses.{base_clauses};
ghost use Rattle.normal_program.specs.Limit.{IsNormal};
ghost use Rattle.coherence_test.specs.Asked.{IsRefuted};
ghost use Rattle.coherence_test.specs.Testing.{opened};
ghost use Rattle.worker_jobs.specs.Job.{IsJobOver};
ghost use Rattle.worker_strategies.specs.Disjunction.{disjunction_for};
ghost use Rattle.worker_strategies.specs.Laws.{IsRound};
ghost use Rattle.worker_strategies.specs.Outcome.{IsOutcome};
ghost use Rattle.worker_strategies.specs.Rounds.{IsBegun, IsFirst, IsReady, KeepsTesters};
ghost use Rattle.worker_strategies.specs.Rounds.{gain_after, kept_after, main_of, opened_desk};
ghost use Rattle.worker_strategies.specs.Rounds.{spent_end, tester_for, working};
ghost use Rattle.worker_strategies.specs.Testing.{HasRoomFor, HasTested};
ghost use Rattle.worker_strategies.specs.Working.{HasSelectorFor, IsSameWorker};

use crate::gains::nothing;
use crate::job_test::{test_coherence, test_job};
use crate::jobs::{is_same, literal_for};
use crate::kept::{Begun, Kept};
use crate::laws::round_is;
use crate::literals::all_test_literals;
use crate::outcome::Outcome;
use clause_store::{Budget, Lit, Store, Units};
use coherence_test::Tester;
use completion::complete;
use ground_program::{Mode, Set};
use item_list::{Copied, NoMemory};
use normal_program::{Normal, SpentTest};
use std::alloc::Global;
use std::marker::Model;
use std::snapshot::Snapshot;
use worker_jobs::{Gain, Job, RoundEnd};

/// The testers of a worker, and the test that goes on. The base clauses are made once and copied
/// by each tester. After want of memory it is of no more use.
#[derive(Drop)]
pub(crate) struct Rounds<'a> {
    normal: &'a Normal,
    mode: Mode,
    number: u32,
    budget: u32,
    completed: Store,
    main: Option<Tester<'a>>,
    first: Option<Tester<'a>>,
    began: Snapshot<Option<Tester<'a>>>,
    kept: Option<Kept>,
    counted: u32,
}

impl<'a> Model for Rounds<'a> {
    ghost use Rattle.worker_strategies.specs.Rounds.{Desk};
    ghost use Rattle.worker_strategies.specs.Testing.{or_opened};

    ghost Value = { Desk };

    ghost view = { λ it. record {
      normal = it.normal.now;
      mode = it.mode;
      number = it.number;
      budget = it.budget;
      completed = it.completed;
      main = it.main;
      first = it.first;
      began = (or_opened it.normal.now it.began.value).clauses;
      kept = it.kept;
      counted = it.counted;
    } };
}

impl<'a> Rounds<'a> {
    /// No tester yet, and no test.
    pub(crate) fn open(
        alloc: Global,
        normal: &'a Normal,
        mode: Mode,
        number: u32,
        budget: u32,
    ) -> Result<Rounds<'a>, NoMemory>
        requires { IsNormal normal.now }
        ensures { IfOk result (λ it. it ≡ opened_desk normal.now mode number budget) }
    {
        let mut completed = Store::open();
        complete(alloc, normal, &mut completed)?;
        let main = None;
        Ok(Rounds {
            normal,
            mode,
            number,
            budget,
            completed,
            began: Snapshot::of(&main),
            main,
            first: None,
            kept: None,
            counted: 0,
        })
    }

    /// One round. An error says that there was no memory.
    pub(crate) fn round(&mut self, alloc: Global, job: &Job, slice: u32) -> Result<Gain, NoMemory>
        requires ready { IsReady self.old }
        requires job { IsJobOver self.old.normal.names job.now }
        requires selector { HasSelectorFor (working self.old false) job.now }
        requires some { 1 ≤ slice }
        ensures round { IfOk result (IsRound self.old self.new job.now slice) }
        ensures same { IsSameWorker (working self.old false) (working self.new false) }
    {
        round_is();
        let begun = self.begin(job);
        let goes_on = begun.goes_on;
        let mut budget = begun.budget;
        let before = budget.used();
        let outcome = self.test(alloc, job, goes_on, &mut budget, slice)?;
        self.counted = budget.used() - before;
        let gain = self.end(alloc, job, budget, outcome)?;
        Ok(gain)
    }

    /// The literal that the assignment of the main tester at a place makes false, where that is one
    /// of level 0. No answer set makes it true, if it is of an atom or a body.
    pub(crate) fn refuted_at(&self, place: u32) -> Option<Lit>
        requires { IsReady self.now }
        ensures { IfSome result (IsRefuted self.now.normal) }
    {
        match &self.main {
            Some(tester) => tester.refuted_at(place),
            None => None,
        }
    }

    /// Takes up the kept test where it has this job, or else drops it and begins one.
    fn begin(&mut self, job: &Job) -> Begun
        ensures begun { IsBegun self.old job.now self.new.began result }
        ensures same { self.new ≡ record self.old { kept = None; began = self.new.began } }
    {
        match self.take_kept(job) {
            Some(budget) => Begun {
                goes_on: true,
                budget,
            },
            None => {
                self.began = Snapshot::of(&self.main);
                Begun {
                    goes_on: false,
                    budget: Budget::new(self.budget),
                }
            }
        }
    }

    /// The budget of the kept test where that has this job. No test is kept then.
    fn take_kept(&mut self, job: &Job) -> Option<Budget>
        ensures some { IfSome result (λ budget. self.old.kept
            ≡ Some (record { job = job.now; budget = budget })) }
        ensures none { IfNone result (IfSome self.old.kept (λ kept. kept.job ≢ job.now)) }
        ensures same { self.new ≡ record self.old { kept = None } }
    {
        let kept = self.kept.take()?;
        if is_same(&kept.job, job) {
            Some(kept.budget)
        } else {
            None
        }
    }

    /// Tests what the job asks.
    fn test(
        &mut self,
        alloc: Global,
        job: &Job,
        goes_on: bool,
        budget: &mut Budget,
        slice: u32,
    ) -> Result<Outcome, NoMemory>
        requires ready { IsReady self.old }
        requires job { IsJobOver self.old.normal.names job.now }
        requires room { HasRoomFor (main_of self.old)
            (disjunction_for self.old.normal.names self.old.mode job.now) }
        requires some { 1 ≤ slice }
        requires unused { length budget.old.units < budget.old.limit }
        ensures keeps { OnOk result (KeepsTesters self.old job.now self.new) }
        ensures tested { OnOk result
            (HasTested (disjunction_for self.old.normal.names self.old.mode job.now)
            (tester_for self.old job.now goes_on) (tester_for self.new job.now true)
            budget.old budget.new) }
        ensures outcome { IfOk result (IsOutcome self.old.normal self.old.mode job.now
            (length budget.old.units + slice) budget.new) }
        ensures same { self.new
            ≡ record self.old { main = self.new.main; first = self.new.first } }
    {
        match job {
            Job::Idle => Ok(Outcome::Answered(nothing(RoundEnd::Done))),
            Job::Coherence => self.test_first(alloc, goes_on, budget, slice),
            Job::Single(_) | Job::Reduce(_) | Job::Chunk(_) => {
                self.test_main(alloc, job, budget, slice)
            }
        }
    }

    /// Tests coherence by the tester that goes on or by a new one.
    fn test_first(
        &mut self,
        alloc: Global,
        goes_on: bool,
        budget: &mut Budget,
        slice: u32,
    ) -> Result<Outcome, NoMemory>
        requires ready { IsReady self.old }
        requires some { 1 ≤ slice }
        requires unused { length budget.old.units < budget.old.limit }
        ensures tested { OnOk result (HasTested None
            (tester_for self.old Job.Coherence goes_on) (tester_for self.new Job.Coherence true)
            budget.old budget.new) }
        ensures outcome { IfOk result (IsOutcome self.old.normal self.old.mode Job.Coherence
            (length budget.old.units + slice) budget.new) }
        ensures same { self.new ≡ record self.old { first = self.new.first } }
    {
        self.open_first(alloc, goes_on)?;
        match &mut self.first {
            Some(tester) => test_coherence(alloc, tester, budget, slice),
            None => unreachable!(),
        }
    }

    /// Opens a tester of coherence, unless one goes on.
    fn open_first(&mut self, alloc: Global, goes_on: bool) -> Result<(), NoMemory>
        requires ready { IsReady self.old }
        ensures opened { OnOk result (self.new ≡ record self.old {
          first = Some (tester_for self.old Job.Coherence goes_on);
        }) }
        ensures same { self.new ≡ record self.old { first = self.new.first } }
    {
        match &self.first {
            Some(_) if goes_on => Ok(()),
            _ => {
                let tester = Tester::open_over(alloc, self.normal, &self.completed)?;
                put(&mut self.first, Some(tester));
                Ok(())
            }
        }
    }

    /// Tests by the main tester. The tester of coherence is given up.
    fn test_main(
        &mut self,
        alloc: Global,
        job: &Job,
        budget: &mut Budget,
        slice: u32,
    ) -> Result<Outcome, NoMemory>
        requires ready { IsReady self.old }
        requires job { IsJobOver self.old.normal.names job.now }
        requires room { HasRoomFor (main_of self.old)
            (disjunction_for self.old.normal.names self.old.mode job.now) }
        requires some { 1 ≤ slice }
        requires unused { length budget.old.units < budget.old.limit }
        ensures tested { OnOk result
            (HasTested (disjunction_for self.old.normal.names self.old.mode job.now)
            (main_of self.old) (main_of self.new) budget.old budget.new) }
        ensures outcome { IfOk result (IsOutcome self.old.normal self.old.mode job.now
            (length budget.old.units + slice) budget.new) }
        ensures given_up { OnOk result (self.new.first ≡ None) }
        ensures same { self.new
            ≡ record self.old { main = self.new.main; first = self.new.first } }
    {
        self.open_main(alloc)?;
        put(&mut self.first, None);
        let (normal, mode) = (self.normal, self.mode);
        match &mut self.main {
            Some(tester) => test_job(alloc, tester, normal, mode, job, budget, slice),
            None => unreachable!(),
        }
    }

    /// Opens the main tester, unless there is one.
    fn open_main(&mut self, alloc: Global) -> Result<(), NoMemory>
        requires ready { IsReady self.old }
        ensures opened { OnOk result
            (self.new ≡ record self.old { main = Some (main_of self.old) }) }
        ensures same { self.new ≡ record self.old { main = self.new.main } }
    {
        match &self.main {
            Some(_) => Ok(()),
            None => {
                let tester = self.new_main(alloc)?;
                put(&mut self.main, Some(tester));
                self.seek_all(alloc)
            }
        }
    }

    /// A new tester, which decides as the tester of coherence did, if there is one.
    fn new_main(&self, alloc: Global) -> Result<Tester<'a>, NoMemory>
        requires { IsReady self.now }
        ensures { IfOk result (λ it. it ≡ opened self.now.normal) }
    {
        match &self.first {
            Some(first) => Tester::open_after(alloc, &self.completed, first),
            None => Tester::open_over(alloc, self.normal, &self.completed),
        }
    }

    /// Lets the main tester seek the test literals of all candidates, but for those that the tester
    /// of coherence made true.
    fn seek_all(&mut self, alloc: Global) -> Result<(), NoMemory>
        requires { IsNormal self.old.normal }
        ensures { self.new ≡ self.old }
    {
        let lits = all_test_literals(alloc, self.normal, self.mode)?;
        match (&mut self.main, &self.first) {
            (None, _) => Ok(()),
            (Some(main), Some(first)) => main.seek(alloc, lits.as_slice(), Some(first)),
            (Some(main), None) => main.seek(alloc, lits.as_slice(), None),
        }
    }

    /// What the round gained. A test that was paused is kept.
    fn end(
        &mut self,
        alloc: Global,
        job: &Job,
        budget: Budget,
        outcome: Outcome,
    ) -> Result<Gain, NoMemory>
        requires normal { IsNormal self.old.normal }
        requires job { IsJobOver self.old.normal.names job.now }
        requires nothing { self.old.kept ≡ None }
        ensures gain { IfOk result (λ it. it ≡ gain_after self.old job.now budget outcome) }
        ensures kept { OnOk result
            (self.new ≡ record self.old { kept = kept_after job.now budget outcome }) }
        ensures same { self.new ≡ record self.old { kept = self.new.kept } }
    {
        match outcome {
            Outcome::Answered(gain) => Ok(gain),
            Outcome::Paused => {
                let job = job.copied(alloc)?;
                self.kept = Some(Kept { job, budget });
                Ok(nothing(RoundEnd::Paused))
            }
            Outcome::Spent => Ok(nothing(self.spent(job, budget.into_units(), None))),
            Outcome::SpentInside { set, units } => {
                Ok(nothing(self.spent(job, units, Some(set))))
            }
        }
    }

    /// How a round ends whose test is spent.
    fn spent(&self, job: &Job, units: Units, inside: Option<Set>) -> RoundEnd
        requires normal { IsNormal self.now.normal }
        requires job { IsJobOver self.now.normal.names job.now }
        ensures { result ≡ spent_end self.now job.now units inside }
    {
        let test = SpentTest {
            literal: literal_for(self.normal, self.mode, job),
            by: self.number,
            budget: self.budget,
            units,
            inside,
        };
        match job {
            Job::Idle | Job::Coherence | Job::Single(_) => RoundEnd::Spent(test),
            Job::Reduce(_) | Job::Chunk(_) => RoundEnd::SpentWide(test),
        }
    }
}

/// Puts a tester, or none, in the place of another.
fn put<'a>(place: &mut Option<Tester<'a>>, tester: Option<Tester<'a>>)
    ensures { place.new ≡ tester.entry }
{
    *place = tester;
}
