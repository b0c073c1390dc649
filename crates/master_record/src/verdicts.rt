// The parts of a verdict.
ghost use Rattle.std.specs.Prelude.{◌≡◌, ◌↔◌, IsTrue};
ghost use Rattle.master_record.specs.Verdicts.{IsFinished, IsSpentOut, AreDead};

use crate::master::Master;

impl Master<'_> {
    /// Whether an answer set was given and every candidate is settled.
    pub(crate) fn is_finished(&self) -> bool
        ensures { IsTrue result ↔ IsFinished self.now }
    {
        self.answers > 0 && self.candidates.least_open() == self.candidates.count()
    }

    /// Whether each test that is left was spent.
    pub(crate) fn is_spent_out(&self) -> bool
        ensures { IsTrue result ↔ IsSpentOut self.now }
    {
        if self.answers == 0 {
            self.coherence.is_some()
        } else {
            self.candidates.least_left() == self.candidates.count()
        }
    }

    /// Whether each worker ran out of memory.
    pub(crate) fn are_dead(&self) -> bool
        ensures { IsTrue result ↔ AreDead self.now }
    {
        self.workers.iter().all(|worker| worker.dead)
    }
}
