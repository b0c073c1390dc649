// What is left of a run when its worker is gone.
ghost use Rattle.std.specs.Prelude.{◌≡◌};
ghost use Rattle.query_run.specs.Way.{left_of};

use crate::rounds::Rounds;
use master_record::Master;
use normal_program::Normal;
use std::marker::Model;

/// What is left of a run when its worker is gone: the record, and what was told.
#[derive(Drop)]
pub struct Rest<'a> {
    pub(crate) normal: &'a Normal,
    pub(crate) master: Master<'a>,
    /// How many clauses a test might count.
    pub(crate) budget: u32,
    /// Whether a PAIR line was written.
    pub(crate) sized: bool,
}

impl<'a> Model for Rest<'a> {
    ghost use Rattle.query_run.specs.Way.{Left, IsRunOf};

    ghost Value = { Left };

    ghost view = { λ it. record { books = it.master; sized = it.sized } };

    ghost invariant = { λ it. IsRunOf it.normal.now it.budget it.master };
}

impl<'a> Rounds<'a> {
    /// Lets the worker go.
    pub(crate) fn rest(self) -> Rest<'a>
        ensures { result ≡ left_of self.entry }
    {
        Rest {
            normal: self.normal,
            master: self.master,
            budget: self.budget,
            sized: self.sized,
        }
    }
}
