// A run with one worker.
ghost use Rattle.std.specs.Prelude.{◌≡◌, false, IfOk};
ghost use Rattle.normal_program.specs.Limit.{IsNormal};
ghost use Rattle.run_words.specs.Words.{AreSettings};
ghost use Rattle.worker_strategies.specs.Working.{hired};
ghost use Rattle.master_record.specs.Books.{opened};
ghost use Rattle.master_record.specs.Sound.{IsSound};

use item_list::NoMemory;
use master_record::Master;
use normal_program::Normal;
use run_words::Settings;
use std::alloc::Global;
use std::marker::Model;
use worker_strategies::Worker;

/// A run with one worker: the record, the worker, and what was told.
#[derive(Drop)]
pub struct Rounds<'a> {
    pub(crate) normal: &'a Normal,
    pub(crate) master: Master<'a>,
    pub(crate) worker: Box<Worker<'a>>,
    /// How many clauses a test may count.
    pub(crate) budget: u32,
    /// How many of them in one round.
    pub(crate) slice: u32,
    /// Whether a PAIR line was written.
    pub(crate) sized: bool,
}

impl<'a> Model for Rounds<'a> {
    ghost use Rattle.std.specs.Prelude.{box_value};
    ghost use Rattle.query_run.specs.Way.{Way, IsRunOf};

    ghost Value = { Way };

    ghost view = { λ it. record {
      books = it.master;
      worker = box_value it.worker;
      slice = it.slice;
      sized = it.sized;
    } };

    ghost invariant = { λ it. IsRunOf it.normal.now it.budget it.master };
}

impl<'a> Rounds<'a> {
    /// A run that begins.
    pub(crate) fn open(
        alloc: Global,
        normal: &'a Normal,
        settings: &Settings,
    ) -> Result<Rounds<'a>, NoMemory>
        requires normal { IsNormal normal.now }
        requires settings { AreSettings settings.now }
        ensures sound { IfOk result (λ it. IsSound it.books) }
        ensures begun { IfOk result (λ it. it ≡ record {
          books = opened normal.now settings.now.mode settings.now.strategy 1 settings.now.budget;
          worker = hired normal.now settings.now.mode 1 settings.now.budget;
          slice = settings.now.slice;
          sized = false;
        }) }
    {
        let mode = settings.mode;
        let budget = settings.budget;
        let master = Master::open(alloc, normal, mode, settings.strategy, 1, budget)?;
        master.vouch();
        let worker = Box::new(alloc, Worker::open(alloc, normal, mode, 1, budget)?)?;
        Ok(Rounds {
            normal,
            master,
            worker,
            budget,
            slice: settings.slice,
            sized: false,
        })
    }
}
