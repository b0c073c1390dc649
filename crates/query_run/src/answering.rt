// The answer to a query.
ghost use Rattle.std.specs.Prelude.{◌≡◌, [], IfOk};
ghost use Rattle.normal_program.specs.Limit.{IsNormal};
ghost use Rattle.normal_program.specs.Normal.{IsNormalFormOf};
ghost use Rattle.run_words.specs.Words.{AreSettings, IsAlone};
ghost use Rattle.query_run.specs.Answers.{Answers, Ends};
ghost use Rattle.query_run.specs.Budget.{IsDecidedBy};
ghost use Rattle.query_run.specs.Way.{Begins};

use crate::ending::end_plainly;
use crate::rounds::Rounds;
use byte_edges::{Sink, WriteFault};
use ground_program::Program;
use normal_program::{Normal, Tests};
use report::Line;
use run_words::Settings;
use std::alloc::Global;

/// How a query ended.
#[derive(Debug, Drop)]
pub struct Ended {
    /// 0 complete, 1 partial, 2 incoherent, 7 out of memory.
    pub status: u8,
    /// The spent tests on which a partial answer rests, in the order of the lines that name them.
    pub spent: Tests,
}

/// Writes the report on a program with this normal form, line by line as they come.
pub fn answer_query<K: Sink>(
    alloc: Global,
    program: &Program,
    normal: &Normal,
    settings: &Settings,
    sink: &mut K,
) -> Result<Ended, WriteFault>
    requires form { IsNormalFormOf normal.now program.now }
    requires normal { IsNormal normal.now }
    requires settings { AreSettings settings.now }
    requires alone { IsAlone settings.now }
    ensures report { Ends K.written K.faults sink.old sink.new (Answers program.now settings.now)
        result }
    ensures decided { IfOk result
        (λ told. IsDecidedBy program.now settings.now.budget told.status) }
{
    match Rounds::open(alloc, normal, settings) {
        Ok(rounds) => rounds.answer(alloc, program, settings, sink),
        Err(_) => end_plainly(Line::NoMemory, 7, &normal.names, sink),
    }
}

impl Rounds<'_> {
    /// Writes the report of a run that begins.
    fn answer<K: Sink>(
        self,
        alloc: Global,
        program: &Program,
        settings: &Settings,
        sink: &mut K,
    ) -> Result<Ended, WriteFault>
        requires begins { Begins program.now settings.now self }
        ensures { Ends K.written K.faults sink.old sink.new (Answers program.now settings.now) result }
    {
        let _ = program;
        let _ = settings;
        let mut rounds = self;
        let reached = rounds.to_verdict(alloc, sink);
        let rest = rounds.rest();
        let verdict = reached?;
        rest.finish(alloc, verdict, sink)
    }
}
