// Runs of one query over the text of a program.
ghost use Rattle.std.specs.Prelude.{◌≡◌, ◌≤◌, IfOk, IfSome};
ghost use Rattle.ground_program.specs.Program.{IsProgram};
ghost use Rattle.run_words.specs.Words.{AreSettings, IsAlone, IsStrategy, IsUpTo};

use byte_edges::{MemorySink, MemorySource, SteadySink};
use ground_program::{Mode, Program};
use item_list::NoMemory;
use lparse_reader::print_program;
use report::Line;
use report_reader::{ReportError, read_report};
use run_words::Settings;
use std::alloc::Global;
use wasp2_run::{Ended, run_one};
use worker_jobs::Strategy;

/// More bytes than a report on a small program has.
pub const ROOM: usize = 8192;

/// One of 96 settings, counted around: two modes, six strategies, four budgets, two slices.
pub fn settings_of(number: u32) -> Settings
    ensures settings { AreSettings result }
    ensures alone { IsAlone result }
{
    Settings {
        mode: mode_of(number),
        workers: 1,
        watch: 0,
        strategy: strategy_of(number / 2),
        budget: budget_of(number / 12),
        slice: slice_of(number / 48),
    }
}

fn mode_of(number: u32) -> Mode {
    if number % 2 == 0 {
        Mode::Cautious
    } else {
        Mode::Brave
    }
}

fn strategy_of(number: u32) -> Strategy
    ensures { IsStrategy result }
{
    match number % 6 {
        0 => Strategy::Single,
        1 => Strategy::Reduction,
        2 => Strategy::Chunks(1),
        3 => Strategy::Chunks(2),
        4 => Strategy::Chunks(3),
        _ => Strategy::Mix,
    }
}

fn budget_of(number: u32) -> u32
    ensures { IsUpTo 1000000000 result }
{
    match number % 4 {
        0 => 1,
        1 => 2,
        2 => 7,
        _ => 100_000,
    }
}

fn slice_of(number: u32) -> u32
    ensures { IsUpTo 1000000 result }
{
    if number % 2 == 0 { 1 } else { 256 }
}

/// The text of a program. It is empty if it has more bytes than there is room for.
pub fn text_of(alloc: Global, program: &Program) -> Result<Vec<u8>, NoMemory>
    requires { IsProgram program.now }
{
    let mut sink = SteadySink::open(alloc, ROOM)?;
    let _ = print_program(program, &mut sink);
    Vec::from_slice(alloc, sink.written())
}

/// What a run wrote, and how it ended.
#[derive(Drop)]
pub struct Run {
    pub text: Vec<u8>,
    pub ended: Ended,
}

/// A run over a source that gives `most` bytes a read, of which those with these numbers fail, and
/// a sink that takes as many.
#[derive(Drop)]
pub struct Edges {
    pub most: usize,
    pub failing_reads: Vec<u64>,
    pub failing_writes: Vec<u64>,
}

impl Edges {
    /// Edges that never fail.
    pub fn steady(alloc: Global, most: usize) -> Edges
        ensures { result.most ≡ most }
    {
        Edges {
            most,
            failing_reads: Vec::new(alloc),
            failing_writes: Vec::new(alloc),
        }
    }
}

/// A run over these edges.
pub fn run_over(
    alloc: Global,
    text: &[u8],
    settings: &Settings,
    edges: Edges,
) -> Result<Run, NoMemory>
    requires settings { AreSettings settings.now }
    requires alone { IsAlone settings.now }
    requires most { 1 ≤ edges.most }
{
    let bytes = Vec::from_slice(alloc, text)?;
    let mut source = MemorySource::open(bytes, edges.most, edges.failing_reads);
    let mut sink = MemorySink::open(alloc, ROOM, edges.most, edges.failing_writes)?;
    let ended = run_one(alloc, settings, &mut source, &mut sink);
    let text = Vec::from_slice(alloc, sink.written())?;
    Ok(Run { text, ended })
}

/// The lines of a report on a program. None is a text that isn't one.
pub fn lines_of(
    alloc: Global,
    program: &Program,
    text: &[u8],
) -> Result<Option<Vec<Line>>, NoMemory>
    requires { IsProgram program.now }
{
    if text.len() > ROOM {
        return Ok(None);
    }
    match read_report(alloc, text, program.atoms, &program.names) {
        Ok(lines) => Ok(Some(lines)),
        Err(ReportError::NotALine(_)) => Ok(None),
        Err(ReportError::NoMemory) => Err(NoMemory),
    }
}
