// Runs on programs with many names, where one candidate that is proved tells of others.
use byte_edges::{SteadySink, SteadySource, WriteFault, write_bytes};
use number_text::{write_number, write_number_after, write_number_ended};
use std::alloc::{AllocError, Global};
use std::test::Fail;
use wasp2_run::run;

// More bytes than each of these texts has.
const ROOM: usize = 8192;

// A mode, a program of so many named atoms, which are facts or have no rule, and whether one line
// with sizes follows all candidates or one follows each.
struct Row {
    mode: &'static str,
    facts: bool,
    count: u32,
    at_once: bool,
}

static ROWS: [Row; 6] = [
    Row {
        mode: "cautious",
        facts: true,
        count: 63,
        at_once: false,
    },
    Row {
        mode: "cautious",
        facts: true,
        count: 64,
        at_once: true,
    },
    Row {
        mode: "cautious",
        facts: true,
        count: 100,
        at_once: true,
    },
    Row {
        mode: "brave",
        facts: false,
        count: 63,
        at_once: false,
    },
    Row {
        mode: "brave",
        facts: false,
        count: 64,
        at_once: true,
    },
    Row {
        mode: "brave",
        facts: false,
        count: 100,
        at_once: true,
    },
];

fn write_program(row: &Row, sink: &mut SteadySink) -> Result<(), WriteFault> {
    if row.facts {
        write_facts(row.count, sink)?;
    }
    write_bytes(b"0\n", sink)?;
    for atom in 1..u64::from(row.count) + 1 {
        write_number(atom, sink)?;
        write_bytes(b" f\n", sink)?;
    }
    write_bytes(b"0\nB+\n0\nB-\n0\n1\n", sink)
}

fn write_facts(count: u32, sink: &mut SteadySink) -> Result<(), WriteFault> {
    for atom in 1..u64::from(count) + 1 {
        write_bytes(b"1 ", sink)?;
        write_number(atom, sink)?;
        write_bytes(b" 0 0\n", sink)?;
    }
    Ok(())
}

// The report: the answer set, and the candidates with one line with sizes or with many.
fn write_report(row: &Row, sink: &mut SteadySink) -> Result<(), WriteFault> {
    write_answer(row, sink)?;
    for cand in 1..u64::from(row.count) + 1 {
        write_settled(row, cand, sink)?;
        if !row.at_once {
            write_sizes(row, cand, sink)?;
        }
    }
    if row.at_once {
        write_sizes(row, u64::from(row.count), sink)?;
    }
    write_bytes(b"COMPLETE\n", sink)
}

fn write_answer(row: &Row, sink: &mut SteadySink) -> Result<(), WriteFault> {
    write_bytes(b"ANSWER 1", sink)?;
    if row.facts {
        for atom in 1..u64::from(row.count) + 1 {
            write_number_after(b' ', atom, sink)?;
        }
    }
    write_bytes(b"\n", sink)
}

fn write_settled(row: &Row, cand: u64, sink: &mut SteadySink) -> Result<(), WriteFault> {
    let word = if row.facts {
        b"IN ".as_slice()
    } else {
        b"OUT ".as_slice()
    };
    write_bytes(word, sink)?;
    write_number(cand, sink)?;
    write_bytes(b" 0 f\n", sink)
}

// The sizes once so many candidates are settled.
fn write_sizes(row: &Row, settled: u64, sink: &mut SteadySink) -> Result<(), WriteFault> {
    let count = u64::from(row.count);
    let (lower, upper) = if row.facts {
        (settled, count)
    } else {
        (0, count.saturating_sub(settled))
    };
    write_bytes(b"PAIR ", sink)?;
    write_number_ended(lower, b' ', sink)?;
    write_number_ended(upper, b'\n', sink)
}

// Whether a run on the program writes just this report.
fn reports(alloc: Global, mode: &str, program: &[u8], report: &[u8]) -> Result<bool, AllocError> {
    let mut words = Vec::new(alloc);
    words.push(String::from_str(alloc, mode)?)?;
    let mut source = SteadySource::open(Vec::from_slice(alloc, program)?);
    let mut sink = SteadySink::open(alloc, ROOM)?;
    let ended = run(alloc, &words, &mut source, &mut sink);
    Ok(ended.status == 0 && sink.written() == report)
}

#[test]
fn many_facts_come_before_one_pair(rt: HostRuntime) -> Result<(), Fail> {
    for row in &ROWS {
        let mut program = SteadySink::open(rt.alloc(), ROOM)?;
        write_program(row, &mut program)?;
        let mut report = SteadySink::open(rt.alloc(), ROOM)?;
        write_report(row, &mut report)?;
        assert!(rt;
            reports(rt.alloc(), row.mode, program.written(), report.written())?,
            "{}",
            row.count
        );
    }
    Ok(())
}
