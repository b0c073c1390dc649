// Whole runs.
use byte_edges::{MemorySink, MemorySource, SteadySink, SteadySource};
use std::alloc::{AllocError, Global};
use std::test::Fail;
use wasp2_run::run;

// Words, an input, the reports that there may be, and the status.
struct Case {
    words: &'static [&'static str],
    input: &'static [u8],
    reports: &'static [&'static [u8]],
    status: u8,
}

const FACT: &[u8] = b"1 2 0 0\n0\n2 a\n0\nB+\n0\nB-\n1\n0\n1\n";

const FACT_REPORT: &[u8] = b"ANSWER 1 2\nIN 1 0 a\nPAIR 1 1\nCOMPLETE\n";

static ROWS: [Case; 23] = [
    Case {
        words: &["cautious"],
        input: b"0\n0\nB+\n0\nB-\n0\n1\n",
        reports: &[b"ANSWER 1\nPAIR 0 0\nCOMPLETE\n"],
        status: 0,
    },
    Case {
        words: &["cautious"],
        input: b"1 2 0 0\n0\n2 a\n0\nB+\n0\nB-\n1\n0\n1\n",
        reports: &[b"ANSWER 1 2\nIN 1 0 a\nPAIR 1 1\nCOMPLETE\n"],
        status: 0,
    },
    // Two answer sets: one of two atoms, and what follows from each.
    Case {
        words: &["cautious"],
        input: b"1 2 1 1 3\n1 3 1 1 2\n1 4 1 0 2\n1 4 1 0 3\n0\n2 a\n3 b\n4 c\n0\nB+\n0\nB-\n1\n0\n1\n",
        reports: &[
            b"ANSWER 1 2 4\nOUT 2 1 b\nPAIR 0 2\nANSWER 2 3 4\nOUT 1 2 a\nPAIR 0 1\nIN 3 0 c\nPAIR 1 1\nCOMPLETE\n",
            b"ANSWER 1 3 4\nOUT 1 1 a\nPAIR 0 2\nANSWER 2 2 4\nOUT 2 2 b\nPAIR 0 1\nIN 3 0 c\nPAIR 1 1\nCOMPLETE\n",
        ],
        status: 0,
    },
    Case {
        words: &["brave"],
        input: b"1 2 1 1 3\n1 3 1 1 2\n1 4 1 0 2\n1 4 1 0 3\n0\n2 a\n3 b\n4 c\n0\nB+\n0\nB-\n1\n0\n1\n",
        reports: &[
            b"ANSWER 1 2 4\nIN 1 1 a\nIN 3 1 c\nPAIR 2 3\nANSWER 2 3 4\nIN 2 2 b\nPAIR 3 3\nCOMPLETE\n",
            b"ANSWER 1 3 4\nIN 2 1 b\nIN 3 1 c\nPAIR 2 3\nANSWER 2 2 4\nIN 1 2 a\nPAIR 3 3\nCOMPLETE\n",
        ],
        status: 0,
    },
    Case {
        words: &["cautious"],
        input: b"1 2 1 1 2\n0\n2 a\n0\nB+\n0\nB-\n1\n0\n1\n",
        reports: &[b"INCOHERENT\n"],
        status: 2,
    },
    // Two atoms that support only each other are both false.
    Case {
        words: &["cautious"],
        input: b"1 2 1 0 3\n1 3 1 0 2\n0\n2 a\n3 b\n0\nB+\n0\nB-\n1\n0\n1\n",
        reports: &[b"ANSWER 1\nOUT 1 1 a\nOUT 2 1 b\nPAIR 0 0\nCOMPLETE\n"],
        status: 0,
    },
    // A disjunction whose atoms follow from each other.
    Case {
        words: &["cautious"],
        input: b"8 2 2 3 0 0\n1 2 1 0 3\n1 3 1 0 2\n0\n2 a\n3 b\n0\nB+\n0\nB-\n1\n0\n1\n",
        reports: &[b"ANSWER 1 2 3\nIN 1 0 a\nPAIR 1 2\nIN 2 0 b\nPAIR 2 2\nCOMPLETE\n"],
        status: 0,
    },
    Case {
        words: &["cautious"],
        input: b"8 2 2 3 0 0\n0\n2 a\n3 b\n0\nB+\n0\nB-\n1\n0\n1\n",
        reports: &[
            b"ANSWER 1 2\nOUT 2 1 b\nPAIR 0 1\nANSWER 2 3\nOUT 1 2 a\nPAIR 0 0\nCOMPLETE\n",
            b"ANSWER 1 3\nOUT 1 1 a\nPAIR 0 1\nANSWER 2 2\nOUT 2 2 b\nPAIR 0 0\nCOMPLETE\n",
        ],
        status: 0,
    },
    // A bound that one negative literal meets.
    Case {
        words: &["cautious"],
        input: b"2 2 2 1 1 3 2\n0\n2 a\n0\nB+\n0\nB-\n1\n0\n1\n",
        reports: &[b"ANSWER 1 2\nIN 1 0 a\nPAIR 1 1\nCOMPLETE\n"],
        status: 0,
    },
    // A weight body without literals meets the bound 0.
    Case {
        words: &["cautious"],
        input: b"5 2 0 0 0\n0\n2 a\n0\nB+\n0\nB-\n1\n0\n1\n",
        reports: &[b"ANSWER 1 2\nIN 1 0 a\nPAIR 1 1\nCOMPLETE\n"],
        status: 0,
    },
    // Two names of one atom.
    Case {
        words: &["cautious"],
        input: b"1 2 0 0\n0\n2 p(\"x y\")\n2 q\n0\nB+\n0\nB-\n1\n0\n1\n",
        reports: &[b"ANSWER 1 2\nIN 1 0 p(\"x y\")\nPAIR 1 2\nIN 2 0 q\nPAIR 2 2\nCOMPLETE\n"],
        status: 0,
    },
    // A literal that stands twice counts twice.
    Case {
        words: &["cautious"],
        input: b"2 2 2 0 2 3 3\n1 3 0 0\n0\n2 a\n0\nB+\n0\nB-\n1\n0\n1\n",
        reports: &[b"ANSWER 1 2 3\nIN 1 0 a\nPAIR 1 1\nCOMPLETE\n"],
        status: 0,
    },
    Case {
        words: &["cautious", "--budget=2187"],
        input: b"8 2 2 3 0 0\n0\n2 a\n3 b\n0\nB+\n0\nB-\n1\n0\n1\n",
        reports: &[
            b"ANSWER 1 2\nOUT 2 1 b\nPAIR 0 1\nANSWER 2 3\nOUT 1 2 a\nPAIR 0 0\nCOMPLETE\n",
            b"ANSWER 1 3\nOUT 1 1 a\nPAIR 0 1\nANSWER 2 2\nOUT 2 2 b\nPAIR 0 0\nCOMPLETE\n",
        ],
        status: 0,
    },
    Case {
        words: &["cautious", "--strategy=reduction", "--slice=1"],
        input: b"8 2 2 3 0 0\n0\n2 a\n3 b\n0\nB+\n0\nB-\n1\n0\n1\n",
        reports: &[
            b"ANSWER 1 2\nOUT 2 1 b\nPAIR 0 1\nANSWER 2 3\nOUT 1 2 a\nPAIR 0 0\nCOMPLETE\n",
            b"ANSWER 1 3\nOUT 1 1 a\nPAIR 0 1\nANSWER 2 2\nOUT 2 2 b\nPAIR 0 0\nCOMPLETE\n",
        ],
        status: 0,
    },
    Case {
        words: &["cautious", "--strategy=chunks"],
        input: b"8 2 2 3 0 0\n0\n2 a\n3 b\n0\nB+\n0\nB-\n1\n0\n1\n",
        reports: &[
            b"ANSWER 1 2\nOUT 2 1 b\nPAIR 0 1\nANSWER 2 3\nOUT 1 2 a\nPAIR 0 0\nCOMPLETE\n",
            b"ANSWER 1 3\nOUT 1 1 a\nPAIR 0 1\nANSWER 2 2\nOUT 2 2 b\nPAIR 0 0\nCOMPLETE\n",
        ],
        status: 0,
    },
    Case {
        words: &["cautious", "--slice=1", "--strategy=mix"],
        input: b"1 2 0 0\n0\n2 a\n0\nB+\n0\nB-\n1\n0\n1\n",
        reports: &[b"ANSWER 1 2\nIN 1 0 a\nPAIR 1 1\nCOMPLETE\n"],
        status: 0,
    },
    Case {
        words: &["cautious"],
        input: b"0\n0\nB+\n2\n0\nB-\n0\n1\n",
        reports: &[b"INCOHERENT\n"],
        status: 2,
    },
    Case {
        words: &["cautious"],
        input: b"0\n1048574 a\n0\nB+\n0\nB-\n0\n1\n",
        reports: &[b"REFUSED 0 TooManyVariables 1048576\n"],
        status: 3,
    },
    Case {
        words: &["careful"],
        input: b"1 2 0 0\n0\n2 a\n0\nB+\n0\nB-\n1\n0\n1\n",
        reports: &[b"REFUSED 0 Words 0\n"],
        status: 4,
    },
    Case {
        words: &["cautious", "--budget=0"],
        input: b"1 2 0 0\n0\n2 a\n0\nB+\n0\nB-\n1\n0\n1\n",
        reports: &[b"REFUSED 0 Words 0\n"],
        status: 4,
    },
    Case {
        words: &["cautious"],
        input: b"1 2 3 1 3",
        reports: &[b"REFUSED 1 EndOfInput 9\n"],
        status: 3,
    },
    Case {
        words: &["cautious"],
        input: b"6 0 1 0 2 1\n",
        reports: &[b"REFUSED 1 MinimizeRule 6\n"],
        status: 3,
    },
    Case {
        words: &["cautious"],
        input: b"0\n0\nB+\n0\nB-\n0\nE\n",
        reports: &[b"REFUSED 7 ExternalSection 69\n"],
        status: 3,
    },
];

fn words_of(alloc: Global, words: &[&str]) -> Result<Vec<String>, AllocError> {
    let mut all = Vec::new(alloc);
    for word in words {
        all.push(String::from_str(alloc, word)?)?;
    }
    Ok(all)
}

fn ends_as(alloc: Global, row: &Case) -> Result<bool, AllocError> {
    let words = words_of(alloc, row.words)?;
    let mut source = SteadySource::open(Vec::from_slice(alloc, row.input)?);
    let mut sink = SteadySink::open(alloc, 4096)?;
    let ended = run(alloc, &words, &mut source, &mut sink);
    let written = sink.written();
    Ok(ended.status == row.status && row.reports.iter().any(|report| written == *report))
}

// How a run on the fact ends whose write of this number fails, with what was written.
fn stops_at(alloc: Global, number: u64) -> Result<(u8, Vec<u8>), AllocError> {
    let words = words_of(alloc, &["cautious"])?;
    let mut source = SteadySource::open(Vec::from_slice(alloc, FACT)?);
    let mut sink = MemorySink::open(alloc, 4096, 4096, vec![in alloc; number]?)?;
    let ended = run(alloc, &words, &mut source, &mut sink);
    let written = Vec::from_slice(alloc, sink.written())?;
    Ok((ended.status, written))
}

// How a run on the fact ends whose read of this number fails, one byte a read.
fn reads_until(alloc: Global, number: u64) -> Result<(u8, Vec<u8>), AllocError> {
    let words = words_of(alloc, &["cautious"])?;
    let mut source = MemorySource::open(Vec::from_slice(alloc, FACT)?, 1, vec![in alloc; number]?);
    let mut sink = SteadySink::open(alloc, 4096)?;
    let ended = run(alloc, &words, &mut source, &mut sink);
    let written = Vec::from_slice(alloc, sink.written())?;
    Ok((ended.status, written))
}

#[test]
fn worked_programs_get_their_reports(rt: HostRuntime) -> Result<(), Fail> {
    for row in &ROWS {
        assert!(rt; ends_as(rt.alloc(), row)?, "{}", row.status);
    }
    Ok(())
}

#[test]
fn a_fault_at_any_place_leaves_a_prefix(rt: HostRuntime) -> Result<(), Fail> {
    for number in 1..30 {
        let (status, written) = stops_at(rt.alloc(), number)?;
        assert!(rt; FACT_REPORT.starts_with(&written));
        assert_eq!(rt; status == 0, written.len() == FACT_REPORT.len());
        assert!(rt; status == 0 || status == 6);
    }
    for number in 1..31 {
        let (status, written) = reads_until(rt.alloc(), number)?;
        assert_eq!(rt; status, 5);
        assert_eq!(rt; written.as_slice(), b"REFUSED 0 ReadFault 0\n".as_slice());
    }
    Ok(())
}
