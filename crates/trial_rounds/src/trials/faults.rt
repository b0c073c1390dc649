// Reads and writes that fail: what was written is the beginning of the whole text.
use crate::trials::runs::{Edges, Run, run_over, settings_of};
use item_list::NoMemory;
use std::alloc::Global;
use std::test::Fail;

// A program and a setting, how the report on it ends, and the status.
struct Case {
    text: &'static [u8],
    setting: u32,
    end: &'static [u8],
    status: u8,
}

// More than a run reads or writes.
const MANY: u64 = 400;

// Bytes a read and a write.
const MOST: usize = 7;

const REFUSAL: &[u8] = b"REFUSED 0 ReadFault 0\n";

// Three pigeons, each in one of two holes that have room for one.
const PIGEONS: &[u8] = b"3 6 2 3 4 5 6 7 0 0\n1 1 2 2 2 3\n1 1 2 2 4 5\n1 1 2 2 6 7\n\
1 1 2 0 2 4\n1 1 2 0 2 6\n1 1 2 0 4 6\n1 1 2 0 3 5\n1 1 2 0 3 7\n1 1 2 0 5 7\n\
0\n2 a\n3 b\n0\nB+\n0\nB-\n1\n0\n1\n";

// The same, unless atom 8 is true.
const LOOSE_PIGEONS: &[u8] = b"3 7 2 3 4 5 6 7 8 0 0\n1 1 3 3 8 2 3\n1 1 3 3 8 4 5\n\
1 1 3 3 8 6 7\n1 1 3 1 8 2 4\n1 1 3 1 8 2 6\n1 1 3 1 8 4 6\n1 1 3 1 8 3 5\n1 1 3 1 8 3 7\n\
1 1 3 1 8 5 7\n0\n2 a\n3 b\n8 loose\n0\nB+\n0\nB-\n1\n0\n1\n";

// One report for each of its ends.
static CASES: [Case; 4] = [
    Case {
        text: LOOSE_PIGEONS,
        setting: 1,
        end: b"\nCOMPLETE\n",
        status: 0,
    },
    Case {
        text: LOOSE_PIGEONS,
        setting: 0,
        end: b"\nOPEN 3 1 loose\nPARTIAL\n",
        status: 1,
    },
    Case {
        text: PIGEONS,
        setting: 0,
        end: b"PAIR 0 2\nUNKNOWN 1\nPARTIAL\n",
        status: 1,
    },
    Case {
        text: PIGEONS,
        setting: 12,
        end: b"INCOHERENT\n",
        status: 2,
    },
];

/// A run on a case whose read and whose write of these numbers fail. 0 is none.
fn cut(alloc: Global, case: &Case, read: u64, write: u64) -> Result<Run, NoMemory> {
    let edges = Edges {
        most: MOST,
        failing_reads: vec![in alloc; read]?,
        failing_writes: vec![in alloc; write]?,
    };
    run_over(alloc, case.text, &settings_of(case.setting), edges)
}

/// What was written before a write failed is the beginning of a longer text.
fn is_cut_off(run: &Run, whole: &[u8]) -> bool {
    run.ended.status == 6
        && run.ended.spent.len() == 0
        && run.text.len() < whole.len()
        && whole.starts_with(run.text.as_slice())
}

/// With each failing write the report of a case is cut off, until all of it is written.
fn stops_at_each_write(alloc: Global, case: &Case) -> Result<bool, NoMemory> {
    let whole = cut(alloc, case, 0, 0)?;
    if whole.ended.status != case.status || !whole.text.ends_with(case.end) {
        return Ok(false);
    }
    for number in 1..MANY {
        let run = cut(alloc, case, 0, number)?;
        if !is_cut_off(&run, whole.text.as_slice()) {
            return Ok(number > 1 && is_same(&run, &whole));
        }
    }
    Ok(false)
}

fn is_same(run: &Run, whole: &Run) -> bool {
    run.ended.status == whole.ended.status
        && run.ended.spent.len() == whole.ended.spent.len()
        && run.text.as_slice() == whole.text.as_slice()
}

/// With a failing read the report is a refusal, which is cut off at each failing write.
fn stops_at_each_write_of_a_refusal(alloc: Global, case: &Case) -> Result<bool, NoMemory> {
    for number in 1..MANY {
        let run = cut(alloc, case, 2, number)?;
        if !is_cut_off(&run, REFUSAL) {
            return Ok(number > 1 && run.ended.status == 5 && run.text.as_slice() == REFUSAL);
        }
    }
    Ok(false)
}

/// With each failing read the report is a refusal, until there is no such read.
fn stops_at_each_read(alloc: Global, case: &Case) -> Result<bool, NoMemory> {
    for number in 1..MANY {
        let run = cut(alloc, case, number, 0)?;
        if run.ended.status != 5 || run.text.as_slice() != REFUSAL {
            return Ok(number > 1 && run.ended.status == case.status);
        }
    }
    Ok(false)
}

fn all_stop(alloc: Global) -> Result<bool, NoMemory> {
    for case in &CASES {
        if !stops_at_each_write(alloc, case)? {
            return Ok(false);
        }
    }
    Ok(true)
}

#[test]
fn a_write_that_fails_leaves_a_prefix(rt: HostRuntime) -> Result<(), Fail> {
    assert!(rt; all_stop(rt.alloc())?);
    Ok(())
}

#[test]
fn a_read_that_fails_leaves_a_refusal(rt: HostRuntime) -> Result<(), Fail> {
    assert!(rt; stops_at_each_read(rt.alloc(), &CASES[1])?);
    Ok(())
}

#[test]
fn a_refusal_that_is_cut_off_is_a_prefix(rt: HostRuntime) -> Result<(), Fail> {
    assert!(rt; stops_at_each_write_of_a_refusal(rt.alloc(), &CASES[0])?);
    Ok(())
}
