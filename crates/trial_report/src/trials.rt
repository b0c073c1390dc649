// Texts of reports: which are read, and which line is the first that is none.
ghost use Rattle.std.specs.Prelude.{◌<◌, ◌^◌, length, IfOk};
ghost use Rattle.report_reader.specs.Lines.{AreOneLine};

use ground_program::{Name, Named, Names};
use item_list::List;
use report::{Line, Why};
use report_reader::{ReportError, read_report};
use std::alloc::{AllocError, Global};
use std::process::Abort;
use std::test::Fail;

// Two candidates: a, and one whose name has a blank.
fn two_names(alloc: Global) -> Result<Names, AllocError>
    ensures { IfOk result AreOneLine }
{
    let first = Name::from_slice(alloc, b"a")?;
    let second = Name::from_slice(alloc, b"x y")?;
    let mut names = List::open();
    names.push(
        alloc,
        Named {
            atom: 2,
            name: first,
        },
    )?;
    names.push(
        alloc,
        Named {
            atom: 3,
            name: second,
        },
    )?;
    Ok(names)
}

// How many lines were read with three atoms, or the number of the first line that is none.
#[derive(Clone, Copy, Debug, PartialEq, Eq)]
enum Outcome {
    Lines(usize),
    NotALine(u32),
}

fn outcome_of(alloc: Global, names: &Names, text: &[u8]) -> Result<Outcome, AllocError>
    requires short { length text.now < 2 ^ 32 }
    requires one_line { AreOneLine names.now }
{
    match read_report(alloc, text, 3, names) {
        Ok(lines) => Ok(Outcome::Lines(lines.len())),
        Err(ReportError::NotALine(line)) => Ok(Outcome::NotALine(line)),
        Err(ReportError::NoMemory) => Err(AllocError),
    }
}

static READ: [(&str, usize); 18] = [
    ("", 0),
    ("ANSWER 1 2\nIN 1 0 a\nPAIR 1 1\nCOMPLETE\n", 4),
    ("ANSWER 1\n", 1),
    ("ANSWER 4294967295 1 2 3\n", 1),
    ("IN 2 7 x y\n", 1),
    ("OUT 1 0 a\n", 1),
    ("OUT 2 4294967295 x y\n", 1),
    ("PAIR 0 2\n", 1),
    ("WATCH 1 0 2\n", 1),
    ("OPEN 2 100000 x y\n", 1),
    ("UNKNOWN 100000\n", 1),
    ("COMPLETE\n", 1),
    ("PARTIAL\n", 1),
    ("INCOHERENT\n", 1),
    ("NOMEMORY\n", 1),
    ("REFUSED 3 AtomZero 0\n", 1),
    ("REFUSED 0 Words 18446744073709551615\n", 1),
    ("COMPLETE\nCOMPLETE\nPAIR 1 0\n", 3),
];

static REFUSED: [(&str, u32); 36] = [
    ("PAIR 1 1\nPAIR 01 1\n", 2),
    ("PAIR 00 1\n", 1),
    ("PAIR +1 1\n", 1),
    ("PAIR 1  1\n", 1),
    ("PAIR 1 1 \n", 1),
    ("PAIR 1 1\r\n", 1),
    ("PAIR 1\n", 1),
    ("PAIR 1 1 1\n", 1),
    ("PAIR\n", 1),
    ("PAIR 4294967296 1\n", 1),
    (" PAIR 1 1\n", 1),
    ("PAIR\t1 1\n", 1),
    ("pair 1 1\n", 1),
    ("PAIRS 1 1\n", 1),
    ("\n", 1),
    ("COMPLETE\n\n", 2),
    ("COMPLETE", 1),
    ("COMPLETE \n", 1),
    ("COMPLETE\nPARTIAL", 2),
    ("IN 1 0 x y\n", 1),
    ("IN 2 0 x\n", 1),
    ("IN 2 0 x y \n", 1),
    ("IN 0 0 a\n", 1),
    ("IN 3 0 a\n", 1),
    ("IN 1 0\n", 1),
    ("IN 1 0 a\nOUT 1 0 b\n", 2),
    ("ANSWER\n", 1),
    ("ANSWER 1 0\n", 1),
    ("ANSWER 1 4\n", 1),
    ("ANSWER 1 3 2\n", 1),
    ("ANSWER 1 2 2\n", 1),
    ("ANSWER 1 2 \n", 1),
    ("REFUSED 1 Nothing 0\n", 1),
    ("REFUSED 1 Words 18446744073709551616\n", 1),
    ("REFUSED 4294967296 Words 0\n", 1),
    ("REFUSED 1 Words\n", 1),
];

#[test]
fn reports_are_read(rt: HostRuntime) -> Result<(), Fail> {
    let alloc = rt.alloc();
    let names = two_names(alloc)?;
    for (text, lines) in &READ {
        let text = text.as_bytes();
        assert!(rt; text.len() < 1000);
        assert_eq!(rt; outcome_of(alloc, &names, text)?, Outcome::Lines(*lines));
    }
    Ok(())
}

#[test]
fn the_first_line_that_is_none_is_told(rt: HostRuntime) -> Result<(), Fail> {
    let alloc = rt.alloc();
    let names = two_names(alloc)?;
    for (text, line) in &REFUSED {
        let text = text.as_bytes();
        assert!(rt; text.len() < 1000);
        assert_eq!(rt; outcome_of(alloc, &names, text)?, Outcome::NotALine(*line));
    }
    Ok(())
}

#[test]
fn the_fields_of_a_line_are_read(rt: HostRuntime) -> Result<(), Fail> {
    let alloc = rt.alloc();
    let names = two_names(alloc)?;
    let text = b"ANSWER 5 1 3\nOUT 2 5 x y\nREFUSED 7 TooLong 67108864\n";
    let lines = match read_report(alloc, text, 3, &names) {
        Ok(lines) => lines,
        Err(_) => return Err(AllocError.into()),
    };
    let right = match lines.as_slice() {
        [
            Line::Answer { number: 5, set },
            Line::SettledOut { cand: 2, by: 5 },
            Line::Refused {
                line: 7,
                why: Why::TooLong,
                value: 67_108_864,
            },
        ] => set.as_slice() == [false, true, false, true].as_slice(),
        _ => false,
    };
    assert!(rt; right);
    Ok(())
}
