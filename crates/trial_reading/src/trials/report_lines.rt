// The text of each form of line.
ghost use Rattle.std.specs.Prelude.{◌≡◌, length, IfOk};
ghost use Rattle.report.specs.Text.{NamesCandidate};

use byte_edges::MemorySink;
use ground_program::{Named, Names, Set};
use item_list::{List, NoMemory};
use report::{Line, Why, write_line};
use std::alloc::Global;
use std::process::Abort;
use std::test::Fail;

// Two candidates: a, and one whose name has a blank.
fn two_names(alloc: Global) -> Result<Names, NoMemory>
    ensures { IfOk result (λ names. length names ≡ 2) }
{
    let mut first = List::open();
    first.push(alloc, b'a')?;
    let mut second = List::open();
    second.push(alloc, b'x')?;
    second.push(alloc, b' ')?;
    second.push(alloc, b'y')?;
    let mut names = List::open();
    names.push(
        alloc,
        Named {
            atom: 2,
            name: first,
        },
    )?;
    names.push(
        alloc,
        Named {
            atom: 3,
            name: second,
        },
    )?;
    Ok(names)
}

fn set_of(alloc: Global, values: &[bool]) -> Result<Set, NoMemory> {
    let mut set = List::open();
    for value in values {
        set.push(alloc, *value)?;
    }
    Ok(set)
}

// The line has this text, and a sink that fails at any of its writes has a prefix of it.
fn expect(
    rt: &impl Abort,
    alloc: Global,
    names: &Names,
    line: &Line,
    want: &str,
) -> Result<(), Fail>
    requires { NamesCandidate names.now line.now }
{
    for fails in 1..=want.len() as u64 + 1 {
        let mut sink = MemorySink::open(alloc, 64, 1, [fails].to_vec(alloc)?)?;
        let got = write_line(line, names, &mut sink);
        assert_eq!(rt; got.is_ok(), fails > want.len() as u64, "{want} at {fails}");
        assert!(rt;
            want.as_bytes().starts_with(sink.written()),
            "{want} at {fails}"
        );
        assert_eq!(rt; sink.written().len() as u64, fails - 1, "{want}");
    }
    Ok(())
}

#[test]
fn each_line_has_its_text(rt: HostRuntime) -> Result<(), Fail> {
    let alloc = rt.alloc();
    let names = two_names(alloc)?;
    let none = set_of(alloc, &[false])?;
    let set = set_of(alloc, &[false, false, true, false, true])?;
    expect(
        &rt,
        alloc,
        &names,
        &Line::Answer { number: 1, set },
        "ANSWER 1 2 4\n",
    )?;
    expect(
        &rt,
        alloc,
        &names,
        &Line::Answer {
            number: 2,
            set: none,
        },
        "ANSWER 2\n",
    )?;
    expect(
        &rt,
        alloc,
        &names,
        &Line::SettledIn { cand: 1, by: 0 },
        "IN 1 0 a\n",
    )?;
    expect(
        &rt,
        alloc,
        &names,
        &Line::SettledOut { cand: 2, by: 10 },
        "OUT 2 10 x y\n",
    )?;
    expect(
        &rt,
        alloc,
        &names,
        &Line::Sizes { lower: 0, upper: 2 },
        "PAIR 0 2\n",
    )?;
    let watch = Line::Watch {
        watcher: 1,
        lower: 0,
        upper: 3,
    };
    expect(&rt, alloc, &names, &watch, "WATCH 1 0 3\n")?;
    expect(
        &rt,
        alloc,
        &names,
        &Line::Unsettled { cand: 2, units: 7 },
        "OPEN 2 7 x y\n",
    )?;
    expect(
        &rt,
        alloc,
        &names,
        &Line::Unknown { units: 1 },
        "UNKNOWN 1\n",
    )?;
    Ok(())
}

#[test]
fn each_run_ends_in_its_words(rt: HostRuntime) -> Result<(), Fail> {
    let alloc = rt.alloc();
    let names = List::open();
    expect(&rt, alloc, &names, &Line::Complete, "COMPLETE\n")?;
    expect(&rt, alloc, &names, &Line::Partial, "PARTIAL\n")?;
    expect(&rt, alloc, &names, &Line::Incoherent, "INCOHERENT\n")?;
    expect(&rt, alloc, &names, &Line::NoMemory, "NOMEMORY\n")?;
    let refusals: [(u32, Why, u64, &str); 15] = [
        (1, Why::NotANumber, 120, "REFUSED 1 NotANumber 120\n"),
        (1, Why::UnknownKind, 4, "REFUSED 1 UnknownKind 4\n"),
        (1, Why::MinimizeRule, 6, "REFUSED 1 MinimizeRule 6\n"),
        (1, Why::AtomZero, 0, "REFUSED 1 AtomZero 0\n"),
        (
            1,
            Why::NumberTooLarge,
            2_147_483_648,
            "REFUSED 1 NumberTooLarge 2147483648\n",
        ),
        (1, Why::NegativeCount, 2, "REFUSED 1 NegativeCount 2\n"),
        (3, Why::MissingMark, 1, "REFUSED 3 MissingMark 1\n"),
        (
            7,
            Why::ExternalSection,
            69,
            "REFUSED 7 ExternalSection 69\n",
        ),
        (3, Why::NameMissing, 2, "REFUSED 3 NameMissing 2\n"),
        (1, Why::EndOfInput, 9, "REFUSED 1 EndOfInput 9\n"),
        (8, Why::TrailingText, 120, "REFUSED 8 TrailingText 120\n"),
        (0, Why::TooLong, 67_108_864, "REFUSED 0 TooLong 67108864\n"),
        (0, Why::ReadFault, 0, "REFUSED 0 ReadFault 0\n"),
        (
            0,
            Why::TooManyVariables,
            1_048_576,
            "REFUSED 0 TooManyVariables 1048576\n",
        ),
        (0, Why::Words, 0, "REFUSED 0 Words 0\n"),
    ];
    for (line, why, value, want) in refusals {
        expect(
            &rt,
            alloc,
            &names,
            &Line::Refused { line, why, value },
            want,
        )?;
    }
    Ok(())
}
