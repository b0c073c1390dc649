// Small programs by their texts, and their normal forms.
use ground_program::Kind;
use item_list::{Copied, NoMemory};
use normal_program::{Normal, NormalRule};
use rule_normaliser::{NormalError, normalise};
use std::alloc::Global;
use std::test::Fail;
use trial_inputs::{normal_of, program_of};

/// A rule of a normal form: kind, heads, and the number of its body.
type Line = (Kind, &'static [u32], u32);

/// The text of a program over 3 atoms, of which the last has a name, 2 must be true, and 1 must
/// not. Of its normal form the bodies, each as its bound, how many parts it has, and of each part
/// the atom, 1 where negated, and the weight; and the rules.
struct Case {
    text: &'static [u8],
    bodies: &'static [u64],
    rules: &'static [Line],
}

static CASES: [Case; 4] = [
    // A literal twice, and an empty body.
    Case {
        text: b"2 2 2 0 2 3 3\n1 3 0 0\n0\n3 a\n0\nB+\n2\n0\nB-\n1\n0\n1\n",
        bodies: &[2, 1, 3, 0, 2, 0, 0],
        rules: &[(Kind::Constraint, &[2], 0), (Kind::Basic, &[3], 1)],
    },
    // A literal and its negation are two literals.
    Case {
        text: b"2 2 2 1 1 3 3\n0\n3 a\n0\nB+\n2\n0\nB-\n1\n0\n1\n",
        bodies: &[1, 2, 3, 1, 1, 3, 0, 1],
        rules: &[(Kind::Constraint, &[2], 0)],
    },
    // One body in two orders, and the same literals with another bound.
    Case {
        text: b"1 1 2 0 3 2\n2 1 2 0 1 2 3\n3 2 3 1 2 0 2 3\n0\n3 a\n0\nB+\n2\n0\nB-\n1\n0\n1\n",
        bodies: &[2, 2, 2, 0, 1, 3, 0, 1, 1, 2, 2, 0, 1, 3, 0, 1],
        rules: &[
            (Kind::Basic, &[1], 0),
            (Kind::Constraint, &[1], 1),
            (Kind::Choice, &[3, 1], 0),
        ],
    },
    // Great weights add up.
    Case {
        text: b"5 3 5 3 2 3 3 2 2147483647 2147483647 0\n0\n3 a\n0\nB+\n2\n0\nB-\n1\n0\n1\n",
        bodies: &[5, 2, 2, 0, 0, 3, 1, 4294967294],
        rules: &[(Kind::Weight, &[3], 0)],
    },
];

/// Whether the normal form of a case, copied, is as it says.
fn is_shown(alloc: Global, case: &Case) -> Result<bool, NoMemory> {
    let Some(made) = normal_of(alloc, case.text) else {
        return Ok(false);
    };
    let normal = made.copied(alloc)?;
    let bodies = body_numbers(alloc, &normal)?;
    let same = bodies.as_slice() == case.bodies;
    Ok(same && has_rules(normal.rules.as_slice(), case.rules) && has_the_rest(&normal))
}

/// The bodies by their numbers.
fn body_numbers(alloc: Global, normal: &Normal) -> Result<Vec<u64>, NoMemory> {
    let mut numbers = Vec::new(alloc);
    for body in normal.bodies.as_slice() {
        numbers.push(u64::from(body.bound))?;
        numbers.push(body.parts.len() as u64)?;
        for part in body.parts.as_slice() {
            numbers.push(u64::from(part.lit.atom))?;
            numbers.push(u64::from(part.lit.negated))?;
            numbers.push(part.weight)?;
        }
    }
    Ok(numbers)
}

/// Whether these are the rules.
fn has_rules(rules: &[NormalRule], lines: &[Line]) -> bool {
    rules.len() == lines.len()
        && rules.iter().zip(lines).all(|(rule, line)| {
            rule.kind == line.0 && rule.heads.as_slice() == line.1 && rule.body == line.2
        })
}

/// Whether the greatest atom, the name and the compute statement are those of each program here.
fn has_the_rest(normal: &Normal) -> bool {
    let named = match normal.names.as_slice() {
        [only] => only.atom == 3 && only.name.as_slice() == b"a".as_slice(),
        _ => false,
    };
    named
        && normal.atoms == 3
        && normal.must.as_slice() == [2].as_slice()
        && normal.must_not.as_slice() == [1].as_slice()
}

#[test]
fn bodies_are_merged_and_numbered(rt: HostRuntime) -> Result<(), Fail> {
    for (number, case) in CASES.iter().enumerate() {
        assert!(rt; is_shown(rt.alloc(), case)?, "{number}");
    }
    Ok(())
}

// A name for the greatest atom makes so many variables: the atoms, a candidate, and one more.
static AT_THE_LIMIT: &[u8] = b"0\n1048573 a\n0\nB+\n0\nB-\n1\n0\n1\n";

static OVER_THE_LIMIT: &[u8] = b"0\n1048574 a\n0\nB+\n0\nB-\n1\n0\n1\n";

/// For how many variables the program of a text is refused.
fn refused_for(alloc: Global, text: &[u8]) -> Option<u64> {
    let program = program_of(alloc, text)?;
    match normalise(alloc, &program) {
        Err(NormalError::TooManyVariables(count)) => Some(count),
        Ok(_) | Err(NormalError::NoMemory) => None,
    }
}

#[test]
fn the_limit_on_variables_is_exact(rt: HostRuntime) -> Result<(), Fail> {
    let taken = normal_of(rt.alloc(), AT_THE_LIMIT).is_some();
    assert!(rt; taken && refused_for(rt.alloc(), OVER_THE_LIMIT) == Some(1_048_576));
    Ok(())
}

/// Takes only what threads may share and hand on.
fn crosses<T: Send + Sync>(_: &T) {}

#[test]
fn threads_may_share_a_normal_form_and_hand_it_on(rt: HostRuntime) -> Result<(), Fail> {
    if let Some(normal) = normal_of(rt.alloc(), CASES[0].text) {
        crosses(&normal);
    }
    Ok(())
}
