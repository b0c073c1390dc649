// Which proper subsets keep the rules of a reduct, by the definition. A set of atoms is also a
// number with a bit for each, from atom 1 on.
ghost use Rattle.std.specs.Prelude.{◌<◌, IsTrue};
ghost use Rattle.ground_program.specs.Meaning.{KeepsAll};

use ground_program::{Atoms, Program, Set, holds_in};
use item_list::NoMemory;
use std::alloc::Global;
use trial_inputs::set_of;

/// Whether a set keeps all rules of the reduct by another.
pub fn keeps_all(program: &Program, by: &Set, set: &Set) -> bool
    ensures { IsTrue result → KeepsAll by.now set.now program.now.rules }
{
    let rules = program.rules.as_slice();
    for rule in rules {
        if !holds_in(rule, by, set) {
            return false;
        }
    }
    true
}

/// The bits of all proper subsets that keep the rules of the reduct by a set, in ascending order.
pub fn smaller_parts(
    alloc: Global,
    program: &Program,
    set: &Set,
    bits: u32,
) -> Result<Atoms, NoMemory>
    requires { program.now.atoms < 16 }
{
    let mut parts = Atoms::open();
    for part in 0..bits {
        if part & !bits == 0 {
            put_part(alloc, program, set, part, &mut parts)?;
        }
    }
    Ok(parts)
}

/// Puts the bits of a part last, where it keeps the rules.
fn put_part(
    alloc: Global,
    program: &Program,
    set: &Set,
    bits: u32,
    parts: &mut Atoms,
) -> Result<(), NoMemory>
    requires { program.now.atoms < 16 }
{
    let part = set_of(alloc, program.atoms, bits)?;
    if keeps_all(program, set, &part) {
        parts.push(alloc, bits)?;
    }
    Ok(())
}

/// The bits of a set.
pub fn bits_of(set: &[bool]) -> u32 {
    let mut bits = 0u32;
    for (at, here) in set.iter().enumerate() {
        if *here {
            bits |= 1u32 << (at % 32);
        }
    }
    bits >> 1
}

/// Whether a number is among others.
pub fn has(numbers: &[u32], number: u32) -> bool {
    numbers.iter().any(|other| *other == number)
}
