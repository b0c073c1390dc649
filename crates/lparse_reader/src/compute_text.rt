// The atoms of a compute statement.
ghost use Rattle.lparse_reader.specs.Fields.{ReadsAs, atom_or_end_at};
ghost use Rattle.lparse_reader.specs.Reading.{all_at};

use crate::fault::{Fault, Stop};
use crate::token_text::read_number;
use ground_program::Atoms;
use item_list::List;
use std::alloc::Global;

/// All atoms up to a 0.
pub fn read_atoms_to_end(alloc: Global, bytes: &[u8]) -> Result<(Atoms, &[u8]), Stop>
    ensures { ReadsAs (λ x. (x.0, x.1.now)) result (all_at atom_or_end_at bytes.now) }
{
    let mut atoms = List::open();
    let mut rest = bytes;
    // Each atom takes a byte at least, and so does the end.
    for _ in 0..bytes.len() {
        let (atom, after) = read_atom_or_end(rest)?;
        rest = after;
        match atom {
            None => return Ok((atoms, rest)),
            Some(atom) => atoms.push(alloc, atom)?,
        }
    }
    Err(Stop::Fault(Fault::Ended))
}

/// An atom, or nothing at a 0.
#[tactic(auto, unfolding(crate::specs::Fields::atom_or_end_at))]
fn read_atom_or_end(bytes: &[u8]) -> Result<(Option<u32>, &[u8]), Stop>
    ensures { ReadsAs (λ x. (x.0, x.1.now)) result (atom_or_end_at bytes.now) }
{
    let (atom, rest) = read_number(bytes)?;
    if atom == 0 {
        return Ok((None, rest));
    }
    Ok((Some(atom), rest))
}
