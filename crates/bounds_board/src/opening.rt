// Opens a board.
ghost use Rattle.std.specs.Prelude.{◌≡◌, length, map, IfOk};
ghost use Rattle.normal_program.specs.Limit.{IsNormal};
ghost use Rattle.bounds_board.specs.Board.{IsBoardOf, IsFirstSeat, normal_of};

use crate::board::Board;
use crate::seat::BoardSeat;
use crate::view::About;
use anytime_core::{row_length, words_over, zeros};
use atomic_table::Table;
use ground_program::{Atoms, Mode, Names};
use item_list::{List, NoMemory};
use normal_program::Normal;
use std::alloc::Global;
use std::snapshot::Snapshot;

impl Board {
    /// A board on which nothing is reported, and its first seat.
    pub fn open(alloc: Global, normal: &Normal, mode: Mode) -> Result<(Board, BoardSeat), NoMemory>
        requires { IsNormal normal.now }
        ensures board { IfOk result (λ made. IsBoardOf normal.now mode made.0) }
        ensures seat { IfOk result (λ made. IsFirstSeat made.0 made.1) }
    {
        let candidates = normal.names.len() as u32;
        let atoms = atoms_of(alloc, &normal.names)?;
        let words = zeros(alloc, row_length(candidates))?;
        let about = About {
            normal: Snapshot::of(normal),
            mode,
        };
        let (table, seat) = Table::of_words(alloc, words.as_slice(), &about)?;
        let board = Board {
            table,
            candidates,
            side: words_over(candidates),
            mode,
            atoms,
        };
        Ok((board, BoardSeat { seat }))
    }

    /// The number of candidates.
    pub fn candidates(&self) -> u32
        ensures { result ≡ length (normal_of self.now).names }
    {
        self.candidates
    }
}

/// The atom of each candidate.
fn atoms_of(alloc: Global, names: &Names) -> Result<Atoms, NoMemory>
    ensures { IfOk result (λ atoms. atoms ≡ map (λ named. named.atom) names.now) }
{
    let mut atoms = List::open();
    for named in names.as_slice() {
        atoms.push(alloc, named.atom)?;
    }
    Ok(atoms)
}
