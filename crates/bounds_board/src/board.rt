// The table of the board, with what is asked of it again and again.
ghost use Rattle.std.specs.Prelude.{◌≡◌, ◌<◌, ◌^◌, length, map};
ghost use Rattle.anytime_core.specs.Bits.{words_for, all_words};

use crate::view::{About, BoardRule, View};
use atomic_table::Table;
use ground_program::{Atoms, Mode};
use std::alloc::Global;

/// A table of words that any number of threads share by reference.
#[derive(Drop)]
pub struct Board {
    pub(crate) table: Table<(), View, About, BoardRule, Global>,
    pub(crate) candidates: u32,
    /// How many in-words there are, and as many out-words.
    pub(crate) side: usize,
    pub(crate) mode: Mode,
    /// The atom of each candidate.
    pub(crate) atoms: Atoms,
    ghost counts: { table.shared.table_id.words
        ≡ all_words (length table.shared.key.normal.value.names) },
    ghost all: { candidates ≡ length table.shared.key.normal.value.names },
    ghost few: { candidates < 2 ^ 31 },
    ghost halves: { side ≡ words_for (length table.shared.key.normal.value.names) },
    ghost same_mode: { mode ≡ table.shared.key.mode },
    ghost same_atoms: { atoms
        ≡ map (λ named. named.atom) table.shared.key.normal.value.names },
}
