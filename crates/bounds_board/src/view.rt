// What a seat knows, and the rule of the table. Word 0 has the flags: bit 0 says that there is an
// answer set, bit 1 that there is none. Then come the in-words and as many out-words, with a bit
// for each candidate: that of candidate c is bit (c - 1) % 64 of the word (c - 1) / 64 of its side.
use anytime_core::Actor;
use atomic_table::TableRule;
use ground_program::Mode;
use normal_program::Normal;
use std::snapshot::Snapshot;

/// What a board is about.
#[derive(Drop)]
pub struct About {
    /// The normal form whose candidates they are.
    pub normal: Snapshot<Normal>,
    /// Which consequences are asked for.
    pub mode: Mode,
}

/// What a seat knows. It stands in contracts alone: no value of it is made.
pub struct View {
    /// False once the seat was joined to another.
    pub live: bool,
    /// The normal form.
    pub normal: Normal,
    /// Which consequences are asked for.
    pub mode: Mode,
    /// The words that the seat has seen, and its steps. In its events the seat is actor 0, and the
    /// seat that it tells or learns from is actor 1.
    pub actor: Actor,
}

/// The rule of the board.
pub struct BoardRule;

impl TableRule<(), View, About> for BoardRule {
    ghost use Rattle.bounds_board.specs.Rule.{KeepsBoard, first_view};

    ghost holds = { KeepsBoard };

    ghost first = { first_view };
}
