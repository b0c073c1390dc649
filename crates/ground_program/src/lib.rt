//! Ground programs and their meaning: rules, atom sets, answer sets, consequences and bounds.
#![tactic(auto)]

mod body;
mod heads;
mod laws;
mod meaning;
mod pair;
mod program;
mod validity;

pub use body::Body;
pub use heads::Heads;
pub use laws::{
    answer_sets_are_least, opening_pair_encloses, some_rule_fails, within_is_reflexive,
    within_is_transitive,
};
pub use meaning::{has_atom, holds_in, is_model, meets_compute};
pub use pair::Pair;
pub use program::{
    AtomLit, Atoms, Bits, Broken, Kind, Mode, Name, Named, Names, Pairs, Program, Rule, Rules, Set,
    Sets, Weighted,
};
pub use validity::{greatest_atom, is_valid};
